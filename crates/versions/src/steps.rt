//! The rule of the list's book, and the kinds of step that its word makes (`specs/ArcList`).
use crate::link::ArcLink;
use logbook::{Gain, Pen, Plain, Play, Rule};

/// What holds of the word and the list between any two steps.
pub struct ListRule;

impl Rule<ArcLink, u64> for ListRule {
    ghost use Rattle.std.specs.Prelude.{[]};
    ghost use base.Fml.{ftrue};
    ghost use Rattle.versions.specs.ArcList.{IsList};

    ghost holds = { λ cells links. IsList cells links };

    ghost first = { [] };

    ghost hinted = { λ n links. Unit {0} };

    ghost shows = { λ links. [] };

    ghost keeps = { λ names links. ftrue };

    ghost moves = { λ ask before after answer. Unit {0} };
}

/// A step trades nothing with its caller.
pub struct Nothing;

impl Gain<ArcLink, u64> for Nothing {
    ghost use base.Fml.{ftrue};

    ghost after = { λ names about answer. ftrue };
}

/// A read of the word.
pub struct Look;

impl Play<ArcLink, u64> for Look {
    ghost use Rattle.versions.specs.ArcList.{Looks};

    ghost then = { Looks };
}

impl Plain<ArcLink, ArcLink, u64> for Look {
    ghost use Rattle.std.specs.Prelude.{None};

    ghost ask = { λ link. link };

    ghost state = { λ link. None };
}

/// The opening of an empty list.
pub struct Begin;

impl Play<ArcLink, u64> for Begin {
    ghost use Rattle.versions.specs.ArcList.{OpensList};

    ghost then = { OpensList };
}

/// A new cell.
pub struct Widen;

impl Play<ArcLink, u64> for Widen {
    ghost use Rattle.versions.specs.ArcList.{Widens};

    ghost then = { Widens };
}

/// The writer's read of a list that it knows whole.
pub struct Confirm;

impl Play<ArcLink, u64> for Confirm {
    ghost use Rattle.versions.specs.ArcList.{Confirms};

    ghost then = { Confirms };
}

/// An arc, and the pen of the cell that its link names.
pub struct NextLink {
    pub arc: u32,
    pub pen: Pen,
}

/// One link more.
pub struct Write;

impl Play<ArcLink, u64> for Write {
    ghost use Rattle.versions.specs.ArcList.{AddsLink};

    ghost then = { AddsLink };
}

impl Plain<NextLink, ArcLink, u64> for Write {
    ghost use Rattle.std.specs.Prelude.{None};
    ghost use Rattle.versions.specs.ArcList.{link};

    ghost ask = { λ next. link next.arc next.pen.nib.key };

    ghost state = { λ next. None };
}

//! Which list of arcs and which instance: a type without bytes names them, so no call compares anything.
use std::marker::Brand;

/// Names the book of a list of merger arcs, and the instance at whose opening tree the versions begin. A caller that has
/// both picks them, as its `ghosts-F`.
pub trait ListId {
    ghost use Rattle.logbook.specs.Pages.{Book};
    ghost use Rattle.pit_model.specs.Mine.{Instance};

    ghost book: { Book };

    ghost mine: { Instance };
}

impl ListId for Brand {
    ghost use Rattle.versions.specs.ListIds.{no_book, no_mine};

    ghost book = { no_book };

    ghost mine = { no_mine };
}

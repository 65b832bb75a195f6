//! The rule of the counter, and what a seat learns from its one kind of step. The rule is defined in `specs/Drawn.antt`;
//! `proofs/Drawing.antt` shows that each step keeps it.
use crate::draw_ledger::{Batch, DrawLedger};
use atomic_table::{Join, Play, Split, TableRule};

/// The rule of a counter: over all seats, the numbers below it stand each once.
pub struct Counts;

impl TableRule<(), DrawLedger, Batch> for Counts {
    ghost use Rattle.proposals.specs.Drawn.{Given, whole};

    ghost holds = { Given };

    ghost first = { whole };
}

pub(crate) struct Draw;

impl Play<(), DrawLedger> for Draw {
    ghost use Rattle.proposals.specs.Drawn.{Drew};

    ghost then = { Drew };
}

/// A seat that stands for none comes in, to gather the others.
pub(crate) struct JoinCounter;

impl Play<(), DrawLedger> for JoinCounter {
    ghost use Rattle.proposals.specs.Drawn.{sat};

    ghost then = { sat };
}

/// The first seat gives one seat away.
pub(crate) struct SplitDrawSeat;

impl Split<DrawLedger> for SplitDrawSeat {
    ghost use Rattle.proposals.specs.Drawn.{cut, one_seat};

    ghost left = { cut };

    ghost right = { one_seat };
}

pub(crate) struct JoinDrawSeats;

impl Join<DrawLedger> for JoinDrawSeats {
    ghost use Rattle.proposals.specs.Drawn.{gathered, empty_draws};

    ghost both = { gathered };

    ghost spent = { empty_draws };
}

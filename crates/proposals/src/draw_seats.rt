//! The seats at a counter of chunks, and the name under which a counter and its seats belong together.
//! `draws` has their calls.
use crate::draw_ledger::DrawLedger;
use atomic_table::Seat;
use std::marker::{Brand, Model, PhantomData};

/// Names one counter. A caller that has unnamed draws picks it, as its `ghosts-F-L-CounterId`.
pub trait CounterId {
    ghost use Rattle.atomic_table.specs.Seated.{TableId};

    ghost draws: { TableId };
}

impl CounterId for Brand {
    ghost use Rattle.proposals.specs.BoardIds.{no_table};

    ghost draws = { no_table };
}

/// A seat at a counter. To a contract it is the number of chunks, and the numbers that the counter gave to it, in order.
#[derive(Drop)]
pub struct DrawSeat<L: CounterId> {
    pub(crate) chunks: u32,
    pub(crate) ended: bool,
    pub(crate) seat: Seat<(), DrawLedger>,
    pub(crate) id: PhantomData<L>,
}

impl<L: CounterId> Model for DrawSeat<L> {
    ghost use Rattle.proposals.specs.declared.draw_ledger.DrawLedger.{DrawLedger};

    ghost Value = { DrawLedger };

    ghost use Rattle.proposals.specs.DrawSeats.{IsDrawer};

    ghost view = { λ s. s.seat.me.0 };

    ghost invariant = { λ s. IsDrawer L.draws s.chunks s.ended s.seat };
}

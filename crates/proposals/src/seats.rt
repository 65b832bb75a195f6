//! The seats at a board: one for each worker, and the holder's.
//! A seat has no lifetime and may move to another thread; `ask` and `serve` have its calls.
use crate::board_id::BoardId;
use crate::seat_state::SeatState;
use atomic_table::Seat;
use std::marker::{Model, PhantomData};

/// A worker's seat. To a contract it is its cell, the arcs that it asked and the replies that it collected.
#[derive(Drop)]
pub struct WorkerSeat<B: BoardId> {
    pub(crate) cell: u32,
    pub(crate) ask: Option<u32>,
    pub(crate) seat: Seat<(), SeatState>,
    pub(crate) id: PhantomData<B>,
}

impl<B: BoardId> Model for WorkerSeat<B> {
    ghost use Rattle.proposals.specs.declared.seat_state.WorkerLedger.{WorkerLedger};

    ghost Value = { WorkerLedger };

    ghost use Rattle.proposals.specs.Seats.{worker_ledger_in, IsWorker};

    ghost view = { λ s. worker_ledger_in s.seat };

    ghost invariant = { λ s. IsWorker B.board s.cell s.ask s.seat };
}

/// The holder's seat. To a contract it is, for each worker, what was answered to it and what is claimed from it, and the cells in
/// which the holder looked for an ask, in order. It keeps the arc that it claimed last from each worker.
#[derive(Drop)]
pub struct HolderSeat<B: BoardId> {
    pub(crate) claimed: Vec<u32>,
    pub(crate) seat: Seat<(), SeatState>,
    pub(crate) id: PhantomData<B>,
}

impl<B: BoardId> Model for HolderSeat<B> {
    ghost use Rattle.proposals.specs.Ledger.{HolderView, holder_view};

    ghost Value = { HolderView };

    ghost use Rattle.proposals.specs.Seats.{holder_ledger_in, IsHolding};

    ghost view = { λ s. holder_view (holder_ledger_in s.seat) };

    ghost invariant = { λ s. IsHolding B.board s.claimed.items s.seat };
}

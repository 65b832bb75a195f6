//! The meeting of a worker's seat and the holder's: one load of the worker's word by the two seats as one.
//! The holder's seat goes into the worker's and comes out again; no word changes and nothing is collected.
ghost use Rattle.std.specs.Prelude.{◌≡◌, slice_index_or};
ghost use Rattle.proposals.specs.Ledger.{nothing_served, Meets};

use crate::board::Board;
use crate::board_id::BoardId;
use crate::seats::{HolderSeat, WorkerSeat};
use crate::steps::{Agree, JoinBoard, JoinSeats};
use std::mem;

impl<B: BoardId> Board<B> {
    /// Synchronises two seats. What each knows stays unchanged, and the two then agree: the answered arcs are the asked ones, or
    /// those without a last one that is unanswered. The collected replies are the answered ones, or those without a last one that
    /// is still open.
    pub fn settle(&self, worker: &mut WorkerSeat<B>, holder: &mut HolderSeat<B>)
        ensures same { (worker.new ≡ worker.old) × (holder.new ≡ holder.old) }
        ensures meets { Meets worker.old (slice_index_or holder.old.served worker.old.cell nothing_served) }
    {
        let shared = &self.cells.shared;
        let cell = worker.cell as usize;
        let idle = shared.load_new_seat::<JoinBoard>(0).1;
        let theirs = mem::replace(&mut holder.seat, idle);
        shared.join_seat::<JoinSeats>(&mut worker.seat, theirs);
        shared.load::<Agree>(&mut worker.seat, cell);
        holder.seat = shared.split_seat::<JoinSeats>(&mut worker.seat);
    }
}

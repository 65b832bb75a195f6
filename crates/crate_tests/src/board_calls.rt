//! A worker's ask, and what the holder does with it, in one call.
ghost use Rattle.std.specs.Prelude.{◌≡◌, ◌<◌, ◌≤◌, length};

use proposals::{Board, BoardId, HolderSeat, Verdict, WorkerSeat};

/// Asks for an arc of a board of known size, and returns whether it was asked for.
pub fn ask_for<B: BoardId>(board: &Board<B>, seat: &mut WorkerSeat<B>, arc: u32) -> bool {
    arc < board.arcs() && board.ask(seat, arc)
}

/// Claims the ask of a worker and answers it; its arc, if one stands there.
pub fn answer_one<B: BoardId>(
    board: &Board<B>,
    holder: &mut HolderSeat<B>,
    worker: u32,
    verdict: Verdict,
) -> Option<u32>
    requires { (0 < worker) × (worker ≤ length holder.old.served) }
    ensures { length holder.new.served ≡ length holder.old.served }
{
    match board.claim_ask(holder, worker) {
        Some(arc) => {
            board.answer(holder, worker, verdict);
            Some(arc)
        }
        None => None,
    }
}

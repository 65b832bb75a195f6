//! Six workers ask for an arc each, and the holder serves the board.
use crate::mine::ARCS;
use crate::trial::{WitnessedTrial, Workplace};
use crate::witness::Witness;
use faults::Fault;
use proposals::{Board, WorkerSeat};
use std::sync::Wait;
use tree_lock::{Holder, LockId, Verdict};

/// One pass over the board answers all asks; where memory was refused to that, all is as after the asks that it answered, and a
/// second pass answers the others.
pub struct Serving;

/// Each worker asks for the arc of its place: whether all did.
fn all_ask<S: LockId>(board: &Board<S>, workers: &mut [WorkerSeat<S>]) -> bool {
    let mut asked = true;
    for (worker, arc) in workers.iter_mut().zip(ARCS.iter()) {
        asked = *arc < board.arcs() && board.ask(worker, *arc) && asked;
    }
    asked
}

/// Each worker collects its reply: whether each is that its arc was merged over.
fn all_applied<S: LockId>(board: &Board<S>, workers: &mut [WorkerSeat<S>]) -> bool {
    let mut applied = true;
    for (worker, arc) in workers.iter_mut().zip(ARCS.iter()) {
        applied = match board.collect(worker) {
            Some(reply) => reply.arc == *arc && reply.verdict == Verdict::Applied && applied,
            None => false,
        };
    }
    applied
}

impl WitnessedTrial for Serving {
    fn at<S: LockId, R: Wait>(
        &self,
        rt: &R,
        place: &mut Workplace<S>,
        holder: &mut Holder<S>,
        witness: &mut Witness<'_, S>,
    ) -> Result<(), Fault> {
        witness.expect("there are six workers", place.workers.len() == ARCS.len());
        witness.expect(
            "each worker asks",
            all_ask(&place.board, &mut place.workers),
        );
        let mut answered = 0;
        let mut served = holder.serve(rt, &place.board);
        if served.is_err() {
            witness.seen.refused = witness.seen.refused.saturating_add(1);
            answered = holder.journal().len();
            witness.compare(holder, answered)?;
            served = holder.serve(rt, &place.board);
        }
        let all = answered + served? as usize == ARCS.len();
        witness.expect("the passes answer each ask once", all);
        witness.expect(
            "each worker collects its reply",
            all_applied(&place.board, &mut place.workers),
        );
        witness.compare(holder, ARCS.len())
    }
}

//! Looks beside the decisions under the lock: what each look shows was worked out by hand.
use crate::board_calls::ask_for;
use crate::failures::{Failed, first_failure, pass_or_name};
use crate::looks::{FIRST, LAST, OPENING, Shown, look_shows, looked_shows};
use crate::mines::FOUR_BLOCKS;
use crate::trial::{Setting, Trial, failure_of};
use faults::Fault;
use proposals::{Board, WorkerSeat};
use std::sync::Wait;
use std::test::Fail;
use tree_lock::{Holder, LockId, LookSeat, SharedTree, Verdict};

/// The verdict that the worker's ask is answered by, after a pass over the board under the lock; None where no ask was served,
/// or another one, or memory was refused.
fn answer<S: LockId, R: Wait>(
    rt: &R,
    board: &Board<S>,
    shared: &SharedTree<S>,
    worker: &mut WorkerSeat<S>,
    arc: u32,
) -> Option<Verdict> {
    let asked = ask_for(board, worker, arc);
    let served = shared.serve(rt, board).ok()?;
    match board.collect(worker) {
        Some(reply) if asked && served == 1 && reply.arc == arc => Some(reply.verdict),
        _ => None,
    }
}

/// One worker asks for an arc, looks, and asks for it again; then for an arc that there is not.
struct AskThenLook;

impl Trial for AskThenLook {
    fn at<S: LockId, R: Wait>(
        &self,
        rt: &R,
        board: &Board<S>,
        workers: &mut [WorkerSeat<S>],
        shared: &mut SharedTree<S>,
    ) -> Result<Failed, Fault> {
        let Some(worker) = workers.first_mut() else {
            return Ok(Some("there is a worker"));
        };
        let seat = shared.look_seat()?;
        let first = answer(rt, board, shared, worker, 0);
        let (mut seat, shown) = looked_shows(shared.look(seat), &FIRST);
        let second = answer(rt, board, shared, worker, 0);
        let past = answer(rt, board, shared, worker, 3);
        let told = shared.tell(rt, &mut seat);
        Ok(first_failure(&[
            ("a merger arc is applied", first == Some(Verdict::Applied)),
            ("a look shows what was answered", shown),
            ("its second ask is stale", second == Some(Verdict::Stale)),
            (
                "an arc that there is not is stale",
                past == Some(Verdict::Stale),
            ),
            ("the seat is told of all", told),
        ]))
    }
}

const ASKED_THRICE: Setting = Setting {
    mine: FOUR_BLOCKS,
    workers: 1,
    budget: None,
    journal: &[
        (1, 0, Verdict::Applied),
        (1, 0, Verdict::Stale),
        (1, 3, Verdict::Stale),
    ],
    merger: Some(2),
};

#[test]
fn a_look_shows_what_was_answered(rt: HostRuntime) -> Result<(), Fail> {
    pass_or_name(failure_of(&rt, rt.alloc(), &ASKED_THRICE, &AskThenLook))
}

/// Applies the arcs in turn and informs the seat. Returns whether each was a merger arc, memory was there, and the seat was
/// informed of all.
fn all_applied<S: LockId, R: Wait>(
    rt: &R,
    holder: &mut Holder<S>,
    arcs: &[u32],
    seat: &mut LookSeat<S>,
) -> bool {
    let mut applied = true;
    for arc in arcs {
        applied = *arc < holder.tree().instance().graph().arcs()
            && matches!(holder.apply(rt, *arc), Ok(Verdict::Applied))
            && applied;
    }
    holder.tell(seat) && applied
}

/// A seat, and whether a look from it shows the opening tree.
fn opened<S: LockId>(shared: &mut SharedTree<S>) -> Result<(LookSeat<S>, bool), Fault> {
    let seat = shared.look_seat()?;
    Ok(look_shows(seat, &OPENING))
}

/// Applies the arcs, informs the seat, and returns whether a read from it then shows this. The seat is returned.
fn sees_after<S: LockId, R: Wait>(
    rt: &R,
    holder: &mut Holder<S>,
    arcs: &[u32],
    mut seat: LookSeat<S>,
    expected: &Shown,
) -> (LookSeat<S>, bool) {
    let applied = all_applied(rt, holder, arcs, &mut seat);
    let (seat, shown) = look_shows(seat, expected);
    (seat, applied && shown)
}

/// Whether no place is left from which to look.
fn is_full<S: LockId>(shared: &SharedTree<S>) -> bool {
    shared.look_seat().is_err()
}

/// Two seats read while the driver makes three mergers. The first is informed of the first merger, the second of all.
struct LooksBesideMergers;

impl Trial for LooksBesideMergers {
    fn at<S: LockId, R: Wait>(
        &self,
        rt: &R,
        _board: &Board<S>,
        _workers: &mut [WorkerSeat<S>],
        shared: &mut SharedTree<S>,
    ) -> Result<Failed, Fault> {
        let (one, began) = opened(shared)?;
        let two = shared.look_seat()?;
        let full = is_full(shared);
        let (one, saw_first) = sees_after(rt, shared.holder(), &[0], one, &FIRST);
        let (_two, saw_last) = sees_after(rt, shared.holder(), &[2, 1], two, &LAST);
        let (_one, saw_no_older) = look_shows(one, &LAST);
        Ok(first_failure(&[
            ("the first look shows the opening tree", began),
            ("there is one place more than workers", full),
            ("the first seat is told of the first merger", saw_first),
            ("the second seat is told of all mergers", saw_last),
            ("the first seat sees them too", saw_no_older),
        ]))
    }
}

const MERGED_THRICE: Setting = Setting {
    mine: FOUR_BLOCKS,
    workers: 1,
    budget: None,
    journal: &[
        (0, 0, Verdict::Applied),
        (0, 2, Verdict::Applied),
        (0, 1, Verdict::Applied),
    ],
    merger: None,
};

#[test]
fn each_look_shows_what_the_seat_was_told_of(rt: HostRuntime) -> Result<(), Fail> {
    pass_or_name(failure_of(&rt, rt.alloc(), &MERGED_THRICE, &LooksBesideMergers))
}

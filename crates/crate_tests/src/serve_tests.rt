//! Workers at a board ask for the arcs of four blocks. What is answered and what stands in the journal was worked out by hand.
use crate::board_calls::ask_for;
use crate::failures::{Failed, first_failure, pass_or_name};
use crate::mines::FOUR_BLOCKS_THAT_PAY;
use crate::trial::{Setting, Trial, failure_of};
use faults::Fault;
use proposals::{Board, WorkerSeat};
use std::alloc::Global;
use std::sync::Wait;
use std::test::Fail;
use tree_lock::{Holder, LockId, SharedTree, Verdict};

/// What three workers ask for at once, and what each is answered.
#[derive(Clone, Copy)]
struct Round {
    arcs: [u32; 3],
    verdicts: [Verdict; 3],
}

/// Each worker asks for its arc: whether each could.
fn all_ask<S: LockId>(board: &Board<S>, seats: &mut [WorkerSeat<S>], round: &Round) -> bool {
    if seats.len() != 3 {
        return false;
    }
    let mut asked = true;
    for i in 0..3 {
        asked = ask_for(board, &mut seats[i], round.arcs[i]) && asked;
    }
    asked
}

/// Each worker collects: whether each was answered so.
fn all_collect<S: LockId>(
    holder: &mut Holder<S>,
    board: &Board<S>,
    seats: &mut [WorkerSeat<S>],
    round: &Round,
) -> bool {
    if seats.len() != 3 {
        return false;
    }
    let mut answered = true;
    for i in 0..3 {
        let reply = board.collect(&mut seats[i]);
        holder.settle(board, &mut seats[i]);
        answered = match reply {
            Some(reply) => {
                reply.arc == round.arcs[i] && reply.verdict == round.verdicts[i] && answered
            }
            None => false,
        };
    }
    answered
}

/// Each worker asks for its arc, the holder serves all of them in one pass, and each collects: what fails of that.
fn failure_in_round<S: LockId, R: Wait>(
    rt: &R,
    holder: &mut Holder<S>,
    board: &Board<S>,
    seats: &mut [WorkerSeat<S>],
    round: &Round,
) -> Result<Failed, Fault> {
    let asked = all_ask(board, seats, round);
    let served = holder.serve(rt, board)?;
    let answered = all_collect(holder, board, seats, round);
    Ok(first_failure(&[
        ("each of three workers asks", asked),
        ("one pass serves all three", served == 3),
        ("each collects its own reply", answered),
    ]))
}

/// The rounds one after the other, and a pass that finds nothing.
#[derive(Clone, Copy)]
struct Rounds {
    rounds: [Round; 2],
}

impl Trial for Rounds {
    fn at<S: LockId, R: Wait>(
        &self,
        rt: &R,
        board: &Board<S>,
        workers: &mut [WorkerSeat<S>],
        shared: &mut SharedTree<S>,
    ) -> Result<Failed, Fault> {
        let holder = shared.holder();
        for round in &self.rounds {
            let failed = failure_in_round(rt, holder, board, workers, round)?;
            if failed.is_some() {
                return Ok(failed);
            }
        }
        let served = holder.serve(rt, board)?;
        Ok(first_failure(&[("a last pass finds no ask", served == 0)]))
    }
}

/// The round in which arc 0 is merged over.
const FIRST: Round = Round {
    arcs: [0, 0, 2],
    verdicts: [Verdict::Applied, Verdict::Stale, Verdict::Stale],
};

/// The round behind it, without a budget.
const SECOND: Round = Round {
    arcs: [1, 2, 2],
    verdicts: [Verdict::Applied, Verdict::Applied, Verdict::Stale],
};

/// The round behind it, under a budget of one merger.
const SPENT: Round = Round {
    arcs: [1, 2, 2],
    verdicts: [Verdict::Spent, Verdict::Stale, Verdict::Stale],
};

const WITHOUT_A_BUDGET: Setting = Setting {
    mine: FOUR_BLOCKS_THAT_PAY,
    workers: 3,
    budget: None,
    journal: &[
        (1, 0, Verdict::Applied),
        (2, 0, Verdict::Stale),
        (3, 2, Verdict::Stale),
        (1, 1, Verdict::Applied),
        (2, 2, Verdict::Applied),
        (3, 2, Verdict::Stale),
    ],
    merger: None,
};

const UNDER_A_BUDGET_OF_ONE: Setting = Setting {
    mine: FOUR_BLOCKS_THAT_PAY,
    workers: 3,
    budget: Some(1),
    journal: &[
        (1, 0, Verdict::Applied),
        (2, 0, Verdict::Stale),
        (3, 2, Verdict::Stale),
        (1, 1, Verdict::Spent),
        (2, 2, Verdict::Stale),
        (3, 2, Verdict::Stale),
    ],
    merger: Some(1),
};

/// What fails of the first round and this one behind it.
fn failure_in_two<R: Wait>(
    rt: &R,
    alloc: Global,
    setting: &Setting,
    second: Round,
) -> Result<Failed, Fault> {
    let rounds = Rounds {
        rounds: [FIRST, second],
    };
    failure_of(rt, alloc, setting, &rounds)
}

#[test]
fn asks_are_served_in_the_order_of_workers(rt: HostRuntime) -> Result<(), Fail> {
    pass_or_name(failure_in_two(&rt, rt.alloc(), &WITHOUT_A_BUDGET, SECOND))
}

#[test]
fn asks_past_the_budget_are_spent(rt: HostRuntime) -> Result<(), Fail> {
    pass_or_name(failure_in_two(&rt, rt.alloc(), &UNDER_A_BUDGET_OF_ONE, SPENT))
}

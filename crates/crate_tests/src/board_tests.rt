//! A run of the board whose answers a reader of the rule can foresee. What a seat knows has no bytes: the clauses say it, and
//! the run compares what the calls answer.
ghost use Rattle.std.specs.Prelude.{◌≡◌, length};

use crate::board_calls::{answer_one, ask_for};
use crate::failures::{Failed, first_failure, pass_or_name};
use faults::Fault;
use proposals::{Board, BoardId, HolderSeat, UnnamedBoard, Verdict, WorkerSeat};
use std::alloc::Global;
use std::marker::Brand;
use std::test::Fail;

/// An ask that stands and no second one, which is withdrawn and then not answered: what fails of that.
fn first_ask<B: BoardId>(
    board: &Board<B>,
    seat: &mut WorkerSeat<B>,
    holder: &mut HolderSeat<B>,
) -> Failed
    requires one { length holder.old.served ≡ 1 }
    ensures one { length holder.new.served ≡ 1 }
{
    let asked = ask_for(board, seat, 0) && !ask_for(board, seat, 1);
    let withdrew = board.withdraw(seat);
    let none_stood = answer_one(board, holder, 1, Verdict::Stale).is_none();
    first_failure(&[
        ("one ask stands, and no second", asked),
        ("an ask is withdrawn", withdrew),
        ("what was withdrawn is not answered", none_stood),
    ])
}

/// An ask that is claimed and given back, which is withdrawn only then: what fails of that.
fn second_ask<B: BoardId>(
    board: &Board<B>,
    seat: &mut WorkerSeat<B>,
    holder: &mut HolderSeat<B>,
) -> Failed
    requires one { length holder.old.served ≡ 1 }
{
    let again = ask_for(board, seat, 1);
    let Some(arc) = board.claim_ask(holder, 1) else {
        return Some("the second ask is claimed");
    };
    let too_late = !board.withdraw(seat);
    board.unclaim(holder, 1);
    let back = board.withdraw(seat) && board.collect(seat).is_none();
    first_failure(&[
        ("the second ask is of its own arc", again && arc == 1),
        ("a claimed ask is not withdrawn", too_late),
        ("an ask that was given back is withdrawn", back),
    ])
}

/// Both asks of a worker: then nothing is asked, answered or collected.
fn asks_go_back<B: BoardId>(
    board: &Board<B>,
    seat: &mut WorkerSeat<B>,
    holder: &mut HolderSeat<B>,
) -> Failed
    requires one { length holder.old.served ≡ 1 }
{
    let failed = first_ask(board, seat, holder);
    if failed.is_some() {
        return failed;
    }
    let failed = second_ask(board, seat, holder);
    board.settle(seat, holder);
    failed
}

/// What fails at a board of one worker that was just made.
fn failure_at<B: BoardId>(alloc: Global, unnamed: UnnamedBoard) -> Result<Failed, Fault>
    requires named { unnamed ≡ B.board }
    requires arcs { B.arcs ≡ 4294967295 }
    requires one { unnamed.words ≡ 1 }
{
    let (board, mut seats, mut holder) = Board::<B>::new(alloc, unnamed, u32::MAX)?;
    match seats.first_mut() {
        Some(seat) => Ok(asks_go_back(&board, seat, &mut holder)),
        None => Ok(Some("there is a seat")),
    }
}

#[test]
fn a_board_of_one(rt: HostRuntime) -> Result<(), Fail> {
    let unnamed = UnnamedBoard::new(rt.alloc(), 1)?;
    pass_or_name(failure_at::<Brand>(rt.alloc(), unnamed))
}

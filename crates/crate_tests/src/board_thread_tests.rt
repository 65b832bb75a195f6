//! Two threads at one board: a worker asks and withdraws, and collects where the withdrawal came too late, while the holder answers.
ghost use Rattle.std.specs.Prelude.{◌≡◌};

use crate::board_calls::{answer_one, ask_for};
use crate::failures::{Failed, first_failure, pass_or_name};
use faults::Fault;
use proposals::{Board, BoardId, HolderSeat, Reply, UnnamedBoard, Verdict, WorkerSeat};
use std::alloc::Global;
use std::marker::Brand;
use std::sync::Wait;
use std::sync::atomic::{AtomicBool, Ordering};
use std::test::Fail;
use std::thread;
use std::thread::Threads;

/// The reply to an ask that was claimed.
fn wait_for_reply<B: BoardId, R: Wait>(
    rt: &R,
    board: &Board<B>,
    seat: &mut WorkerSeat<B>,
) -> Option<Reply> {
    for _ in rt.forever() {
        let reply = board.collect(seat);
        if reply.is_some() {
            return reply;
        }
    }
    None
}

/// How a worker and the holder signal each other: the worker that the holder is to rest, the holder that it does, and the worker
/// that it is done.
#[derive(Drop)]
struct Signs {
    rest: AtomicBool,
    rests: AtomicBool,
    done: AtomicBool,
}

/// An ask that is not withdrawn is answered, and one that is asked for while the holder rests is withdrawn: what fails of that.
fn meet<B: BoardId, R: Wait>(
    rt: &R,
    board: &Board<B>,
    seat: &mut WorkerSeat<B>,
    signs: &Signs,
) -> Failed {
    let asked = ask_for(board, seat, 0);
    let replied = wait_for_reply(rt, board, seat).is_some();
    signs.rest.store(true, Ordering::SeqCst);
    for _ in rt.forever() {
        if signs.rests.load(Ordering::SeqCst) {
            break;
        }
    }
    let withdrew = ask_for(board, seat, 1) && board.withdraw(seat);
    signs.rest.store(false, Ordering::SeqCst);
    first_failure(&[
        ("the first arc is asked for", asked),
        ("an ask that stays is answered", replied),
        ("an ask beside a holder that rests is withdrawn", withdrew),
    ])
}

/// Asks for each arc, and withdraws it or collects what it was answered: what fails of that.
fn ask_for_all<B: BoardId, R: Wait>(
    rt: &R,
    board: &Board<B>,
    seat: &mut WorkerSeat<B>,
    arcs: u32,
    signs: &Signs,
) -> Failed {
    let met = meet(rt, board, seat, signs);
    let mut asked = true;
    let mut collected = true;
    for arc in 0..arcs {
        asked = ask_for(board, seat, arc) && asked;
        if !board.withdraw(seat) {
            let stale = Reply {
                arc,
                verdict: Verdict::Stale,
            };
            collected = wait_for_reply(rt, board, seat) == Some(stale) && collected;
        }
    }
    signs.done.store(true, Ordering::SeqCst);
    if met.is_some() {
        return met;
    }
    first_failure(&[
        ("each arc is asked for", asked),
        (
            "what came too late to withdraw was answered stale",
            collected,
        ),
    ])
}

/// Answers each ask that it claims, where it is not to rest, until the worker is done.
fn answer_until<B: BoardId, R: Wait>(
    rt: &R,
    board: &Board<B>,
    holder: &mut HolderSeat<B>,
    signs: &Signs,
) {
    for _ in rt.forever() {
        if signs.done.load(Ordering::SeqCst) || board.workers(holder) == 0 {
            return;
        }
        if signs.rest.load(Ordering::SeqCst) {
            signs.rests.store(true, Ordering::SeqCst);
            continue;
        }
        answer_one(board, holder, 1, Verdict::Stale);
    }
}

/// A worker asks for `arcs` arcs while the holder answers. Returns what fails of that, or of the final state of the board.
fn at_once<B: BoardId + Send + Sync, R: Threads + Wait + Sync>(
    rt: &R,
    board: &Board<B>,
    seat: &mut WorkerSeat<B>,
    holder: &mut HolderSeat<B>,
    arcs: u32,
) -> Failed {
    let signs = Signs {
        rest: AtomicBool::new(false),
        rests: AtomicBool::new(false),
        done: AtomicBool::new(false),
    };
    let (failed, _) = thread::join(
        rt,
        || ask_for_all(rt, board, seat, arcs, &signs),
        || answer_until(rt, board, holder, &signs),
    );
    board.settle(seat, holder);
    let stood = first_failure(&[
        ("no ask stands in the end", !board.withdraw(seat)),
        ("no reply stands in the end", board.collect(seat).is_none()),
    ]);
    failed.or(stood)
}

fn two_threads<B: BoardId + Send + Sync, R: Threads + Wait + Sync>(
    rt: &R,
    alloc: Global,
    unnamed: UnnamedBoard,
    arcs: u32,
) -> Result<Failed, Fault>
    requires named { unnamed ≡ B.board }
    requires arcs { B.arcs ≡ 4294967295 }
{
    let (board, mut seats, mut holder) = Board::<B>::new(alloc, unnamed, u32::MAX)?;
    match seats.first_mut() {
        Some(seat) => Ok(at_once(rt, &board, seat, &mut holder, arcs)),
        None => Ok(Some("there is a seat")),
    }
}

#[test]
fn a_worker_and_the_holder_at_once(rt: HostRuntime) -> Result<(), Fail> {
    let unnamed = UnnamedBoard::new(rt.alloc(), 1)?;
    pass_or_name(two_threads::<Brand, HostRuntime>(&rt, rt.alloc(), unnamed, 10_000))
}

//! What must run without memory: mergers in three trees, a board of one worker and a counter of two chunks. All memory is asked for
//! before they run; `tests/test_refused_memory.py` refuses every request from there on.
ghost use Rattle.std.specs.Prelude.{◌≡◌, ◌<◌, length};

use crate::trace::Trace;
use faults::Fault;
use proposals::{
    Board, BoardId, CounterId, DrawSeat, Draws, HolderSeat, UnnamedBoard, UnnamedDraws, WorkerSeat,
};
use std::alloc::Global;
use std::marker::Brand;

/// The trees, and the board and the counter before a type has their names.
#[derive(Drop)]
struct Prepared {
    traces: [Trace; 3],
    board: UnnamedBoard,
    draws: UnnamedDraws,
}

/// An ask is withdrawn, and another claimed and given back: then nothing is asked, answered or collected.
fn asks_go_back<B: BoardId>(
    board: &Board<B>,
    seat: &mut WorkerSeat<B>,
    holder: &mut HolderSeat<B>,
) -> Option<&'static str>
    requires arcs { 1 < B.arcs }
    requires worker { 0 < length holder.old.served }
{
    if !board.ask(seat, 0) || board.ask(seat, 1) {
        return Some("one ask stands, and no second");
    }
    if !board.withdraw(seat) || board.claim_ask(holder, 1).is_some() {
        return Some("an ask is withdrawn");
    }
    let asked = board.ask(seat, 1);
    match board.claim_ask(holder, 1) {
        Some(arc) if asked && arc == 1 => {}
        _ => return Some("the second ask is claimed"),
    }
    let too_late = !board.withdraw(seat);
    board.unclaim(holder, 1);
    if too_late && board.withdraw(seat) && board.collect(seat).is_none() {
        return None;
    }
    Some("an ask that was given back is withdrawn, and one that is claimed is not")
}

/// Two seats draw two chunks, and then none.
fn chunks_are_drawn<L: CounterId>(
    draws: &Draws<L>,
    first: &mut DrawSeat<L>,
    second: &mut DrawSeat<L>,
) -> Option<&'static str> {
    if draws.draw(first) != Some(0) || draws.draw(second) != Some(1) {
        return Some("each chunk is drawn in turn");
    }
    let ended = draws.draw(first).is_none() && draws.draw(first).is_none();
    if ended && draws.draw(second).is_none() {
        return None;
    }
    Some("no chunk is left")
}

/// The same by a counter and its seats, which end.
fn all_are_drawn<L: CounterId>(draws: Draws<L>, mut seats: Vec<DrawSeat<L>>) -> Option<&'static str>
    requires { length seats.items ≡ draws }
{
    let failed = match seats.as_mut_slice() {
        [first, second] => chunks_are_drawn(&draws, first, second),
        _ => Some("there are two seats"),
    };
    draws.close(seats);
    failed
}

/// Takes the last memory, for the seats, and then runs all. The name of the first thing that was not as it must be.
fn run<B: BoardId, L: CounterId>(
    alloc: Global,
    prepared: Prepared,
) -> Result<Option<&'static str>, Fault>
    requires board { prepared.board ≡ B.board }
    requires arcs { 4294967295 ≡ B.arcs }
    requires one { prepared.board.words ≡ 1 }
    requires draws { prepared.draws.table ≡ L.draws }
    requires two { prepared.draws.seats ≡ 2 }
{
    let Prepared {
        traces,
        board,
        draws,
    } = prepared;
    let (board, mut workers, mut holder) = Board::<B>::new(alloc, board, u32::MAX)?;
    let Some(mut worker) = workers.pop() else {
        return Ok(Some("there is a worker"));
    };
    let (draws, seats) = Draws::<L>::new(alloc, draws)?;
    let merged = traces.into_iter().all(|trace| trace.runs_to_its_end());
    let failed = asks_go_back(&board, &mut worker, &mut holder);
    let failed = failed.or(all_are_drawn(draws, seats));
    Ok(if merged {
        failed
    } else {
        Some("each trace runs to its end")
    })
}

/// Prepares all and runs it. Returns the name of the first thing that is wrong. Errors: `NoMemory`, or a refused seat.
pub fn run_prepared(alloc: Global) -> Result<Option<&'static str>, Fault> {
    let prepared = Prepared {
        traces: [
            Trace::cuts_within_a_branch(alloc)?,
            Trace::cuts_between_branches(alloc)?,
            Trace::keeps_a_link(alloc)?,
        ],
        board: UnnamedBoard::new(alloc, 1)?,
        draws: UnnamedDraws::new(alloc, 2, 2)?,
    };
    run::<Brand, Brand>(alloc, prepared)
}

//! Many workers solve one instance at one tree. Each asks for merger arcs on the board, and the holder of the lock decides the asks
//! (flat combining: Hendler, Incze, Shavit and Tzafrir 2010). The driver makes the mergers that are left.
ghost use Rattle.std.specs.Prelude.{◌≡◌, ◌≤◌, [], IfOk, IfErr};
ghost use Rattle.std.specs.List.{All};
ghost use Rattle.faults.specs.Refused.{no_seat, IsNoRoom};
ghost use Rattle.pit_model.specs.JournalText.{most_seat};
ghost use Rattle.pit_model.specs.Mine.{arcs};
ghost use Rattle.pit_model.specs.Tree.{opening};
ghost use Rattle.crew.specs.Solved.{IsSolvedTogether};

use crate::driver::end_of;
use crate::gate::Gate;
use crate::sweeps::Crew;
use crate::work_chunks::WorkChunks;
use crate::worker::Worker;
use crate::worker_seats::WorkerSeats;
use faults::Fault;
use merging::Outcome;
use mine_graph::Instance;
use norm_tree::NormTree;
use proposals::{Board, UnnamedBoard, WorkerSeat};
use std::alloc::Global;
use std::marker::Brand;
use std::sync::Wait;
use std::thread::Threads;
use tree_lock::{Entry, Holder, LockId, SharedTree, UnnamedList};

/// The most workers that have a seat; the driver's is seat 0.
const MOST_WORKERS: u32 = 64;

/// What a solve begins with: the opening tree and its budget, and the list of mergers and the board, which have no name yet.
struct Setup {
    tree: NormTree,
    budget: Option<u64>,
    list: UnnamedList,
    unnamed: UnnamedBoard,
}

/// A worker for each seat at the board, with a seat to look from. Nothing was asked yet.
fn workers_of<S: LockId>(
    alloc: Global,
    shared: &SharedTree<S>,
    seats: Vec<WorkerSeat<S>>,
) -> Result<Vec<Worker<S>>, Fault>
    requires { All (λ seat. seat.asked ≡ []) seats.items }
    ensures { IfErr result IsNoRoom }
{
    let mut workers = Vec::with_capacity(alloc, seats.len())?;
    let mut number = 0u32;
    for seat in seats {
        number = number.saturating_add(1);
        let seats = WorkerSeats::new(seat, shared.look_seat()?);
        workers.push(Worker { number, seats })?;
    }
    Ok(workers)
}

/// Returns the workers, and the tree for the holder alone, which is released if a seat was refused.
fn with_workers<S: LockId, R: Wait>(
    rt: &R,
    alloc: Global,
    shared: SharedTree<S>,
    seats: Vec<WorkerSeat<S>>,
) -> Result<(Vec<Worker<S>>, Holder<S>), Fault>
    requires { All (λ seat. seat.asked ≡ []) seats.items }
    ensures { IfErr result IsNoRoom }
{
    let workers = workers_of(alloc, &shared, seats);
    let holder = shared.into_holder();
    match workers {
        Ok(workers) => Ok((workers, holder)),
        Err(fault) => {
            holder.into_parts(rt);
            Err(fault)
        }
    }
}

/// Runs the crew to its end, and answers by the tree that is left.
fn run_crew<'a, S: LockId + Send + Sync, G: Gate + Sync, R: Threads + Wait + Sync>(
    rt: &R,
    alloc: Global,
    crew: Crew<'a, S, G>,
    holder: Holder<S>,
) -> Result<(Outcome, Vec<Entry>), Fault>
    requires { S.arcs ≡ arcs S.mine }
    ensures solved { IfOk result (λ r. IsSolvedTogether S.mine S.workers S.budget r.0 r.1.items) }
    ensures refused { IfErr result IsNoRoom }
{
    let mut crew = crew;
    let holder = crew.run(rt, alloc, holder)?;
    end_of(rt, alloc, holder)
}

fn solve_at<S: LockId + Send + Sync, G: Gate + Sync, R: Threads + Wait + Sync>(
    rt: &R,
    alloc: Global,
    begun: Setup,
    chunk: u32,
    gate: &G,
) -> Result<(Outcome, Vec<Entry>), Fault>
    requires book { begun.list ≡ S.book }
    requires opening { begun.tree.tree ≡ opening begun.tree.mine }
    requires mine { begun.tree.mine ≡ S.mine }
    requires budget { begun.budget ≡ S.budget }
    requires board { begun.unnamed ≡ S.board }
    requires workers { begun.unnamed.words ≡ S.workers }
    requires arcs { S.arcs ≡ arcs S.mine }
    ensures solved { IfOk result (λ r. IsSolvedTogether S.mine S.workers S.budget r.0 r.1.items) }
    ensures refused { IfErr result IsNoRoom }
{
    let Setup {
        tree,
        budget,
        list,
        unnamed,
    } = begun;
    let work = WorkChunks::opening(alloc, &tree, chunk)?;
    let arcs = tree.instance().graph().arcs();
    let (board, seats, holder_seat) = Board::<S>::new(alloc, unnamed, arcs)?;
    let shared = SharedTree::<S>::new(alloc, list, tree, budget, &board, holder_seat)?;
    let (workers, holder) = with_workers(rt, alloc, shared, seats)?;
    let crew = Crew {
        board: &board,
        workers,
        work,
        chunk,
        gate,
    };
    run_crew(rt, alloc, crew, holder)
}

/// Solves with `workers` workers, 1 to 64, at one tree, each with `chunk` arcs at a time, and returns the journal of
/// decisions: it is lawful for the instance and the budget under any schedule. The outcome is `Exhausted` if the budget is used
/// up and a merger arc is left. The gate receives the workers' steps.
///
/// Errors: lack of memory (1); more workers than seats, a refused seat, or a worker that could not be started (22). Workers that
/// were started have then ended.
pub fn solve_shared<G: Gate + Sync, R: Threads + Wait + Sync>(
    rt: &R,
    alloc: Global,
    instance: &Instance,
    workers: u32,
    budget: Option<u64>,
    chunk: u32,
    gate: &G,
) -> Result<(Outcome, Vec<Entry>), Fault>
    ensures solved { IfOk result (λ r. IsSolvedTogether instance.now workers budget r.0 r.1.items) }
    ensures few { IfOk result (λ _. workers ≤ most_seat) }
    ensures refused { IfErr result IsNoRoom }
{
    if workers > MOST_WORKERS {
        return Err(Fault::no_seat());
    }
    let begun = Setup {
        tree: NormTree::start(alloc, instance)?,
        budget,
        list: UnnamedList::new()?,
        unnamed: UnnamedBoard::new(alloc, workers)?,
    };
    solve_at::<Brand, G, R>(rt, alloc, begun, chunk, gate)
}

//! The sweeps of mode shared: in each, the workers go over chunks of arcs, each in a thread of its own; between two of them the
//! driver has the tree alone, and decides the first merger arc that they left.
ghost use Rattle.std.specs.Prelude.{◌≡◌, IfOk, IfErr};
ghost use Rattle.faults.specs.Refused.{no_memory, no_seat, IsNoRoom};
ghost use Rattle.pit_model.specs.Mine.{arcs};
ghost use Rattle.std.specs.List.{All};
ghost use Rattle.tree_lock.specs.HolderState.{HolderState};
ghost use Rattle.crew.specs.Solved.{IsEnded, RoundEnds};
ghost use Rattle.crew.specs.Working.{IsSynchronised};

use crate::driver::is_ended;
use crate::gate::Gate;
use crate::work_chunks::WorkChunks;
use crate::worker::{Sweep, Worker};
use faults::Fault;
use norm_tree::NormTree;
use proposals::{Board, CounterId, DrawSeat, Draws, UnnamedDraws};
use std::alloc::Global;
use std::marker::Brand;
use std::sync::Wait;
use std::thread;
use std::thread::Threads;
use tree_lock::{Holder, LockId, SharedTree};

/// The workers with what they share beside the tree.
#[derive(Drop)]
pub struct Crew<'a, S: LockId, G: Gate> {
    pub board: &'a Board<S>,
    pub workers: Vec<Worker<S>>,
    /// What the next sweep goes over.
    pub work: WorkChunks,
    /// How many arcs a worker draws at once.
    pub chunk: u32,
    pub gate: &'a G,
}

/// The workers, each in a thread of its own with its seats. All have ended afterwards.
fn run_workers<
    S: LockId + Send + Sync,
    G: Gate + Sync,
    L: CounterId + Send + Sync,
    R: Threads + Wait + Sync,
>(
    rt: &R,
    sweep: &Sweep<S, G, L>,
    workers: &mut [Worker<S>],
    draw_seats: &mut [DrawSeat<L>],
) -> Result<(), Fault>
    ensures { IfErr result (λ e. e ≡ no_seat) }
{
    let started = thread::scope(thread::scope_env(), rt, |scope| {
        let mut started = true;
        for (worker, draw_seat) in workers.iter_mut().zip(draw_seats.iter_mut()) {
            if started
                && scope
                    .spawn(move || worker.sweep(rt, sweep, draw_seat))
                    .is_err()
            {
                started = false;
            }
        }
        started
    });
    if started {
        Ok(())
    } else {
        Err(Fault::no_seat())
    }
}

/// No mine has more arcs than this counts.
fn as_count(length: usize) -> u32 {
    length.min(u32::MAX as usize) as u32
}

/// The seats of each meet the holder's.
fn synchronise_all<S: LockId>(board: &Board<S>, workers: &mut [Worker<S>], holder: &mut Holder<S>)
    ensures same { holder.new ≡ holder.old }
    ensures met { All (λ worker. IsSynchronised S.mine holder.old.journal worker.seats) workers.new }
{
    for worker in workers.iter_mut() {
        worker.seats.synchronise(board, holder);
    }
}

impl<'a, S: LockId + Send + Sync, G: Gate + Sync> Crew<'a, S, G> {
    /// One sweep, by this counter.
    fn sweep_by<L: CounterId + Send + Sync, R: Threads + Wait + Sync>(
        &mut self,
        rt: &R,
        alloc: Global,
        shared: &SharedTree<S>,
        unnamed: UnnamedDraws,
    ) -> Result<(), Fault>
        requires draws { unnamed.table ≡ L.draws }
        requires known { S.arcs ≡ arcs S.mine }
        ensures { IfErr result IsNoRoom }
    {
        let (draws, mut draw_seats) = Draws::<L>::new(alloc, unnamed)?;
        let sweep = Sweep {
            board: self.board,
            shared,
            draws: &draws,
            work: &self.work,
            gate: self.gate,
        };
        let swept = run_workers(rt, &sweep, &mut self.workers, &mut draw_seats);
        draws.close(draw_seats);
        swept?;
        for worker in self.workers.iter_mut() {
            worker.seats.take_back(self.board);
        }
        Ok(())
    }

    /// Each worker's seats meet the holder's.
    fn synchronise(&mut self, holder: &mut Holder<S>)
        ensures same { holder.new ≡ holder.old }
        ensures met { All (λ worker. IsSynchronised S.mine holder.old.journal worker.seats) self.new.workers.items }
    {
        synchronise_all(self.board, &mut self.workers, holder);
    }

    /// One sweep, with a counter of its own.
    fn sweep<R: Threads + Wait + Sync>(
        &mut self,
        rt: &R,
        alloc: Global,
        shared: &SharedTree<S>,
    ) -> Result<(), Fault>
        requires { S.arcs ≡ arcs S.mine }
        ensures { IfErr result IsNoRoom }
    {
        let chunks = as_count(self.work.chunks());
        let unnamed = UnnamedDraws::new(alloc, chunks, as_count(self.workers.len()))?;
        self.sweep_by::<Brand, R>(rt, alloc, shared, unnamed)
    }

    /// Makes the chunks of the next sweep over the tree.
    fn renew(&mut self, alloc: Global, tree: &NormTree) -> Result<(), Fault>
        ensures workers { self.new.workers ≡ self.old.workers }
        ensures refused { IfErr result (λ e. e ≡ no_memory) }
    {
        self.work = WorkChunks::over_mergers(alloc, tree, self.chunk)?;
        Ok(())
    }

    /// Makes the driver's decision after a sweep: returns whether the solve has ended, otherwise makes the chunks of the next
    /// sweep.
    fn decide<R: Threads + Wait + Sync>(
        &mut self,
        rt: &R,
        alloc: Global,
        holder: &mut Holder<S>,
    ) -> Result<bool, Fault>
        ensures ended { IfOk result (RoundEnds holder.old holder.new) }
        ensures met { All (λ worker. IsSynchronised S.mine holder.old.journal worker.seats) self.new.workers.items }
        ensures refused { IfErr result IsNoRoom }
    {
        self.synchronise(holder);
        holder.tree().instance().counters().swept();
        if is_ended(rt, holder)? {
            return Ok(true);
        }
        self.renew(alloc, holder.tree())?;
        Ok(false)
    }

    /// Makes a sweep under the lock; then each worker meets the holder, and the driver, which has the holder for itself, decides.
    /// Returns the holder, and whether the solve has ended. After an error the holder is released.
    fn round<R: Threads + Wait + Sync>(
        &mut self,
        rt: &R,
        alloc: Global,
        holder: Holder<S>,
    ) -> Result<(Holder<S>, bool), Fault>
        requires { S.arcs ≡ arcs S.mine }
        ensures ended { IfOk result (λ r. (met : HolderState) × RoundEnds met r.0 r.1 × All (λ worker. IsSynchronised S.mine met.journal worker.seats) self.new.workers.items) }
        ensures refused { IfErr result IsNoRoom }
    {
        let shared = SharedTree::of_holder(holder);
        let swept = self.sweep(rt, alloc, &shared);
        let mut holder = shared.into_holder();
        if let Err(fault) = swept {
            holder.into_parts(rt);
            return Err(fault);
        }
        match self.decide(rt, alloc, &mut holder) {
            Ok(is_ended) => Ok((holder, is_ended)),
            Err(fault) => {
                holder.into_parts(rt);
                Err(fault)
            }
        }
    }

    /// Makes sweeps until the driver finds no merger arc after one, or the budget is used up: after each sweep it decides one arc
    /// at most. Errors: lack of memory (1), a worker that could not be started (22); the holder is then released.
    pub fn run<R: Threads + Wait + Sync>(
        &mut self,
        rt: &R,
        alloc: Global,
        holder: Holder<S>,
    ) -> Result<Holder<S>, Fault>
        requires { S.arcs ≡ arcs S.mine }
        ensures ended { IfOk result IsEnded }
        ensures refused { IfErr result IsNoRoom }
    {
        let mut holder = holder;
        for _sweep in rt.forever() {
            let (after, is_ended) = self.round(rt, alloc, holder)?;
            if is_ended {
                return Ok(after);
            }
            holder = after;
        }
        unreachable!()
    }
}

//! One worker of mode shared. In a sweep it draws chunks of arcs, reads the published version, and asks for a merger arc that it
//! sees there. It serves the board under the lock if nobody else did, and collects its reply.
ghost use Rattle.std.specs.Prelude.{◌≡◌, ◌<◌, ◌≤◌, ◌++◌, suc, ℕ, List, None, IfSome, IsTrue, MatchOption};
ghost use Rattle.pit_model.specs.Mine.{arcs};
ghost use Rattle.crew.specs.Working.{arcs_of_chunks, CollectsVerdict, EndsAsk, HasSeen, Proposes, ServesBoard, WorksOn};

use crate::gate::Gate;
use crate::work_chunks::WorkChunks;
use crate::worker_seats::WorkerSeats;
use proposals::{Board, CounterId, DrawSeat, Draws};
use std::sync::{MutexGuard, Wait};
use tree_lock::{Holder, LockId, SharedTree, Verdict};

/// How many asks of its own a worker serves before it releases the lock. Two workers that hand the lock over at each ask sleep and
/// wake one another each time, which takes longer than what is done with it.
const ASKS_IN_TURN: u32 = 64;

/// How often a worker checks for a reply to its ask while another has the lock, before it waits for the lock: the holder answers
/// all asks at each of its own.
const LOOKS_BEFORE_WAITING: u32 = 1_000;

/// The lock, while a worker has it, and how many asks more it may serve with it. It is not `Drop`: it ends by `end`, or by `left`
/// after the last ask.
struct HeldLock<'a, S: LockId> {
    holder: MutexGuard<'a, Holder<S>>,
    asks: u32,
}

impl<'a, S: LockId> HeldLock<'a, S> {
    fn begin(holder: MutexGuard<'a, Holder<S>>) -> HeldLock<'a, S>
        ensures asks { result.asks ≡ 64 }
        ensures holder { result.holder ≡ holder.entry }
    {
        HeldLock {
            holder,
            asks: ASKS_IN_TURN,
        }
    }

    /// The same after an ask; None after the last, and then the lock is free.
    fn left(self) -> Option<HeldLock<'a, S>>
        ensures ends { self.entry.asks ≤ 1 → result ≡ None }
        ensures fewer { IfSome result (λ held. suc held.asks ≡ self.entry.asks) }
        ensures holder { IfSome result (λ held. held.holder ≡ self.entry.holder) }
    {
        let HeldLock { holder, asks } = self;
        if asks <= 1 {
            MutexGuard::unlock(holder);
            return None;
        }
        Some(HeldLock {
            holder,
            asks: asks - 1,
        })
    }

    /// Frees the lock.
    fn end(self) {
        let HeldLock { holder, asks: _ } = self;
        MutexGuard::unlock(holder);
    }
}

/// A worker's number, from 1, and its seats.
#[derive(Drop)]
pub struct Worker<S: LockId> {
    pub number: u32,
    pub seats: WorkerSeats<S>,
}

/// What all workers have in common in a sweep.
#[derive(Drop)]
pub struct Sweep<'a, S: LockId, G: Gate, L: CounterId> {
    pub board: &'a Board<S>,
    pub shared: &'a SharedTree<S>,
    pub draws: &'a Draws<L>,
    pub work: &'a WorkChunks,
    pub gate: &'a G,
    ghost known: { S.arcs ≡ arcs S.mine },
}

impl<S: LockId> Worker<S> {
    /// Collects the reply to its ask, and answers whether the worker is to go on: not where the budget is used up. None where
    /// there is no reply.
    fn collect<G: Gate, L: CounterId>(&mut self, sweep: &Sweep<S, G, L>) -> Option<bool>
        ensures { MatchOption result (self.new.seats ≡ self.old.seats) (λ goes_on. CollectsVerdict self.old.seats self.new.seats goes_on) }
    {
        let reply = self.seats.collect(sweep.board)?;
        sweep.gate.served(self.number);
        Some(match reply.verdict {
            Verdict::Applied | Verdict::Stale => true,
            Verdict::Spent => false,
        })
    }

    /// Serves the board with the lock, and collects the reply to its ask. It answers whether the worker is to go on. It is not to go
    /// on where memory was refused; an ask that was not answered then stays open.
    fn serve<G: Gate, L: CounterId, R: Wait>(
        &mut self,
        rt: &R,
        sweep: &Sweep<S, G, L>,
        holder: &mut Holder<S>,
    ) -> bool
        ensures served { ServesBoard S.workers holder.old holder.new result }
        ensures ended { EndsAsk self.old.seats self.new.seats result }
    {
        let served = holder.serve(rt, sweep.board);
        match self.collect(sweep) {
            Some(goes_on) => served.is_ok() && goes_on,
            None => false,
        }
    }

    /// Serves with the lock, and answers the lock too where the worker keeps it.
    fn serve_held<'a, G: Gate, L: CounterId, R: Wait>(
        &mut self,
        rt: &R,
        sweep: &Sweep<'a, S, G, L>,
        held: HeldLock<'a, S>,
    ) -> (bool, Option<HeldLock<'a, S>>)
        ensures ended { EndsAsk self.old.seats self.new.seats result.0 }
        ensures kept { IfSome result.1 (λ after. (suc after.asks ≡ held.entry.asks) × ServesBoard S.workers held.entry.holder.value after.holder.value result.0) }
    {
        let mut held = held;
        let goes_on = self.serve(rt, sweep, &mut held.holder);
        (goes_on, held.left())
    }

    /// Collects the reply of the holder, or serves once the lock is free. It waits for the lock only after it found it taken this
    /// often.
    fn synchronise_with_holder<'a, G: Gate, L: CounterId, R: Wait>(
        &mut self,
        rt: &R,
        sweep: &Sweep<'a, S, G, L>,
    ) -> (bool, Option<HeldLock<'a, S>>)
        ensures { EndsAsk self.old.seats self.new.seats result.0 }
    {
        for _look in 0..LOOKS_BEFORE_WAITING {
            match sweep.shared.try_lock() {
                Some(holder) => return self.serve_held(rt, sweep, HeldLock::begin(holder)),
                None => {}
            }
            match self.collect(sweep) {
                Some(goes_on) => return (goes_on, None),
                None => {}
            }
        }
        self.serve_held(rt, sweep, HeldLock::begin(sweep.shared.lock(rt)))
    }

    /// Asks for an arc that the worker saw as a merger arc, serves where nobody answered yet, and collects. It answers whether
    /// the worker is to go on, and the lock where it keeps it. It is not to go on where the budget is used up, or memory was
    /// refused.
    fn propose<'a, G: Gate, L: CounterId, R: Wait>(
        &mut self,
        rt: &R,
        sweep: &Sweep<'a, S, G, L>,
        held: Option<HeldLock<'a, S>>,
        arc: u32,
    ) -> (bool, Option<HeldLock<'a, S>>)
        requires inside { arc < S.arcs }
        requires seen { HasSeen S.mine arc self.old.seats.looks }
        ensures { Proposes arc self.old.seats self.new.seats result.0 }
    {
        self.seats.ask(sweep.board, arc);
        sweep.gate.asked(self.number);
        match (self.collect(sweep), held) {
            (Some(goes_on), held) => (goes_on, held),
            (None, Some(held)) => self.serve_held(rt, sweep, held),
            (None, None) => self.synchronise_with_holder(rt, sweep),
        }
    }

    /// Goes over the arcs of a chunk, and frees the lock. It answers whether the worker is to go on.
    fn go_over<'a, G: Gate, L: CounterId, R: Wait>(
        &mut self,
        rt: &R,
        sweep: &Sweep<'a, S, G, L>,
        arcs: &[u32],
    ) -> bool
        ensures { WorksOn arcs.now self.old.seats self.new.seats result }
    {
        let mut held = None;
        let mut goes_on = true;
        for &arc in arcs {
            if goes_on && self.seats.sees_merger(arc) {
                (goes_on, held) = self.propose(rt, sweep, held, arc);
            }
        }
        match held {
            Some(held) => held.end(),
            None => {}
        }
        goes_on
    }

    /// The worker's part of a sweep, until no chunk is left. It asks only for arcs of the chunks that it drew.
    pub fn sweep<G: Gate, L: CounterId, R: Wait>(
        &mut self,
        rt: &R,
        sweep: &Sweep<S, G, L>,
        draw_seat: &mut DrawSeat<L>,
    )
        ensures { (drawn : List ℕ) × (goes_on : _) × (draw_seat.new.drawn ≡ draw_seat.old.drawn ++ drawn) × WorksOn (arcs_of_chunks sweep.now.work.now drawn) self.old.seats self.new.seats goes_on }
    {
        for _drawn in 0..u32::MAX {
            let Some(number) = sweep.draws.draw(draw_seat) else {
                return;
            };
            if !self.go_over(rt, sweep, sweep.work.chunk(number)) {
                return;
            }
        }
    }
}

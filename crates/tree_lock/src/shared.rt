//! The holder under a mutex, so that each thread takes its turn, and beside it what gives seats to look from without the lock.
ghost use Rattle.std.specs.Prelude.{◌≡◌, true, IfErr, MatchResult};
ghost use mathlib.Core.List.{IsPrefix};
ghost use Rattle.faults.specs.Refused.{no_memory, no_seat, IsNoRoom};
ghost use Rattle.pit_model.specs.Tree.{opening};
ghost use Rattle.tree_lock.specs.Served.{IsFresh};

use crate::holder::Holder;
use crate::lock_id::LockId;
use faults::Fault;
use norm_tree::NormTree;
use proposals::{Board, HolderSeat};
use std::alloc::Global;
use std::sync::{Mutex, MutexGuard, Wait};
use versions::{LookSeat, LookSeats, Publisher, UnnamedList, Version};

/// A tree that threads share. It is not `Drop`, as its holder: end it by `into_holder`.
pub struct SharedTree<S: LockId> {
    lock: Mutex<Holder<S>>,
    /// None where the count of its owners was full, as in no run; then each place counts as taken.
    look_seats: Option<LookSeats<S>>,
}

impl<S: LockId> SharedTree<S> {
    /// Puts the opening tree under a lock, with an empty journal and the seat that answers the board, and publishes it. There
    /// is a place to look from for each worker of the board, and one more.
    /// Errors: `NoMemory` where memory was refused, `NoSeat` where the table of places was.
    pub fn new(
        alloc: Global,
        list: UnnamedList,
        tree: NormTree,
        budget: Option<u64>,
        board: &Board<S>,
        seat: HolderSeat<S>,
    ) -> Result<SharedTree<S>, Fault>
        requires book { list ≡ S.book }
        requires opening { tree.tree ≡ opening tree.mine }
        requires mine { tree.mine ≡ S.mine }
        requires budget { budget ≡ S.budget }
        requires fresh { IsFresh S.workers seat.served }
        ensures { IfErr result IsNoRoom }
    {
        let places = board.workers(&seat).saturating_add(1);
        let publisher = Publisher::<S>::new(alloc, list, tree, places)?;
        Ok(SharedTree::of_holder(Holder::new(alloc, publisher, budget, seat)))
    }

    /// Puts a holder that a thread had for itself under a lock. It takes no memory.
    pub fn of_holder(holder: Holder<S>) -> SharedTree<S> {
        let look_seats = holder.published_journal.look_seats().ok();
        SharedTree {
            lock: Mutex::new(holder),
            look_seats,
        }
    }

    /// A new seat to look from. It takes no lock. Errors: `NoSeat` where each place is taken.
    pub fn look_seat(&self) -> Result<LookSeat<S>, Fault>
        ensures { IfErr result (λ fault. fault ≡ no_seat) }
    {
        match &self.look_seats {
            Some(look_seats) => look_seats.seat(),
            None => Err(Fault::no_seat()),
        }
    }

    /// Looks from a seat at the version that is published now, as [`LookSeat::look`] does. It takes no lock.
    ///
    /// # Errors
    /// The seat, where there is no version.
    pub fn look(&self, seat: LookSeat<S>) -> Result<Version<S>, LookSeat<S>>
        ensures { MatchResult result (λ version. IsPrefix seat version) (λ back. back ≡ seat) }
    {
        let _ = &self.look_seats;
        seat.look()
    }

    /// Takes the lock and serves the board as the holder does.
    /// Errors: `NoMemory` where memory for an entry or its merger was refused; the asks before it were then answered.
    pub fn serve<R: Wait>(&self, rt: &R, board: &Board<S>) -> Result<u32, Fault>
        ensures { IfErr result (λ fault. fault ≡ no_memory) }
    {
        let mut holder = self.lock.lock(rt);
        let served = holder.serve(rt, board);
        MutexGuard::unlock(holder);
        served
    }

    /// Takes the lock, for one who serves the board more than once before the guard is let go. Of the holder nothing is known
    /// then but its law.
    pub fn lock<R: Wait>(&self, rt: &R) -> MutexGuard<'_, Holder<S>> {
        self.lock.lock(rt)
    }

    /// The same where no other thread has the lock, without waiting for it.
    pub fn try_lock(&self) -> Option<MutexGuard<'_, Holder<S>>> {
        self.lock.try_lock()
    }

    /// Takes the lock and informs the seat of all mergers that were made by then: all that it saw or knew before was a prefix of
    /// these. True if nothing is left to be published, which is always.
    pub fn tell<R: Wait>(&self, rt: &R, seat: &mut LookSeat<S>) -> bool
        ensures before { IsPrefix seat.old seat.new }
        ensures all { result ≡ true }
    {
        let mut holder = self.lock.lock(rt);
        let all = holder.tell(seat);
        MutexGuard::unlock(holder);
        all
    }

    /// The holder, while no other thread has the tree. It takes no lock.
    pub fn holder(&mut self) -> &mut Holder<S> {
        self.lock.get_mut()
    }

    /// The holder, for good, once no thread has the tree any more. It takes no lock.
    pub fn into_holder(self) -> Holder<S> {
        let SharedTree {
            lock,
            look_seats: _,
        } = self;
        lock.into_inner()
    }
}

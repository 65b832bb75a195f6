//! The holder of the lock: a published journal of the instance and the budget that the lock's id names, and the seat that answers its board.
//! `serve` has the pass over the board (flat combining: Hendler, Incze, Shavit and Tzafrir 2010); `shared` puts the holder
//! under a mutex.
ghost use Rattle.std.specs.Prelude.{◌≡◌, ℕ, ◌+◌, ◌<◌, suc, true, [], None, IfOk, IfErr, pos, ◌+ℤ◌, ◌*ℤ◌, ◌≤ℤ◌};
ghost use mathlib.Core.List.{IsPrefix};
ghost use Rattle.faults.specs.Refused.{no_memory};
ghost use Rattle.pit_model.specs.Mine.{arcs};
ghost use Rattle.pit_model.specs.Tree.{IsNormalised};
ghost use Rattle.pit_model.specs.Rank.{positive_worth};
ghost use Rattle.pit_model.specs.Limits.{IsInstance};
ghost use Rattle.pit_model.specs.Journal.{applied_count, IsLawful, Affords, replay};
ghost use Rattle.pit_model.specs.Version.{applied_arcs, IsVersion};
ghost use Rattle.proposals.specs.Ledger.{answered_to, claimed_from};
ghost use Rattle.tree_lock.specs.HolderState.{Decides, opened};
ghost use Rattle.tree_lock.specs.Served.{replies_under, AreUnderSeats, IsFresh, MeetsJournal};

use crate::lock_id::LockId;
use crate::published_journal::PublishedJournal;
use faults::Fault;
use norm_tree::NormTree;
use pit_model::{Entry, Verdict};
use proposals::{Board, HolderSeat, WorkerSeat};
use std::alloc::Global;
use std::marker::Model;
use std::sync::Wait;
use versions::{LookSeat, Publisher};

/// The seat under which the driver's entries stand.
const DRIVER: u32 = 0;

/// To a contract it is its tree, its journal and its budget, the published arcs, the answers to each worker and the claims of it,
/// and the cells of the workers whose words it read, in order. Tree and budget are those of the lock's id. It is not `Drop`, since
/// its end waits for readers that have not left: end it by `into_parts`.
pub struct Holder<S: LockId> {
    pub(crate) published_journal: PublishedJournal<S>,
    pub(crate) seat: HolderSeat<S>,
}

impl<S: LockId> Model for Holder<S> {
    ghost use Rattle.std.specs.Prelude.{◌≡◌};
    ghost use Rattle.tree_lock.specs.HolderState.{HolderState, holder_state};
    ghost use Rattle.tree_lock.specs.Served.{IsServed};

    ghost Value = { HolderState };

    ghost view = { λ h. holder_state S.mine h.published_journal h.seat };

    ghost invariant = { λ h. IsServed S.mine h.published_journal.journal S.workers S.arcs h.seat.served × (h.published_journal.budget ≡ S.budget) };
}

impl<S: LockId> Holder<S> {
    /// The opening tree, with nothing decided.
    pub(crate) fn new(
        alloc: Global,
        publisher: Publisher<S>,
        budget: Option<u64>,
        seat: HolderSeat<S>,
    ) -> Holder<S>
        requires opening { publisher ≡ [] }
        requires budget { budget ≡ S.budget }
        requires fresh { IsFresh S.workers seat.served }
        ensures { result ≡ opened S.mine budget seat }
    {
        Holder {
            published_journal: PublishedJournal::new(alloc, publisher, budget),
            seat,
        }
    }

    /// The law of the lock: what is true of each holder. It is of the instance and the budget that the lock's id names. The journal
    /// is lawful, under the seats of the workers, of arcs that may be asked for, and of the driver, of arcs of the instance. The
    /// tree is its replay by one thread, and normalised. The mergers are at most the budget's, and at most P * (n + 1) + n, P the
    /// sum of the positive values. The entries under each worker's seat are the answers to it, and nothing is claimed. The
    /// published arcs are those of the applied entries, and readers see the tree through them.
    pub fn law(&self)
        ensures mine { self.now.mine ≡ S.mine }
        ensures budget { self.now.budget ≡ S.budget }
        ensures lawful { IsLawful self.now.mine self.now.budget self.now.journal }
        ensures seated { AreUnderSeats self.now.mine S.workers S.arcs self.now.journal }
        ensures replayed { self.now.tree ≡ replay self.now.mine self.now.journal }
        ensures instance { IsInstance self.now.mine }
        ensures normalised { IsNormalised self.now.mine self.now.tree }
        ensures within_budget { Affords self.now.budget (applied_count self.now.journal) }
        ensures bounded { pos (applied_count self.now.journal) ≤ℤ (positive_worth self.now.mine *ℤ pos (suc self.now.mine.blocks) +ℤ pos self.now.mine.blocks) }
        ensures answered { (i : ℕ) → replies_under (i + 1) self.now.journal ≡ answered_to self.now.seats i }
        ensures unclaimed { (i : ℕ) → claimed_from self.now.seats i ≡ None }
        ensures published { self.now.published ≡ applied_arcs self.now.journal }
        ensures version { IsVersion self.now.mine self.now.tree self.now.published }
    {
        let _ = &self.seat;
        self.published_journal.law();
        self.published_journal.tree().law();
    }

    /// The tree as it stands, which is the published one.
    pub fn tree(&self) -> &NormTree
        ensures { result.now ≡ record { mine = self.now.mine; tree = self.now.tree } }
    {
        let _ = &self.seat;
        self.published_journal.tree()
    }

    /// The decisions so far, in order.
    pub fn journal(&self) -> &[Entry]
        ensures { result.now ≡ self.now.journal }
    {
        self.published_journal.journal()
    }

    /// How many mergers may be made; None where nothing limits them.
    pub fn budget(&self) -> Option<u64>
        ensures { result ≡ self.now.budget }
    {
        self.published_journal.budget()
    }

    /// The tree and the journal, for good. It waits for readers that have not left; from then on a look gives its seat back.
    pub fn into_parts<R: Wait>(self, rt: &R) -> (NormTree, Vec<Entry>)
        ensures tree { result.0 ≡ record { mine = self.mine; tree = self.tree } }
        ensures journal { result.1.items ≡ self.journal }
    {
        let Holder {
            published_journal,
            seat: _,
        } = self;
        published_journal.into_parts(rt)
    }

    /// Decides one proposal of the driver, with an entry under seat 0: a merger arc is merged and published, unless the budget
    /// is used up. It waits for readers that have not left an old version.
    /// Errors: `NoMemory` where memory for the entry or the merger was refused; then nothing changed.
    pub fn apply<R: Wait>(&mut self, rt: &R, arc: u32) -> Result<Verdict, Fault>
        requires { arc < arcs self.old.mine }
        ensures decided { IfOk result (Decides arc self.old self.new) }
        ensures refused { IfErr result (λ e. (e ≡ no_memory) × (self.new ≡ self.old)) }
    {
        let _ = &self.seat;
        self.published_journal.decide(rt, DRIVER, arc)
    }

    /// Informs a reader's seat of all mergers that were made: all that it saw or knew before was a prefix of these. True if nothing
    /// is left to be published, which is always.
    pub fn tell(&mut self, seat: &mut LookSeat<S>) -> bool
        ensures same { self.new ≡ self.old }
        ensures told { seat.new ≡ applied_arcs self.old.journal }
        ensures before { IsPrefix seat.old (applied_arcs self.old.journal) }
        ensures all { result ≡ true }
    {
        self.published_journal.law();
        self.published_journal.tell(seat)
    }

    /// Synchronises a worker's seat with the holder's. What each knows stays unchanged, and the entries under the worker's seat and
    /// what it asked and collected then agree.
    pub fn settle(&mut self, board: &Board<S>, worker: &mut WorkerSeat<S>)
        ensures same { (worker.new ≡ worker.old) × (self.new ≡ self.old) }
        ensures meets { MeetsJournal worker.old self.old.journal }
    {
        let _ = &self.published_journal;
        board.settle(worker, &mut self.seat);
    }
}

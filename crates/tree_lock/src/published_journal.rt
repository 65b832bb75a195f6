//! The published tree with its journal and its budget: the law of the lock is the invariant of this type.
//! `holder` says which budget it is of, and adds the seat at the board.
ghost use Rattle.std.specs.Prelude.{◌≡◌, [], true, ◌<◌, ◌^◌, IfOk, IfErr, IsTrue};
ghost use mathlib.Core.List.{IsPrefix};
ghost use Rattle.faults.specs.Refused.{no_memory, no_seat};
ghost use Rattle.pit_model.specs.Tree.{is_merger};
ghost use Rattle.pit_model.specs.Journal.{count_after, is_applied, IsLawful};
ghost use Rattle.pit_model.specs.Version.{applied_arcs, arcs_after, version_tree};
ghost use Rattle.versions.specs.Published.{tree_over};
ghost use Rattle.tree_lock.specs.PublishedJournal.{journal_contents, verdict_for, DecidesIn};

use faults::Fault;
use norm_tree::{NormTree, lawful_verdict};
use pit_model::{Entry, Verdict};
use std::alloc::Global;
use std::marker::Model;
use std::sync::Wait;
use versions::{ListId, LookSeat, LookSeats, Publisher};

/// To a contract it is its journal, its budget and the arcs of its published mergers. End it by `into_parts`.
pub struct PublishedJournal<V: ListId> {
    publisher: Publisher<V>,
    journal: Vec<Entry>,
    budget: Option<u64>,
    /// The applied entries of the journal.
    applied: u64,
}

impl<V: ListId> Model for PublishedJournal<V> {
    ghost use Rattle.tree_lock.specs.PublishedJournal.{JournalContents, journal_contents, JournalInvariant};

    ghost Value = { JournalContents };

    ghost view = { λ b. journal_contents b.journal.items b.budget b.publisher };

    ghost invariant = { λ b. JournalInvariant V.mine b.publisher b.journal.items b.budget b.applied };
}

impl<V: ListId> PublishedJournal<V> {
    /// The opening tree, with nothing decided. It takes no memory.
    pub fn new(alloc: Global, publisher: Publisher<V>, budget: Option<u64>) -> PublishedJournal<V>
        requires { publisher ≡ [] }
        ensures { result ≡ journal_contents [] budget [] }
    {
        PublishedJournal {
            publisher,
            journal: Vec::new(alloc),
            budget,
            applied: 0,
        }
    }

    /// What is true of each published journal: its journal is lawful, and what is published are the journal's applied arcs.
    pub fn law(&self)
        ensures lawful { IsLawful V.mine self.now.budget self.now.journal }
        ensures published { self.now.published ≡ applied_arcs self.now.journal }
    {
        let _ = &self.journal;
    }

    /// The published tree.
    pub fn tree(&self) -> &NormTree
        ensures { result.now ≡ tree_over V.mine self.now.published }
    {
        let _ = &self.journal;
        self.publisher.tree()
    }

    pub fn journal(&self) -> &[Entry]
        ensures { result.now ≡ self.now.journal }
    {
        &self.journal
    }

    pub fn budget(&self) -> Option<u64>
        ensures { result ≡ self.now.budget }
    {
        self.budget
    }

    /// What gives seats to look from. Errors: `NoSeat` where the count of its owners is full.
    pub fn look_seats(&self) -> Result<LookSeats<V>, Fault>
        ensures { IfErr result (λ fault. fault ≡ no_seat) }
    {
        let _ = &self.journal;
        self.publisher.look_seats()
    }

    pub fn into_parts<R: Wait>(self, rt: &R) -> (NormTree, Vec<Entry>)
        ensures tree { result.0 ≡ tree_over V.mine self.published }
        ensures journal { result.1.items ≡ self.journal }
    {
        let PublishedJournal {
            publisher,
            journal,
            budget: _,
            applied: _,
        } = self;
        (publisher.into_tree(rt), journal)
    }

    /// Informs the seat of all that is published; true if nothing is pending, which is always.
    pub fn tell(&mut self, seat: &mut LookSeat<V>) -> bool
        ensures same { self.new ≡ self.old }
        ensures told { seat.new ≡ self.old.published }
        ensures before { IsPrefix seat.old self.old.published }
        ensures all { result ≡ true }
    {
        self.publisher.tell(seat)
    }

    /// The lawful verdict on an arc.
    fn verdict_on(&self, arc: u32) -> Verdict
        ensures { result ≡ verdict_for V.mine self.now arc }
    {
        lawful_verdict(self.tree(), self.budget, self.applied, arc)
    }

    /// Counts a decision in the counters of the instance.
    fn count(&self, verdict: Verdict) {
        let counters = self.tree().instance().counters();
        counters.decided(verdict == Verdict::Stale);
        if verdict == Verdict::Applied {
            counters.merged();
        }
    }

    /// Decides one proposal for a seat, with an entry; an applied merger is published. Where memory for that was refused,
    /// nothing changed.
    pub fn decide<R: Wait>(&mut self, rt: &R, seat: u32, arc: u32) -> Result<Verdict, Fault>
        ensures decided { IfOk result (DecidesIn V.mine seat arc self.old self.new) }
        ensures refused { IfErr result (λ e. (e ≡ no_memory) × (self.new ≡ self.old)) }
    {
        self.journal.reserve(1)?;
        let verdict = self.verdict_on(arc);
        let entry = Entry { seat, arc, verdict };
        match carry_out(rt, &mut self.publisher, &mut self.applied, entry) {
            Ok(()) => {}
            Err(error) => return Err(error),
        }
        self.journal.push_reserved(entry);
        self.count(verdict);
        Ok(verdict)
    }
}

/// Makes and publishes the merger of an applied entry, and counts it. Where memory was refused, nothing changed.
fn carry_out<V: ListId, R: Wait>(
    rt: &R,
    publisher: &mut Publisher<V>,
    applied: &mut u64,
    entry: Entry,
) -> Result<(), Fault>
    requires merger { is_applied entry.verdict ≡ true → IsTrue (is_merger V.mine (version_tree V.mine publisher.old) entry.arc) }
    requires room { applied.old < 2 ^ 63 }
    ensures done { IfOk result (λ _. (publisher.new ≡ arcs_after publisher.old entry) × (applied.new ≡ count_after applied.old entry)) }
    ensures refused { IfErr result (λ e. (e ≡ no_memory) × (publisher.new ≡ publisher.old) × (applied.new ≡ applied.old)) }
{
    match entry.verdict {
        Verdict::Applied => match publisher.publish(rt, entry.arc) {
            Ok(()) => {
                *applied += 1;
                Ok(())
            }
            Err(error) => Err(error),
        },
        Verdict::Stale | Verdict::Spent => Ok(()),
    }
}

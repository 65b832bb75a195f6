//! A prefix of the list of arcs, as someone saw it: its length, and the last of its arcs. The arcs before are known in the proofs
//! alone, so a prefix takes two numbers.
ghost use Rattle.std.specs.Prelude.{◌≡◌, [], ◌∷◌, ◌++◌, IsTrue, IfSome};
ghost use mathlib.Core.List.{IsPrefix};
ghost use Rattle.versions.specs.Published.{are_same};

use crate::link::ArcLink;
use crate::list_id::ListId;
use crate::list_word::{ListWord, MOST, UNIT};
use crate::steps::{ListRule, Look, Nothing};
use logbook::{Offer, Seen};
use std::marker::{Model, PhantomData};

/// To a contract it is its arcs.
#[derive(Drop)]
pub struct Prefix<V: ListId> {
    pub(crate) count: u64,
    pub(crate) last: u32,
    pub(crate) seen: Seen<ArcLink, u64, ListRule>,
    pub(crate) id: PhantomData<V>,
}

impl<V: ListId> Model for Prefix<V> {
    ghost use Rattle.std.specs.Prelude.{◌≡◌, ℕ, ◌+◌, List, length};
    ghost use Rattle.versions.specs.ArcList.{arcs_of, last_of};

    ghost Value = { List ℕ };

    ghost view = { λ b. arcs_of b.seen.log };

    ghost invariant = { λ b. (b.seen.book ≡ V.book) × (length b.seen.log ≡ b.count + 1) × ((last_of b.seen.log).arc ≡ b.last) };
}

impl<V: ListId> Prefix<V> {
    /// The same prefix. It takes no memory.
    pub fn again(&self) -> Prefix<V>
        ensures { result ≡ self.now }
    {
        Prefix {
            count: self.count,
            last: self.last,
            seen: self.seen.again(),
            id: PhantomData,
        }
    }

    /// Whether it has no more arcs than the other: then the other begins with it.
    pub fn begins(&self, other: &Prefix<V>) -> bool
        ensures { IsTrue result → IsPrefix self.now other.now }
    {
        let mut both = self.seen.again();
        both.learn(&other.seen);
        if self.count > other.count {
            return false;
        }
        true
    }

    /// Whether the other is the same.
    pub fn is_same(&self, other: &Prefix<V>) -> bool
        ensures exact { result ≡ are_same self.now other.now }
        ensures same { IsTrue result → other.now ≡ self.now }
    {
        let mut both = self.seen.again();
        both.learn(&other.seen);
        if self.count != other.count {
            return false;
        }
        true
    }

    /// Whether the other is this with the arc.
    pub fn is_followed(&self, other: &Prefix<V>, arc: u32) -> bool
        ensures exact { result ≡ are_same (self.now ++ arc ∷ []) other.now }
        ensures same { IsTrue result → other.now ≡ self.now ++ arc ∷ [] }
    {
        let mut both = self.seen.again();
        both.learn(&other.seen);
        if other.count == 0 || other.count - 1 != self.count {
            return false;
        }
        if other.last != arc {
            return false;
        }
        true
    }

    /// This with the arc, where that is the whole list by now: one load, and no memory.
    pub fn followed(&self, list_word: &ListWord<V>, arc: u32) -> Option<Prefix<V>>
        ensures { IfSome result (λ b. b ≡ self.now ++ arc ∷ []) }
    {
        if self.count >= MOST || u64::from(arc) >= UNIT {
            return None;
        }
        let mut seen = self.seen.again();
        let mut offer: Offer<ArcLink, u64, ListRule, Nothing> = seen.plain::<
            Nothing,
            ArcLink,
            Look,
        >(&ArcLink::blank());
        let found = list_word.word.load::<Look, Nothing>(&mut seen, &mut offer);
        if found != (self.count + 2) * UNIT + u64::from(arc) {
            return None;
        }
        Some(Prefix {
            count: self.count + 1,
            last: arc,
            seen,
            id: PhantomData,
        })
    }
}

//! The arcs that a copy of the tree has taken in. Each is added with the list before it, so that a copy knows its list, however
//! many arcs it takes in at a time; the list's word reports only the last one.
ghost use Rattle.std.specs.Prelude.{◌≡◌, [], ◌∷◌, ◌++◌, IfSome, IsTrue};
ghost use Rattle.versions.specs.Published.{are_same};

use crate::list_id::ListId;
use crate::list_word::ListWord;
use crate::prefix::Prefix;
use std::marker::Model;

/// An arc that the copies are to take in, and the list before it. To a contract it is both.
#[derive(Drop)]
pub struct Addition<V: ListId> {
    before: Prefix<V>,
    arc: u32,
}

impl<V: ListId> Model for Addition<V> {
    ghost use Rattle.std.specs.Prelude.{ℕ, List};

    ghost Value = { List ℕ × ℕ };

    ghost view = { λ a. (a.before, a.arc) };
}

impl<V: ListId> Addition<V> {
    pub fn new(before: Prefix<V>, arc: u32) -> Addition<V>
        ensures { result ≡ (before, arc) }
    {
        Addition { before, arc }
    }

    pub fn before(&self) -> &Prefix<V>
        ensures { result.now ≡ self.now.0 }
    {
        &self.before
    }

    pub fn arc(&self) -> u32
        ensures { result ≡ self.now.1 }
    {
        self.arc
    }
}

/// To a contract it is the arcs.
#[derive(Drop)]
pub struct TakenIn<V: ListId> {
    told: Prefix<V>,
    /// An arc after them that the list's word had not reported when it was taken in, as in no run. The next addition reports it.
    last: Option<u32>,
}

impl<V: ListId> Model for TakenIn<V> {
    ghost use Rattle.std.specs.Prelude.{ℕ, List};
    ghost use Rattle.versions.specs.Published.{with_last};

    ghost Value = { List ℕ };

    ghost view = { λ t. with_last t.told t.last };
}

impl<V: ListId> TakenIn<V> {
    pub fn new(told: Prefix<V>) -> TakenIn<V>
        ensures { result ≡ told }
    {
        TakenIn { told, last: None }
    }

    /// Whether they are this list.
    pub fn are(&self, list: &Prefix<V>) -> bool
        ensures exact { result ≡ are_same self.now list.now }
        ensures same { IsTrue result → list.now ≡ self.now }
    {
        match self.last {
            None => self.told.is_same(list),
            Some(arc) => self.told.is_followed(list, arc),
        }
    }

    /// They are the addition's from then on.
    pub fn grow(&mut self, list_word: &ListWord<V>, addition: &Addition<V>)
        ensures { self.new ≡ addition.now.0 ++ addition.now.1 ∷ [] }
    {
        match addition.before.followed(list_word, addition.arc) {
            Some(told) => {
                self.told = told;
                self.last = None;
            }
            None => {
                self.told = addition.before.again();
                self.last = Some(addition.arc);
            }
        }
    }

    /// Returns them as a prefix of the list, if it reported the last one, as in each run.
    pub fn told(&self) -> Option<&Prefix<V>>
        ensures { IfSome result (λ told. told.now ≡ self.now) }
    {
        match self.last {
            None => Some(&self.told),
            Some(_) => None,
        }
    }
}

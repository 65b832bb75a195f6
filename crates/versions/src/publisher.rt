//! The side of the holder of the lock: the list of the mergers made, and the two copies of the tree.
//! Each arc is published at once, so that nothing is ever left pending.
ghost use Rattle.std.specs.Prelude.{◌≡◌, ◌<◌, ◌^◌, [], ◌∷◌, ◌++◌, true, drop, fold, length, IsTrue, IfOk, IfErr};
ghost use mathlib.Core.List.{IsPrefix};
ghost use Rattle.faults.specs.Refused.{no_memory, no_seat, IsNoRoom};
ghost use Rattle.pit_model.specs.Tree.{is_merger, opening};
ghost use Rattle.pit_model.specs.Version.{version_tree, IsVersion};
ghost use Rattle.versions.specs.Published.{taken_in, tree_over};

use crate::list_id::ListId;
use crate::list_word::MOST;
use crate::list_writer::{ListWriter, UnnamedList};
use crate::look::{LookSeat, LookSeats};
use crate::taken::Addition;
use crate::tree_copy::TreeCopy;
use core::mem::replace_with;
use crossbeam_utils::rule::Unruled;
use faults::Fault;
use left_right::Absorb;
use left_right::writer::Writer;
use norm_tree::NormTree;
use std::alloc::{AllocError, Global};
use std::marker::Model;
use std::sync::Wait;

type Copies<V> = Writer<TreeCopy<V>, Addition<V>, (), Unruled>;

/// To a contract it is the arcs that were merged over, all of them published. It is not `Drop`, since its end waits for readers:
/// end it by `into_tree`.
pub struct Publisher<V: ListId>
where
    TreeCopy<V>: Absorb<Addition<V>, State = TreeCopy<V>>,
{
    list_writer: ListWriter<V>,
    copies: Copies<V>,
}

impl<V: ListId> Model for Publisher<V>
where
    TreeCopy<V>: Absorb<Addition<V>, State = TreeCopy<V>>,
{
    ghost use Rattle.std.specs.Prelude.{ℕ, List, drop};
    ghost use Rattle.versions.specs.Published.{IsPublished};

    ghost Value = { List ℕ };

    ghost view = { λ p. p.list_writer };

    ghost invariant = { λ p. IsPublished V.mine p.copies.desk.shown.value p.list_writer (drop p.copies.behind p.copies.log.items) };
}

/// Shows readers the copy that has taken in every arc. It waits for those that still read the other copy.
fn shown<V: ListId, R: Wait>(copies: Copies<V>, rt: &R) -> Copies<V>
    ensures shown { result.desk.shown.value ≡ fold taken_in copies.desk.shown.value (drop copies.behind copies.log.items) }
    ensures none_left { drop result.behind result.log.items ≡ [] }
{
    let (copies, _taken_in) = copies.publish_as::<Unruled, R>(rt);
    copies
}

/// The same through a `&mut`.
fn show<V: ListId, R: Wait>(copies: &mut Copies<V>, rt: &R)
    ensures shown { copies.new.desk.shown.value ≡ fold taken_in copies.old.desk.shown.value (drop copies.old.behind copies.old.log.items) }
    ensures none_left { drop copies.new.behind copies.new.log.items ≡ [] }
{
    replace_with(copies, rt, |copies, rt| (shown(copies, rt), ()));
}

impl<V: ListId> Publisher<V> {
    /// Publishes the opening tree, and makes a copy of it and room for `seats` seats. Errors: `NoMemory` if memory was refused,
    /// `NoSeat` if the table of places was.
    pub fn new(
        alloc: Global,
        list: UnnamedList,
        tree: NormTree,
        seats: u32,
    ) -> Result<Publisher<V>, Fault>
        requires book { list ≡ V.book }
        requires mine { tree.mine ≡ V.mine }
        requires opening { tree.tree ≡ opening tree.mine }
        requires seats { 0 < seats }
        ensures made { IfOk result (λ publisher. publisher ≡ []) }
        ensures refused { IfErr result IsNoRoom }
    {
        let list_writer = ListWriter::<V>::new(alloc, list)?;
        let first_word = list_writer.list_word()?;
        let second_word = list_writer.list_word()?;
        let second = TreeCopy::new(tree.copy()?, second_word, list_writer.whole());
        let first = TreeCopy::new(tree, first_word, list_writer.whole());
        match Writer::new(alloc, first, second, seats as usize) {
            Ok(copies) => Ok(Publisher {
                list_writer,
                copies,
            }),
            Err(_) => Err(Fault::no_seat()),
        }
    }

    /// What is true of each publisher: each arc was a merger arc at its turn.
    pub fn law(&self)
        ensures { IsVersion V.mine (version_tree V.mine self.now) self.now }
    {
        let _ = &self.list_writer;
    }

    /// The published tree.
    pub fn tree(&self) -> &NormTree
        ensures { result.now ≡ tree_over V.mine self.now }
    {
        let _ = &self.list_writer;
        self.copies.published().tree()
    }

    /// What gives seats to look from, which know of all that is published. Errors: `NoSeat` where the count of owners is full.
    pub fn look_seats(&self) -> Result<LookSeats<V>, Fault>
        ensures made { IfOk result (λ seats. seats ≡ self.now) }
        ensures refused { IfErr result (λ fault. fault ≡ no_seat) }
    {
        match self.copies.factory().another() {
            Ok(factory) => Ok(LookSeats::new(factory, self.list_writer.whole())),
            Err(_) => Err(Fault::no_seat()),
        }
    }

    /// Merges over the arc and publishes that. It waits for readers that have not left an old version.
    ///
    /// # Errors
    /// `NoMemory`, where memory was refused, and always after 2^36 mergers. Then nothing changed.
    pub fn publish<R: Wait>(&mut self, rt: &R, arc: u32) -> Result<(), Fault>
        requires { IsTrue (is_merger V.mine (version_tree V.mine self.old) arc) }
        ensures published { IfOk result (λ _. self.new ≡ self.old ++ arc ∷ []) }
        ensures few { IfOk result (λ _. length self.old < 2 ^ 36) }
        ensures refused { IfErr result (λ fault. (fault ≡ no_memory) × (self.new ≡ self.old)) }
    {
        self.tree().law();
        if self.list_writer.count() >= MOST {
            return Err(Fault::from(AllocError));
        }
        let addition = Addition::new(self.list_writer.whole(), arc);
        match self.copies.append(addition) {
            Ok(()) => {}
            Err(_) => return Err(Fault::from(AllocError)),
        }
        self.list_writer.write(arc);
        show(&mut self.copies, rt);
        Ok(())
    }

    /// Informs the seat of all that is published: all that it saw or knew before was a prefix of that. True if nothing is pending,
    /// which is always.
    pub fn tell(&mut self, seat: &mut LookSeat<V>) -> bool
        ensures same { self.new ≡ self.old }
        ensures told { seat.new ≡ self.old }
        ensures before { IsPrefix seat.old self.old }
        ensures all { result ≡ true }
    {
        self.list_writer.confirm(seat.list());
        seat.learn(self.list_writer.whole());
        !self.copies.has_pending_operations()
    }

    /// The published tree, for good. It waits for readers that have not left; from then on a look gives its seat back.
    pub fn into_tree<R: Wait>(self, rt: &R) -> NormTree
        ensures { result ≡ tree_over V.mine self }
    {
        let Publisher {
            list_writer: _,
            copies,
        } = self;
        Box::into_inner(copies.take(rt)).into_tree()
    }
}

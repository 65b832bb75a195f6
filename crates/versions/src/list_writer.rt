//! The writer of the list of arcs. There is one, so it knows the list whole, and so all that anyone saw is a prefix of it.
ghost use Rattle.std.specs.Prelude.{◌≡◌, ◌<◌, ◌^◌, [], ◌∷◌, ◌++◌, length, IfOk, IfErr};
ghost use mathlib.Core.List.{IsPrefix};
ghost use Rattle.logbook.specs.Pages.{nib, may_write};
ghost use Rattle.faults.specs.Refused.{no_memory, no_seat};
ghost use Rattle.versions.specs.ArcList.{link, list_head};

use crate::link::ArcLink;
use crate::list_id::ListId;
use crate::list_word::{ListWord, UNIT};
use crate::prefix::Prefix;
use crate::steps::{Begin, Confirm, ListRule, Look, NextLink, Nothing, Widen, Write};
use faults::Fault;
use logbook::{Offer, Pen, Seen, Start, Word};
use std::alloc::Global;
use std::marker::{Model, PhantomData};
use std::sync::Arc;

/// A list without an arc, of a book that no type names yet. To a contract it is that book.
#[derive(Drop)]
pub struct UnnamedList {
    word: Word<ArcLink, u64, ListRule>,
    seen: Seen<ArcLink, u64, ListRule>,
    pen: Pen,
}

impl Model for UnnamedList {
    ghost use Rattle.std.specs.Prelude.{◌≡◌, [], ◌∷◌};
    ghost use Rattle.logbook.specs.Pages.{Book, book_coded, nib, may_write};
    ghost use Rattle.versions.specs.ArcList.{link, list_head};

    ghost Value = { Book };

    ghost coded = { book_coded };

    ghost view = { λ l. l.seen.book };

    ghost invariant = { λ l. (l.seen.log ≡ link 0 l.pen.nib.key ∷ []) × (l.word ≡ list_head l.seen.book) × (l.pen.book ≡ l.seen.book) × (l.pen.nib ≡ nib may_write l.pen.nib.key 0) };
}

impl UnnamedList {
    /// A new list. Errors: `NoSeat` where its word was found in use, as in no run.
    pub fn new() -> Result<UnnamedList, Fault>
        ensures { IfErr result (λ fault. fault ≡ no_seat) }
    {
        let (mut seen, mut first, _second) = Seen::open(Start::alone(), 0, 0);
        let word = Word::tracked(0, &mut first);
        let mut offer: Offer<ArcLink, u64, ListRule, Nothing> = seen.plain::<
            Nothing,
            ArcLink,
            Look,
        >(&ArcLink::blank());
        let mut pen = seen.no_pen();
        let found = word.compare_exchange::<Begin, Nothing>(
            0, UNIT, &mut seen, &mut offer, &mut pen,
        );
        if found != 0 {
            return Err(Fault::no_seat());
        }
        let _cell: Word<ArcLink, u64, ListRule> = Word::tracked(0, &mut pen);
        Ok(UnnamedList { word, seen, pen })
    }
}

/// To a contract it is the list.
#[derive(Drop)]
pub struct ListWriter<V: ListId> {
    list_word: Arc<ListWord<V>, Global>,
    count: u64,
    last: u32,
    seen: Seen<ArcLink, u64, ListRule>,
    pen: Pen,
}

impl<V: ListId> Model for ListWriter<V> {
    ghost use Rattle.std.specs.Prelude.{◌≡◌, ℕ, ◌+◌, List, length};
    ghost use Rattle.logbook.specs.Pages.{may_write};
    ghost use Rattle.versions.specs.ArcList.{arcs_of, last_of};

    ghost Value = { List ℕ };

    ghost view = { λ s. arcs_of s.seen.log };

    ghost invariant = { λ s. (s.seen.book ≡ V.book) × (length s.seen.log ≡ s.count + 1) × ((last_of s.seen.log).arc ≡ s.last) × (s.pen.book ≡ V.book) × (s.pen.nib.right ≡ may_write) × (s.pen.nib.key ≡ (last_of s.seen.log).next) };
}

impl<V: ListId> ListWriter<V> {
    /// The list under the name `V`. Errors: `NoMemory` where memory for its word was refused.
    pub fn new(alloc: Global, list: UnnamedList) -> Result<ListWriter<V>, Fault>
        requires { list ≡ V.book }
        ensures made { IfOk result (λ list_writer. list_writer ≡ []) }
        ensures refused { IfErr result (λ fault. fault ≡ no_memory) }
    {
        let UnnamedList { word, seen, pen } = list;
        let list_word = ListWord {
            word,
            id: PhantomData,
        };
        Ok(ListWriter {
            list_word: Arc::new(alloc, list_word)?,
            count: 0,
            last: 0,
            seen,
            pen,
        })
    }

    /// The word of the list, to be shared. Errors: `NoMemory` where the count of its owners is full.
    pub fn list_word(&self) -> Result<Arc<ListWord<V>, Global>, Fault>
        ensures { IfErr result (λ fault. fault ≡ no_memory) }
    {
        Ok(Arc::try_clone(&self.list_word)?)
    }

    /// How many arcs the list has.
    pub fn count(&self) -> u64
        ensures { result ≡ length self.now }
    {
        self.count
    }

    /// The whole list, as a prefix.
    pub fn whole(&self) -> Prefix<V>
        ensures { result ≡ self.now }
    {
        Prefix {
            count: self.count,
            last: self.last,
            seen: self.seen.again(),
            id: PhantomData,
        }
    }

    /// The list begins with all that was seen of it.
    pub fn confirm(&mut self, other: &Prefix<V>)
        ensures same { self.new ≡ self.old }
        ensures begins { IsPrefix other.now self.old }
    {
        let mut seen = self.seen.again();
        seen.learn(&other.seen);
        let mut offer: Offer<ArcLink, u64, ListRule, Nothing> = seen.plain::<
            Nothing,
            ArcLink,
            Look,
        >(&ArcLink::blank());
        let word = &self.list_word.word;
        word.compare_exchange::<Confirm, Nothing>(0, 0, &mut seen, &mut offer, &mut self.pen);
    }

    /// A new cell: its pen.
    fn widen(&self) -> Pen
        ensures { (result.book ≡ V.book) × (result.nib ≡ nib may_write result.nib.key 0) }
    {
        let mut pen = self.seen.no_pen();
        let mut seen = self.seen.again();
        let mut offer: Offer<ArcLink, u64, ListRule, Nothing> = seen.plain::<
            Nothing,
            ArcLink,
            Look,
        >(&ArcLink::blank());
        let word = &self.list_word.word;
        word.compare_exchange::<Widen, Nothing>(0, 0, &mut seen, &mut offer, &mut pen);
        let _cell: Word<ArcLink, u64, ListRule> = Word::tracked(0, &mut pen);
        pen
    }

    /// Writes the arc behind the others. It takes no memory.
    pub fn write(&mut self, arc: u32)
        requires few { length self.old < 2 ^ 36 }
        requires small { arc < 2 ^ 26 }
        ensures { self.new ≡ self.old ++ arc ∷ [] }
    {
        let next = NextLink {
            arc,
            pen: self.widen(),
        };
        let mut offer: Offer<ArcLink, u64, ListRule, Nothing> = self
            .seen
            .plain::<Nothing, NextLink, Write>(&next);
        let old = (self.count + 1) * UNIT + u64::from(self.last);
        let new = (self.count + 2) * UNIT + u64::from(arc);
        let word = &self.list_word.word;
        word.compare_exchange::<Write, Nothing>(
            old,
            new,
            &mut self.seen,
            &mut offer,
            &mut self.pen,
        );
        let NextLink { arc: _, pen } = next;
        self.pen = pen;
        self.count += 1;
        self.last = arc;
    }
}

//! Reads of the published version: without a lock, without waiting and without memory. A seat remembers what it saw and knew, so
//! that no later read shows less.
ghost use Rattle.std.specs.Prelude.{◌≡◌, ◌<◌, IfOk, IfErr, MatchResult};
ghost use mathlib.Core.List.{IsPrefix};
ghost use Rattle.faults.specs.Refused.{no_seat};
ghost use Rattle.pit_model.specs.Tree.{is_merger, is_strong};
ghost use Rattle.pit_model.specs.Version.{version_tree, IsVersion};

use crate::list_id::ListId;
use crate::prefix::Prefix;
use crate::tree_copy::TreeCopy;
use crossbeam_utils::rule::Unruled;
use faults::Fault;
use left_right::reader::{Factory, Reader, Reading};
use mine_graph::Instance;
use std::marker::Model;

/// Gives readers' seats. Threads may share it. To a contract it is the arcs that each new seat knows.
#[derive(Drop)]
pub struct LookSeats<V: ListId> {
    factory: Factory<TreeCopy<V>, (), Unruled>,
    list: Prefix<V>,
}

impl<V: ListId> Model for LookSeats<V> {
    ghost use Rattle.std.specs.Prelude.{ℕ, List};

    ghost Value = { List ℕ };

    ghost view = { λ s. s.list };
}

/// A reader's seat. To a contract it is the arcs that it saw or knows: those of its last read or of its last message, which begin
/// with all before.
#[derive(Drop)]
pub struct LookSeat<V: ListId> {
    reader: Reader<TreeCopy<V>, (), Unruled>,
    list: Prefix<V>,
}

impl<V: ListId> Model for LookSeat<V> {
    ghost use Rattle.std.specs.Prelude.{ℕ, List};

    ghost Value = { List ℕ };

    ghost view = { λ s. s.list };
}

/// A version of the tree, which stays as it is until it is left. To a contract it is the arcs that were merged over.
pub struct Version<V: ListId> {
    reading: Reading<TreeCopy<V>, (), Unruled>,
    list: Prefix<V>,
}

impl<V: ListId> Model for Version<V> {
    ghost use Rattle.std.specs.Prelude.{◌≡◌, ℕ, List};
    ghost use Rattle.pit_model.specs.Version.{IsVersion};

    ghost Value = { List ℕ };

    ghost view = { λ v. v.list };

    ghost invariant = { λ v. IsVersion V.mine v.reading.part.value.tree v.list };
}

impl<V: ListId> LookSeats<V> {
    pub(crate) fn new(factory: Factory<TreeCopy<V>, (), Unruled>, list: Prefix<V>) -> LookSeats<V>
        ensures { result ≡ list }
    {
        LookSeats { factory, list }
    }

    /// A new seat. Errors: `NoSeat` where each place is taken.
    pub fn seat(&self) -> Result<LookSeat<V>, Fault>
        ensures made { IfOk result (λ seat. seat ≡ self.now) }
        ensures refused { IfErr result (λ fault. fault ≡ no_seat) }
    {
        match self.factory.reader() {
            Ok(reader) => Ok(LookSeat {
                reader,
                list: self.list.again(),
            }),
            Err(_) => Err(Fault::no_seat()),
        }
    }
}

impl<V: ListId> LookSeat<V> {
    /// Returns what it saw or knows.
    pub(crate) fn list(&self) -> &Prefix<V>
        ensures { result.now ≡ self.now }
    {
        &self.list
    }

    /// It knows this list from now on.
    pub(crate) fn learn(&mut self, list: Prefix<V>)
        ensures { self.new ≡ list }
    {
        self.list = list;
    }

    /// Returns the published version. It takes no lock, waits for nobody and allocates nothing. Its arcs begin with all that the
    /// seat saw or knew. The seat is returned if there is no version: the publisher is gone.
    pub fn look(self) -> Result<Version<V>, LookSeat<V>>
        ensures { MatchResult result (λ version. IsPrefix self version) (λ seat. seat ≡ self) }
    {
        let LookSeat { reader, list } = self;
        let reading = match reader.enter_as::<Unruled>() {
            Ok(reading) => reading,
            Err(reader) => return Err(LookSeat { reader, list }),
        };
        let told = reading.get().arcs().told().map(|told| told.again());
        match told {
            Some(seen) if list.begins(&seen) => Ok(Version {
                reading,
                list: seen,
            }),
            _ => Err(LookSeat {
                reader: reading.leave(),
                list,
            }),
        }
    }
}

impl<V: ListId> Version<V> {
    /// What is true of each version: each arc was a merger arc at its turn.
    pub fn law(&self)
        ensures { IsVersion V.mine (version_tree V.mine self.now) self.now }
    {
        let _ = &self.list;
    }

    /// The instance that the tree is of.
    pub fn instance(&self) -> &Instance
        ensures { result.now ≡ V.mine }
    {
        let _ = &self.list;
        self.reading.get().tree().instance()
    }

    /// Whether the root that the block reaches has an excess above 0, in this version's tree.
    pub fn is_strong(&self, block: u32) -> bool
        requires { block < V.mine.blocks }
        ensures { result ≡ is_strong V.mine (version_tree V.mine self.now) block }
    {
        let _ = &self.list;
        self.reading.get().tree().is_strong(block)
    }

    /// Whether the arc leads from a strong block to a weak one, in this version's tree. A number that no arc has names no
    /// merger arc.
    pub fn is_merger(&self, arc: u32) -> bool
        ensures { result ≡ is_merger V.mine (version_tree V.mine self.now) arc }
    {
        let _ = &self.list;
        self.reading.get().tree().is_merger(arc)
    }

    /// Leaves it and returns the seat, which remembers what it saw. The publisher waits for readers that have not left an old
    /// version.
    pub fn leave(self) -> LookSeat<V>
        ensures { result ≡ self }
    {
        let Version { reading, list } = self;
        LookSeat {
            reader: reading.leave(),
            list,
        }
    }
}

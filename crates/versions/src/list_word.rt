//! The word of the list, which all threads share: how long the list is, and its last arc.
ghost use Rattle.std.specs.Prelude.{◌≡◌};
ghost use Rattle.versions.specs.ArcList.{list_head};

use crate::link::ArcLink;
use crate::list_id::ListId;
use crate::steps::ListRule;
use logbook::Word;
use std::marker::PhantomData;

/// Arcs are below this, and the length of the list is counted in units of this.
pub(crate) const UNIT: u64 = 1 << 26;

/// The most arcs that a list takes: a journal of them would fill more than a terabyte.
pub(crate) const MOST: u64 = 1 << 36;

/// The word, of the id's book.
#[derive(Drop)]
pub struct ListWord<V: ListId> {
    pub(crate) word: Word<ArcLink, u64, ListRule>,
    pub(crate) id: PhantomData<V>,
    ghost head_is: { word ≡ list_head V.book },
}

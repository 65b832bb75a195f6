//! The tree under its lock: the holder decides each proposal, with an entry in the journal. Readers read the published version
//! without the lock.
#![tactic(auto)]

mod holder;
mod lock_id;
mod published_journal;
mod serve;
mod shared;

pub use holder::Holder;
pub use lock_id::LockId;
pub use pit_model::{Entry, Verdict};
pub use shared::SharedTree;
pub use versions::{ListId, LookSeat, UnnamedList, Version};

//! Versions of the tree: readers read a published one without a lock, while the holder of the lock changes the other copy.
#![tactic(auto)]

mod link;
mod list_id;
mod list_word;
mod list_writer;
mod look;
mod prefix;
mod publisher;
mod steps;
mod taken;
mod tree_copy;

pub use list_id::ListId;
pub use list_writer::UnnamedList;
pub use look::{LookSeat, LookSeats, Version};
pub use publisher::Publisher;

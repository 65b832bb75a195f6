//! The normalised tree of the pseudoflow method (Hochbaum 2008), changed by mergers and by increases of a block's value.
#![tactic(auto)]

mod bare;
mod flow;
mod gather;
mod increase_value;
mod index;
mod labels;
mod marks;
mod merge;
mod pit;
mod rank;
mod renew;
mod rising_tree;
mod tree;
mod verdict;
mod walk;

pub use bare::BareTree;
pub use rising_tree::RisingTree;
pub use tree::NormTree;
pub use verdict::lawful_verdict;

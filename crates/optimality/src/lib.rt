//! A pit with the flow that shows that it is the smallest closed set of greatest worth: made of a tree, and checked.
#![tactic(auto)]

mod conditions;
mod excess;
mod make;
mod pit_with_flow;
mod reach;

pub use conditions::check;
pub use make::of_tree;
pub use pit_with_flow::Certificate;

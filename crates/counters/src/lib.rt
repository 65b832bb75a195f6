//! What a run has done up to now, counted for its observers.
#![tactic(auto)]

mod counters;
mod phase;
mod stats;

pub use counters::Counters;
pub use phase::Phase;
pub use stats::Stats;

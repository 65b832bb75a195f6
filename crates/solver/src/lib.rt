//! Solves an instance in the mode that is asked for: by one thread, by its parts, or by workers at one tree.
#![tactic(auto)]

mod calls;
mod mode;
mod search;

pub use calls::{PitOutcome, solve_fixed, solve_greatest};
pub use crew::{Entry, Gate, OpenGate, Verdict, solve_shared};
pub use merging::{Outcome, solve_parts, solve_single};
pub use mode::Mode;
pub use pit_search::{FoundPit, solve_pit_sequential};
pub use search::Search;

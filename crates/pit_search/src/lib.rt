//! Searches for the pit of a mine, however minimal pits are found: fixed blocks leave a rest, whose dual is searched for the
//! greatest pit.
#![tactic(auto)]

mod dual;
mod find;
mod found_pit;
mod pit_solver;
mod searched;
mod sequential;

pub use dual::{dual_instance, outside};
pub use find::{find_pit, find_pit_without_fixed_blocks};
pub use found_pit::FoundPit;
pub use pit_solver::{FnSolver, PitSolver};
pub use searched::Searched;
pub use sequential::{SequentialSolver, solve_pit_sequential};

//! Solves an instance by workers at one tree. Each reads the published version and asks for merger arcs; the holder of the lock
//! decides the asks on the board. The driver makes the mergers that are left.
#![tactic(auto)]

mod driver;
mod gate;
mod shared;
mod sweeps;
mod work_chunks;
mod worker;
mod worker_seats;

pub use gate::{Gate, OpenGate};
pub use shared::solve_shared;
pub use tree_lock::{Entry, Verdict};

//! The outcome of a solve.

use optimality::Certificate;

/// The outcome of a solve.
#[derive(Debug, Drop)]
pub enum Outcome {
    /// The pit, with the flow that proves it optimal.
    Pit(Certificate),
    /// The budget of this many mergers is used up, and a merger arc is left.
    Exhausted(u64),
}

//! What was counted, as plain numbers.

/// What a run had done when its counters were read.
#[derive(Clone, Copy, PartialEq, Eq, Debug)]
pub struct Stats {
    /// Bytes of the inputs, and the blocks and pairs that they spell.
    pub bytes: u64,
    pub blocks: u64,
    pub pairs: u64,
    /// Mergers that an order or the workers made, those of the closing loop, and those of plans.
    pub mergers: u64,
    pub closing: u64,
    pub planned: u64,
    /// How often a block got the next label.
    pub relabels: u64,
    /// Sweeps of workers, the arcs that were asked for, and how many of these were no merger arcs any more.
    pub sweeps: u64,
    pub asks: u64,
    pub stale: u64,
    /// The price factor that is solved, from 1; 0 before the first.
    pub factor: u64,
    pub factors: u64,
}

//! The ways to solve an instance.

/// How an instance is solved. A budget is how many mergers may be made; None where nothing limits them.
#[derive(Clone, Copy, Debug)]
pub enum Mode {
    /// By one thread.
    Single {
        budget: Option<u64>,
    },
    /// Each part that no pair joins to another by itself.
    Parts,
    /// By `workers` workers, 1 to 64, at one tree, with `chunk` arcs at a time for each, 1 to 67,108,864.
    Shared {
        workers: u32,
        budget: Option<u64>,
        chunk: u32,
    },
}

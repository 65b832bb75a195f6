//! Which line of a certificate's text is due, as the lines before it have named their counts. `reader` goes from one to
//! the next, and `head` up to the blocks of the pit.

/// The line that is due.
#[derive(Clone, Copy)]
pub enum CertificateLine {
    /// A line before the blocks of the pit.
    Head(Head),
    /// This many blocks, the next of them at least `from`; then `FLOW:` with the number of arcs that follow.
    Block { left: u32, from: u32 },
    /// This many arcs, the next of them with a number of at least `from`; then the end.
    Arc { left: u32, from: u32 },
}

/// A line before the blocks of the pit.
#[derive(Clone, Copy)]
pub enum Head {
    /// `PITCERT 1`, or `PITCERT 2`, which names the fixed blocks.
    Title,
    /// `BLOCKS:` with the count of the graph.
    Blocks { names_fixed: bool },
    /// `ARCS:` with the count of the graph.
    Arcs { names_fixed: bool },
    /// How many blocks are forced in, or how many barred.
    FixedCount(Kind),
    /// The block number `at` of those, which is at least `from`; behind the last of them the line that follows.
    FixedBlock { kind: Kind, at: usize, from: u32 },
    /// `IN:` with how many blocks follow.
    Count,
}

/// Whether blocks are forced in or barred.
#[derive(Clone, Copy)]
pub enum Kind {
    /// Those behind `FORCED:`; behind them come those that are barred.
    Forced,
    /// Those behind `BARRED:`; behind them come those of the pit.
    Barred,
}

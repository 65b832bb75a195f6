//! Which line of a journal's text is due, as the lines before it have named the budget and the count of entries.
//! `journal_reader` goes from one to the next.

/// The line that is due.
#[derive(Clone, Copy)]
pub enum JournalLine {
    /// `PITJOURNAL 1`.
    Title,
    /// `BLOCKS:` with the count of the graph.
    Blocks,
    /// `ARCS:` with the count of the graph.
    Arcs,
    /// `BUDGET:` with the budget, or `none`.
    Budget,
    /// `ENTRIES:` with how many follow.
    Count { budget: Option<u64> },
    /// This many entries; then the end.
    Entries { budget: Option<u64>, left: u64 },
}

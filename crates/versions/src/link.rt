//! A link of the list of arcs. The list exists in the proofs alone, and no link but a blank one is made.

/// An arc, and the cell of the book that the next link will use.
#[derive(Clone, Copy)]
pub struct ArcLink {
    pub arc: u32,
    pub next: u64,
}

impl ArcLink {
    /// What a step that adds no link is handed.
    pub(crate) fn blank() -> ArcLink {
        ArcLink { arc: 0, next: 0 }
    }
}

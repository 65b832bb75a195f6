//! A pit as a search answers it.

/// The blocks of a pit, rising, and what they are worth together, in millionths where the values are.
#[derive(Debug, Drop)]
pub struct FoundPit {
    pub blocks: Vec<u32>,
    pub worth: i128,
}

//! The size of the largest mine that is taken.

/// The most blocks of a model, and of a block model.
pub(crate) const MOST_BLOCKS: u64 = 1 << 22;

/// The most pairs of a precedence file.
pub(crate) const MOST_PAIRS: u64 = 1 << 26;

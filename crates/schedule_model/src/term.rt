//! The terms of destinations.

/// How an amount counts.
#[derive(Clone, Copy, Debug, PartialEq, Eq)]
pub enum Effect {
    /// As value, which is discounted.
    Value,
    /// As use of the limit with this number.
    Use(u32),
}

/// One term of a destination: the amount in a column of each block that is sent there counts `lag` periods after the block is mined. After the
/// last period it counts nothing.
#[derive(Clone, Copy, Debug, PartialEq, Eq)]
pub struct Term {
    pub destination: u32,
    pub effect: Effect,
    pub column: u32,
    pub lag: u32,
}

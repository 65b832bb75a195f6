//! A certificate as a value: a pit, and the flow that shows it. `make` takes one from a tree, and `check` tests one
//! from anywhere.

/// The blocks of a pit, rising, and the flow on each arc by its number, in the unit of the values.
#[derive(Debug, Drop)]
pub struct Certificate {
    pub pit: Vec<u32>,
    pub flow: Vec<i128>,
}

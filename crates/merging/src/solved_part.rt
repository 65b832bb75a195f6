//! A connected component of an instance with its solution.

use mine_graph::Instance;
use optimality::Certificate;

/// A part of an instance as an instance of its own, in which block i is `blocks[i]` of the whole, and its certificate.
#[derive(Drop)]
pub struct SolvedPart {
    pub blocks: Vec<u32>,
    pub mine: Instance,
    pub certificate: Certificate,
}

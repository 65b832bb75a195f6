//! The mine: six blocks of waste, and below each one of ore that pays for it.
use csr::SharedRows;
use faults::Fault;
use mine_graph::{Graph, Instance};
use std::alloc::Global;
use std::sync::Arc;

/// Its arcs: each is a merger arc until it is merged over. A journal grows among them.
pub const ARCS: [u32; 6] = [0, 1, 2, 3, 4, 5];

/// Error: `NoMemory`.
pub fn mine(alloc: Global) -> Result<Instance, Fault> {
    let pairs = [(1, 0), (3, 2), (5, 4), (7, 6), (9, 8), (11, 10)];
    let needs = SharedRows::from_pairs(alloc, 12, &pairs)?;
    let graph = Arc::new(alloc, Graph::of_rows(alloc, 12, needs)?)?;
    let values = vec![in alloc; -3, 5, -3, 5, -3, 5, -3, 5, -3, 5, -3, 5]?;
    Ok(Instance::new(graph, values))
}

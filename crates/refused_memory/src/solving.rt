//! A worker solves a small mine. If memory is refused to its pass over the board, it leaves the sweep, its ask is taken back, and
//! the driver goes on: the journal shows it.
use crew::{OpenGate, solve_shared};
use csr::SharedRows;
use faults::Fault;
use mine_graph::{Graph, Instance};
use std::alloc::AllocGlobal;
use std::sync::{Arc, Wait};
use std::thread::Threads;
use tree_lock::Entry;

/// Returns what one worker and the driver decided over two blocks of ore, each below a block of waste. The worker asks for arc 0
/// first, which is also the driver's first. Errors: `NoMemory`, or a refused thread or seat.
pub fn solved<R: AllocGlobal + Threads + Wait + Sync>(rt: &R) -> Result<Vec<Entry>, Fault> {
    let alloc = rt.alloc();
    let needs = SharedRows::from_pairs(alloc, 4, &[(0, 3), (1, 2)])?;
    let graph = Arc::new(alloc, Graph::of_rows(alloc, 4, needs)?)?;
    let values = vec![in alloc; 5, 5, -3, -3]?;
    let mine = Instance::new(graph, values);
    let (_, journal) = solve_shared(rt, alloc, &mine, 1, None, 1, &OpenGate)?;
    Ok(journal)
}

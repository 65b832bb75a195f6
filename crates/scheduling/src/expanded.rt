//! The graph of the time-expanded instance.
ghost use Rattle.std.specs.Prelude.{◌≡◌, ◌*◌, IfOk, IfErr};
ghost use Rattle.faults.specs.Refused.{no_memory};
ghost use Rattle.schedule_model.specs.Bound.{AreNodePairs};

use crate::pairs::node_pairs;
use crate::problem::Problem;
use faults::Fault;
use mine_graph::{Graph, acyclic_is_well_founded};
use std::alloc::Global;

/// Returns the graph of the nodes. It has no cycle, since the blocks have none.
///
/// # Errors
///
/// If memory runs out.
pub fn node_graph(alloc: Global, problem: &Problem) -> Result<Graph, Fault>
    ensures blocks { IfOk result (λ g. g.blocks ≡ problem.now.periods * problem.now.blocks) }
    ensures pairs { IfOk result (λ g. AreNodePairs problem.now g.pairs) }
    ensures refused { IfErr result (λ e. e ≡ no_memory) }
{
    problem.law();
    acyclic_is_well_founded();
    let pairs = node_pairs(alloc, problem)?;
    let graph = Graph::new(alloc, problem.periods() * problem.blocks(), pairs)?;
    Ok(graph)
}

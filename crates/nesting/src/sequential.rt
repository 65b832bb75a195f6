//! Shells on one thread without a budget, for callers that may neither start threads nor wait.
ghost use Rattle.std.specs.Prelude.{◌≡◌, length, IfOk, IfErr};
ghost use Rattle.faults.specs.Refused.{no_memory};
ghost use Rattle.pit_model.specs.declared.direction.Direction.TheVariants.{Least};
ghost use Rattle.pit_model.specs.Shells.{AreShells};
ghost use Rattle.nesting.specs.Prices.{deposit_of};

use crate::columns::Columns;
use crate::factors::Factors;
use crate::nested::shells_by_last;
use crate::plan::ShellPlan;
use faults::Fault;
use mine_graph::Graph;
use pit_model::{Direction, Shell};
use pit_search::SequentialSolver;
use std::alloc::Global;
use std::sync::Arc;

/// Returns the minimal shell of each factor, in order.
///
/// # Errors
///
/// If memory runs out.
pub fn shells_sequential(
    alloc: Global,
    columns: &Columns,
    graph: &Arc<Graph>,
    factors: &Factors,
) -> Result<Vec<Shell>, Fault>
    requires { length columns.now.revenues ≡ graph.now.value.blocks }
    ensures shells { IfOk result (λ list. AreShells Least (deposit_of columns.now graph.now.value) factors.now list.items) }
    ensures refused { IfErr result (λ e. e ≡ no_memory) }
{
    let plan = ShellPlan {
        columns,
        graph,
        factors,
        direction: Direction::Least,
    };
    shells_by_last(&SequentialSolver { alloc }, alloc, &plan, true)
}

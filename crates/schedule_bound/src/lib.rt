//! The Lagrangian bound of a scheduling problem, by the pit of its time-expanded instance.
#![tactic(auto)]

ghost use Rattle.std.specs.Prelude.{◌≡◌, IfOk, IfErr};
ghost use Rattle.faults.specs.Refused.{no_memory};
ghost use Rattle.schedule_model.specs.Bound.{IsLagrangianBound};
ghost use Rattle.schedule_bound.specs.Worth.{AreNodesAt, HasNodes, IsWorthOfPit, RefusesBound};
ghost use Rattle.scheduling.specs.Limits.{ArePriceNumbers};

use faults::Fault;
use merging::solve_pit;
use mine_graph::Instance;
use scheduling::{
    BoundError, Problem, UNIT, best_gains, check_prices, node_graph, node_values,
    price_of_capacities,
};
use std::alloc::Global;
use std::sync::Arc;

/// Returns the worth of the pit of an instance.
fn worth_of_pit(alloc: Global, nodes: &Instance) -> Result<i128, Fault>
    ensures worth { IfOk result (IsWorthOfPit nodes.now) }
    ensures refused { IfErr result (λ e. e ≡ no_memory) }
{
    nodes.law();
    let pit = solve_pit(alloc, nodes)?;
    Ok(nodes.worth(&pit))
}

/// Returns the time-expanded instance at prices of limits.
fn nodes_at(alloc: Global, problem: &Problem, prices: &[i64]) -> Result<Instance, BoundError>
    requires { ArePriceNumbers problem.now prices.now }
    ensures nodes { IfOk result (AreNodesAt problem.now prices.now) }
    ensures refused { IfErr result (RefusesBound problem.now prices.now) }
{
    problem.law();
    let gains = best_gains(alloc, problem, prices)?;
    let values = node_values(alloc, &gains, problem.blocks() as usize)?;
    match node_graph(alloc, problem) {
        Ok(graph) => Ok(Instance::new(Arc::new(alloc, graph)?, values)),
        Err(_) => Err(BoundError::NoMemory),
    }
}

/// Returns the Lagrangian bound at prices of limits, in units of 10^-12: no schedule is worth more.
///
/// # Errors
///
/// If memory runs out; if there are more or fewer prices, or one is out of range; or if the value of a node is.
pub fn lagrangian_bound(
    alloc: Global,
    problem: &Problem,
    prices: &[i64],
) -> Result<i128, BoundError>
    ensures bound { IfOk result (IsLagrangianBound problem.now prices.now) }
    ensures prices { IfOk result (λ _. ArePriceNumbers problem.now prices.now) }
    ensures nodes { IfOk result (λ _. HasNodes problem.now prices.now) }
    ensures refused { IfErr result (RefusesBound problem.now prices.now) }
{
    problem.law();
    check_prices(problem, prices)?;
    let nodes = nodes_at(alloc, problem, prices)?;
    let shared = nodes.share_values(alloc)?;
    shared.law();
    match worth_of_pit(alloc, &shared) {
        Ok(worth) => Ok(UNIT * worth + price_of_capacities(problem, prices)),
        Err(_) => Err(BoundError::NoMemory),
    }
}

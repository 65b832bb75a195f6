//! The pairs of nodes of the time-expanded instance.
ghost use Rattle.std.specs.Prelude.{◌≡◌, ℕ, ◌+◌, ◌*◌, ◌^◌, ◌<◌, ◌≤◌, length, get_or, IfOk, OnOk};
ghost use Rattle.schedule_model.specs.Bound.{AreNodePairs};
ghost use Rattle.pit_model.specs.Graph.{AreApart, AreInRange, IsAcyclic};
ghost use Rattle.scheduling.specs.Pairs.{AddsNext, AddsShifted, AreAllPairs, AreNeededPairs};

use crate::problem::Problem;
use mine_graph::Graph;
use std::alloc::{AllocError, Global};

/// Returns the pairs of a graph, in order.
fn pairs_of(alloc: Global, graph: &Graph) -> Result<Vec<(u32, u32)>, AllocError>
    ensures { IfOk result (λ v. v.items ≡ graph.now.pairs) }
{
    let mut pairs = Vec::with_capacity(alloc, graph.arcs() as usize)?;
    for k in 0..graph.arcs() {
        pairs.push(graph.arc(k))?;
    }
    Ok(pairs)
}

/// Adds these pairs with both numbers shifted.
fn add_shifted(
    base: &[(u32, u32)],
    shift: u32,
    pairs: &mut Vec<(u32, u32)>,
) -> Result<(), AllocError>
    requires few { shift ≤ 2 ^ 22 }
    requires below { AreInRange base.now (2 ^ 22) }
    ensures { OnOk result (AddsShifted base.now shift pairs.old.items pairs.new.items) }
{
    for k in 0..base.len() {
        pairs.push((shift + base[k].0, shift + base[k].1))?;
    }
    Ok(())
}

/// Adds the pair of each of the first `count` nodes with the node `distance` places after it.
fn add_next(count: u32, distance: u32, pairs: &mut Vec<(u32, u32)>) -> Result<(), AllocError>
    requires few { count + distance ≤ 2 ^ 22 }
    ensures { OnOk result (AddsNext count distance pairs.old.items pairs.new.items) }
{
    for node in 0..count {
        pairs.push((node, node + distance))?;
    }
    Ok(())
}

/// Returns the pairs of needed blocks of all periods.
fn needed_pairs(alloc: Global, problem: &Problem) -> Result<Vec<(u32, u32)>, AllocError>
    ensures { IfOk result (λ v. AreNeededPairs problem.now problem.now.periods v.items) }
{
    problem.law();
    let base = pairs_of(alloc, problem.graph())?;
    let mut pairs = Vec::new(alloc);
    for period in 0..problem.periods() {
        add_shifted(&base, period * problem.blocks(), &mut pairs)?;
    }
    Ok(pairs)
}

/// Returns all pairs of nodes.
pub(crate) fn node_pairs(alloc: Global, problem: &Problem) -> Result<Vec<(u32, u32)>, AllocError>
    ensures { IfOk result (λ v. AreAllPairs problem.now v.items) }
{
    problem.law();
    let mut pairs = needed_pairs(alloc, problem)?;
    let blocks = problem.blocks();
    add_next(problem.periods() * blocks - blocks, blocks, &mut pairs)?;
    Ok(pairs)
}

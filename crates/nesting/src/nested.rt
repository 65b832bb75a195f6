//! The shells of a mine: the pit at each factor, one within the next, with any solver.
ghost use Rattle.std.specs.Prelude.{◌≡◌, ◌<◌, length, IfOk, IfErr};
ghost use Rattle.faults.specs.Refused.{no_memory};
ghost use Rattle.pit_model.specs.Shells.{AreShells};
ghost use Rattle.nesting.specs.Grown.{EndsEachRest, IsUnlimited, RefusesRests};
ghost use Rattle.nesting.specs.Planned.{deposit_in, HasRows};

use crate::growing::{next_shell, start};
use crate::outermost::{lift_shells, outermost_shell};
use crate::parametric_shells::parametric_shells;
use crate::plan::ShellPlan;
use faults::Fault;
use pit_model::Shell;
use pit_search::PitSolver;
use std::alloc::Global;

/// Returns the shell of each factor, in order. Each is found on the blocks outside the shell before, and joined with that shell. A
/// budget of mergers counts for each factor.
///
/// # Errors
///
/// If memory runs out, or as the solver refuses the reduced mine of a factor.
pub fn shells_by_rests<S: PitSolver>(
    solver: &S,
    alloc: Global,
    plan: &ShellPlan<'_>,
) -> Result<Vec<Shell>, Fault>
    requires solver { S.FindsPits solver.now }
    requires rows { HasRows plan.now }
    ensures shells { IfOk result (λ list. AreShells plan.now.direction (deposit_in plan.now) plan.now.factors.now list.items) }
    ensures within { IfOk result (λ _. EndsEachRest (S.Ends solver.now) plan.now.direction (deposit_in plan.now) plan.now.factors.now) }
    ensures refused { IfErr result (λ e. RefusesRests (S.Refuses solver.now) plan.now.direction (deposit_in plan.now) plan.now.factors.now e) }
{
    plan.factors.law();
    plan.columns.law();
    plan.graph.law();
    let mut growing = start(alloc, plan.graph)?;
    let mut list = Vec::new(alloc);
    for k in 0..plan.factors.len() {
        plan.columns
            .counters()
            .at_factor(k as u64 + 1, plan.factors.len() as u64);
        let shell = next_shell(solver, alloc, plan, k, &mut growing)?;
        list.push(shell)?;
    }
    Ok(list)
}

/// Returns the shell of each factor, in order; if asked for, they come from one tree.
///
/// # Errors
///
/// If memory runs out.
fn inner_shells<S: PitSolver>(
    solver: &S,
    alloc: Global,
    plan: &ShellPlan<'_>,
    one_tree: bool,
) -> Result<Vec<Shell>, Fault>
    requires solver { S.FindsPits solver.now }
    requires rows { HasRows plan.now }
    requires some { 0 < length plan.now.factors.now }
    requires unlimited { IsUnlimited (S.Refuses solver.now) }
    ensures shells { IfOk result (λ list. AreShells plan.now.direction (deposit_in plan.now) plan.now.factors.now list.items) }
    ensures refused { IfErr result (λ e. e ≡ no_memory) }
{
    if one_tree {
        return parametric_shells(alloc, plan);
    }
    shells_by_rests(solver, alloc, plan)
}

/// Returns the shell of each factor, in order. Finds the last first, and the others among its blocks.
///
/// # Errors
///
/// If memory runs out.
fn shells_within_last<S: PitSolver>(
    solver: &S,
    alloc: Global,
    plan: &ShellPlan<'_>,
    one_tree: bool,
) -> Result<Vec<Shell>, Fault>
    requires solver { S.FindsPits solver.now }
    requires rows { HasRows plan.now }
    requires some { 0 < length plan.now.factors.now }
    requires unlimited { IsUnlimited (S.Refuses solver.now) }
    ensures shells { IfOk result (λ list. AreShells plan.now.direction (deposit_in plan.now) plan.now.factors.now list.items) }
    ensures refused { IfErr result (λ e. e ≡ no_memory) }
{
    let outer = outermost_shell(solver, alloc, plan, plan.last_factor())?;
    let inner = inner_shells(
        solver,
        alloc,
        &outer.plan(plan.factors, plan.direction),
        one_tree,
    )?;
    lift_shells(alloc, plan, &outer, &inner)
}

/// Returns the shell of each factor, in order, by a solver without a budget. Finds the last first, and the others among its blocks.
/// If `one_tree` is set, this thread takes the other shells from one tree, without the solver.
///
/// # Errors
///
/// If memory runs out.
pub fn shells_by_last<S: PitSolver>(
    solver: &S,
    alloc: Global,
    plan: &ShellPlan<'_>,
    one_tree: bool,
) -> Result<Vec<Shell>, Fault>
    requires solver { S.FindsPits solver.now }
    requires rows { HasRows plan.now }
    requires unlimited { IsUnlimited (S.Refuses solver.now) }
    ensures shells { IfOk result (λ list. AreShells plan.now.direction (deposit_in plan.now) plan.now.factors.now list.items) }
    ensures refused { IfErr result (λ e. e ≡ no_memory) }
{
    if plan.factors.len() < 2 {
        return shells_by_rests(solver, alloc, plan);
    }
    shells_within_last(solver, alloc, plan, one_tree)
}

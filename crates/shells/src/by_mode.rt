//! The shells of a mine, by the way that the mode allows.
ghost use Rattle.std.specs.Prelude.{◌≡◌, length, IsTrue, IfOk, IfErr};
ghost use Rattle.pit_model.specs.declared.direction.Direction.TheVariants.{Least};
ghost use Rattle.pit_model.specs.Pit.{ListsPit, no_blocks_fixed};
ghost use Rattle.pit_model.specs.Shells.{AreShells};
ghost use Rattle.nesting.specs.Prices.{deposit_of};
ghost use Rattle.nesting.specs.Planned.{deposit_in, HasRows};
ghost use Rattle.solver.specs.Modes.{EndsWithin, RefusesSolve};
ghost use Rattle.shells.specs.ByMode.{EachEndsWithin, IsFree, RefusesShells};

use faults::Fault;
use mine_graph::{Graph, Instance};
use nesting::{Columns, Factors, ShellPlan, shells_by_last, shells_by_rests};
use pit_model::{Direction, Shell, ShellList};
use pit_search::FnSolver;
use solver::{Gate, Mode, Search};
use std::alloc::Global;
use std::sync::{Arc, Wait};
use std::thread::Threads;

/// Whether no budget counts mergers in this mode, and no worker has to be started.
fn is_free(mode: &Mode) -> bool
    ensures { IsTrue result → IsFree mode.now }
{
    match *mode {
        Mode::Single { budget: None } => true,
        Mode::Parts => true,
        _ => false,
    }
}

/// The shell of each factor, in their order, by the way that the mode allows.
fn all_shells<G: Gate + Sync, R: Threads + Wait + Sync>(
    search: &Search<'_, R, G>,
    plan: &ShellPlan<'_>,
) -> Result<Vec<Shell>, Fault>
    requires { HasRows plan.now }
    ensures shells { IfOk result (λ list. AreShells plan.now.direction (deposit_in plan.now) plan.now.factors.now list.items) }
    ensures within { IfOk result (λ _. EachEndsWithin search.now.mode plan.now.direction (deposit_in plan.now) plan.now.factors.now) }
    ensures refused { IfErr result (λ e. RefusesShells search.now.mode plan.now.direction (deposit_in plan.now) plan.now.factors.now e.refusal e) }
{
    let solve = |instance: &Instance| -> Result<Vec<u32>, Fault>
        ensures shown { IfOk result (λ pit. ListsPit Least instance.now no_blocks_fixed pit.items) }
        ensures within { IfOk result (λ _. EndsWithin search.entry.now.mode instance.now) }
        ensures refused { IfErr result (λ e. RefusesSolve search.entry.now.mode instance.now e.refusal e) }
    { search.minimal_pit(instance) };
    let solver = FnSolver { solve };
    if is_free(&search.mode) {
        let one_tree = matches!(search.mode, Mode::Single { .. });
        return shells_by_last(&solver, search.alloc, plan, one_tree);
    }
    shells_by_rests(&solver, search.alloc, plan)
}

/// The shells of a mine with these revenues and costs toward a direction: for each factor its least or its greatest pit, with
/// the pit's worth in the factor's own values, in billionths. Each lies within all later ones. A factor is solved on what the
/// shell before leaves, for the greatest pit on the dual of that rest; a budget of mergers counts for each factor. Workers
/// report their steps to the gate.
///
/// Errors: lack of memory (1), a used-up budget with a merger arc left on some factor's reduced mine (20), a worker that could not
/// be started (22).
pub fn shells<G: Gate + Sync, R: Threads + Wait + Sync>(
    rt: &R,
    alloc: Global,
    columns: &Columns,
    graph: &Arc<Graph>,
    factors: &Factors,
    mode: &Mode,
    gate: &G,
    direction: Direction,
) -> Result<ShellList, Fault>
    requires { length columns.now.revenues ≡ graph.now.value.blocks }
    ensures blocks { IfOk result (λ list. list.n ≡ graph.now.value.blocks) }
    ensures shells { IfOk result (λ list. AreShells direction (deposit_of columns.now graph.now.value) factors.now list.shells.items) }
    ensures within { IfOk result (λ _. EachEndsWithin mode.now direction (deposit_of columns.now graph.now.value) factors.now) }
    ensures refused { IfErr result (λ e. RefusesShells mode.now direction (deposit_of columns.now graph.now.value) factors.now e.refusal e) }
{
    let plan = ShellPlan {
        columns,
        graph,
        factors,
        direction,
    };
    let search = Search {
        rt,
        alloc,
        mode: *mode,
        direction,
        gate,
    };
    let shells = all_shells(&search, &plan)?;
    Ok(ShellList {
        n: graph.n(),
        shells,
    })
}

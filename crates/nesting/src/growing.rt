//! Shells that grow from factor to factor: each factor is solved on the reduced mine, the blocks outside the shell before, and what
//! is found there is joined with that shell. In each direction pits nest by factor (Lerchs and Grossmann 1965).
ghost use Rattle.std.specs.Prelude.{◌≡◌, ◌<◌, ◌≤◌, ◌⊎◌, ℕ, suc, true, Bool, List, length, get_or, IfOk, IfErr};
ghost use Rattle.std.specs.List.{range_with_len};
ghost use Rattle.faults.specs.Refused.{no_memory};
ghost use Rattle.pit_model.specs.Mine.{members};
ghost use Rattle.pit_model.specs.Shells.{factor_of, IsJoined, IsOutside, IsShell};
ghost use Rattle.pit_model.specs.declared.direction.Direction.{Direction as AnyDirection};
ghost use Rattle.nesting.specs.Prices.{deposit_of, Prices};
ghost use Rattle.nesting.specs.Grown.{marked, rest_at, EndsRest, IsGrown, RefusesRests};
ghost use Rattle.nesting.specs.Planned.{deposit_in, HasRows};
ghost use Rattle.pit_model.specs.Size.{most_blocks};

use crate::columns::Columns;
use crate::plan::ShellPlan;
use faults::Fault;
use mine_graph::{Graph, Instance, all_numbers, marked_numbers};
use pit_model::Shell;
use pit_search::{PitSolver, find_pit_without_fixed_blocks};
use std::alloc::{AllocError, Global};
use std::sync::Arc;

/// The shell so far, as a mark for each block, and the blocks outside it, rising, with the graph of the arcs among them, renumbered
/// in that order.
#[derive(Drop)]
pub struct Growing {
    pub marks: Vec<bool>,
    pub blocks: Vec<u32>,
    pub graph: Arc<Graph>,
}

/// Returns the empty shell, with all blocks outside it. Shares the graph.
///
/// # Errors
///
/// If memory runs out.
pub fn start(alloc: Global, graph: &Arc<Graph>) -> Result<Growing, AllocError>
    ensures { IfOk result (λ g. (direction : AnyDirection) (prices : Prices) (factors : List ℕ) → IsGrown direction (deposit_of prices graph.now.value) factors 0 g.marks.items g.blocks.items g.graph.value) }
{
    graph.law();
    let n = graph.n();
    let marks = vec![in alloc; false; n as usize]?;
    let blocks = all_numbers(alloc, n)?;
    let graph = Arc::try_clone(graph)?;
    Ok(Growing {
        marks,
        blocks,
        graph,
    })
}

/// Returns the blocks outside the shell as an instance at a factor.
pub fn rest_instance(
    alloc: Global,
    columns: &Columns,
    growing: &Growing,
    factor: u32,
) -> Result<Instance, Fault>
    requires factor { factor ≤ 100000 }
    requires rows { (i : ℕ) → i < length growing.now.blocks.items → get_or growing.now.blocks.items i 0 < length columns.now.revenues }
    requires count { growing.now.graph.value.blocks ≡ length growing.now.blocks.items }
    ensures is { IfOk result (λ rest. rest ≡ rest_at columns.now factor growing.now.blocks.items growing.now.graph.value) }
    ensures refused { IfErr result (λ e. e ≡ no_memory) }
{
    columns.law();
    let values = columns.values(alloc, &growing.blocks, factor)?;
    let graph = Arc::try_clone(&growing.graph)?;
    let rest = Instance::with_counters(graph, values, columns.counters().share());
    Ok(rest)
}

/// Marks the blocks that were found, given by their numbers in the reduced mine.
pub fn mark(marks: &mut [bool], blocks: &[u32], found: &[u32])
    requires blocks { (i : ℕ) → i < length blocks.now → get_or blocks.now i 0 < length marks.old }
    requires found { (j : ℕ) → j < length found.now → get_or found.now j 0 < length blocks.now }
    ensures keeps { (u : ℕ) → marked marks.old u ≡ true → marked marks.new u ≡ true }
    ensures adds { (j : ℕ) → j < length found.now → marked marks.new (get_or blocks.now (get_or found.now j 0) 0) ≡ true }
    ensures only { (u : ℕ) → marked marks.new u ≡ true → (marked marks.old u ≡ true) ⊎ ((j : ℕ) × (j < length found.now) × (get_or blocks.now (get_or found.now j 0) 0 ≡ u)) }
{
    for &i in found {
        let block = blocks[i as usize];
        marks[block as usize] = true;
    }
}

/// Joins the shell with the blocks that were found, and removes these from the reduced mine. Copies nothing if none was found.
///
/// # Errors
///
/// If memory runs out.
fn join(alloc: Global, graph: &Graph, growing: &mut Growing, found: &[u32]) -> Result<(), Fault>
    requires size { length growing.old.marks.items ≡ graph.now.blocks }
    requires outside { (prices : Prices) → IsOutside (deposit_of prices graph.now) (marked growing.old.marks.items) growing.old.blocks.items growing.old.graph.value }
    requires below { (j : ℕ) → j < length found.now → get_or found.now j 0 < length growing.old.blocks.items }
    ensures size { IfOk result (λ _. length growing.new.marks.items ≡ graph.now.blocks) }
    ensures outside { IfOk result (λ _. (prices : Prices) → IsOutside (deposit_of prices graph.now) (marked growing.new.marks.items) growing.new.blocks.items growing.new.graph.value) }
    ensures joined { IfOk result (λ _. (test : ℕ → Bool) → found.now ≡ members (length growing.old.blocks.items) test
        → IsJoined (marked growing.old.marks.items) growing.old.blocks.items test (marked growing.new.marks.items)) }
    ensures no_memory { IfErr result (λ e. e ≡ no_memory) }
{
    if found.is_empty() {
        return Ok(());
    }
    mark(&mut growing.marks, &growing.blocks, found);
    let part = graph.without(&growing.marks)?;
    part.graph.law();
    let rest = Arc::new(alloc, part.graph)?;
    growing.blocks = part.blocks;
    growing.graph = rest;
    Ok(())
}

/// Returns the shell of the next factor: what is found in the reduced mine, joined with the shell before.
///
/// # Errors
///
/// If memory runs out, or as the solver refuses the reduced mine.
pub fn next_shell<S: PitSolver>(
    solver: &S,
    alloc: Global,
    plan: &ShellPlan<'_>,
    k: usize,
    growing: &mut Growing,
) -> Result<Shell, Fault>
    requires solver { S.FindsPits solver.now }
    requires rows { HasRows plan.now }
    requires known { k < length plan.now.factors.now }
    requires grown { IsGrown plan.now.direction (deposit_in plan.now) plan.now.factors.now k growing.old.marks.items growing.old.blocks.items growing.old.graph.value }
    ensures grown { IfOk result (λ _. IsGrown plan.now.direction (deposit_in plan.now) plan.now.factors.now (suc k) growing.new.marks.items growing.new.blocks.items growing.new.graph.value) }
    ensures shell { IfOk result (IsShell plan.now.direction (deposit_in plan.now)) }
    ensures factor { IfOk result (λ shell. shell.factor ≡ factor_of plan.now.factors.now k) }
    ensures within { IfOk result (λ _. EndsRest (S.Ends solver.now) plan.now.direction (deposit_in plan.now) plan.now.factors.now k) }
    ensures refused { IfErr result (λ e. RefusesRests (S.Refuses solver.now) plan.now.direction (deposit_in plan.now) plan.now.factors.now e) }
{
    let ShellPlan {
        columns,
        graph,
        factors,
        direction,
    } = *plan;
    factors.law();
    columns.law();
    graph.law();
    let factor = factors.get(k);
    let rest = rest_instance(alloc, columns, growing, factor)?;
    let found = find_pit_without_fixed_blocks(solver, alloc, rest, direction)?;
    join(alloc, graph, growing, &found.blocks)?;
    let pit = marked_numbers(alloc, &growing.marks)?;
    let worth = columns.worth(&pit, factor);
    Ok(Shell { factor, pit, worth })
}

//! Shells by the parametric method (Hochbaum 2008): from turn to turn the values of the searched mine increase outside its last pit,
//! and each solve starts from the tree of the solve before. Toward the least pits the factors rise. Toward the greatest ones the dual
//! mine is searched, and the factors fall.
//!
//! The blocks of the pit before keep their values: each set that may be the pit holds them all, so its pit stays the same.
ghost use Rattle.std.specs.Prelude.{◌≡◌, ◌<◌, ◌≤◌, ◌+◌, ℕ, Bool, pos, ◌-ℤ◌, ◌≤ℤ◌, ◌^◌, false, length, get_or, IfOk, IfErr};
ghost use Rattle.faults.specs.Refused.{no_memory};
ghost use Rattle.pit_model.specs.Mine.{members, value};
ghost use Rattle.pit_model.specs.Shells.{AreShells, IsShell, factor_of};
ghost use Rattle.nesting.specs.Prices.{price_of};
ghost use Rattle.nesting.specs.Grown.{marked};
ghost use Rattle.nesting.specs.Parametric.{Follows, IsHeld, HasIncreased, IsSearchedAt, IsSolvedAt, in_turns, set_toward, searched_value};
ghost use Rattle.nesting.specs.Planned.{deposit_in, HasRows};

use crate::columns::Columns;
use crate::plan::ShellPlan;
use crate::whole::{mark_blocks, mine_at};
use faults::Fault;
use merging::ParametricSolver;
use mine_graph::Instance;
use pit_model::{Direction, Shell};
use pit_search::{dual_instance, outside};
use std::alloc::{AllocError, Global};

/// A solved mine, with a mark for each block of its pit.
#[derive(Drop)]
pub struct ParametricState {
    pub mine: ParametricSolver,
    pub marks: Vec<bool>,
}

/// A step from a factor to the next one toward a direction.
#[derive(Clone, Copy)]
pub struct Step {
    pub direction: Direction,
    pub from: u32,
    pub to: u32,
}

/// Returns the factor of a turn.
fn factor_at(plan: &ShellPlan<'_>, turn: usize) -> u32
    requires { turn < length plan.now.factors.now }
    ensures is { result ≡ factor_of (in_turns plan.now.direction plan.now.factors.now) turn }
    ensures limit { result ≤ 100000 }
{
    plan.factors.law();
    match plan.direction {
        Direction::Least => plan.factors.get(turn),
        Direction::Greatest => plan.factors.get(plan.factors.len() - 1 - turn),
    }
}

/// Returns what a block's value increases by from one factor to a factor that is not lower.
fn price_rise(columns: &Columns, block: u32, low: u32, high: u32) -> i128
    requires block { block < length columns.now.revenues }
    requires rising { low ≤ high }
    requires limit { high ≤ 100000 }
    ensures rise { result ≡ price_of columns.now high block -ℤ price_of columns.now low block }
    ensures least { pos 0 ≤ℤ result }
    ensures most { result ≤ℤ pos (10 ^ 23) }
{
    columns.law();
    columns.value(block, high) - columns.value(block, low)
}

/// Returns what a block's value increases by in the searched mine.
fn gain(columns: &Columns, block: u32, step: Step) -> i128
    requires block { block < length columns.now.revenues }
    requires order { Follows step.direction step.from step.to }
    requires limits { (step.from ≤ 100000) × (step.to ≤ 100000) }
    ensures gain { result ≡ searched_value step.direction (price_of columns.now step.to block) -ℤ searched_value step.direction (price_of columns.now step.from block) }
    ensures least { pos 0 ≤ℤ result }
    ensures most { result ≤ℤ pos (10 ^ 23) }
{
    match step.direction {
        Direction::Least => price_rise(columns, block, step.from, step.to),
        Direction::Greatest => price_rise(columns, block, step.to, step.from),
    }
}

/// Increases the values of the blocks without a mark.
fn rise(mine: &mut ParametricSolver, columns: &Columns, marks: &[bool], step: Step)
    requires rows { length columns.now.revenues ≡ mine.old.blocks }
    requires marks { length marks.now ≡ mine.old.blocks }
    requires order { Follows step.direction step.from step.to }
    requires limits { (step.from ≤ 100000) × (step.to ≤ 100000) }
    requires before { (u : ℕ) → u < mine.old.blocks → marked marks.now u ≡ false → value mine.old u ≡ searched_value step.direction (price_of columns.now step.from u) }
    ensures { HasIncreased step.direction columns.now marks.now step.to mine.old.blocks mine.old mine.new }
{
    mine.law();
    columns.law();
    for block in 0..columns.len() {
        if !marks[block as usize] {
            let amount = gain(columns, block, step);
            if amount > 0 {
                mine.increase_value(block, amount);
            }
        }
    }
}

/// Returns the pit toward a direction, by the pit of the searched mine.
///
/// # Errors
///
/// If memory runs out.
fn pit_toward(
    alloc: Global,
    direction: Direction,
    blocks: u32,
    found: Vec<u32>,
) -> Result<Vec<u32>, AllocError>
    requires { (i : ℕ) → i < length found.items → get_or found.items i 0 < blocks }
    ensures pit { IfOk result (λ list. (set : ℕ → Bool) → found.items ≡ members blocks set → list.items ≡ members blocks (set_toward direction set)) }
{
    match direction {
        Direction::Least => Ok(found),
        Direction::Greatest => outside(alloc, blocks, &found),
    }
}

/// Solves the mine that is searched at a factor, and returns the factor's shell.
///
/// # Errors
///
/// If memory runs out.
fn solve(
    alloc: Global,
    plan: &ShellPlan<'_>,
    factor: u32,
    mine: ParametricSolver,
) -> Result<(ParametricState, Shell), Fault>
    requires rows { length plan.now.columns.now.revenues ≡ mine.blocks }
    requires factor { factor ≤ 100000 }
    ensures solved { IfOk result (λ r. IsSolvedAt plan.now.direction plan.now.columns.now factor mine r.0 r.1) }
    ensures refused { IfErr result (λ e. e ≡ no_memory) }
{
    let ShellPlan {
        columns,
        direction,
        ..
    } = *plan;
    mine.law();
    let blocks = mine.graph().n();
    let (mine, found) = mine.solved()?;
    let marks = mark_blocks(alloc, blocks, &found)?;
    let pit = pit_toward(alloc, direction, blocks, found)?;
    let worth = columns.worth(&pit, factor);
    Ok((
        ParametricState { mine, marks },
        Shell { factor, pit, worth },
    ))
}

/// Returns the mine that is searched for the pit at a factor: the mine at the factor, or its dual.
///
/// # Errors
///
/// If memory runs out.
fn searched_at(alloc: Global, plan: &ShellPlan<'_>, factor: u32) -> Result<Instance, Fault>
    requires rows { HasRows plan.now }
    requires factor { factor ≤ 100000 }
    ensures is { IfOk result (IsSearchedAt plan.now.direction (deposit_in plan.now) factor) }
    ensures refused { IfErr result (λ e. e ≡ no_memory) }
{
    let mine = mine_at(alloc, plan.columns, plan.graph, factor)?;
    match plan.direction {
        Direction::Least => Ok(mine),
        Direction::Greatest => dual_instance(alloc, &mine),
    }
}

/// Returns the shell of the first turn, and the solved mine.
fn first_shell(alloc: Global, plan: &ShellPlan<'_>) -> Result<(ParametricState, Shell), Fault>
    requires rows { HasRows plan.now }
    requires some { 0 < length plan.now.factors.now }
    ensures held { IfOk result (λ r. IsHeld plan.now.direction (deposit_in plan.now) (factor_of (in_turns plan.now.direction plan.now.factors.now) 0) r.0.marks.items r.0.mine) }
    ensures shell { IfOk result (λ r. IsShell plan.now.direction (deposit_in plan.now) r.1) }
    ensures factor { IfOk result (λ r. r.1.factor ≡ factor_of (in_turns plan.now.direction plan.now.factors.now) 0) }
    ensures refused { IfErr result (λ e. e ≡ no_memory) }
{
    plan.columns.law();
    let factor = factor_at(plan, 0);
    let mine = searched_at(alloc, plan, factor)?;
    solve(alloc, plan, factor, ParametricSolver::new(alloc, mine)?)
}

/// Returns the shell of the turn after number `k`, from the mine that was solved at turn `k`.
fn next_shell(
    alloc: Global,
    plan: &ShellPlan<'_>,
    k: usize,
    risen: ParametricState,
) -> Result<(ParametricState, Shell), Fault>
    requires rows { HasRows plan.now }
    requires known { k + 1 < length plan.now.factors.now }
    requires held { IsHeld plan.now.direction (deposit_in plan.now) (factor_of (in_turns plan.now.direction plan.now.factors.now) k) risen.marks.items risen.mine }
    ensures held { IfOk result (λ r. IsHeld plan.now.direction (deposit_in plan.now) (factor_of (in_turns plan.now.direction plan.now.factors.now) (k + 1)) r.0.marks.items r.0.mine) }
    ensures shell { IfOk result (λ r. IsShell plan.now.direction (deposit_in plan.now) r.1) }
    ensures factor { IfOk result (λ r. r.1.factor ≡ factor_of (in_turns plan.now.direction plan.now.factors.now) (k + 1)) }
    ensures refused { IfErr result (λ e. e ≡ no_memory) }
{
    plan.columns.law();
    plan.factors.law();
    let ParametricState { mut mine, marks } = risen;
    let from = factor_at(plan, k);
    let to = factor_at(plan, k + 1);
    let direction = plan.direction;
    rise(
        &mut mine,
        plan.columns,
        &marks,
        Step {
            direction,
            from,
            to,
        },
    );
    solve(alloc, plan, to, mine)
}

/// Returns shells in the order of the factors, given in the order of the turns.
fn by_factor(direction: Direction, list: Vec<Shell>) -> Vec<Shell>
    ensures { result.items ≡ in_turns direction list.items }
{
    let mut list = list;
    if matches!(direction, Direction::Greatest) {
        list.reverse();
    }
    list
}

/// Returns the shell of each factor, in order, on one thread.
///
/// # Errors
///
/// If memory runs out.
pub fn parametric_shells(alloc: Global, plan: &ShellPlan<'_>) -> Result<Vec<Shell>, Fault>
    requires rows { HasRows plan.now }
    requires some { 0 < length plan.now.factors.now }
    ensures shells { IfOk result (λ list. AreShells plan.now.direction (deposit_in plan.now) plan.now.factors.now list.items) }
    ensures refused { IfErr result (λ e. e ≡ no_memory) }
{
    plan.columns.law();
    plan.factors.law();
    let counters = plan.columns.counters();
    let factors = plan.factors.len();
    let mut list = Vec::new(alloc);
    counters.at_factor(1, factors as u64);
    let (mut risen, shell) = first_shell(alloc, plan)?;
    list.push(shell)?;
    for k in 0..factors - 1 {
        counters.at_factor(k as u64 + 2, factors as u64);
        let (next, shell) = next_shell(alloc, plan, k, risen)?;
        risen = next;
        list.push(shell)?;
    }
    Ok(by_factor(plan.direction, list))
}

//! The outermost shell as a deposit. All shells lie within the shell of the greatest factor (Lerchs and Grossmann 1965), which is
//! closed. So without a budget it is found first, and the others among its blocks.
ghost use Rattle.std.specs.Prelude.{◌≡◌, ◌<◌, ◌≤◌, ℕ, not, map, length, get_or, IfOk, IfErr};
ghost use Rattle.faults.specs.Refused.{no_memory};
ghost use Rattle.pit_model.specs.Deposit.{mine_at};
ghost use Rattle.pit_model.specs.Pit.{ListsPit, no_blocks_fixed};
ghost use Rattle.nesting.specs.Grown.{IsUnlimited};
ghost use Rattle.pit_model.specs.Shells.{AreShells};
ghost use Rattle.nesting.specs.Outermost.{IsOutermost, IsLiftedShell, AreLifted, IsPlacedIn};
ghost use Rattle.nesting.specs.Within.{AreWithin};
ghost use Rattle.nesting.specs.Planned.{deposit_in, HasRows};
ghost use Rattle.std.specs.List.{All};
ghost use Rattle.pit_model.specs.Size.{most_blocks};

use crate::columns::Columns;
use crate::factors::Factors;
use crate::growing::mark;
use crate::plan::ShellPlan;
use crate::whole::{mark_blocks, mine_at};
use faults::Fault;
use mine_graph::{Graph, marked_numbers};
use pit_model::{Direction, Shell};
use pit_search::{PitSolver, find_pit_without_fixed_blocks};
use std::alloc::{AllocError, Global};
use std::sync::Arc;

/// The blocks of the pit at a factor, rising, with their revenues and costs and the graph of the arcs among them, renumbered in
/// that order.
#[derive(Drop)]
pub struct Outermost {
    pub blocks: Vec<u32>,
    pub columns: Columns,
    pub graph: Arc<Graph>,
}

/// The opposite of each mark.
fn opposite(alloc: Global, marks: &[bool]) -> Result<Vec<bool>, AllocError>
    ensures { IfOk result (λ v. v.items ≡ map not marks.now) }
{
    marks.iter().map(|&mark| !mark).collect(alloc)
}

impl Outermost {
    /// Returns the plan of this deposit's shells at these factors, in a direction.
    pub fn plan<'a>(&'a self, factors: &'a Factors, direction: Direction) -> ShellPlan<'a>
        ensures columns { result.columns.now ≡ self.now.columns }
        ensures graph { result.graph.now ≡ self.now.graph }
        ensures factors { result.factors.now ≡ factors.now }
        ensures direction { result.direction ≡ direction }
    {
        ShellPlan {
            columns: &self.columns,
            graph: &self.graph,
            factors,
            direction,
        }
    }

    /// Returns the pit of a plan's mine at a factor as a deposit.
    ///
    /// # Errors
    ///
    /// If memory runs out.
    fn of(alloc: Global, plan: &ShellPlan<'_>, factor: u32, pit: &[u32]) -> Result<Outermost, Fault>
        requires rows { HasRows plan.now }
        requires pit { ListsPit plan.now.direction (mine_at (deposit_in plan.now) factor) no_blocks_fixed pit.now }
        ensures is { IfOk result (λ o. IsOutermost plan.now.direction plan.now.columns.now plan.now.graph.now.value factor o.blocks.items o.columns o.graph.value) }
        ensures refused { IfErr result (λ e. e ≡ no_memory) }
    {
        let ShellPlan { columns, graph, .. } = *plan;
        columns.law();
        graph.law();
        let marks = mark_blocks(alloc, graph.n(), pit)?;
        let outside = opposite(alloc, &marks)?;
        let part = graph.without(&outside)?;
        part.graph.law();
        let inner = columns.at(alloc, &part.blocks)?;
        let graph = Arc::new(alloc, part.graph)?;
        Ok(Outermost {
            blocks: part.blocks,
            columns: inner,
            graph,
        })
    }
}

/// Finds the pit at a factor and returns it as a deposit.
///
/// # Errors
///
/// If memory runs out.
pub fn outermost_shell<S: PitSolver>(
    solver: &S,
    alloc: Global,
    plan: &ShellPlan<'_>,
    factor: u32,
) -> Result<Outermost, Fault>
    requires solver { S.FindsPits solver.now }
    requires rows { HasRows plan.now }
    requires factor { factor ≤ 100000 }
    requires unlimited { IsUnlimited (S.Refuses solver.now) }
    ensures is { IfOk result (λ o. IsOutermost plan.now.direction plan.now.columns.now plan.now.graph.now.value factor o.blocks.items o.columns o.graph.value) }
    ensures refused { IfErr result (λ e. e ≡ no_memory) }
{
    let mine = mine_at(alloc, plan.columns, plan.graph, factor)?;
    let found = find_pit_without_fixed_blocks(solver, alloc, mine, plan.direction)?;
    Outermost::of(alloc, plan, factor, &found.blocks)
}

/// Renumbers the blocks of a shell by a list.
fn lift_shell(alloc: Global, n: u32, blocks: &[u32], shell: &Shell) -> Result<Shell, AllocError>
    requires few { n ≤ most_blocks }
    requires blocks { (i : ℕ) → i < length blocks.now → get_or blocks.now i 0 < n }
    requires pit { IsPlacedIn blocks.now shell.now }
    ensures { IfOk result (IsLiftedShell n blocks.now shell.now) }
{
    let mut marks = vec![in alloc; false; n as usize]?;
    mark(&mut marks, blocks, &shell.pit);
    let pit = marked_numbers(alloc, &marks)?;
    Ok(Shell {
        factor: shell.factor,
        pit,
        worth: shell.worth,
    })
}

/// Renumbers the blocks of shells by a list.
fn lift_each(
    alloc: Global,
    n: u32,
    blocks: &[u32],
    shells: &[Shell],
) -> Result<Vec<Shell>, AllocError>
    requires few { n ≤ most_blocks }
    requires blocks { (i : ℕ) → i < length blocks.now → get_or blocks.now i 0 < n }
    requires pits { All (IsPlacedIn blocks.now) shells.now }
    ensures { IfOk result (λ v. AreLifted n blocks.now shells.now v.items (length shells.now)) }
{
    let mut lifted = Vec::new(alloc);
    for i in 0..shells.len() {
        lifted.push(lift_shell(alloc, n, blocks, &shells[i])?)?;
    }
    Ok(lifted)
}

/// Returns the shells of a plan, given those among the blocks of its outermost shell.
///
/// # Errors
///
/// If memory runs out.
pub fn lift_shells(
    alloc: Global,
    plan: &ShellPlan<'_>,
    outer: &Outermost,
    inner: &[Shell],
) -> Result<Vec<Shell>, Fault>
    requires rows { HasRows plan.now }
    requires some { 0 < length plan.now.factors.now }
    requires within { AreWithin plan.now outer.now inner.now }
    ensures shells { IfOk result (λ list. AreShells plan.now.direction (deposit_in plan.now) plan.now.factors.now list.items) }
    ensures refused { IfErr result (λ e. e ≡ no_memory) }
{
    plan.factors.law();
    plan.columns.law();
    plan.graph.law();
    outer.graph.law();
    Ok(lift_each(alloc, plan.graph.n(), &outer.blocks, inner)?)
}

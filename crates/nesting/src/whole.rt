//! The whole mine at a factor, and marks for the blocks of a pit.
ghost use Rattle.std.specs.Prelude.{◌≡◌, ◌<◌, ◌≤◌, ℕ, Bool, length, IfOk, IfErr};
ghost use Rattle.std.specs.List.{All};
ghost use Rattle.faults.specs.Refused.{no_memory};
ghost use Rattle.pit_model.specs.Deposit.{mine_at};
ghost use Rattle.pit_model.specs.Mine.{members};
ghost use Rattle.nesting.specs.Grown.{marked};
ghost use Rattle.nesting.specs.Prices.{deposit_of};

use crate::columns::Columns;
use faults::Fault;
use mine_graph::{Graph, Instance, all_numbers};
use std::alloc::{AllocError, Global};
use std::sync::Arc;

/// Returns the mine at a factor.
///
/// # Errors
///
/// If memory runs out.
pub fn mine_at(
    alloc: Global,
    columns: &Columns,
    graph: &Arc<Graph>,
    factor: u32,
) -> Result<Instance, Fault>
    requires rows { length columns.now.revenues ≡ graph.now.value.blocks }
    requires factor { factor ≤ 100000 }
    ensures is { IfOk result (λ mine. mine ≡ mine_at (deposit_of columns.now graph.now.value) factor) }
    ensures refused { IfErr result (λ e. e ≡ no_memory) }
{
    columns.law();
    let blocks = all_numbers(alloc, graph.n())?;
    let values = columns.values(alloc, &blocks, factor)?;
    Ok(Instance::with_counters(Arc::try_clone(graph)?, values, columns.counters().share()))
}

/// Returns for each block whether it is on a rising list.
pub fn mark_blocks(alloc: Global, blocks: u32, pit: &[u32]) -> Result<Vec<bool>, AllocError>
    requires { All (λ u. u < blocks) pit.now }
    ensures size { IfOk result (λ v. length v.items ≡ blocks) }
    ensures marks { IfOk result (λ v. (set : ℕ → Bool) → pit.now ≡ members blocks set → (u : ℕ) → u < blocks → marked v.items u ≡ set u) }
{
    let mut marks = vec![in alloc; false; blocks as usize]?;
    for &block in pit {
        marks[block as usize] = true;
    }
    Ok(marks)
}

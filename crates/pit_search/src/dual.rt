//! The dual instance: the transposed graph with negated values. The complement of its minimal pit is the maximal pit (Picard
//! 1976).
ghost use Rattle.std.specs.Prelude.{◌≡◌, ◌<◌, ℕ, Bool, not, pos, ◌-ℤ◌, length, get_or, IfOk, IfErr};
ghost use Rattle.faults.specs.Refused.{no_memory};
ghost use Rattle.pit_model.specs.Direction.{IsDual};
ghost use Rattle.pit_model.specs.Mine.{members, value};
ghost use Rattle.optimality.specs.Check.{has};

use faults::Fault;
use mine_graph::{Graph, Instance};
use std::alloc::{AllocError, Global};
use std::sync::Arc;

/// Returns the values of the blocks, negated.
fn negated(alloc: Global, mine: &Instance) -> Result<Vec<i128>, AllocError>
    ensures count { IfOk result (λ v. length v.items ≡ mine.now.blocks) }
    ensures each { IfOk result (λ v. (u : ℕ) → u < mine.now.blocks → get_or v.items u (pos 0) ≡ pos 0 -ℤ value mine.now u) }
{
    mine.law();
    let n = mine.graph().n();
    (0..n).map(|u| -mine.value(u)).collect(alloc)
}

/// Returns the dual instance: each pair reversed and each value negated.
///
/// # Errors
///
/// If memory runs out.
pub fn dual_instance(alloc: Global, mine: &Instance) -> Result<Instance, Fault>
    ensures dual { IfOk result (IsDual mine.now) }
    ensures refused { IfErr result (λ e. e ≡ no_memory) }
{
    mine.law();
    let graph: &Graph = mine.graph();
    let values = negated(alloc, mine)?;
    let reversed = graph.reversed()?;
    reversed.law();
    let counters = mine.counters().share();
    let dual = Instance::with_counters(Arc::new(alloc, reversed)?, values, counters);
    Ok(dual.share_values(alloc)?)
}

/// The blocks without a mark, rising.
fn unmarked(alloc: Global, marks: &[bool]) -> Result<Vec<u32>, AllocError>
    requires { length marks.now < 4294967296 }
    ensures { IfOk result (λ list. list.items ≡ members (length marks.now) (λ u. not (has marks.now u))) }
{
    let n = marks.len() as u32;
    (0..n).filter(|&u| !marks[u as usize]).collect(alloc)
}

/// Returns the numbers below n that are not on a rising list, rising.
///
/// # Errors
///
/// If memory runs out.
pub fn outside(alloc: Global, n: u32, found: &[u32]) -> Result<Vec<u32>, AllocError>
    requires { (i : ℕ) → i < length found.now → get_or found.now i 0 < n }
    ensures { IfOk result (λ list. (set : ℕ → Bool) → found.now ≡ members n set → list.items ≡ members n (λ u. not (set u))) }
{
    let mut inside = vec![in alloc; false; n as usize]?;
    for &u in found {
        inside[u as usize] = true;
    }
    unmarked(alloc, &inside)
}

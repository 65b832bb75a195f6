//! The mine that arrays encode, or why they encode none.
ghost use Rattle.std.specs.Prelude.{◌≡◌, ◌<◌, ◌≤◌, ◌^◌, ℕ, pos, neg_ℤ, ◌≤ℤ◌, length, get_or, IfOk, IfErr};
ghost use Rattle.arrays.specs.Encoded.{ArraysEncodeOneMine, IsEncoded};
ghost use Rattle.arrays.specs.Refused.{RefusesRows};

use crate::array_error::ArrayError;
use crate::graph::graph_of;
use csr::CsrView;
use mine_graph::Instance;
use std::alloc::{AllocError, Global};

/// Arrays encode one mine at most.
pub fn arrays_encode_one_mine()
    ensures { ArraysEncodeOneMine }
{}

/// The same value as a wider number.
fn wide(value: i64) -> i128
    ensures same { result ≡ value }
    ensures low { neg_ℤ (pos (10 ^ 23)) ≤ℤ value }
    ensures high { value ≤ℤ pos (10 ^ 23) }
{
    i128::from(value)
}

/// The same values as wider numbers.
pub fn widened(alloc: Global, values: &[i64]) -> Result<Vec<i128>, AllocError>
    ensures same { IfOk result (λ v. v.items ≡ values.now) }
    ensures low { IfOk result (λ v. (u : ℕ) → u < length values.now → neg_ℤ (pos (10 ^ 23)) ≤ℤ get_or v.items u (pos 0)) }
    ensures high { IfOk result (λ v. (u : ℕ) → u < length values.now → get_or v.items u (pos 0) ≤ℤ pos (10 ^ 23)) }
{
    let mut list = Vec::with_capacity(alloc, values.len())?;
    for &value in values {
        list.push(wide(value))?;
    }
    Ok(list)
}

/// Returns the mine that the arrays encode. Errors: those of `graph_of`, and lack of memory (1). Time is linear in blocks and
/// pairs.
pub fn mine_of(alloc: Global, values: &[i64], rows: &CsrView<'_>) -> Result<Instance, ArrayError>
    ensures encoded { IfOk result (IsEncoded values.now rows.now.offsets.now rows.now.targets.now) }
    ensures refused { IfErr result (λ e. RefusesRows (length values.now) rows.now.offsets.now rows.now.targets.now e.refusal e.place) }
{
    let graph = graph_of(alloc, values.len(), rows)?;
    let values = widened(alloc, values)?;
    Ok(Instance::new(graph, values).share_values(alloc)?)
}

//! Whether pairs have a cycle. If all lead to lower numbers, or all to higher ones, they have none. Otherwise a topological order along
//! the pairs decides it. Only if blocks are left over are the pairs transposed and ordered once more, and the blocks left then name
//! the cycle (cycle.rt).
ghost use Rattle.std.specs.Prelude.{◌≡◌, ◌↔◌, ℕ, ◌^◌, ◌<◌, ◌≤◌, IsTrue, length, get_or, IfOk, IfErr};
ghost use Rattle.pit_model.specs.Graph.{AreInRange, AreRising, IsAcyclic};
ghost use Rattle.mine_graph.specs.Directions.{NeedLower, NeedHigher};
ghost use Rattle.mine_graph.specs.Faults.{IsGraphFault};

use crate::cycle::cycle_of;
use csr::{SharedRows, first_left, in_degrees_left, transposed_rows};
use faults::{Fault, Refusal, Source};
use std::alloc::Global;

/// Returns whether each block needs blocks of lower numbers alone.
fn need_lower(n: u32, rows: &SharedRows) -> bool
    requires range { AreInRange rows.now.pairs n }
    requires blocks { rows.now.blocks ≡ n }
    ensures { IsTrue result ↔ NeedLower rows.now.pairs }
{
    for u in 0..n {
        let row = rows.shared_row(u);
        for i in 0..row.differences.len() {
            if u.wrapping_add(row.differences[i]) >= u {
                return false;
            }
        }
    }
    true
}

/// Returns whether each block needs blocks of higher numbers alone.
fn need_higher(n: u32, rows: &SharedRows) -> bool
    requires range { AreInRange rows.now.pairs n }
    requires blocks { rows.now.blocks ≡ n }
    ensures { IsTrue result ↔ NeedHigher rows.now.pairs }
{
    for u in 0..n {
        let row = rows.shared_row(u);
        for i in 0..row.differences.len() {
            if u.wrapping_add(row.differences[i]) <= u {
                return false;
            }
        }
    }
    true
}

/// Errors: the cycle that the pairs have, if they have one (14); lack of memory (1).
fn refuse_cycle(alloc: Global, n: u32, rows: &SharedRows) -> Result<(), Fault>
    requires few_blocks { n < 2 ^ 31 }
    requires few { length rows.now.pairs < 2 ^ 32 }
    requires range { AreInRange rows.now.pairs n }
    requires rising { AreRising rows.now.pairs }
    requires blocks { rows.now.blocks ≡ n }
    ensures acyclic { IfOk result (λ _. IsAcyclic rows.now.pairs) }
    ensures refused { IfErr result (IsGraphFault rows.now.pairs n) }
{
    let transposed = transposed_rows(alloc, n, rows)?;
    let left = in_degrees_left(alloc, n, &transposed)?;
    match first_left(&left) {
        None => Ok(()),
        Some(first) => {
            let plain = rows.to_rows()?;
            let cycle = cycle_of(alloc, plain.view(), &left, first)?;
            Err(Fault::at_line(Source::Precedence, Refusal::Cycle(cycle), 0))
        }
    }
}

/// Errors: the cycle that the pairs have, if they have one (14); lack of memory (1). Without a cycle it allocates for the blocks
/// at most.
pub fn check_acyclic(alloc: Global, n: u32, rows: &SharedRows) -> Result<(), Fault>
    requires few_blocks { n < 2 ^ 31 }
    requires few { length rows.now.pairs < 2 ^ 32 }
    requires range { AreInRange rows.now.pairs n }
    requires rising { AreRising rows.now.pairs }
    requires blocks { rows.now.blocks ≡ n }
    ensures acyclic { IfOk result (λ _. IsAcyclic rows.now.pairs) }
    ensures refused { IfErr result (IsGraphFault rows.now.pairs n) }
{
    if need_lower(n, rows) || need_higher(n, rows) {
        return Ok(());
    }
    let left = in_degrees_left(alloc, n, rows)?;
    match first_left(&left) {
        None => Ok(()),
        Some(_) => refuse_cycle(alloc, n, rows),
    }
}

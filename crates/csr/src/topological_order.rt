//! A topological order of the blocks (Kahn 1962): in-degrees are counted down from the blocks without predecessors. Blocks whose
//! in-degree stays above 0 lie on a cycle or depend on one. The arcs are transposed: a row of successors for each block.
ghost use Rattle.std.specs.Prelude.{◌≡◌, ℕ, suc, ◌+◌, ◌^◌, ◌<◌, ◌≤◌, length, get_or, IfOk, IfSome, IfNone};
ghost use Rattle.pit_model.specs.Graph.{second_of, AreInRange};
ghost use Rattle.pit_model.specs.Cycle.{IsLeast};
ghost use Rattle.csr.specs.Count.{count};
ghost use Rattle.csr.specs.Queue.{leads_to, IsQueue, IsProcessed, IsAllProcessed};
ghost use Rattle.csr.specs.Left.{left_over};

use crate::shared::SharedRows;
use std::alloc::{AllocError, Global};

/// Counts the predecessors of each block.
fn count_in_degrees(rows: &SharedRows, left: &mut [u32])
    requires few { length rows.now.pairs < 2 ^ 32 }
    requires range { (k : ℕ) → k < length rows.now.pairs → second_of rows.now.pairs k < length left.old }
    requires blocks { rows.now.blocks < 2 ^ 32 }
    requires zero { (v : ℕ) → v < length left.old → get_or left.old v 0 ≡ 0 }
    ensures { (u : ℕ) → u < length left.old → get_or left.new u 0 ≡ count (length rows.now.pairs) (leads_to rows.now.pairs u) }
{
    let offsets = rows.offsets();
    for u in 1..offsets.len() {
        for k in offsets[u - 1]..offsets[u] {
            let block = rows.target(u as u32 - 1, k) as usize;
            left[block] += 1;
        }
    }
}

/// Writes the blocks of in-degree 0 into the queue and returns their number.
fn queue_sources(left: &[u32], order: &mut [u32]) -> usize
    requires few { length left.now < 2 ^ 32 }
    requires same { length order.old ≡ length left.now }
    ensures { IsQueue left.now order.new result }
{
    let mut tail = 0;
    for u in 0..left.len() {
        if left[u] == 0 {
            order[tail] = u as u32;
            tail += 1;
        }
    }
    tail
}

/// Processes the arcs of the block at `head` and returns the new length of the queue.
fn process_head(
    rows: &SharedRows,
    head: usize,
    left: &mut [u32],
    order: &mut [u32],
    tail: usize,
) -> usize
    requires range { (k : ℕ) → k < length rows.now.pairs → second_of rows.now.pairs k < length left.old }
    requires blocks { rows.now.blocks ≡ length left.old }
    requires same { length order.old ≡ length left.old }
    requires head { head < tail }
    requires settled { IsProcessed rows.now.pairs left.old order.old tail head }
    ensures settled { IsProcessed rows.now.pairs left.new order.new result (suc head) }
    ensures grows { tail ≤ result }
{
    let block = order[head];
    let offsets = rows.offsets();
    let begin = offsets[block as usize];
    let end = offsets[block as usize + 1];
    let mut last = tail;
    for k in begin..end {
        let user = rows.target(block, k);
        left[user as usize] -= 1;
        if left[user as usize] == 0 {
            order[last] = user;
            last += 1;
        }
    }
    last
}

/// Processes blocks in topological order and returns the final length of the queue.
fn topological_order(rows: &SharedRows, left: &mut [u32], order: &mut [u32]) -> usize
    requires few { length rows.now.pairs < 2 ^ 32 }
    requires few_blocks { length left.old < 2 ^ 32 }
    requires range { (k : ℕ) → k < length rows.now.pairs → second_of rows.now.pairs k < length left.old }
    requires zero { (v : ℕ) → v < length left.old → get_or left.old v 0 ≡ 0 }
    requires blocks { rows.now.blocks ≡ length left.old }
    requires same { length order.old ≡ length left.old }
    ensures { IsProcessed rows.now.pairs left.new order.new result result }
{
    count_in_degrees(rows, left);
    let mut tail = queue_sources(left, order);
    for head in 0..left.len() {
        if head == tail {
            break;
        }
        tail = process_head(rows, head, left, order, tail);
    }
    tail
}

/// Returns the in-degree of each block after all blocks without remaining predecessors were processed in topological order. Blocks
/// on a cycle, and blocks that depend on them, keep an in-degree above 0.
///
/// # Errors
///
/// If memory runs out.
pub fn in_degrees_left(alloc: Global, n: u32, rows: &SharedRows) -> Result<Vec<u32>, AllocError>
    requires few { length rows.now.pairs < 2 ^ 32 }
    requires blocks { rows.now.blocks ≡ n }
    requires range { AreInRange rows.now.pairs n }
    ensures count { IfOk result (λ left. length left.items ≡ n) }
    ensures settled { IfOk result (λ left. IsAllProcessed rows.now.pairs left.items) }
{
    let mut left = vec![in alloc; 0; n as usize]?;
    let mut order = vec![in alloc; 0; n as usize]?;
    topological_order(rows, &mut left, &mut order);
    Ok(left)
}

/// Returns the least block with an in-degree above 0, if any.
pub fn first_left(left: &[u32]) -> Option<u32>
    requires few { length left.now < 2 ^ 32 }
    ensures some { IfSome result (λ u. IsLeast (left_over left.now) u) }
    ensures none { IfNone result ((u : ℕ) → u < length left.now → get_or left.now u 0 ≡ 0) }
{
    for u in 0..left.len() {
        if left[u] != 0 {
            return Some(u as u32);
        }
    }
    None
}

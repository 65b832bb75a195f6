//! Guesses by union-find (Galler and Fischer 1964) over a few arcs of each block whether all blocks are one connected component. It
//! is a hint that no proof depends on: the pit is the same whether the mine is solved whole or by components.
//!
//! Sets of joined blocks are trees of parent links.
ghost use Rattle.std.specs.Prelude.{◌≡◌, ◌<◌, length, IfOk};
ghost use Rattle.std.specs.List.{range_with_len};
ghost use Rattle.merging.specs.Order.{AreBelow};

use mine_graph::{Graph, all_numbers};
use std::alloc::{AllocError, Global};

/// The most arcs of each block that are tried. If blocks depend on those above and around them, four join all.
const ROUNDS: u32 = 4;

/// Returns the root of a block's tree, and halves the path to it.
fn find_root(parents: &mut [u32], block: u32) -> u32
    requires below { AreBelow parents.old (length parents.old) }
    requires block { block < length parents.old }
    ensures count { length parents.new ≡ length parents.old }
    ensures below { AreBelow parents.new (length parents.old) }
    ensures inside { result < length parents.old }
{
    let mut block = block;
    for _step in 0..parents.len() {
        let next = parents[block as usize];
        if next == block {
            break;
        }
        let nearer = parents[next as usize];
        parents[block as usize] = nearer;
        block = nearer;
    }
    block
}

/// Joins the sets of two blocks, and returns whether they were two sets.
fn join(parents: &mut [u32], one: u32, other: u32) -> bool
    requires below { AreBelow parents.old (length parents.old) }
    requires one { one < length parents.old }
    requires other { other < length parents.old }
    ensures count { length parents.new ≡ length parents.old }
    ensures below { AreBelow parents.new (length parents.old) }
{
    let one = find_root(parents, one);
    let other = find_root(parents, other);
    parents[one.max(other) as usize] = one.min(other);
    one != other
}

/// Joins each block with the target of its arc at a place of its row, if it has one, and returns the number of sets removed.
fn join_at(graph: &Graph, parents: &mut [u32], place: u32) -> u32
    requires count { length parents.old ≡ graph.now.blocks }
    requires below { AreBelow parents.old (length parents.old) }
    ensures count { length parents.new ≡ length parents.old }
    ensures below { AreBelow parents.new (length parents.old) }
{
    graph.law();
    let mut gone = 0u32;
    for block in 0..graph.n() {
        let arcs = graph.arcs_of(block);
        if place < arcs.end - arcs.start {
            let needed = graph.needed(block, arcs.start + place);
            gone = gone.saturating_add(u32::from(join(parents, block, needed)));
        }
    }
    gone
}

/// Returns whether a few arcs of each block join all blocks.
pub fn is_one_part(alloc: Global, graph: &Graph) -> Result<bool, AllocError> {
    let mut parents = all_numbers(alloc, graph.n())?;
    let mut sets = graph.n();
    for place in 0..ROUNDS {
        sets = sets.saturating_sub(join_at(graph, &mut parents, place));
        if sets <= 1 {
            return Ok(true);
        }
    }
    Ok(false)
}

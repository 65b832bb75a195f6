//! Finds, by labels, the first arc of a block to a label, the least label of a row, and children with a label.
ghost use Rattle.std.specs.Prelude.{◌≡◌, ◌<◌, ◌≤◌, ℕ, length, IfSome};
ghost use Rattle.pit_model.specs.Graph.{first_of};
ghost use Rattle.forest.specs.Forest.{size};
ghost use Rattle.merging.specs.Order.{AreBelow};

use forest::Forest;
use mine_graph::Graph;
use std::ops::Range;

/// A label, beside the labels of all blocks.
#[derive(Clone, Copy)]
pub(crate) struct Wanted<'a> {
    pub(crate) labels: &'a [u16],
    pub(crate) label: u16,
}

/// Returns the first arc of a block, in a range of its row, that leads to a block with this label.
pub(crate) fn first_to(
    graph: &Graph,
    block: u32,
    arcs: Range<u32>,
    wanted: Wanted<'_>,
) -> Option<u32>
    requires labels { length wanted.labels.now ≡ graph.now.blocks }
    requires arcs { arcs.end ≤ length graph.now.pairs }
    requires own { (k : ℕ) → arcs.start ≤ k → k < arcs.end → first_of graph.now.pairs k ≡ block }
    ensures { IfSome result (λ k. (arcs.start ≤ k) × (k < arcs.end)) }
{
    graph.law();
    for arc in arcs.start..arcs.end {
        let needed = graph.needed(block, arc);
        if wanted.labels[needed as usize] == wanted.label {
            return Some(arc);
        }
    }
    None
}

/// Returns the least label of the predecessors of a block, or `most` if it has none.
pub(crate) fn least_label(graph: &Graph, labels: &[u16], block: u32, most: u16) -> u16
    requires blocks { length labels.now ≡ graph.now.blocks }
    requires block { block < graph.now.blocks }
    ensures { result ≤ most }
{
    graph.law();
    let row = graph.arcs_of(block);
    let mut least = most;
    for arc in row.start..row.end {
        let label = labels[graph.needed(block, arc) as usize];
        if label == 0 {
            return 0;
        }
        least = least.min(label);
    }
    least
}

/// Returns whether a block has the label, or `true` if any label will do.
fn has_label(wanted: Option<Wanted<'_>>, block: u32) -> bool
    requires { IfSome wanted (λ w. block < length w.labels.now) }
{
    match wanted {
        Some(wanted) => wanted.labels[block as usize] == wanted.label,
        None => true,
    }
}

/// Appends the children of a block that have this label, or all children, to the `found` blocks found so far, and returns their
/// number then.
pub(crate) fn add_children(
    forest: &Forest,
    block: u32,
    wanted: Option<Wanted<'_>>,
    branch: &mut [u32],
    found: usize,
) -> usize
    requires block { block < size forest.now }
    requires labels { IfSome wanted (λ w. length w.labels.now ≡ size forest.now) }
    requires room { length branch.old ≡ size forest.now }
    requires found { found ≤ size forest.now }
    requires branch { AreBelow branch.old (size forest.now) }
    ensures branch { AreBelow branch.new (size forest.now) }
    ensures found { result ≤ size forest.now }
{
    forest.law();
    let mut found = found;
    let mut next = forest.first_child(block);
    for _child in 0..forest.blocks() {
        match next {
            Some(child) if found < branch.len() => {
                if has_label(wanted, child) {
                    branch[found] = child;
                    found += 1;
                }
                next = forest.next_sibling(child);
            }
            _ => return found,
        }
    }
    found
}

//! The connected components of a graph: classes of blocks that arcs join, in either direction. From the least block without a
//! component, a breadth-first search visits neighbour after neighbour. So time is linear in blocks and arcs, and components are
//! numbered in the order of their least blocks.
ghost use Rattle.std.specs.Prelude.{◌≡◌, ◌<◌, ◌+◌, ◌^◌, ℕ, false, length, get_or, IfOk};
ghost use Rattle.std.specs.List.{All};
ghost use Rattle.pit_model.specs.Fixed.{transposed};
ghost use Rattle.pit_model.specs.Graph.{AreInRange, AreSamePairs};
ghost use Rattle.mine_graph.specs.BreadthFirst.{IsAt, IsTrail, is_visited};
ghost use Rattle.mine_graph.specs.Components.{label_of, IsUnlabelled, AreComponents};

use crate::breadth_first::BreadthFirst;
use crate::graph::Graph;
use csr::SharedRows;
use std::alloc::AllocError;

/// The component of each block, numbered in the order of their least blocks.
#[derive(Drop)]
pub struct Components {
    /// The number of each block's component.
    pub labels: Vec<u32>,
    pub count: u32,
}

/// Gives the label to each block of a list.
fn label_all(blocks: &[u32], label: u32, labels: &mut [u32])
    requires { All (λ u. u < length labels.old) blocks.now }
    ensures size { length labels.new ≡ length labels.old }
    ensures given { (x : ℕ) → x < length blocks.now → label_of labels.new (get_or blocks.now x 0) ≡ label }
    ensures kept { (u : ℕ) → (IsAt (λ x. get_or blocks.now x 0) 0 (length blocks.now) u → ⊥) → label_of labels.new u ≡ label_of labels.old u }
{
    for i in 0..blocks.len() {
        labels[blocks[i] as usize] = label;
    }
}

/// Gives each block the number of its component and returns how many there are.
fn label_components(
    predecessors: &SharedRows,
    successors: &SharedRows,
    search: &mut BreadthFirst,
    labels: &mut [u32],
) -> u32
    requires range { AreInRange predecessors.now.pairs predecessors.now.blocks }
    requires same_rows { successors.now.blocks ≡ predecessors.now.blocks }
    requires turned { AreSamePairs (transposed predecessors.now.pairs) successors.now.pairs }
    requires trail { IsTrail search.old }
    requires blocks { length search.old.marks.items ≡ predecessors.now.blocks }
    requires none { (u : ℕ) → is_visited search.old u ≡ false }
    requires size { length labels.old ≡ predecessors.now.blocks }
    requires few { length labels.old < 2 ^ 32 }
    requires free { (u : ℕ) → u < predecessors.now.blocks → IsUnlabelled labels.old u }
    ensures { AreComponents predecessors.now labels.new result predecessors.now.blocks }
{
    let mut count = 0;
    for root in 0..labels.len() as u32 {
        if !search.marks[root as usize] {
            let begin = search.tail;
            search.visit_joined(predecessors, successors, root);
            label_all(&search.queue[begin..search.tail], count, labels);
            count += 1;
        }
    }
    count
}

/// Finds the connected components of `n` blocks, from the arcs to their predecessors and the same arcs transposed. It copies no arc.
pub fn find_components(
    n: u32,
    predecessors: &SharedRows,
    successors: &SharedRows,
) -> Result<Components, AllocError>
    requires blocks { predecessors.now.blocks ≡ n }
    requires same_rows { successors.now.blocks ≡ n }
    requires range { AreInRange predecessors.now.pairs n }
    requires turned { AreSamePairs (transposed predecessors.now.pairs) successors.now.pairs }
    ensures { IfOk result (λ components. AreComponents predecessors.now components.labels.items components.count n) }
{
    let alloc = predecessors.alloc();
    let mut labels = vec![in alloc; n; n as usize]?;
    let mut search = BreadthFirst::new(alloc, n)?;
    let count = label_components(predecessors, successors, &mut search, &mut labels);
    Ok(Components { labels, count })
}

impl Graph {
    /// The connected components of the graph.
    pub fn components(&self) -> Result<Components, AllocError>
        ensures { IfOk result (λ components. AreComponents self.now components.labels.items components.count self.now.blocks) }
    {
        self.law();
        let successors = self.successors()?;
        find_components(self.n(), self.predecessors(), &successors)
    }
}

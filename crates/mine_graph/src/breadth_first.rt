//! Breadth-first search: a queue holds the visited blocks, each once, and each is followed by the blocks that its arcs lead to.
//! Time is linear in blocks and pairs.
ghost use Rattle.std.specs.Prelude.{◌≡◌, ◌<◌, ◌≤◌, ℕ, false, length, get_or, IfOk};
ghost use Rattle.std.specs.List.{All};
ghost use Rattle.pit_model.specs.Graph.{AreInRange, AreSamePairs};
ghost use Rattle.pit_model.specs.Fixed.{IsClosure, is_among, transposed};
ghost use Rattle.mine_graph.specs.FixedBlocks.{mark_of};
ghost use Rattle.mine_graph.specs.BreadthFirst.{HasNeighbours, IsAt, IsJoinedWith, IsTrail, VisitsExactly, is_visited, LeadsTo};

use csr::SharedRows;
use std::alloc::{AllocError, Global};

/// The visited blocks: each has a mark, and the first `tail` places of the queue hold them.
#[derive(Drop)]
pub struct BreadthFirst {
    pub marks: Vec<bool>,
    pub queue: Vec<u32>,
    pub tail: usize,
}

impl BreadthFirst {
    /// Returns a search of `n` blocks, none of them visited.
    pub fn new(alloc: Global, n: u32) -> Result<BreadthFirst, AllocError>
        ensures trail { IfOk result IsTrail }
        ensures size { IfOk result (λ search. length search.marks.items ≡ n) }
        ensures none { IfOk result (λ search. (u : ℕ) → is_visited search u ≡ false) }
        ensures empty { IfOk result (λ search. search.tail ≡ 0) }
    {
        let marks = vec![in alloc; false; n as usize]?;
        let queue = vec![in alloc; 0; n as usize]?;
        Ok(BreadthFirst {
            marks,
            queue,
            tail: 0,
        })
    }

    /// Visits a block unless it is visited already.
    pub fn visit(&mut self, block: u32)
        requires below { block < length self.old.marks.items }
        requires trail { IsTrail self.old }
        ensures { VisitsExactly (λ u. block ≡ u) self.old self.new }
    {
        if !self.marks[block as usize] {
            self.marks[block as usize] = true;
            self.queue[self.tail] = block;
            self.tail += 1;
        }
    }

    /// Visits the blocks of a list.
    fn visit_all(&mut self, blocks: &[u32])
        requires below { All (λ u. u < length self.old.marks.items) blocks.now }
        requires trail { IsTrail self.old }
        ensures { VisitsExactly (IsAt (λ x. get_or blocks.now x 0) 0 (length blocks.now)) self.old self.new }
    {
        for i in 0..blocks.len() {
            self.visit(blocks[i]);
        }
    }

    /// Visits the targets of a block's arcs.
    fn visit_row(&mut self, rows: &SharedRows, block: u32)
        requires size { length self.old.marks.items ≡ rows.now.blocks }
        requires below { block < rows.now.blocks }
        requires range { AreInRange rows.now.pairs rows.now.blocks }
        requires trail { IsTrail self.old }
        ensures { VisitsExactly (LeadsTo rows.now.pairs block) self.old self.new }
    {
        let arcs = rows.row(block);
        for k in arcs.start..arcs.end {
            self.visit(rows.target(block, k));
        }
    }

    /// Visits the connected component of a block.
    pub fn visit_joined(&mut self, predecessors: &SharedRows, successors: &SharedRows, root: u32)
        requires size { length self.old.marks.items ≡ predecessors.now.blocks }
        requires below { root < predecessors.now.blocks }
        requires range { AreInRange predecessors.now.pairs predecessors.now.blocks }
        requires same_rows { successors.now.blocks ≡ predecessors.now.blocks }
        requires turned { AreSamePairs (transposed predecessors.now.pairs) successors.now.pairs }
        requires trail { IsTrail self.old }
        requires whole { HasNeighbours predecessors.now.pairs self.old }
        ensures { VisitsExactly (IsJoinedWith predecessors.now.pairs root) self.old self.new }
    {
        let begin = self.tail;
        self.visit(root);
        for head in begin..self.queue.len() {
            if head == self.tail {
                break;
            }
            let block = self.queue[head];
            self.visit_row(predecessors, block);
            self.visit_row(successors, block);
        }
    }
}

/// A mark for each block: whether it is one of the seeds, or arcs lead to it from one, directly or through others.
pub fn closure_of(
    alloc: Global,
    n: u32,
    rows: &SharedRows,
    seeds: &[u32],
) -> Result<Vec<bool>, AllocError>
    requires blocks { rows.now.blocks ≡ n }
    requires range { AreInRange rows.now.pairs n }
    requires seeds { All (λ u. u < n) seeds.now }
    ensures { IfOk result (λ marks. IsClosure rows.now.pairs (is_among seeds.now) (mark_of marks.items)) }
{
    let mut search = BreadthFirst::new(alloc, n)?;
    search.visit_all(seeds);
    for head in 0..n as usize {
        if head == search.tail {
            break;
        }
        let block = search.queue[head];
        search.visit_row(rows, block);
    }
    Ok(search.marks)
}

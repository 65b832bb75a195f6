//! Finds the first merger arc by labels: marks each strong block with a weak predecessor. A mark may be out of date, since it
//! remains when its block turns weak or the predecessor turns strong. A search removes the marks that it passes.
ghost use Rattle.std.specs.Prelude.{◌≡◌, ℕ, ◌<◌, ◌≤◌, ◌==◌, true, false, length, get_or, set, IsTrue, IfOk, IfErr, IfSome, IsNone, not};
ghost use Rattle.pit_model.specs.Size.{most_blocks};
ghost use Rattle.faults.specs.Refused.{no_memory};
ghost use Rattle.pit_model.specs.Graph.{first_of, second_of};
ghost use Rattle.norm_tree.specs.Labelled.{is_candidate, label, with_labels, IsClosedBelow, IsIndexed};

use crate::marks::Marks;
use faults::Fault;
use mine_graph::Graph;
use std::alloc::Global;

/// The index of a graph's labels, which stand elsewhere.
#[derive(Drop)]
pub(crate) struct Index {
    /// Each strong block that needs a weak one, and others.
    marks: Marks,
    /// The transposed graph: the blocks that need each block.
    users: Graph,
}

/// Marks the strong blocks.
fn mark_strong(strong: &[bool], marks: &mut Marks)
    requires few { length strong.now ≤ most_blocks }
    requires room { length marks.old ≡ length strong.now }
    ensures count { length marks.new ≡ length marks.old }
    ensures marked { (u : ℕ) → label strong.now u ≡ true → get_or marks.new u false ≡ true }
{
    for u in 0..strong.len() {
        if strong[u] {
            marks.mark(u as u32);
        }
    }
}

/// Marks the strong successors of a block, which the transposed graph lists.
fn mark_users(users: &Graph, strong: &[bool], block: u32, marks: &mut Marks)
    requires labelled { length strong.now ≡ users.now.blocks }
    requires room { length marks.old ≡ users.now.blocks }
    requires inside { block < users.now.blocks }
    ensures count { length marks.new ≡ length marks.old }
    ensures kept { (u : ℕ) → get_or marks.old u false ≡ true → get_or marks.new u false ≡ true }
    ensures marked { (k : ℕ) → k < length users.now.pairs → first_of users.now.pairs k ≡ block → label strong.now (second_of users.now.pairs k) ≡ true → get_or marks.new (second_of users.now.pairs k) false ≡ true }
{
    users.law();
    let arcs = users.arcs_of(block);
    for k in arcs.start..arcs.end {
        let user = users.needed(block, k);
        if strong[user as usize] {
            marks.mark(user);
        }
    }
}

/// Returns the first arc from a block to a weak one.
fn first_weak_need(graph: &Graph, strong: &[bool], block: u32) -> Option<u32>
    requires labelled { length strong.now ≡ graph.now.blocks }
    requires inside { block < graph.now.blocks }
    ensures own { IfSome result (λ k. (k < length graph.now.pairs) × (first_of graph.now.pairs k ≡ block)) }
    ensures weak { IfSome result (λ k. label strong.now (second_of graph.now.pairs k) ≡ false) }
    ensures first { IfSome result (λ k. (l : ℕ) → l < k → first_of graph.now.pairs l ≡ block → label strong.now (second_of graph.now.pairs l) ≡ true) }
    ensures none { IsNone result → (l : ℕ) → l < length graph.now.pairs → first_of graph.now.pairs l ≡ block → label strong.now (second_of graph.now.pairs l) ≡ true }
{
    graph.law();
    let arcs = graph.arcs_of(block);
    for k in arcs.start..arcs.end {
        let needed = graph.needed(block, k);
        if !strong[needed as usize] {
            return Some(k);
        }
    }
    None
}

/// Returns the first arc from a block to a weak one, if the block is strong.
pub(crate) fn first_open_need(graph: &Graph, strong: &[bool], block: u32) -> Option<u32>
    requires labelled { length strong.now ≡ graph.now.blocks }
    requires inside { block < graph.now.blocks }
    ensures own { IfSome result (λ k. first_of graph.now.pairs k ≡ block) }
    ensures open { IfSome result (λ k. IsTrue (is_candidate (with_labels graph.now strong.now) k)) }
    ensures first { IfSome result (λ k. (l : ℕ) → l < k → first_of graph.now.pairs l ≡ block → is_candidate (with_labels graph.now strong.now) l ≡ false) }
    ensures none { IsNone result → (l : ℕ) → l < length graph.now.pairs → first_of graph.now.pairs l ≡ block → is_candidate (with_labels graph.now strong.now) l ≡ false }
{
    if strong[block as usize] {
        first_weak_need(graph, strong, block)
    } else {
        None
    }
}

impl Index {
    /// Returns the index of these labels, in time linear in blocks and arcs.
    ///
    /// # Errors
    ///
    /// If memory runs out.
    pub(crate) fn of(alloc: Global, graph: &Graph, strong: &[bool]) -> Result<Index, Fault>
        requires { length strong.now ≡ graph.now.blocks }
        ensures indexed { IfOk result (IsIndexed graph.now strong.now) }
        ensures no_memory { IfErr result (λ e. e ≡ no_memory) }
    {
        graph.law();
        let users = graph.reversed()?;
        let mut marks = Marks::none(alloc, graph.n())?;
        mark_strong(strong, &mut marks);
        Ok(Index { marks, users })
    }

    /// Updates the index after a change of a block's label. If the block turned weak, the time is linear in its successors.
    pub(crate) fn take_in(&mut self, graph: &Graph, strong: &[bool], block: u32)
        requires inside { block < graph.now.blocks }
        requires indexed { IsIndexed graph.now (set strong.now block (not (get_or strong.now block false))) self.old }
        ensures { IsIndexed graph.now strong.now self.new }
    {
        if strong[block as usize] {
            self.marks.mark(block);
        } else {
            mark_users(&self.users, strong, block, &mut self.marks);
        }
    }

    /// Returns the first arc by number from a strong block to a weak one.
    pub(crate) fn first(&self, graph: &Graph, strong: &[bool]) -> Option<u32>
        requires { IsIndexed graph.now strong.now self.now }
        ensures merger { IfSome result (λ k. IsTrue (is_candidate (with_labels graph.now strong.now) k)) }
        ensures least { IfSome result (λ k. (l : ℕ) → l < k → is_candidate (with_labels graph.now strong.now) l ≡ false) }
        ensures none { IsNone result → (k : ℕ) → is_candidate (with_labels graph.now strong.now) k ≡ false }
    {
        graph.law();
        let mut from = 0;
        for _marked in 0..graph.n() {
            let block = self.marks.next(from)?;
            if let Some(arc) = first_open_need(graph, strong, block) {
                return Some(arc);
            }
            from = block + 1;
        }
        None
    }

    /// Returns the block of the first such arc, or the number of blocks if there is no such arc.
    fn first_block(&self, graph: &Graph, strong: &[bool]) -> u32
        requires { IsIndexed graph.now strong.now self.now }
        ensures inside { result ≤ graph.now.blocks }
        ensures closed { IsClosedBelow (with_labels graph.now strong.now) result }
    {
        graph.law();
        match self.first(graph, strong) {
            Some(arc) => graph.arc(arc).0,
            None => graph.n(),
        }
    }

    /// Removes the marks below that block.
    pub(crate) fn settle(&mut self, graph: &Graph, strong: &[bool])
        requires { IsIndexed graph.now strong.now self.old }
        ensures { IsIndexed graph.now strong.now self.new }
    {
        let block = self.first_block(graph, strong);
        self.marks.clear_below(block);
    }
}

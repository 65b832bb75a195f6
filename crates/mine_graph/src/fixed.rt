//! Blocks forced in and blocks barred. What forced blocks need, directly or through others, must be dug too; what needs barred
//! ones so must be left. Which of the others are dug is open: `rest` is the graph of those.
ghost use Rattle.std.specs.Prelude.{◌≡◌, ◌<◌, ◌↔◌, ◌&&◌, ◌||◌, ℕ, IsTrue, false, true, length, get_or, IfOk, IfErr, IfSome, IfNone};
ghost use Rattle.std.specs.List.{All};
ghost use Rattle.std.specs.List.Sorted.{IsStrictlyIncreasing};
ghost use Rattle.faults.specs.Refused.{no_memory};
ghost use Rattle.pit_model.specs.Fixed.{AreFixable, IsClosure, IsFixedRest, fixed_of, is_among, is_open, transposed};
ghost use Rattle.pit_model.specs.Cycle.{IsLeast};
ghost use Rattle.pit_model.specs.Graph.{Graph as AnyGraph};
ghost use Rattle.mine_graph.specs.FixedBlocks.{IsFixedOf, RefusesFixed, forced_closure, barred_closure, lists_of, mark_of, no_lists};

use crate::breadth_first::closure_of;
use crate::graph::Graph;
use crate::part::Part;
use faults::Fault;
use std::alloc::{AllocError, Global};
use std::marker::Model;

/// The lists that were given, and a mark for each block that must be dug, and for each that must be left.
#[derive(Drop)]
struct Settled {
    forced: Vec<u32>,
    barred: Vec<u32>,
    dug: Vec<bool>,
    left: Vec<bool>,
}

/// Blocks of a graph that are forced in or barred. With none it is of every graph.
#[derive(Drop)]
pub struct Fixed {
    settled: Option<Settled>,
}

impl Model for Fixed {
    ghost use Rattle.mine_graph.specs.FixedBlocks.{FixedBlocks, seen_as};

    ghost Value = { FixedBlocks };

    ghost view = { λ f. seen_as f.settled };
}

/// The mark of a block; none outside the list.
fn is_marked(marks: &[bool], u: u32) -> bool
    ensures { result ≡ mark_of marks.now u }
{
    matches!(marks.get(u as usize), Some(true))
}

/// The first block of a rising list that has a mark.
fn first_marked(blocks: &[u32], marks: &[bool]) -> Option<u32>
    requires { IsStrictlyIncreasing blocks.now }
    ensures some { IfSome result (IsLeast (λ u. is_among blocks.now u && mark_of marks.now u)) }
    ensures none { IfNone result ((u : ℕ) → IsTrue (is_among blocks.now u) → mark_of marks.now u ≡ false) }
{
    for i in 0..blocks.len() {
        if is_marked(marks, blocks[i]) {
            return Some(blocks[i]);
        }
    }
    None
}

/// A mark for each of n blocks: whether it must be dug or left.
fn settled_marks(alloc: Global, n: u32, fixed: &Fixed) -> Result<Vec<bool>, AllocError>
    ensures count { IfOk result (λ v. length v.items ≡ n) }
    ensures marks { IfOk result (λ v. (u : ℕ) → u < n → mark_of v.items u ≡ (forced_closure fixed.now u || barred_closure fixed.now u)) }
{
    (0..n)
        .map(|u| fixed.must_dig(u) || fixed.must_leave(u))
        .collect(alloc)
}

/// A mark for each block: whether it is barred, or needs a block that is, directly or through others. Without a barred block no
/// arc is transposed.
fn barred_marks(alloc: Global, graph: &Graph, barred: &[u32]) -> Result<Vec<bool>, AllocError>
    requires { All (λ u. u < graph.now.blocks) barred.now }
    ensures { IfOk result (λ marks. IsClosure (transposed graph.now.pairs) (is_among barred.now) (mark_of marks.items)) }
{
    graph.law();
    if barred.is_empty() {
        let none = vec![in alloc; false; graph.n() as usize]?;
        return Ok(none);
    }
    let successors = graph.successors()?;
    let marks = closure_of(alloc, graph.n(), &successors, barred)?;
    Ok(marks)
}

impl Fixed {
    /// Returns the blocks of the first list as forced in, and those of the second as barred. Errors: the least barred block that is
    /// forced in (21); lack of memory (1). Time is linear in blocks and pairs.
    pub fn new(
        alloc: Global,
        graph: &Graph,
        forced: Vec<u32>,
        barred: Vec<u32>,
    ) -> Result<Fixed, Fault>
        requires { AreFixable graph.now.blocks (lists_of forced.items barred.items) }
        ensures lists { IfOk result (λ f. f.lists ≡ lists_of forced.items barred.items) }
        ensures of_graph { IfOk result (IsFixedOf graph.now) }
        ensures refused { IfErr result (λ e. RefusesFixed graph.now (lists_of forced.items barred.items) e.refusal e) }
    {
        graph.law();
        let dug = closure_of(alloc, graph.n(), graph.predecessors(), &forced)?;
        if let Some(block) = first_marked(&barred, &dug) {
            return Err(Fault::clash(block));
        }
        let left = barred_marks(alloc, graph, &barred)?;
        Ok(Fixed {
            settled: Some(Settled {
                forced,
                barred,
                dug,
                left,
            }),
        })
    }

    /// No block is forced in, and none barred. It takes no memory.
    pub fn none() -> Fixed
        ensures lists { result.lists ≡ no_lists }
        ensures of_any { (graph : AnyGraph) → IsFixedOf graph result }
    {
        Fixed { settled: None }
    }

    /// Whether both lists are empty.
    pub fn is_empty(&self) -> bool
        ensures { IsTrue result ↔ (self.now.lists ≡ no_lists) }
    {
        match &self.settled {
            None => true,
            Some(s) => s.forced.is_empty() && s.barred.is_empty(),
        }
    }

    /// Returns the blocks forced in, increasing, as given.
    pub fn forced(&self) -> &[u32]
        ensures { result.now ≡ self.now.lists.forced }
    {
        match &self.settled {
            None => &[],
            Some(s) => &s.forced,
        }
    }

    /// Returns the blocks barred, increasing, as given.
    pub fn barred(&self) -> &[u32]
        ensures { result.now ≡ self.now.lists.barred }
    {
        match &self.settled {
            None => &[],
            Some(s) => &s.barred,
        }
    }

    /// Whether a block must be dug: it is forced in, or a block that is needs it, directly or through others.
    pub fn must_dig(&self, u: u32) -> bool
        ensures { result ≡ forced_closure self.now u }
    {
        match &self.settled {
            None => false,
            Some(s) => is_marked(&s.dug, u),
        }
    }

    /// Whether a block must be left: it is barred, or needs a block that is, directly or through others.
    pub fn must_leave(&self, u: u32) -> bool
        ensures { result ≡ barred_closure self.now u }
    {
        match &self.settled {
            None => false,
            Some(s) => is_marked(&s.left, u),
        }
    }

    /// Whether a block is neither to be dug nor to be left.
    pub fn is_open(&self, u: u32) -> bool
        ensures { result ≡ is_open (forced_closure self.now) (barred_closure self.now) u }
    {
        !self.must_dig(u) && !self.must_leave(u)
    }

    /// Returns the reduced mine: the open blocks with the pairs among them. Error: `NoMemory`.
    pub fn rest(&self, graph: &Graph) -> Result<Part, Fault>
        requires { IsFixedOf graph.now self.now }
        ensures rest { IfOk result (λ p. IsFixedRest graph.now (fixed_of self.now.lists) (forced_closure self.now) (barred_closure self.now) p.blocks.items p.graph) }
        ensures no_memory { IfErr result (λ e. e ≡ no_memory) }
    {
        graph.law();
        let settled = settled_marks(graph.alloc(), graph.n(), self)?;
        let rest = graph.without(&settled)?;
        rest.graph.law();
        Ok(rest)
    }
}

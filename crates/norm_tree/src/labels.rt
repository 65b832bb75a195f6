//! The label of each block, strong or weak, and the first merger arc by labels: from an index, or by scanning each strong block.
ghost use Rattle.std.specs.Prelude.{◌≡◌, ℕ, ◌<◌, false, length, set, IsTrue, IfOk, IfErr, IfSome, IsNone};
ghost use Rattle.faults.specs.Refused.{no_memory};
ghost use Rattle.norm_tree.specs.Labelled.{is_candidate, label, with_labels};

use crate::index::{Index, first_open_need};
use faults::Fault;
use mine_graph::Graph;
use std::alloc::Global;
use std::marker::Model;
use std::sync::Arc;

/// A label for each block of a graph.
#[derive(Drop)]
pub(crate) struct Labels {
    graph: Arc<Graph>,
    strong: Vec<bool>,
    /// `None` if changes of labels are to be cheap and the first merger arc is searched for rarely.
    index: Option<Index>,
}

impl Model for Labels {
    ghost use Rattle.std.specs.Prelude.{◌≡◌, length, IfSome};
    ghost use Rattle.norm_tree.specs.Labelled.{Labelled, IsIndexed};

    ghost Value = { Labelled };

    ghost view = { λ l. record { graph = l.graph.value; strong = l.strong.items } };

    ghost invariant = { λ l. (length l.strong.items ≡ l.graph.value.blocks) × IfSome l.index (IsIndexed l.graph.value l.strong.items) };
}

/// Returns the first arc by number from a strong block to a weak one, by scanning the arcs of each strong block.
fn first_open(graph: &Graph, strong: &[bool]) -> Option<u32>
    requires { length strong.now ≡ graph.now.blocks }
    ensures merger { IfSome result (λ k. IsTrue (is_candidate (with_labels graph.now strong.now) k)) }
    ensures least { IfSome result (λ k. (l : ℕ) → l < k → is_candidate (with_labels graph.now strong.now) l ≡ false) }
    ensures none { IsNone result → (k : ℕ) → is_candidate (with_labels graph.now strong.now) k ≡ false }
{
    graph.law();
    for block in 0..graph.n() {
        if let Some(arc) = first_open_need(graph, strong, block) {
            return Some(arc);
        }
    }
    None
}

impl Labels {
    /// Returns these labels, without an index. Allocates nothing.
    pub(crate) fn of(graph: Arc<Graph>, strong: Vec<bool>) -> Labels
        requires { length strong.items ≡ graph.value.blocks }
        ensures graph { result.graph ≡ graph.value }
        ensures strong { result.strong ≡ strong.items }
    {
        Labels {
            graph,
            strong,
            index: None,
        }
    }

    /// Adds an index to the labels, in time linear in blocks and arcs.
    ///
    /// # Errors
    ///
    /// If memory runs out.
    pub(crate) fn indexed(self, alloc: Global) -> Result<Labels, Fault>
        ensures same { IfOk result (λ l. l ≡ self) }
        ensures no_memory { IfErr result (λ e. e ≡ no_memory) }
    {
        let Labels {
            graph,
            strong,
            index: _,
        } = self;
        let index = Index::of(alloc, &graph, &strong)?;
        Ok(Labels {
            graph,
            strong,
            index: Some(index),
        })
    }

    /// States the invariant: one label for each block.
    pub(crate) fn law(&self)
        ensures { length self.now.strong ≡ self.now.graph.blocks }
    {
        let _ = &self.strong;
    }

    /// Returns the labels by block.
    pub(crate) fn into_strong(self) -> Vec<bool>
        ensures { result.items ≡ self.strong }
    {
        let Labels {
            graph: _,
            strong,
            index: _,
        } = self;
        strong
    }

    /// The label of a block.
    pub(crate) fn is_strong(&self, block: u32) -> bool
        requires { block < self.now.graph.blocks }
        ensures { result ≡ label self.now.strong block }
    {
        self.strong[block as usize]
    }

    /// The labels, by block.
    pub(crate) fn as_slice(&self) -> &[bool]
        ensures { result.now ≡ self.now.strong }
    {
        &self.strong
    }

    /// Labels a block. With an index the time is linear in the block's successors, and constant if the label is the same.
    pub(crate) fn set(&mut self, block: u32, strong: bool)
        requires { block < self.old.graph.blocks }
        ensures graph { self.new.graph ≡ self.old.graph }
        ensures strong { self.new.strong ≡ set self.old.strong block strong }
    {
        if self.strong[block as usize] == strong {
            return;
        }
        self.strong[block as usize] = strong;
        if let Some(index) = &mut self.index {
            index.take_in(&self.graph, &self.strong, block);
        }
    }

    /// Shortens the next search for the first merger arc, if there is an index.
    pub(crate) fn settle(&mut self)
        ensures { self.new ≡ self.old }
    {
        if let Some(index) = &mut self.index {
            index.settle(&self.graph, &self.strong);
        }
    }

    /// Returns the first arc by number from a strong block to a weak one.
    pub(crate) fn first_merger(&self) -> Option<u32>
        ensures merger { IfSome result (λ k. IsTrue (is_candidate self.now k)) }
        ensures least { IfSome result (λ k. (l : ℕ) → l < k → is_candidate self.now l ≡ false) }
        ensures none { IsNone result → (k : ℕ) → is_candidate self.now k ≡ false }
    {
        match &self.index {
            Some(index) => index.first(&self.graph, &self.strong),
            None => first_open(&self.graph, &self.strong),
        }
    }
}

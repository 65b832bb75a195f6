//! The order of mergers by lowest label (Hochbaum 2008; Chandran and Hochbaum 2009), level by level from the top of the mine. It
//! only proposes arcs: the tree decides each merger, and the closing loop finds any merger arc that is left.
//!
//! A label is a lower bound on the distance of a block from the weak blocks. A turn takes a strong root of the lowest label and
//! searches its branch for an arc to a block one label lower. If it finds one, the branches merge. Otherwise the blocks of that
//! label in the branch get the next label. If no block is one label lower, the branch reaches no weak block: it is finished. When
//! no root waits, the blocks of the next level come in, each with the least label that those of its predecessors allow.
ghost use Rattle.std.specs.Prelude.{◌≡◌, ◌<◌, ◌≤◌, ◌+◌, length, IfOk, IfErr, IfSome};
ghost use Rattle.pit_model.specs.Mine.{arcs, source};
ghost use Rattle.pit_model.specs.Graph.{first_of};
ghost use Rattle.pit_model.specs.Size.{most_blocks};
ghost use Rattle.faults.specs.Refused.{no_memory};
ghost use Rattle.forest.specs.Forest.{size};

use crate::label_buckets::LabelBuckets;
use crate::labels::{Wanted, add_children, first_to, least_label};
use crate::levels::{Levels, blocks_by_level};
use faults::Fault;
use forest::Forest;
use mine_graph::Graph;
use norm_tree::BareTree;
use std::alloc::Global;
use std::marker::Model;
use std::ops::Range;

/// The result of a turn: merged over this arc, changed labels, or no turn is left.
enum Turn {
    Merged(u32),
    Labelled,
    Last,
}

/// The order's state: labels, current arcs and waiting roots. Contracts see only the numbers of blocks and of labels.
#[derive(Drop)]
pub struct LowestLabel {
    /// The last label is that of finished branches. A branch that would get it is left to the closing loop.
    labels: Vec<u16>,
    /// The place in each block's row from which the search for a lower label goes on.
    places: Vec<u16>,
    /// How many of the blocks that are in have each label.
    counts: Vec<u32>,
    /// First room for the blocks that are in, where a turn lists those that it finds in a branch; from place `entered` on the
    /// blocks that are not in yet, by level.
    blocks: Vec<u32>,
    found: usize,
    entered: usize,
    /// The place after the last block of each level except the last, and how many levels are in.
    ends: Vec<u32>,
    level: usize,
    waiting: LabelBuckets,
}

impl Model for LowestLabel {
    ghost use Rattle.std.specs.Prelude.{◌≡◌, length};
    ghost use Rattle.merging.specs.Order.{AreOrdered, Buckets};

    ghost Value = { Buckets };

    ghost view = { λ o. record { blocks = length o.labels.items; labels = length o.counts.items } };

    ghost invariant = { λ o. AreOrdered o.labels.items o.places.items o.counts.items o.blocks.items o.found o.entered × (o.waiting ≡ record { blocks = length o.labels.items; labels = length o.counts.items }) };
}

/// Returns whether a block is a root with an excess above 0.
fn is_strong_root(tree: &BareTree, block: u32) -> bool
    requires { block < tree.now.mine.blocks }
{
    tree.parent(block).is_none() && tree.excess(block) > 0
}

/// Returns the place of an arc in its row, or the end of the row without an arc; at most 65,535, so that longer rows are read again
/// from there.
fn place_in(row: Range<u32>, arc: Option<u32>) -> u16
    requires order { row.start ≤ row.end }
    requires arc { IfSome arc (λ k. row.start ≤ k) }
{
    let end = arc.unwrap_or(row.end);
    u16::try_from(end - row.start).unwrap_or(u16::MAX)
}

/// Returns the number of labels for a mine: two more than blocks, within 16 bits.
fn label_count(blocks: u32) -> u16
    requires { blocks ≤ most_blocks }
    ensures { 2 ≤ result }
{
    u16::try_from(blocks + 2).unwrap_or(u16::MAX)
}

impl LowestLabel {
    /// Returns the order for an opening tree: no block is in.
    ///
    /// # Errors
    ///
    /// If memory runs out.
    pub fn new(alloc: Global, tree: &BareTree) -> Result<LowestLabel, Fault>
        ensures blocks { IfOk result (λ o. o.blocks ≡ tree.now.mine.blocks) }
        ensures no_memory { IfErr result (λ e. e ≡ no_memory) }
    {
        tree.law();
        let graph = tree.instance().graph();
        let Levels { blocks, ends } = blocks_by_level(alloc, graph)?;
        let labels = label_count(graph.n());
        Ok(LowestLabel {
            labels: vec![in alloc; 0u16; blocks.len()]?,
            places: vec![in alloc; 0u16; blocks.len()]?,
            counts: vec![in alloc; 0; labels as usize]?,
            waiting: LabelBuckets::new(alloc, graph.n(), labels)?,
            blocks,
            found: 0,
            entered: 0,
            ends,
            level: 0,
        })
    }

    /// Returns the label of finished branches.
    fn last_label(&self) -> u16
        ensures { result + 1 ≡ self.now.labels }
    {
        (self.counts.len() - 1) as u16
    }

    /// Lets a block in. A strong root gets one more than the least label of its predecessors, and waits; any other block gets 0.
    fn enter(&mut self, tree: &BareTree, block: u32)
        requires same { self.old.blocks ≡ tree.now.mine.blocks }
        requires block { block < self.old.blocks }
        ensures { self.new ≡ self.old }
    {
        let mut label = 0;
        if is_strong_root(tree, block) {
            let graph = tree.instance().graph();
            let most = self.last_label() - 1;
            label = least_label(graph, &self.labels, block, most) + 1;
        }
        self.labels[block as usize] = label;
        self.counts[label as usize] = self.counts[label as usize].saturating_add(1);
        self.wait(tree, block);
    }

    /// Returns the place after the last block of the next level.
    fn level_end(&self) -> usize
        ensures { result ≤ self.now.blocks }
    {
        match self.ends.get(self.level) {
            Some(end) => self.blocks.len().min(*end as usize),
            None => self.blocks.len(),
        }
    }

    /// Lets the blocks of the next level in, and returns whether there is one.
    fn enter_level(&mut self, tree: &BareTree) -> bool
        requires same { self.old.blocks ≡ tree.now.mine.blocks }
        ensures { self.new ≡ self.old }
    {
        let from = self.entered;
        let end = self.level_end();
        for place in from..end {
            let block = self.blocks[place];
            self.enter(tree, block);
        }
        self.entered = end;
        self.level = self.level.saturating_add(1);
        from < end
    }

    /// Lets a block wait if it is a strong root whose branch is not finished.
    fn wait(&mut self, tree: &BareTree, block: u32)
        requires same { self.old.blocks ≡ tree.now.mine.blocks }
        requires block { block < self.old.blocks }
        ensures { self.new ≡ self.old }
    {
        if !is_strong_root(tree, block) {
            return;
        }
        if self.labels[block as usize] == 0 {
            self.relabel(block, 1);
        }
        let label = self.labels[block as usize];
        if label < self.last_label() {
            self.waiting.push(label, block);
        }
    }

    /// Changes the label of a block.
    fn relabel(&mut self, block: u32, label: u16)
        requires block { block < self.old.blocks }
        requires label { label < self.old.labels }
        ensures { self.new ≡ self.old }
    {
        let old = self.labels[block as usize] as usize;
        self.counts[old] = self.counts[old].saturating_sub(1);
        self.counts[label as usize] = self.counts[label as usize].saturating_add(1);
        self.labels[block as usize] = label;
    }

    /// Returns the first arc of a block, from its current place on, that leads to a block with this label.
    fn scan(&mut self, graph: &Graph, block: u32, label: u16) -> Option<u32>
        requires same { self.old.blocks ≡ graph.now.blocks }
        requires block { block < self.old.blocks }
        ensures same { self.new ≡ self.old }
        ensures arc { IfSome result (λ k. (k < length graph.now.pairs) × (first_of graph.now.pairs k ≡ block)) }
    {
        graph.law();
        let row = graph.arcs_of(block);
        let from = row.start + u32::from(self.places[block as usize]);
        let wanted = Wanted {
            labels: &self.labels,
            label,
        };
        let arc = first_to(graph, block, from..row.end, wanted);
        self.places[block as usize] = place_in(row, arc);
        arc
    }

    /// Starts the search of a branch at its root.
    fn begin(&mut self, root: u32)
        requires { root < self.old.blocks }
        ensures { self.new ≡ self.old }
    {
        self.blocks[0] = root;
        self.found = 1;
    }

    /// Returns the block found at a place of the search, if there is one.
    fn found_at(&self, place: usize) -> Option<u32>
        ensures { IfSome result (λ u. u < self.now.blocks) }
    {
        if place < self.found {
            Some(self.blocks[place])
        } else {
            None
        }
    }

    /// Appends the children of a block that have this label, or all children, to the blocks found.
    fn find_children(&mut self, forest: &Forest, block: u32, label: Option<u16>)
        requires same { self.old.blocks ≡ size forest.now }
        requires block { block < self.old.blocks }
        ensures { self.new ≡ self.old }
    {
        let labels = &self.labels;
        let wanted = label.map(|label| Wanted { labels, label });
        self.found = add_children(forest, block, wanted, &mut self.blocks, self.found);
    }

    /// Searches the branch of a root, along blocks with its label, for an arc to a block one label lower. Returns the block from
    /// which it leads, and the arc.
    fn look(&mut self, tree: &BareTree, root: u32, label: u16) -> Option<(u32, u32)>
        requires same { self.old.blocks ≡ tree.now.mine.blocks }
        requires root { root < self.old.blocks }
        requires label { 0 < label }
        ensures same { self.new ≡ self.old }
        ensures arc { IfSome result (λ r. (r.1 < arcs tree.now.mine) × (source tree.now.mine r.1 ≡ r.0)) }
    {
        tree.law();
        self.begin(root);
        for place in 0..tree.forest().blocks() as usize {
            let block = self.found_at(place)?;
            if let Some(arc) = self.scan(tree.instance().graph(), block, label - 1) {
                return Some((block, arc));
            }
            self.find_children(tree.forest(), block, Some(label));
        }
        None
    }

    /// Raises the labels of the blocks found by one, and lets their root wait.
    fn raise(&mut self, root: u32, label: u16)
        requires root { root < self.old.blocks }
        requires label { label + 1 < self.old.labels }
        ensures { self.new ≡ self.old }
    {
        for place in 0..self.labels.len() {
            match self.found_at(place) {
                Some(block) => {
                    self.relabel(block, label + 1);
                    self.places[block as usize] = 0;
                }
                None => break,
            }
        }
        self.waiting.push(label + 1, root);
    }

    /// Finishes a branch: excludes its blocks from all later turns, by a label that no other label is one below.
    fn finish(&mut self, forest: &Forest, root: u32)
        requires same { self.old.blocks ≡ size forest.now }
        requires root { root < self.old.blocks }
        ensures { self.new ≡ self.old }
    {
        let last = self.last_label();
        self.begin(root);
        for place in 0..self.labels.len() {
            match self.found_at(place) {
                Some(block) => {
                    self.relabel(block, last);
                    self.find_children(forest, block, None);
                }
                None => break,
            }
        }
    }

    /// Lets exactly the strong roots of a tree wait whose branch is not finished, after a run over all levels. Labels stay, since
    /// increased values keep them lower bounds. Before that run no root waits.
    pub fn wait_anew(&mut self, tree: &BareTree)
        requires same { self.old.blocks ≡ tree.now.mine.blocks }
        ensures { self.new ≡ self.old }
    {
        tree.law();
        if self.entered < self.blocks.len() {
            return;
        }
        self.waiting.clear();
        for root in 0..tree.instance().graph().n() {
            self.wait(tree, root);
        }
    }

    /// Lets the strong roots of the last merger's path wait.
    fn wait_along(&mut self, tree: &BareTree)
        requires same { self.old.blocks ≡ tree.now.mine.blocks }
        ensures { self.new ≡ self.old }
    {
        tree.law();
        for block in tree.path() {
            self.wait(tree, *block);
        }
    }

    /// Merges over the arc, which leads from this block, and lets the strong roots of its path wait.
    fn merge(&mut self, tree: &mut BareTree, from: u32, arc: u32) -> Turn
        requires same { self.old.blocks ≡ tree.old.mine.blocks }
        requires arc { arc < arcs tree.old.mine }
        requires source { source tree.old.mine arc ≡ from }
        ensures same { self.new ≡ self.old }
        ensures mine { tree.new.mine ≡ tree.old.mine }
    {
        if !tree.merge_from(from, arc) {
            return Turn::Last;
        }
        tree.instance().counters().merged();
        self.wait_along(tree);
        Turn::Merged(arc)
    }

    /// Takes one turn. The last turn is when no root waits and all blocks are in. If no block is one label lower than the lowest
    /// strong root, its branch reaches no weak block.
    fn turn(&mut self, tree: &mut BareTree) -> Turn
        requires same { self.old.blocks ≡ tree.old.mine.blocks }
        ensures same { self.new ≡ self.old }
        ensures mine { tree.new.mine ≡ tree.old.mine }
    {
        tree.law();
        let Some((label, root)) = self.waiting.pop() else {
            return if self.enter_level(tree) {
                Turn::Labelled
            } else {
                Turn::Last
            };
        };
        if label == 0 || self.counts[label as usize - 1] == 0 || label >= self.last_label() {
            self.finish(tree.forest(), root);
            return Turn::Labelled;
        }
        match self.look(tree, root, label) {
            Some((from, arc)) => self.merge(tree, from, arc),
            None => {
                tree.instance().counters().relabelled(self.found as u64);
                self.raise(root, label);
                Turn::Labelled
            }
        }
    }
}

/// A bound on the number of turns that no run reaches. The loop ends by it in every order.
const MOST_TURNS: u64 = 1 << 63;

/// Takes turns until the last. This is the merge loop.
pub(crate) fn take_turns(order: &mut LowestLabel, tree: &mut BareTree)
    requires same { order.old.blocks ≡ tree.old.mine.blocks }
    ensures same { order.new ≡ order.old }
    ensures mine { tree.new.mine ≡ tree.old.mine }
{
    for _turn in 0..MOST_TURNS {
        match order.turn(tree) {
            Turn::Merged(_) | Turn::Labelled => {}
            Turn::Last => break,
        }
    }
}

/// Merges by lowest label.
///
/// # Errors
///
/// If memory runs out; the tree is then unchanged.
pub fn merge_by_lowest_label(alloc: Global, tree: &mut BareTree) -> Result<(), Fault>
    ensures mine { tree.new.mine ≡ tree.old.mine }
    ensures refused { IfErr result (λ e. (e ≡ no_memory) × (tree.new ≡ tree.old)) }
{
    let mut order = LowestLabel::new(alloc, tree)?;
    take_turns(&mut order, tree);
    Ok(())
}

/// Merges by lowest label and returns the arcs in order.
///
/// # Errors
///
/// If memory runs out.
pub(crate) fn mergers_by_lowest_label(alloc: Global, tree: &mut BareTree) -> Result<Vec<u32>, Fault>
    ensures { IfErr result (λ e. e ≡ no_memory) }
{
    let mut order = LowestLabel::new(alloc, tree)?;
    let mut arcs = Vec::new(alloc);
    for _turn in 0..MOST_TURNS {
        match order.turn(tree) {
            Turn::Merged(arc) => arcs.push(arc)?,
            Turn::Labelled => {}
            Turn::Last => break,
        }
    }
    Ok(arcs)
}

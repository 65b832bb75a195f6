//! The graph of the pairs "u needs p". Making one puts the pairs into their order (`sort_rows` of `csr`) and refuses by a cycle where they
//! have one (no_cycle.rt); so its type carries that it has none.
ghost use Rattle.std.specs.Prelude.{◌≡◌, ◌<◌, ◌≤◌, ◌↔◌, ℕ, ◌+◌, length, get_or, IfOk, IfErr, IfSome, IfNone};
ghost use Rattle.pit_model.specs.Size.{most_blocks, most_pairs};
ghost use Rattle.faults.specs.Refused.{no_memory};
ghost use Rattle.pit_model.specs.Direction.{IsReversed};
ghost use Rattle.pit_model.specs.Fixed.{transposed};
ghost use Rattle.pit_model.specs.Graph.{first_of, second_of, AreApart, AreInRange, AreSamePairs, IsAcyclic, IsGraph};
ghost use Rattle.mine_graph.specs.Faults.{IsGraphFault};
ghost use Rattle.csr.specs.Shared.{target_after};
ghost use Rattle.csr.specs.Transposed.{transposed_pairs};

use crate::no_cycle::check_acyclic;
use crate::row_samples::{STEP, next_row_sample, row_between, sample_rows};
use csr::{SharedRows, sort_rows, transposed_rows};
use faults::Fault;
use std::alloc::{AllocError, Global};
use std::marker::Model;
use std::ops::Range;

/// Blocks 0 to n - 1, and the pairs (u, p) of "u needs p" in the order of (u, p), without a cycle.
#[derive(Drop)]
pub struct Graph {
    blocks: u32,
    /// The blocks that each block needs.
    predecessors: SharedRows,
    /// The block of every 64th pair.
    row_samples: Vec<u32>,
}

impl Model for Graph {
    ghost use Rattle.pit_model.specs.Graph.{Graph};
    ghost use Rattle.mine_graph.specs.Invariant.{GraphInvariant};

    ghost Value = { Graph };

    ghost view = { λ g. record { blocks = g.blocks; pairs = g.predecessors.pairs } };

    ghost invariant = { λ g. GraphInvariant g.blocks g.predecessors g.row_samples.items };
}

impl Graph {
    /// Makes the graph of these pairs (u, p), which may come in any order, and numbers its arcs in the order of (u, p). It sorts
    /// the pairs; [`of_rows`](Graph::of_rows) takes rows and no such time.
    ///
    /// # Errors
    /// `NoMemory`, and `Cycle` with the cycle of the pairs where they have one.
    pub fn new(alloc: Global, n: u32, pairs: Vec<(u32, u32)>) -> Result<Graph, Fault>
        requires few_blocks { n ≤ most_blocks }
        requires few_pairs { length pairs.items ≤ most_pairs }
        requires in_range { AreInRange pairs.items n }
        requires apart { AreApart pairs.items }
        ensures blocks { IfOk result (λ g. g.blocks ≡ n) }
        ensures same { IfOk result (λ g. AreSamePairs pairs.items g.pairs) }
        ensures acyclic { IfOk result (λ _. IsAcyclic pairs.items) }
        ensures refused { IfErr result (IsGraphFault pairs.items n) }
    {
        let mut pairs = pairs;
        pairs.sort_unstable();
        let rows = SharedRows::from_pairs(alloc, n, &pairs)?;
        drop(pairs);
        Graph::of_rows(alloc, n, rows)
    }

    /// Makes the graph of the pairs that rows spell, and numbers its arcs in the order of (u, p). Time is linear in blocks and
    /// pairs.
    ///
    /// # Errors
    /// `NoMemory`, and `Cycle` with the cycle of the pairs where they have one.
    pub fn of_rows(alloc: Global, n: u32, rows: SharedRows) -> Result<Graph, Fault>
        requires few_blocks { n ≤ most_blocks }
        requires few_pairs { length rows.pairs ≤ most_pairs }
        requires rows { rows.blocks ≡ n }
        requires in_range { AreInRange rows.pairs n }
        requires apart { AreApart rows.pairs }
        ensures blocks { IfOk result (λ g. g.blocks ≡ n) }
        ensures same { IfOk result (λ g. AreSamePairs rows.pairs g.pairs) }
        ensures acyclic { IfOk result (λ _. IsAcyclic rows.pairs) }
        ensures refused { IfErr result (IsGraphFault rows.pairs n) }
    {
        let predecessors = sort_rows(alloc, n, rows)?;
        check_acyclic(alloc, n, &predecessors)?;
        Ok(Graph::of_acyclic_rows(alloc, n, predecessors)?)
    }

    /// The graph of sorted rows that are known to have no cycle. It takes no time to look for one.
    pub(crate) fn of_acyclic_rows(
        alloc: Global,
        n: u32,
        predecessors: SharedRows,
    ) -> Result<Graph, AllocError>
        requires few_blocks { n ≤ most_blocks }
        requires few_pairs { length predecessors.pairs ≤ most_pairs }
        requires rows { predecessors.blocks ≡ n }
        requires graph { IsGraph n predecessors.pairs }
        ensures blocks { IfOk result (λ g. g.blocks ≡ n) }
        ensures pairs { IfOk result (λ g. g.pairs ≡ predecessors.pairs) }
    {
        let row_samples = sample_rows(alloc, n, &predecessors)?;
        Ok(Graph {
            blocks: n,
            predecessors,
            row_samples,
        })
    }

    /// What is true of each graph.
    pub fn law(&self)
        ensures graph { IsGraph self.now.blocks self.now.pairs }
        ensures few_blocks { self.now.blocks ≤ most_blocks }
        ensures few_arcs { length self.now.pairs ≤ most_pairs }
    {
        let _ = &self.predecessors;
    }

    /// The arcs from each block to those that it needs.
    pub(crate) fn predecessors(&self) -> &SharedRows
        ensures blocks { result.now.blocks ≡ self.now.blocks }
        ensures pairs { result.now.pairs ≡ self.now.pairs }
    {
        &self.predecessors
    }

    /// Returns the arcs from each block to those that need it, in time linear in blocks and pairs.
    ///
    /// # Errors
    ///
    /// If memory runs out.
    pub(crate) fn successors(&self) -> Result<SharedRows, AllocError>
        ensures blocks { IfOk result (λ r. r.blocks ≡ self.now.blocks) }
        ensures pairs { IfOk result (λ r. r.pairs ≡ transposed_pairs self.now.pairs self.now.blocks) }
        ensures same { IfOk result (λ r. AreSamePairs (transposed self.now.pairs) r.pairs) }
    {
        self.law();
        transposed_rows(self.alloc(), self.blocks, &self.predecessors)
    }

    /// Where the graph takes its memory from.
    pub(crate) fn alloc(&self) -> Global {
        self.predecessors.alloc()
    }

    /// How many blocks there are.
    pub fn n(&self) -> u32
        ensures { result ≡ self.now.blocks }
    {
        self.blocks
    }

    /// How many pairs there are.
    pub fn arcs(&self) -> u32
        ensures { result ≡ length self.now.pairs }
    {
        self.predecessors.len() as u32
    }

    /// The block that needs another by the pair with that number, by binary search between samples.
    fn first(&self, k: u32) -> u32
        requires { k < length self.now.pairs }
        ensures { result ≡ first_of self.now.pairs k }
    {
        let mark = k as usize / STEP;
        let least = self.row_samples[mark];
        let most = next_row_sample(&self.row_samples, mark, self.blocks - 1);
        row_between(self.predecessors.offsets(), least, most, k)
    }

    /// The pair with that number: a block, and one that it needs.
    pub fn arc(&self, k: u32) -> (u32, u32)
        requires { k < length self.now.pairs }
        ensures { result ≡ get_or self.now.pairs k (0, 0) }
    {
        let u = self.first(k);
        (u, self.needed(u, k))
    }

    /// The block that a block needs by its pair with that number.
    pub fn needed(&self, u: u32, k: u32) -> u32
        requires inside { k < length self.now.pairs }
        requires own { first_of self.now.pairs k ≡ u }
        ensures { result ≡ second_of self.now.pairs k }
    {
        self.predecessors.target(u, k)
    }

    /// The numbers of the pairs of a block, which follow one another.
    pub fn arcs_of(&self, u: u32) -> Range<u32>
        requires { u < self.now.blocks }
        ensures order { result.start ≤ result.end }
        ensures inside { result.end ≤ length self.now.pairs }
        ensures own { (k : ℕ) → k < length self.now.pairs → (first_of self.now.pairs k ≡ u) ↔ ((result.start ≤ k) × (k < result.end)) }
    {
        self.predecessors.row(u)
    }

    /// Returns the transposed graph: the blocks that need a block there are those that it needs here. Error: `NoMemory`. Time is
    /// linear in blocks and pairs.
    pub fn reversed(&self) -> Result<Graph, Fault>
        ensures reversed { IfOk result (λ g. IsReversed self.now g) }
        ensures no_memory { IfErr result (λ e. e ≡ no_memory) }
    {
        self.law();
        let predecessors = self.successors()?;
        Ok(Graph::of_acyclic_rows(self.alloc(), self.blocks, predecessors)?)
    }

    /// The number of a pair, by halving the row of its block.
    pub fn arc_of(&self, u: u32, p: u32) -> Option<u32>
        requires { u < self.now.blocks }
        ensures some { IfSome result (λ k. (k < length self.now.pairs) × (first_of self.now.pairs k ≡ u) × (second_of self.now.pairs k ≡ p)) }
        ensures none { IfNone result ((k : ℕ) → k < length self.now.pairs → first_of self.now.pairs k ≡ u → second_of self.now.pairs k ≡ p → ⊥) }
    {
        let row = self.predecessors.shared_row(u);
        let place = first_at_least(row.differences, u, p);
        if place < row.differences.len() && u.wrapping_add(row.differences[place]) == p {
            Some(row.start + place as u32)
        } else {
            None
        }
    }
}

/// The place of the first difference from a block to `p` or more, among differences to targets that do not fall.
fn first_at_least(differences: &[u32], block: u32, p: u32) -> usize
    requires { (i j : ℕ) → i ≤ j → j < length differences.now → target_after block (get_or differences.now i 0) ≤ target_after block (get_or differences.now j 0) }
    ensures within { result ≤ length differences.now }
    ensures before { (i : ℕ) → i < result → target_after block (get_or differences.now i 0) < p }
    ensures after { (i : ℕ) → result ≤ i → i < length differences.now → p ≤ target_after block (get_or differences.now i 0) }
{
    differences.partition_point(|&difference| block.wrapping_add(difference) < p)
}

//! A part of a graph: some of its blocks, renumbered in rising order, with the pairs among them as a graph of its own.
//! The blocks of a part are those with one label; `without` labels the blocks of a set, and takes the others.
ghost use Rattle.std.specs.Prelude.{◌≡◌, ◌<◌, ◌≤◌, ◌^◌, ◌==◌, ◌+◌, ℕ, true, false, not, map, length, get_or, IfOk, IfErr};
ghost use Rattle.pit_model.specs.Size.{most_blocks};
ghost use Rattle.faults.specs.Refused.{no_memory};
ghost use Rattle.pit_model.specs.Graph.{first_of, second_of, AreInRange};
ghost use Rattle.pit_model.specs.Mine.{members};
ghost use Rattle.pit_model.specs.Part.{IsPart};
ghost use Rattle.mine_graph.specs.Renumbered.{has_label, placed_pair, is_inside, is_inside_before, IsPlaced};

use crate::graph::Graph;
use csr::CsrBuilder;
use faults::Fault;
use std::alloc::{AllocError, Global};

/// Some blocks of a graph, rising, and the graph of the pairs among them, in which block i is `blocks[i]`.
#[derive(Drop)]
pub struct Part {
    pub blocks: Vec<u32>,
    pub graph: Graph,
}

/// The label of each block of a graph, the label of the blocks that are chosen, and the place of each of these among them.
#[derive(Clone, Copy)]
pub(crate) struct Chosen<'a> {
    pub labels: &'a [u32],
    pub label: u32,
    pub places: &'a [u32],
}

/// Adds the pairs by which a block needs chosen blocks, renumbered. The row of its place is open.
fn add_row(
    graph: &Graph,
    block: u32,
    chosen: Chosen<'_>,
    needs: &mut CsrBuilder,
) -> Result<(), AllocError>
    requires inside { block < graph.now.blocks }
    requires labelled { length chosen.labels.now ≡ graph.now.blocks }
    requires placed { length chosen.places.now ≡ graph.now.blocks }
    requires own { get_or chosen.labels.now block 0 ≡ chosen.label }
    requires row { needs.old.blocks ≡ get_or chosen.places.now block 0 }
    requires before { needs.old.pairs ≡ map (placed_pair graph.now.pairs chosen.places.now) (members (length graph.now.pairs) (is_inside_before graph.now.pairs chosen.labels.now chosen.label block)) }
    ensures after { IfOk result (λ _. needs.new.pairs ≡ map (placed_pair graph.now.pairs chosen.entry.places.now) (members (length graph.now.pairs) (is_inside_before graph.now.pairs chosen.entry.labels.now chosen.entry.label (block + 1)))) }
    ensures row { needs.new.blocks ≡ needs.old.blocks }
{
    graph.law();
    let arcs = graph.arcs_of(block);
    for k in arcs.start..arcs.end {
        let needed = graph.needed(block, k);
        if chosen.labels[needed as usize] == chosen.label {
            needs.push(chosen.places[needed as usize])?;
        }
    }
    Ok(())
}

/// The pairs among the chosen blocks, renumbered.
fn pairs_within(graph: &Graph, blocks: &[u32], chosen: Chosen<'_>) -> Result<CsrBuilder, AllocError>
    requires labelled { length chosen.labels.now ≡ graph.now.blocks }
    requires placed { length chosen.places.now ≡ graph.now.blocks }
    requires blocks { blocks.now ≡ members graph.now.blocks (has_label chosen.labels.now chosen.label) }
    requires places { IsPlaced blocks.now (length blocks.now) chosen.places.now }
    ensures rows { IfOk result (λ v. v.blocks ≤ length blocks.now) }
    ensures pairs { IfOk result (λ v. v.pairs ≡ map (placed_pair graph.now.pairs chosen.entry.places.now) (members (length graph.now.pairs) (is_inside graph.now.pairs chosen.entry.labels.now chosen.entry.label))) }
{
    graph.law();
    let mut needs = CsrBuilder::new(graph.alloc())?;
    for i in 0..blocks.len() {
        needs.open_row(i as u32)?;
        add_row(graph, blocks[i], chosen, &mut needs)?;
    }
    Ok(needs)
}

/// The part of the chosen blocks, where each of them knows its place.
pub(crate) fn part_of(graph: &Graph, blocks: Vec<u32>, chosen: Chosen<'_>) -> Result<Part, Fault>
    requires labelled { length chosen.labels.now ≡ graph.now.blocks }
    requires placed { length chosen.places.now ≡ graph.now.blocks }
    requires blocks { blocks.items ≡ members graph.now.blocks (has_label chosen.labels.now chosen.label) }
    requires places { IsPlaced blocks.items (length blocks.items) chosen.places.now }
    ensures part { IfOk result (λ p. IsPart graph.now (has_label chosen.entry.labels.now chosen.entry.label) p.blocks.items p.graph) }
    ensures no_memory { IfErr result (λ e. e ≡ no_memory) }
{
    graph.law();
    let n = blocks.len() as u32;
    let needs = pairs_within(graph, &blocks, chosen)?;
    let graph = Graph::of_acyclic_rows(graph.alloc(), n, needs.finish(n)?)?;
    Ok(Part { blocks, graph })
}

/// Writes for each block of a list its place there.
pub(crate) fn place_blocks(blocks: &[u32], places: &mut [u32])
    requires few { length blocks.now < 2 ^ 32 }
    requires rising { (i j : ℕ) → i < j → j < length blocks.now → get_or blocks.now i 0 < get_or blocks.now j 0 }
    requires inside { (i : ℕ) → i < length blocks.now → get_or blocks.now i 0 < length places.old }
    ensures placed { IsPlaced blocks.now (length blocks.now) places.new }
    ensures rest { (u : ℕ) → ((i : ℕ) → i < length blocks.now → get_or blocks.now i 0 ≡ u → ⊥) → get_or places.new u 0 ≡ get_or places.old u 0 }
{
    for i in 0..blocks.len() {
        places[blocks[i] as usize] = i as u32;
    }
}

/// Label 1 for each marked block, and 0 for each other one.
fn labels_of(alloc: Global, taken: &[bool]) -> Result<Vec<u32>, AllocError>
    ensures count { IfOk result (λ v. length v.items ≡ length taken.now) }
    ensures labels { IfOk result (λ v. (u : ℕ) → u < length taken.now → has_label v.items 0 u ≡ not (get_or taken.now u false)) }
{
    Ok(taken.iter().map(|&mark| u32::from(mark)).collect(alloc)?)
}

/// The blocks with that label, rising.
fn blocks_with(alloc: Global, labels: &[u32], label: u32) -> Result<Vec<u32>, AllocError>
    requires { length labels.now ≤ most_blocks }
    ensures { IfOk result (λ v. v.items ≡ members (length labels.now) (has_label labels.now label)) }
{
    let n = labels.len() as u32;
    Ok(
        (0..n)
            .filter(|&u| labels[u as usize] == label)
            .collect(alloc)?,
    )
}

impl Graph {
    /// Returns the blocks that are not marked, with the pairs among them, in time linear in blocks and pairs. Error: `NoMemory`.
    pub fn without(&self, taken: &[bool]) -> Result<Part, Fault>
        requires { length taken.now ≡ self.now.blocks }
        ensures part { IfOk result (λ p. IsPart self.now (λ u. not (get_or taken.now u false)) p.blocks.items p.graph) }
        ensures no_memory { IfErr result (λ e. e ≡ no_memory) }
    {
        self.law();
        let alloc = self.alloc();
        let labels = labels_of(alloc, taken)?;
        let blocks = blocks_with(alloc, &labels, 0)?;
        let mut places = vec![in alloc; 0; self.n() as usize]?;
        place_blocks(&blocks, &mut places);
        let chosen = Chosen {
            labels: &labels,
            label: 0,
            places: &places,
        };
        part_of(self, blocks, chosen)
    }
}

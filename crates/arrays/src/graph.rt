//! The graph that rows encode, or why they encode none.
ghost use Rattle.std.specs.Prelude.{◌≡◌, ◌<◌, ◌≤◌, ℕ, length, IfOk, IfErr};
ghost use Rattle.pit_model.specs.Size.{most_blocks, most_pairs};
ghost use Rattle.pit_model.specs.Graph.{AreApart, AreInRange, AreSamePairs};
ghost use Rattle.csr.specs.View.{AreRows};
ghost use Rattle.arrays.specs.Encoded.{EncodesGraph, EncodesPairs};
ghost use Rattle.arrays.specs.Refused.{RefusesRows, RefusesNeedArrays};

use crate::array_error::ArrayError;
use crate::needs::{first_of_itself, first_outside, first_repeated};
use crate::rows::are_rows;
use csr::{CsrView, SharedRows};
use faults::Refusal;
use mine_graph::Graph;
use std::alloc::Global;
use std::sync::Arc;

const MOST_BLOCKS: usize = 4_194_304;

const MOST_PAIRS: usize = 67_108_864;

/// The rows, where each pair is of two blocks that there are and stands once.
fn sound_rows(alloc: Global, blocks: u32, rows: CsrView<'_>) -> Result<SharedRows, ArrayError>
    requires few_blocks { blocks ≤ most_blocks }
    requires few_pairs { length rows.targets.now ≤ most_pairs }
    requires rows { AreRows blocks rows }
    ensures rows { IfOk result (λ v. v.blocks ≡ blocks) }
    ensures encoded { IfOk result (λ v. EncodesPairs rows.entry.offsets.now rows.entry.targets.now v.pairs) }
    ensures in_range { IfOk result (λ v. AreInRange v.pairs blocks) }
    ensures apart { IfOk result (λ v. AreApart v.pairs) }
    ensures refused { IfErr result (λ e. RefusesRows blocks rows.entry.offsets.now rows.entry.targets.now e.refusal e.place) }
{
    if let Some(place) = first_outside(blocks, rows.targets) {
        return Err(ArrayError {
            refusal: Refusal::PredecessorOutOfRange,
            place,
        });
    }
    if let Some(place) = first_of_itself(blocks, rows) {
        return Err(ArrayError {
            refusal: Refusal::NeedsItself,
            place,
        });
    }
    if let Some(place) = first_repeated(alloc, blocks, rows)? {
        return Err(ArrayError {
            refusal: Refusal::PredecessorTwice,
            place,
        });
    }
    Ok(SharedRows::from_view(alloc, blocks, rows)?)
}

/// The graph of the pairs of rows, or the cycle that they have.
fn graph_of_rows(alloc: Global, blocks: u32, rows: SharedRows) -> Result<Arc<Graph>, ArrayError>
    requires few_blocks { blocks ≤ most_blocks }
    requires few_pairs { length rows.pairs ≤ most_pairs }
    requires rows { rows.blocks ≡ blocks }
    requires in_range { AreInRange rows.pairs blocks }
    requires apart { AreApart rows.pairs }
    ensures blocks { IfOk result (λ g. g.value.blocks ≡ blocks) }
    ensures same { IfOk result (λ g. AreSamePairs rows.pairs g.value.pairs) }
    ensures refused { IfErr result (λ e. RefusesNeedArrays rows.pairs blocks e.refusal e.place) }
{
    match Graph::of_rows(alloc, blocks, rows) {
        Ok(graph) => Ok(Arc::new(alloc, graph)?),
        Err(fault) => Err(ArrayError {
            refusal: fault.refusal,
            place: 0,
        }),
    }
}

/// Returns the graph of `blocks` blocks that the rows encode. Errors, the first that applies: too many blocks or pairs (4), rows
/// out of place (7), an unknown block (8), one that needs itself (9), one that is named twice (10), a cycle (14); lack of memory
/// (1). Time is linear in blocks and pairs.
pub fn graph_of(alloc: Global, blocks: usize, rows: &CsrView<'_>) -> Result<Arc<Graph>, ArrayError>
    ensures few { IfOk result (λ g. blocks ≤ most_blocks) }
    ensures encoded { IfOk result (λ g. EncodesGraph blocks rows.now.offsets.now rows.now.targets.now g.value) }
    ensures refused { IfErr result (λ e. RefusesRows blocks rows.now.offsets.now rows.now.targets.now e.refusal e.place) }
{
    if blocks > MOST_BLOCKS || rows.targets.len() > MOST_PAIRS {
        return Err(ArrayError {
            refusal: Refusal::OverLimit,
            place: 0,
        });
    }
    let count = blocks as u32;
    if !are_rows(count, rows.targets.len(), rows.offsets) {
        return Err(ArrayError {
            refusal: Refusal::IdOutOfPlace,
            place: 0,
        });
    }
    let sound = sound_rows(alloc, count, *rows)?;
    graph_of_rows(alloc, count, sound)
}

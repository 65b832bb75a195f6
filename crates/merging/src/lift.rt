//! Lifts the answers of connected components to the whole mine: writes pits and flows under the block and arc numbers of the whole.
ghost use Rattle.std.specs.Prelude.{◌≡◌, ◌<◌, ℕ, Bool, false, length, get_or, IfOk, IfErr};
ghost use Rattle.faults.specs.Refused.{no_memory};
ghost use Rattle.pit_model.specs.Mine.{arcs, members};
ghost use Rattle.pit_model.specs.Part.{IsPart, IsRenumbered};
ghost use Rattle.optimality.specs.Check.{has};
ghost use Rattle.optimality.specs.Certificate.{IsCertificateOf};
ghost use Rattle.merging.specs.Parts.{graph_of_instance, AreSolved, ArePitMarks, AreCarried, ArePlaced};

use crate::solved_part::SolvedPart;
use faults::Fault;
use mine_graph::{Graph, Instance, marked_numbers};
use optimality::Certificate;
use std::alloc::{AllocError, Global};

/// Marks the blocks of a component's pit.
pub(crate) fn mark_pit(blocks: &[u32], pit: &[u32], marks: &mut [bool])
    requires pit { (i : ℕ) → i < length pit.now → get_or pit.now i 0 < length blocks.now }
    requires blocks { (u : ℕ) → u < length blocks.now → get_or blocks.now u 0 < length marks.old }
    ensures { ArePitMarks blocks.now pit.now (length pit.now) marks.old marks.new }
{
    for i in 0..pit.len() {
        marks[blocks[pit[i] as usize] as usize] = true;
    }
}

/// Writes the flow of a component at the numbers of its arcs in the whole graph.
pub(crate) fn carry_flow(
    whole: &Graph,
    blocks: &[u32],
    part: &Graph,
    amounts: &[i128],
    flow: &mut [i128],
)
    requires count { part.now.blocks ≡ length blocks.now }
    requires blocks { (u : ℕ) → u < length blocks.now → get_or blocks.now u 0 < whole.now.blocks }
    requires apart { (u v : ℕ) → u < v → v < length blocks.now → get_or blocks.now u 0 < get_or blocks.now v 0 }
    requires amounts { length amounts.now ≡ length part.now.pairs }
    requires flow { length flow.old ≡ length whole.now.pairs }
    requires inside { (k : ℕ) → k < length part.now.pairs → (l : ℕ) × (l < length whole.now.pairs) × IsRenumbered whole.now blocks.now part.now k l }
    ensures { AreCarried whole.now blocks.now part.now amounts.now (length part.now.pairs) flow.old flow.new }
{
    whole.law();
    part.law();
    for k in 0..part.arcs() {
        let (u, p) = part.arc(k);
        match whole.arc_of(blocks[u as usize], blocks[p as usize]) {
            Some(arc) => flow[arc as usize] = amounts[k as usize],
            None => unreachable!(),
        }
    }
}

/// Writes the solution of one component.
fn place_part(instance: &Instance, part: &SolvedPart, marks: &mut [bool], flow: &mut [i128])
    requires part { (set : ℕ → Bool) × IsPart (graph_of_instance instance.now) set part.now.blocks.items (graph_of_instance part.now.mine) }
    requires answer { IsCertificateOf part.now.mine part.now.certificate }
    requires marks { length marks.old ≡ instance.now.blocks }
    requires flow { length flow.old ≡ arcs instance.now }
    ensures marked { ArePitMarks part.now.blocks.items part.now.certificate.pit.items (length part.now.certificate.pit.items) marks.old marks.new }
    ensures carried { AreCarried (graph_of_instance instance.now) part.now.blocks.items (graph_of_instance part.now.mine) part.now.certificate.flow.items (arcs part.now.mine) flow.old flow.new }
{
    instance.law();
    let graph: &Graph = part.mine.graph();
    mark_pit(&part.blocks, &part.certificate.pit, marks);
    carry_flow(
        instance.graph(),
        &part.blocks,
        graph,
        &part.certificate.flow,
        flow,
    );
}

/// Writes the solution of each component.
fn place_parts(instance: &Instance, parts: &[SolvedPart], marks: &mut [bool], flow: &mut [i128])
    requires solved { AreSolved instance.now parts.now }
    requires marks { length marks.old ≡ instance.now.blocks }
    requires none { (v : ℕ) → has marks.old v ≡ false }
    requires flow { length flow.old ≡ arcs instance.now }
    ensures { ArePlaced instance.now parts.now marks.new flow.new (length parts.now) }
{
    instance.law();
    for i in 0..parts.len() {
        place_part(instance, &parts[i], marks, flow);
    }
}

/// Returns the certificate of the whole mine: pits and flows of its components, by the numbers of the whole.
pub(crate) fn join_parts(
    alloc: Global,
    instance: &Instance,
    parts: &[SolvedPart],
) -> Result<Certificate, Fault>
    requires { AreSolved instance.now parts.now }
    ensures answer { IfOk result (IsCertificateOf instance.now) }
    ensures refused { IfErr result (λ e. e ≡ no_memory) }
{
    instance.law();
    let graph: &Graph = instance.graph();
    let mut marks = vec![in alloc; false; graph.n() as usize]?;
    let mut flow = vec![in alloc; 0; graph.arcs() as usize]?;
    place_parts(instance, parts, &mut marks, &mut flow);
    let pit = marked_numbers(alloc, &marks)?;
    Ok(Certificate { pit, flow })
}

//! Solves each connected component of an instance by itself, several at a time. Each condition of a certificate concerns one block
//! and its arcs, so the certificates of the components together are one of the whole mine (Picard 1976: a closed set of a graph is
//! one of each of its components).
ghost use Rattle.std.specs.Prelude.{◌≡◌, ◌<◌, ℕ, false, pos, length, get_or, IfOk, IfErr, IfSome, MatchResult};
ghost use Rattle.std.specs.List.{All, AllZip};
ghost use Rattle.faults.specs.Refused.{no_memory};
ghost use Rattle.pit_model.specs.Mine.{value};
ghost use Rattle.optimality.specs.Certificate.{IsCertificateOf};
ghost use Rattle.pit_model.specs.declared.direction.Direction.TheVariants.{Least};
ghost use Rattle.pit_model.specs.Pit.{ListsPit, no_blocks_fixed};
ghost use Rattle.merging.specs.Parts.{graph_of_instance, IsPartOf, IsSolvedPart};

use crate::lift::join_parts;
use crate::single::{solve_certificate, solve_pit};
use crate::solved_part::SolvedPart;
use crate::union_find::is_one_part;
use faults::Fault;
use mine_graph::{Graph, Instance, Part};
use optimality::Certificate;
use rayon::prelude::*;
use std::alloc::{AllocError, Global};
use std::sync::Arc;
use std::thread::Threads;

/// Returns the values of some blocks.
pub(crate) fn values_at(
    alloc: Global,
    instance: &Instance,
    blocks: &[u32],
) -> Result<Vec<i128>, AllocError>
    requires { (u : ℕ) → u < length blocks.now → get_or blocks.now u 0 < instance.now.blocks }
    ensures count { IfOk result (λ v. length v.items ≡ length blocks.now) }
    ensures each { IfOk result (λ v. (u : ℕ) → u < length blocks.now → get_or v.items u (pos 0) ≡ value instance.now (get_or blocks.now u 0)) }
{
    let mut values = Vec::with_capacity(alloc, blocks.len())?;
    for i in 0..blocks.len() {
        values.push(instance.value(blocks[i]))?;
    }
    Ok(values)
}

/// Solves a component as an instance, with its certificate.
fn solve_part(alloc: Global, instance: &Instance, part: Part) -> Result<SolvedPart, Fault>
    requires { IsPartOf instance.now part }
    ensures { MatchResult result (IsSolvedPart instance.now part) (λ e. e ≡ no_memory) }
{
    instance.law();
    let values = values_at(alloc, instance, &part.blocks)?;
    let counters = instance.counters().share();
    let mine = Instance::with_counters(Arc::new(alloc, part.graph)?, values, counters);
    let mine = mine.share_values(alloc)?;
    mine.law();
    let certificate = solve_certificate(alloc, &mine)?;
    Ok(SolvedPart {
        blocks: part.blocks,
        mine,
        certificate,
    })
}

/// Solves each component, on as many threads as there are processors.
fn solve_each<R: Threads + Sync>(
    rt: &R,
    alloc: Global,
    instance: &Instance,
    parts: Vec<Part>,
) -> Result<Vec<SolvedPart>, Fault>
    requires { All (IsPartOf instance.now) parts.items }
    ensures { MatchResult result (λ v. AllZip (IsSolvedPart instance.now) parts.items v.items) (λ e. e ≡ no_memory) }
{
    let solved: Result<Vec<SolvedPart>, Fault> = parts
        .into_par_iter()
        .with_min_len(1)
        .map(
            |part: Part| -> Result<SolvedPart, Fault>
                requires { IsPartOf instance.now part }
                ensures { MatchResult result (IsSolvedPart instance.entry.now part) (λ e. e ≡ no_memory) }
            { solve_part(alloc, instance, part) },
        )
        .collect(rt, alloc)?;
    solved
}

/// More components than this are solved as one mine if they have fewer than `FEW_BLOCKS` blocks on average: the instance of a component
/// takes more memory than so few blocks need.
const MANY_PARTS: u32 = 1 << 16;

const FEW_BLOCKS: u32 = 16;

/// Returns whether the components of a mine are solved one by one.
fn are_worth_parting(parts: u32, blocks: u32) -> bool {
    parts >= 2 && (parts <= MANY_PARTS || parts <= blocks / FEW_BLOCKS)
}

/// Returns the joined certificates of the components, or `None` if the mine is solved as one.
fn join_of_parts<R: Threads + Sync>(
    rt: &R,
    alloc: Global,
    instance: &Instance,
) -> Result<Option<Certificate>, Fault>
    ensures answer { IfOk result (λ joined. IfSome joined (IsCertificateOf instance.now)) }
    ensures refused { IfErr result (λ e. e ≡ no_memory) }
{
    instance.law();
    let graph: &Graph = instance.graph();
    if is_one_part(alloc, graph)? {
        return Ok(None);
    }
    let components = graph.components()?;
    if !are_worth_parting(components.count, graph.n()) {
        return Ok(None);
    }
    let parts = graph.parts_by(&components)?;
    let solved = solve_each(rt, alloc, instance, parts)?;
    Ok(Some(join_parts(alloc, instance, &solved)?))
}

/// Finds the minimal pit with its certificate by connected components, which threads solve at the same time.
///
/// # Errors
///
/// If memory runs out, also that of one component.
pub fn solve_parts<R: Threads + Sync>(
    rt: &R,
    alloc: Global,
    instance: &Instance,
) -> Result<Certificate, Fault>
    ensures solved { IfOk result (IsCertificateOf instance.now) }
    ensures refused { IfErr result (λ e. e ≡ no_memory) }
{
    match join_of_parts(rt, alloc, instance)? {
        Some(joined) => Ok(joined),
        None => solve_certificate(alloc, instance),
    }
}

/// Finds the minimal pit by connected components. An instance that is solved as one gets no flow.
///
/// # Errors
///
/// If memory runs out, also that of one component.
pub fn pit_by_parts<R: Threads + Sync>(
    rt: &R,
    alloc: Global,
    instance: &Instance,
) -> Result<Vec<u32>, Fault>
    ensures shown { IfOk result (λ pit. ListsPit Least instance.now no_blocks_fixed pit.items) }
    ensures refused { IfErr result (λ e. e ≡ no_memory) }
{
    instance.law();
    match join_of_parts(rt, alloc, instance)? {
        Some(joined) => Ok(joined.pit),
        None => solve_pit(alloc, instance),
    }
}

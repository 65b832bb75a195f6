//! The arcs that a sweep goes over, in chunks, each drawn by one worker. The first sweep goes over a plan (`merging`), which never
//! divides a branch of the solved tree: mergers in different branches do not touch each other, so no worker asks for what another's
//! merger made stale. A later one goes over the merger arcs that the tree has when it begins. No answer depends on it: asks are
//! decided under the lock.
ghost use Rattle.std.specs.Prelude.{◌≡◌, [], slice_index_or, IfErr};
ghost use Rattle.faults.specs.Refused.{no_memory};

use counters::Phase;
use faults::Fault;
use merging::{Plan, Planned, plan_mergers};
use norm_tree::NormTree;
use std::alloc::{AllocError, Global};
use std::marker::Model;

/// A plan of fewer mergers leaves most workers nothing to ask for, so a sweep over all merger arcs is made in its place.
const LEAST_PLAN: usize = 8;

/// The arcs of each chunk, in the order in which a worker goes over them.
#[derive(Drop)]
pub struct WorkChunks {
    chunks: Vec<Vec<u32>>,
}

impl Model for WorkChunks {
    ghost use Rattle.std.specs.Prelude.{ℕ, List, map};

    ghost Value = { List (List ℕ) };

    ghost view = { λ w. map (λ chunk. chunk.items) w.chunks.items };
}

/// How many mergers of a plan lie in each branch.
fn mergers_by_branch(alloc: Global, plan: &Plan) -> Result<Vec<u32>, AllocError> {
    let mut counts = vec![in alloc; 0u32; plan.branches as usize]?;
    for merger in &plan.mergers {
        if let Some(count) = counts.get_mut(merger.branch as usize) {
            *count = count.saturating_add(1);
        }
    }
    Ok(counts)
}

/// Returns for each branch the number of its chunk: a chunk takes in whole branches, until it has at least `least` mergers.
fn chunk_of_each(alloc: Global, counts: &[u32], least: u32) -> Result<Vec<u32>, AllocError> {
    let mut numbers = Vec::with_capacity(alloc, counts.len())?;
    let mut number = 0u32;
    let mut filled = 0u32;
    for &count in counts {
        if filled >= least {
            number = number.saturating_add(1);
            filled = 0;
        }
        filled = filled.saturating_add(count);
        numbers.push(number)?;
    }
    Ok(numbers)
}

impl WorkChunks {
    /// Returns `chunks` chunks without an arc.
    fn empty(alloc: Global, chunks: usize) -> Result<WorkChunks, Fault>
        ensures { IfErr result (λ e. e ≡ no_memory) }
    {
        let mut work = WorkChunks {
            chunks: Vec::with_capacity(alloc, chunks)?,
        };
        for _chunk in 0..chunks {
            work.chunks.push(Vec::new(alloc))?;
        }
        Ok(work)
    }

    /// Returns chunks over the mergers of a plan, in its order, with at least `least` to a chunk.
    fn planned(alloc: Global, plan: &Plan, least: u32) -> Result<WorkChunks, Fault>
        ensures { IfErr result (λ e. e ≡ no_memory) }
    {
        let counts = mergers_by_branch(alloc, plan)?;
        let numbers = chunk_of_each(alloc, &counts, least.max(1))?;
        let last = numbers.last().copied().unwrap_or(0);
        let mut work = WorkChunks::empty(alloc, (last as usize).saturating_add(1))?;
        for &Planned { arc, branch } in &plan.mergers {
            let number = numbers.get(branch as usize).copied().unwrap_or(0);
            if let Some(chunk) = work.chunks.get_mut(number as usize) {
                chunk.push(arc)?;
            }
        }
        Ok(work)
    }

    /// Puts an arc into the last chunk, or into a new one if that has `most`.
    fn put(&mut self, alloc: Global, arc: u32, most: u32) -> Result<(), AllocError> {
        match self.chunks.last_mut() {
            Some(chunk) if chunk.len() < most as usize => chunk.push(arc)?,
            _ => {
                let mut chunk = Vec::new(alloc);
                chunk.push(arc)?;
                self.chunks.push(chunk)?;
            }
        }
        Ok(())
    }

    /// Returns chunks over the merger arcs that a tree has, in the order of their numbers, with `most` to a chunk. Error:
    /// `NoMemory`.
    pub fn over_mergers(alloc: Global, tree: &NormTree, most: u32) -> Result<WorkChunks, Fault>
        ensures { IfErr result (λ e. e ≡ no_memory) }
    {
        let mut work = WorkChunks::empty(alloc, 0)?;
        for arc in 0..tree.instance().graph().arcs() {
            if tree.is_merger(arc) {
                work.put(alloc, arc, most)?;
            }
        }
        Ok(work)
    }

    /// Returns the chunks of the first sweep, over an opening tree. Error: `NoMemory`.
    pub fn opening(alloc: Global, tree: &NormTree, chunk: u32) -> Result<WorkChunks, Fault>
        ensures { IfErr result (λ e. e ≡ no_memory) }
    {
        let counters = tree.instance().counters();
        counters.enter(Phase::Planning);
        let plan = plan_mergers(alloc, tree.instance())?;
        counters.enter(Phase::Solving);
        if plan.mergers.len() < LEAST_PLAN {
            WorkChunks::over_mergers(alloc, tree, chunk)
        } else {
            WorkChunks::planned(alloc, &plan, chunk)
        }
    }

    /// How many chunks there are.
    pub fn chunks(&self) -> usize {
        self.chunks.len()
    }

    /// The arcs of the chunk with that number; none where no chunk has it.
    pub fn chunk(&self, number: u32) -> &[u32]
        ensures { result.now ≡ slice_index_or self.now number [] }
    {
        match self.chunks.get(number as usize) {
            Some(chunk) => chunk.as_slice(),
            None => &[],
        }
    }
}

//! Mergers worked by hand over the arcs (0, 1), (0, 3) and (2, 1): one cuts the path within a branch, one cuts between two strong
//! branches, and one uses a residual up exactly and keeps the link.
ghost use Rattle.std.specs.Prelude.{◌≡◌, IfOk};

use csr::SharedRows;
use faults::Fault;
use mine_graph::{Graph, Instance};
use norm_tree::NormTree;
use std::alloc::Global;
use std::sync::Arc;

/// An arc that is merged over, and the parent of each block after it.
#[derive(Drop)]
struct TracedMerger {
    arc: u32,
    parents: [Option<u32>; 4],
}

/// An opening tree, the mergers that are made in it, and the strong blocks at their end.
#[derive(Drop)]
pub struct Trace {
    tree: NormTree,
    mergers: [TracedMerger; 3],
    strong: [bool; 4],
}

/// The four blocks with their pairs.
fn pairs(alloc: Global) -> Result<Arc<Graph>, Fault>
    ensures { IfOk result (λ graph. graph.value.blocks ≡ 4) }
{
    let needs = SharedRows::from_pairs(alloc, 4, &[(0, 1), (0, 3), (2, 1)])?;
    Ok(Arc::new(alloc, Graph::of_rows(alloc, 4, needs)?)?)
}

fn over(arc: u32, parents: [Option<u32>; 4]) -> TracedMerger {
    TracedMerger { arc, parents }
}

impl Trace {
    /// A merger cuts the path within a branch. Error, here and below: `NoMemory`.
    pub fn cuts_within_a_branch(alloc: Global) -> Result<Trace, Fault> {
        let values = vec![in alloc; 1, -2, 5, -2]?;
        Ok(Trace {
            tree: NormTree::start(alloc, &Instance::new(pairs(alloc)?, values))?,
            mergers: [
                over(0, [Some(1), None, None, None]),
                over(2, [Some(1), None, Some(1), None]),
                over(1, [Some(3), None, Some(1), None]),
            ],
            strong: [false, true, true, false],
        })
    }

    /// A merger cuts between two strong branches.
    pub fn cuts_between_branches(alloc: Global) -> Result<Trace, Fault> {
        let values = vec![in alloc; 4, -2, 5, -2]?;
        Ok(Trace {
            tree: NormTree::start(alloc, &Instance::new(pairs(alloc)?, values))?,
            mergers: [
                over(0, [Some(1), None, None, None]),
                over(1, [Some(3), Some(0), None, None]),
                over(2, [Some(3), None, Some(1), None]),
            ],
            strong: [true; 4],
        })
    }

    /// A merger uses a residual up exactly, and the link stays.
    pub fn keeps_a_link(alloc: Global) -> Result<Trace, Fault> {
        let values = vec![in alloc; 4, -2, 2, -2]?;
        Ok(Trace {
            tree: NormTree::start(alloc, &Instance::new(pairs(alloc)?, values))?,
            mergers: [
                over(0, [Some(1), None, None, None]),
                over(1, [Some(3), Some(0), None, None]),
                over(2, [Some(3), Some(0), Some(1), None]),
            ],
            strong: [true; 4],
        })
    }

    /// Makes the mergers. It answers whether each arc was a merger arc, the parents were these after it, and at the end no merger
    /// arc is left and the strong blocks are these.
    pub fn runs_to_its_end(self) -> bool {
        let Trace {
            mut tree,
            mergers,
            strong,
        } = self;
        let merged = mergers.iter().all(|merger| tree.try_merge(merger.arc)
            && has_parents(&tree, &merger.parents));
        merged && tree.find_merger().is_none() && tree.labels() == strong.as_slice()
    }
}

/// Whether these are the parents of the tree's blocks.
fn has_parents(tree: &NormTree, parents: &[Option<u32>; 4]) -> bool {
    tree.instance().graph().n() == 4
        && (0..4).all(|block| tree.parent(block) == parents[block as usize])
}

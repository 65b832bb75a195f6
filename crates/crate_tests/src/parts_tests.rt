//! The parts of small graphs, worked out by hand.
use crate::mines::graph_of;
use faults::Fault;
use mine_graph::{Graph, Part};
use std::alloc::Global;
use std::test::*;

type Pairs = &'static [(u32, u32)];

/// A graph by its number of blocks and its precedence file, and each of its parts by its blocks and its pairs.
struct Case {
    blocks: u32,
    prec: &'static str,
    parts: &'static [(&'static [u32], Pairs)],
}

const NO_BLOCK: Case = Case {
    blocks: 0,
    prec: "",
    parts: &[],
};

const ONE_PART: Case = Case {
    blocks: 3,
    prec: "1 1 0\n2 1 0\n",
    parts: &[(&[0, 1, 2], &[(1, 0), (2, 0)])],
};

const TWO_COPIES: Case = Case {
    blocks: 4,
    prec: "1 1 0\n3 1 2\n",
    parts: &[(&[0, 1], &[(1, 0)]), (&[2, 3], &[(1, 0)])],
};

/// Whether a graph has these pairs.
fn joins(graph: &Graph, pairs: &[(u32, u32)]) -> bool {
    if graph.arcs() as usize != pairs.len() {
        return false;
    }
    for k in 0..graph.arcs() {
        if graph.arc(k) != pairs[k as usize] {
            return false;
        }
    }
    true
}

/// Whether these are the parts.
fn are(found: &[Part], parts: &[(&'static [u32], Pairs)]) -> bool {
    for (part, (blocks, pairs)) in found.iter().zip(parts) {
        if part.blocks.as_slice() != *blocks || !joins(&part.graph, pairs) {
            return false;
        }
    }
    found.len() == parts.len()
}

fn parts_of(alloc: Global, case: &Case) -> Result<Vec<Part>, Fault> {
    let graph = graph_of(alloc, case.blocks, case.prec)?;
    graph.parts()
}

/// Whether a graph falls into the parts that it must.
fn falls_apart(alloc: Global, case: &Case) -> Result<bool, Fault> {
    let found = parts_of(alloc, case)?;
    Ok(are(&found, case.parts))
}

#[test]
fn graphs_fall_into_their_parts(rt: HostRuntime) -> Result<(), Fail> {
    for case in &[NO_BLOCK, ONE_PART, TWO_COPIES] {
        let fell = falls_apart(rt.alloc(), case)?;
        assert!(rt; fell, "{} blocks", case.blocks);
    }
    Ok(())
}

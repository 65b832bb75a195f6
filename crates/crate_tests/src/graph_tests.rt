//! The precedence pairs as a list: read in the order of the file, and made into a graph from any order.
use faults::{Fault, Refusal, Source};
use mine_graph::Graph;
use minelib_reader::{MemoryReader, read_prec};
use std::alloc::Global;
use std::test::*;

/// Reads the pairs of four blocks.
fn pairs_of(alloc: Global, prec: &str) -> Result<Vec<(u32, u32)>, Fault> {
    let text = prec.as_bytes();
    if text.len() > 1000 {
        return Err(Fault::at_line(Source::Precedence, Refusal::OverLimit, 0));
    }
    read_prec(alloc, &mut MemoryReader::new(text), 4)
}

/// Makes the graph of three pairs of four blocks, the last of them first.
fn mixed_graph(alloc: Global) -> Result<Graph, Fault> {
    let pairs = vec![in alloc; (3, 1), (1, 2), (1, 0)]?;
    Graph::new(alloc, 4, pairs)
}

#[test]
fn pairs_are_read_in_the_order_of_the_file(rt: HostRuntime) -> Result<(), Fail> {
    let pairs = pairs_of(rt.alloc(), "1 2 2 0\n3 1 1\n")?;
    assert_eq!(rt; pairs.as_slice(), [(1, 2), (1, 0), (3, 1)].as_slice());
    Ok(())
}

#[test]
fn arcs_are_numbered_in_order_whatever_the_order_of_the_pairs(rt: HostRuntime) -> Result<(), Fail> {
    let graph = mixed_graph(rt.alloc())?;
    assert_eq!(rt; (graph.n(), graph.arcs()), (4, 3));
    for (k, pair) in [(1, 0), (1, 2), (3, 1)].iter().enumerate() {
        assert_eq!(rt; graph.arc(k as u32), *pair);
    }
    Ok(())
}

//! Mines by their texts: small ones, and two kinds of larger ones, whose mergers one by one were worked out by hand.
ghost use Rattle.std.specs.Prelude.{◌≡◌, IfOk};

use faults::{Fault, Refusal, Source};
use mine_graph::{Graph, Instance};
use minelib_reader::{parse_prec_rows, parse_upit};
use std::alloc::{AllocError, Global};
use std::fmt::Write;
use std::sync::Arc;

/// A mine by the texts of its model and its precedence file.
#[derive(Clone, Copy, Debug)]
pub struct SmallMine {
    pub model: &'static str,
    pub prec: &'static str,
}

/// Four blocks: block 0 needs 1 and 3, and block 2 needs 1. A merger cuts the path within a branch.
pub const FOUR_BLOCKS: SmallMine = SmallMine {
    model: "NAME: t\nTYPE: UPIT\nNBLOCKS: 4\nOBJECTIVE_FUNCTION:\n0 1\n1 -2\n2 5\n3 -2\n",
    prec: "0 2 1 3\n2 1 1\n",
};

/// The same pairs: a merger cuts between two strong branches.
pub const FOUR_BLOCKS_THAT_PAY: SmallMine = SmallMine {
    model: "NAME: t\nTYPE: UPIT\nNBLOCKS: 4\nOBJECTIVE_FUNCTION:\n0 4\n1 -2\n2 5\n3 -2\n",
    prec: "0 2 1 3\n2 1 1\n",
};

/// The same pairs: a residual is used up exactly, and the link stays.
pub const FOUR_BLOCKS_WITH_AN_EQUAL_RESIDUAL: SmallMine = SmallMine {
    model: "NAME: t\nTYPE: UPIT\nNBLOCKS: 4\nOBJECTIVE_FUNCTION:\n0 4\n1 -2\n2 2\n3 -2\n",
    prec: "0 2 1 3\n2 1 1\n",
};

/// A block of waste, which costs 1, and eight of ore that need it, each worth 5: each arc is a merger arc until one was merged
/// over, and none is afterwards.
pub const EIGHT_OVER_ONE: SmallMine = SmallMine {
    model: "NAME: t\nTYPE: UPIT\nNBLOCKS: 9\nOBJECTIVE_FUNCTION:\n0 -1\n1 5\n2 5\n3 5\n4 5\n5 5\n6 5\n7 5\n8 5\n",
    prec: "1 1 0\n2 1 0\n3 1 0\n4 1 0\n5 1 0\n6 1 0\n7 1 0\n8 1 0\n",
};

/// Two blocks of ore, 1 and 4, need block 0, which each pays for alone. Arcs 0 and 2 are each a merger arc until the other is
/// merged over. After each stands a pair of blocks that is a merger by itself: arcs 1 and 3.
pub const ONE_WASTE_FOR_TWO: SmallMine = SmallMine {
    model: "NAME: t\nTYPE: UPIT\nNBLOCKS: 7\nOBJECTIVE_FUNCTION:\n0 -1\n1 5\n2 -3\n3 5\n4 5\n5 -3\n6 5\n",
    prec: "1 1 0\n3 1 2\n4 1 0\n6 1 5\n",
};

/// Four pairs of blocks. The second of each needs the first and pays for it: each pair is one merger.
pub const FOUR_PAIRS: SmallMine = SmallMine {
    model: "NAME: t\nTYPE: UPIT\nNBLOCKS: 8\nOBJECTIVE_FUNCTION:\n0 -3\n1 5\n2 -3\n3 5\n4 -3\n5 5\n6 -3\n7 5\n",
    prec: "1 1 0\n3 1 2\n5 1 4\n7 1 6\n",
};

/// The mine that a model and a precedence file spell.
fn read(alloc: Global, model: &str, prec: &str) -> Result<Instance, Fault> {
    if model.len() > 1_000_000 || prec.len() > 1_000_000 {
        return Err(Fault::no_seat());
    }
    let mine = parse_upit(alloc, model.as_bytes())?;
    let needs = parse_prec_rows(alloc, prec.as_bytes(), mine.n)?;
    let graph = Graph::of_rows(alloc, mine.n, needs)?;
    Ok(Instance::new(Arc::new(alloc, graph)?, mine.values))
}

/// The instance of a small mine.
pub fn spelled(alloc: Global, mine: SmallMine) -> Result<Instance, Fault> {
    read(alloc, mine.model, mine.prec)
}

/// The most bytes that a text of a small mine has.
const MOST_BYTES: usize = 1000;

/// The most blocks that it has.
const MOST_BLOCKS: u32 = 100;

/// The graph of this number of blocks. Refused if the text is, if it is longer than those of small mines, and for lack of memory.
pub fn graph_of(alloc: Global, blocks: u32, prec: &str) -> Result<Graph, Fault>
    ensures { IfOk result (λ g. g.blocks ≡ blocks) }
{
    if blocks > MOST_BLOCKS || prec.len() > MOST_BYTES {
        return Err(Fault::at_line(Source::Precedence, Refusal::OverLimit, 0));
    }
    let needs = parse_prec_rows(alloc, prec.as_bytes(), blocks)?;
    Graph::of_rows(alloc, blocks, needs)
}

/// A mine that is written copy by copy.
#[derive(Drop)]
struct Written {
    model: String,
    prec: String,
}

impl Written {
    fn of_blocks(alloc: Global, blocks: u32) -> Result<Written, AllocError> {
        Ok(Written {
            model: format!(in alloc;
                "NAME: t\nTYPE: UPIT\nNBLOCKS: {blocks}\nOBJECTIVE_FUNCTION:\n"
            )?,
            prec: String::new(alloc),
        })
    }

    fn add_pairs(&mut self, copies: u32) -> Result<(), AllocError> {
        for copy in 0..copies.min(1000) {
            let u = 2 * copy;
            write!(self.model, "{} -3\n{} 5\n", u, u + 1)?;
            write!(self.prec, "{} 1 {}\n", u + 1, u)?;
        }
        Ok(())
    }

    fn add_ores(&mut self, copies: u32) -> Result<(), AllocError> {
        for copy in 0..copies.min(1000) {
            let u = 3 * copy;
            write!(self.model, "{} -5\n{} 1\n{} 10\n", u, u + 1, u + 2)?;
            write!(self.prec, "{} 1 {}\n{} 1 {}\n", u + 1, u, u + 2, u + 1)?;
        }
        Ok(())
    }
}

/// This many copies of a mine of two blocks, at most 1,000, numbered two at a time: the second block needs the first, and pays for
/// it. Each copy is one merger.
pub fn pairs_of_blocks(alloc: Global, copies: u32) -> Result<Instance, Fault> {
    let mut texts = Written::of_blocks(alloc, 2 * copies.min(1000))?;
    texts.add_pairs(copies)?;
    read(alloc, &texts.model, &texts.prec)
}

/// This many copies of a mine of three blocks, at most 1,000, numbered three at a time: ore below ore below waste. The upper ore
/// does not pay for the waste, and both do. Each copy is two mergers, the upper one first.
pub fn ores_below_waste(alloc: Global, copies: u32) -> Result<Instance, Fault> {
    let mut texts = Written::of_blocks(alloc, 3 * copies.min(1000))?;
    texts.add_ores(copies)?;
    read(alloc, &texts.model, &texts.prec)
}

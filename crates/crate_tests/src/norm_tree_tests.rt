//! Three traces over the pairs (0, 1), (0, 3), (2, 1), worked by hand. A merger cuts the path within a branch, one cuts it between
//! two strong branches, and one uses a residual up exactly, so that the link stays.
use crate::mines::{
    FOUR_BLOCKS, FOUR_BLOCKS_THAT_PAY, FOUR_BLOCKS_WITH_AN_EQUAL_RESIDUAL, SmallMine, spelled,
};
use faults::Fault;
use norm_tree::NormTree;
use std::alloc::Global;
use std::test::*;

/// How a tree stands: the parent and the root of each block, which blocks are strong, and the flow of each arc.
#[derive(Clone, Copy)]
struct State {
    parents: [Option<u32>; 4],
    roots: [u32; 4],
    strong: [bool; 4],
    flow: [i128; 3],
}

/// A merger over an arc, how the tree stands after it, and an arc that is no merger arc then.
#[derive(Clone, Copy)]
struct CheckedMerger {
    arc: u32,
    after: State,
    stale: u32,
}

const WITHIN_A_BRANCH: [CheckedMerger; 3] = [
    CheckedMerger {
        arc: 0,
        after: State {
            parents: [Some(1), None, None, None],
            roots: [1, 1, 2, 3],
            strong: [false, false, true, false],
            flow: [1_000_000, 0, 0],
        },
        stale: 1,
    },
    CheckedMerger {
        arc: 2,
        after: State {
            parents: [Some(1), None, Some(1), None],
            roots: [1, 1, 1, 3],
            // block 0 is not on the path 2, 1
            strong: [true, true, true, false],
            flow: [1_000_000, 0, 5_000_000],
        },
        stale: 0,
    },
    CheckedMerger {
        arc: 1,
        after: State {
            parents: [Some(3), None, Some(1), None],
            roots: [3, 1, 1, 3],
            // block 2 is not on the path 1, 0, 3, which is cut below 1
            strong: [false, true, true, false],
            flow: [0, 1_000_000, 5_000_000],
        },
        stale: 2,
    },
];

const FIRST_OF_FOUR: CheckedMerger = CheckedMerger {
    arc: 0,
    after: State {
        parents: [Some(1), None, None, None],
        roots: [1, 1, 2, 3],
        strong: [true, true, true, false],
        flow: [4_000_000, 0, 0],
    },
    stale: 2,
};

const SECOND_OF_FOUR: CheckedMerger = CheckedMerger {
    arc: 1,
    after: State {
        parents: [Some(3), Some(0), None, None],
        roots: [3, 3, 2, 3],
        strong: [false, false, true, false],
        flow: [2_000_000, 2_000_000, 0],
    },
    stale: 0,
};

const BETWEEN_STRONG_BRANCHES: [CheckedMerger; 3] = [
    FIRST_OF_FOUR,
    SECOND_OF_FOUR,
    CheckedMerger {
        arc: 2,
        after: State {
            parents: [Some(3), None, Some(1), None],
            roots: [3, 1, 1, 3],
            strong: [true; 4],
            flow: [0, 4_000_000, 5_000_000],
        },
        stale: 0,
    },
];

const AN_EQUAL_RESIDUAL: [CheckedMerger; 3] = [
    FIRST_OF_FOUR,
    SECOND_OF_FOUR,
    CheckedMerger {
        arc: 2,
        after: State {
            parents: [Some(3), Some(0), Some(1), None],
            roots: [3, 3, 3, 3],
            strong: [true; 4],
            flow: [0, 4_000_000, 2_000_000],
        },
        stale: 3,
    },
];

/// Whether the parents and the roots are these.
fn has_links(tree: &NormTree, state: &State) -> bool {
    if tree.instance().graph().n() != 4 {
        return false;
    }
    for u in 0..4 {
        let at = u as usize;
        if tree.parent(u) != state.parents[at] || tree.root(u) != state.roots[at] {
            return false;
        }
    }
    true
}

/// Whether a tree stands so.
fn stands(tree: &NormTree, state: &State) -> Result<bool, Fault> {
    Ok(
        has_links(tree, state)
            && tree.labels() == state.strong.as_slice()
            && tree.flow()?.as_slice() == state.flow.as_slice(),
    )
}

/// Makes a merger: whether its arc was a merger arc, and all is as it must be after it.
fn merges(tree: &mut NormTree, merger: &CheckedMerger) -> Result<bool, Fault> {
    Ok(
        tree.try_merge(merger.arc)
            && !tree.is_merger(merger.stale)
            && !tree.try_merge(merger.stale)
            && stands(tree, &merger.after)?,
    )
}

/// Whether no merger arc is left, and the strong blocks are these.
fn ends(tree: &NormTree, pit: &[u32]) -> Result<bool, Fault> {
    Ok(tree.find_merger() == None && tree.pit()?.as_slice() == pit)
}

/// Whether the mergers of a tree go so, one by one, to this pit.
fn are_made(tree: &mut NormTree, mergers: &[CheckedMerger], pit: &[u32]) -> Result<bool, Fault> {
    for merger in mergers {
        if !merges(tree, merger)? {
            return Ok(false);
        }
    }
    ends(tree, pit)
}

/// The opening tree of a mine.
fn opening(alloc: Global, mine: SmallMine) -> Result<NormTree, Fault> {
    let mine = spelled(alloc, mine)?;
    NormTree::start(alloc, &mine)
}

/// Whether the mergers of a mine go so.
fn go_so(
    alloc: Global,
    mine: SmallMine,
    mergers: &[CheckedMerger],
    pit: &[u32],
) -> Result<bool, Fault> {
    let mut tree = opening(alloc, mine)?;
    are_made(&mut tree, mergers, pit)
}

#[test]
fn cuts_within_a_branch(rt: HostRuntime) -> Result<(), Fail> {
    assert!(rt; go_so(rt.alloc(), FOUR_BLOCKS, &WITHIN_A_BRANCH, &[1, 2])?);
    Ok(())
}

#[test]
fn cuts_between_strong_branches(rt: HostRuntime) -> Result<(), Fail> {
    assert!(rt;
        go_so(
            rt.alloc(),
            FOUR_BLOCKS_THAT_PAY,
            &BETWEEN_STRONG_BRANCHES,
            &[0, 1, 2, 3]
        )?
    );
    Ok(())
}

#[test]
fn keeps_a_link_that_is_used_up_exactly(rt: HostRuntime) -> Result<(), Fail> {
    assert!(rt;
        go_so(
            rt.alloc(),
            FOUR_BLOCKS_WITH_AN_EQUAL_RESIDUAL,
            &AN_EQUAL_RESIDUAL,
            &[0, 1, 2, 3]
        )?
    );
    Ok(())
}

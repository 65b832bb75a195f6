//! Checks that journal, flow and version are those of the first mergers, as one thread makes them.
use crate::mine::ARCS;
use faults::Fault;
use mine_graph::Instance;
use norm_tree::NormTree;
use std::alloc::Global;
use tree_lock::{Holder, LockId, LookSeat, Verdict, Version};

/// How often memory was refused to the calls that a trial is of, and the name of the first thing that was not as it must be.
#[derive(Clone, Copy)]
pub struct Seen {
    pub refused: u32,
    pub failed: Option<&'static str>,
}

/// A seat to look from, and what was seen.
#[derive(Drop)]
pub struct Witness<'a, S: LockId> {
    alloc: Global,
    mine: &'a Instance,
    /// None while it is lent.
    seat: Option<LookSeat<S>>,
    pub seen: Seen,
}

/// Returns the tree after `count` mergers.
fn tree_after(alloc: Global, mine: &Instance, count: usize) -> Result<NormTree, Fault> {
    let mut tree = NormTree::start(alloc, mine)?;
    for arc in &ARCS[..count.min(ARCS.len())] {
        tree.try_merge(*arc);
    }
    Ok(tree)
}

/// Returns whether the journal has `count` mergers, in the order of their arcs.
fn is_journal<S: LockId>(holder: &Holder<S>, count: usize) -> bool {
    let journal = holder.journal();
    journal.len() == count
        && journal.iter().zip(ARCS.iter()).all(|(entry, arc)| entry.arc == *arc
            && entry.verdict == Verdict::Applied)
}

/// Whether the version shows the strong blocks of the tree and its merger arcs.
fn shows<S: LockId>(version: &Version<S>, tree: &NormTree) -> bool {
    let blocks = version.instance().graph().n();
    if blocks != tree.instance().graph().n() {
        return false;
    }
    for block in 0..blocks {
        if version.is_strong(block) != tree.is_strong(block) {
            return false;
        }
    }
    ARCS.iter()
        .all(|arc| version.is_merger(*arc) == tree.is_merger(*arc))
}

/// Whether a look shows the tree. The seat comes back.
fn look_shows<S: LockId>(seat: LookSeat<S>, tree: &NormTree) -> (LookSeat<S>, bool) {
    match seat.look() {
        Ok(version) => {
            let shown = shows(&version, tree);
            (version.leave(), shown)
        }
        Err(seat) => (seat, false),
    }
}

impl<'a, S: LockId> Witness<'a, S> {
    pub fn new(alloc: Global, mine: &'a Instance, seat: LookSeat<S>) -> Witness<'a, S> {
        Witness {
            alloc,
            mine,
            seat: Some(seat),
            seen: Seen {
                refused: 0,
                failed: None,
            },
        }
    }

    /// Keeps the name of the first thing that does not hold.
    pub fn expect(&mut self, name: &'static str, holds: bool) {
        if !holds && self.seen.failed.is_none() {
            self.seen.failed = Some(name);
        }
    }

    /// Compares journal, flow and version with those of `count` mergers. Error: `NoMemory`.
    pub fn compare(&mut self, holder: &Holder<S>, count: usize) -> Result<(), Fault> {
        let tree = tree_after(self.alloc, self.mine, count)?;
        let flow = holder.tree().flow()?.as_slice() == tree.flow()?.as_slice();
        self.expect(
            "the journal has what was decided",
            is_journal(holder, count),
        );
        self.expect("the flow is that of the mergers made", flow);
        let Some(seat) = self.seat.take() else {
            return Ok(());
        };
        let (seat, shown) = look_shows(seat, &tree);
        self.seat = Some(seat);
        self.expect("a look shows the mergers made", shown);
        Ok(())
    }
}

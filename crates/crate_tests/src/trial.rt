//! A tree under a lock with a board of workers, on which a test tries what it is about. Which type names the board, the list
//! of mergers and the budget is settled here, once for all tests.
ghost use Rattle.std.specs.Prelude.{◌≡◌};

use crate::failures::{Failed, first_failure};
use crate::mines::{SmallMine, spelled};
use faults::Fault;
use mine_graph::Instance;
use norm_tree::NormTree;
use proposals::{Board, UnnamedBoard, WorkerSeat};
use std::alloc::Global;
use std::marker::Brand;
use std::sync::Wait;
use tree_lock::{Entry, LockId, SharedTree, UnnamedList, Verdict};

/// What is tried at a tree.
pub trait Trial {
    fn at<S: LockId, R: Wait>(
        &self,
        rt: &R,
        board: &Board<S>,
        workers: &mut [WorkerSeat<S>],
        shared: &mut SharedTree<S>,
    ) -> Result<Failed, Fault>;
}

/// An entry by its seat, its arc and its verdict.
pub type Line = (u32, u32, Verdict);

/// What a trial begins with, and what it must leave: the journal, and the least merger arc.
#[derive(Clone, Copy)]
pub struct Setting {
    pub mine: SmallMine,
    pub workers: u32,
    pub budget: Option<u64>,
    pub journal: &'static [Line],
    pub merger: Option<u32>,
}

/// What a lock begins with, before a type has its name.
struct Setup<'a> {
    list: UnnamedList,
    unnamed: UnnamedBoard,
    mine: &'a Instance,
}

/// Whether the journal has these entries.
fn has_entries(journal: &[Entry], lines: &[Line]) -> bool {
    for (entry, (seat, arc, verdict)) in journal.iter().zip(lines) {
        if entry.seat != *seat || entry.arc != *arc || entry.verdict != *verdict {
            return false;
        }
    }
    journal.len() == lines.len()
}

/// What fails of the tree and the journal that were left.
fn failure_left(tree: &NormTree, journal: &[Entry], setting: &Setting) -> Failed {
    first_failure(&[
        (
            "the journal has each entry",
            has_entries(journal, setting.journal),
        ),
        (
            "the least merger arc is left",
            tree.find_merger() == setting.merger,
        ),
    ])
}

/// The first failure that was seen, otherwise a failure of what was left.
fn first_of(seen: Result<Failed, Fault>, left: Failed) -> Result<Failed, Fault> {
    Ok(seen?.or(left))
}

/// Ends the lock, and returns the failure that was seen, otherwise one of what the lock leaves.
fn end<S: LockId, R: Wait>(
    rt: &R,
    shared: SharedTree<S>,
    seen: Result<Failed, Fault>,
    setting: &Setting,
) -> Result<Failed, Fault> {
    let (tree, journal) = shared.into_holder().into_parts(rt);
    first_of(seen, failure_left(&tree, &journal, setting))
}

fn try_at<S: LockId, T: Trial, R: Wait>(
    rt: &R,
    alloc: Global,
    begun: Setup,
    setting: &Setting,
    trial: &T,
) -> Result<Failed, Fault>
    requires mine { begun.mine.now ≡ S.mine }
    requires book { begun.list ≡ S.book }
    requires budget { setting.now.budget ≡ S.budget }
    requires board { begun.unnamed ≡ S.board }
    requires arcs { S.arcs ≡ 4294967295 }
    requires workers { begun.unnamed.words ≡ S.workers }
{
    let Setup {
        list,
        unnamed,
        mine,
    } = begun;
    let (board, mut workers, seat) = Board::<S>::new(alloc, unnamed, u32::MAX)?;
    let tree = NormTree::start(alloc, mine)?;
    let mut shared = SharedTree::<S>::new(alloc, list, tree, setting.budget, &board, seat)?;
    let seen = trial.at(rt, &board, &mut workers, &mut shared);
    end(rt, shared, seen, setting)
}

/// What fails of a trial at the opening tree of a mine, or of what it leaves.
pub fn failure_of<T: Trial, R: Wait>(
    rt: &R,
    alloc: Global,
    setting: &Setting,
    trial: &T,
) -> Result<Failed, Fault> {
    let list = UnnamedList::new()?;
    let unnamed = UnnamedBoard::new(alloc, setting.workers)?;
    let mine = spelled(alloc, setting.mine)?;
    let begun = Setup {
        list,
        unnamed,
        mine: &mine,
    };
    try_at::<Brand, T, R>(rt, alloc, begun, setting, trial)
}

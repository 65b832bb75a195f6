//! A tree under a lock with a board of six workers, at which a trial decides arcs.
ghost use Rattle.std.specs.Prelude.{◌≡◌};
ghost use Rattle.pit_model.specs.Tree.{opening};

use crate::witness::{Seen, Witness};
use faults::Fault;
use mine_graph::Instance;
use norm_tree::NormTree;
use proposals::{Board, UnnamedBoard, WorkerSeat};
use std::alloc::Global;
use std::marker::Brand;
use std::sync::Wait;
use tree_lock::{Holder, LockId, SharedTree, UnnamedList};

const WORKERS: u32 = 6;

/// A board, and the seats of its workers at it.
#[derive(Drop)]
pub struct Workplace<S: LockId> {
    pub board: Board<S>,
    pub workers: Vec<WorkerSeat<S>>,
}

/// What is tried at a tree, before a witness.
pub trait WitnessedTrial {
    /// Error: `NoMemory`, if it is refused to the witness, or again to the call on trial.
    fn at<S: LockId, R: Wait>(
        &self,
        rt: &R,
        place: &mut Workplace<S>,
        holder: &mut Holder<S>,
        witness: &mut Witness<'_, S>,
    ) -> Result<(), Fault>;
}

/// What a lock begins with, before a type has its name.
struct Setup {
    tree: NormTree,
    list: UnnamedList,
    unnamed: UnnamedBoard,
}

fn try_at<S: LockId, T: WitnessedTrial, R: Wait>(
    rt: &R,
    alloc: Global,
    mine: &Instance,
    begun: Setup,
    trial: &T,
) -> Result<Seen, Fault>
    requires opening { begun.tree.tree ≡ opening begun.tree.mine }
    requires mine { begun.tree.mine ≡ S.mine }
    requires book { begun.list ≡ S.book }
    requires budget { S.budget ≡ None }
    requires board { begun.unnamed ≡ S.board }
    requires arcs { S.arcs ≡ 4294967295 }
    requires workers { begun.unnamed.words ≡ S.workers }
{
    let Setup {
        tree,
        list,
        unnamed,
    } = begun;
    let (board, workers, seat) = Board::<S>::new(alloc, unnamed, u32::MAX)?;
    let mut shared = SharedTree::<S>::new(alloc, list, tree, None, &board, seat)?;
    let mut place = Workplace { board, workers };
    let tried = match shared.look_seat() {
        Ok(seat) => {
            let mut witness = Witness::new(alloc, mine, seat);
            trial
                .at(rt, &mut place, shared.holder(), &mut witness)
                .map(|_| witness.seen)
        }
        Err(fault) => Err(fault),
    };
    shared.into_holder().into_parts(rt);
    tried
}

/// Makes the trial at the opening tree of a mine. Errors: `NoMemory`, or a refused seat.
pub fn try_with<T: WitnessedTrial, R: Wait>(
    rt: &R,
    alloc: Global,
    mine: &Instance,
    trial: &T,
) -> Result<Seen, Fault> {
    let begun = Setup {
        tree: NormTree::start(alloc, mine)?,
        list: UnnamedList::new()?,
        unnamed: UnnamedBoard::new(alloc, WORKERS)?,
    };
    try_at::<Brand, T, R>(rt, alloc, mine, begun, trial)
}

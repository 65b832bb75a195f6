//! Solves of a mine with fixed blocks, by mode: the certificate of its least pit, or its greatest pit.
ghost use Rattle.std.specs.Prelude.{◌≡◌, IfOk, IfErr};
ghost use Rattle.pit_model.specs.Fixed.{fixed_of, graph_of_mine};
ghost use Rattle.mine_graph.specs.FixedBlocks.{IsFixedOf};
ghost use Rattle.solver.specs.Modes.{LacksRoom};
ghost use Rattle.solver.specs.Searched.{EndsFixed, EndsGreatest};

use crate::mode::Mode;
use crate::search::Search;
use crew::{Entry, Gate};
use faults::{Fault, Refusal};
use merging::Outcome;
use mine_graph::{Fixed, Instance};
use pit_model::Direction;
use std::alloc::Global;
use std::sync::Wait;
use std::thread::Threads;

/// How the mode's solve for the least pit ended, as `Search::solve_with_journal` says.
pub fn solve_fixed<G: Gate + Sync, R: Threads + Wait + Sync>(
    rt: &R,
    alloc: Global,
    instance: &Instance,
    fixed: &Fixed,
    mode: &Mode,
    gate: &G,
) -> Result<(Outcome, Vec<Entry>), Fault>
    requires { IsFixedOf (graph_of_mine instance.now) fixed.now }
    ensures ended { IfOk result (λ r. EndsFixed mode.now instance.now (fixed_of fixed.now.lists) r.0 r.1.items) }
    ensures refused { IfErr result (λ e. LacksRoom mode.now e.refusal e) }
{
    let search = Search {
        rt,
        alloc,
        mode: *mode,
        direction: Direction::Least,
        gate,
    };
    search.solve_with_journal(instance, fixed)
}

/// How a solve for a pit alone ended.
#[derive(Debug, Drop)]
pub enum PitOutcome {
    /// The blocks of the pit, rising.
    Pit(Vec<u32>),
    /// As many mergers were made as the budget allows, and a merger arc is left.
    Exhausted(u64),
}

/// The greatest pit of a mine with fixed blocks: of the closed sets that hold each block forced in and none that is barred, the
/// largest of greatest worth. A budget counts the mergers of the dual instance. The graph is shared with the caller.
///
/// Errors: lack of memory (1); in mode shared a worker that could not be started (22).
pub fn solve_greatest<G: Gate + Sync, R: Threads + Wait + Sync>(
    rt: &R,
    alloc: Global,
    instance: &Instance,
    fixed: &Fixed,
    mode: &Mode,
    gate: &G,
) -> Result<PitOutcome, Fault>
    requires { IsFixedOf (graph_of_mine instance.now) fixed.now }
    ensures ended { IfOk result (EndsGreatest mode.now instance.now (fixed_of fixed.now.lists)) }
    ensures refused { IfErr result (λ e. LacksRoom mode.now e.refusal e) }
{
    let mine = instance.share(alloc)?;
    let search = Search {
        rt,
        alloc,
        mode: *mode,
        direction: Direction::Greatest,
        gate,
    };
    match search.pit(mine, fixed) {
        Ok(pit) => Ok(PitOutcome::Pit(pit.blocks)),
        Err(fault) => match fault.refusal {
            Refusal::Exhausted(count) => Ok(PitOutcome::Exhausted(count)),
            _ => Err(fault),
        },
    }
}

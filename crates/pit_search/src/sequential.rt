//! The pit of a mine on one thread without a budget, for callers that may neither start threads nor wait.
ghost use Rattle.std.specs.Prelude.{◌≡◌, ⊤, IfOk, IfErr};
ghost use Rattle.faults.specs.Refused.{no_memory};
ghost use Rattle.pit_model.specs.Fixed.{fixed_of, graph_of_mine};
ghost use Rattle.mine_graph.specs.FixedBlocks.{IsFixedOf};
ghost use Rattle.pit_search.specs.Searched.{IsFound};

use crate::find::find_pit;
use crate::found_pit::FoundPit;
use crate::pit_solver::PitSolver;
use faults::Fault;
use merging::solve_pit;
use mine_graph::{Fixed, Instance};
use pit_model::Direction;
use std::alloc::Global;

/// Finds minimal pits on one thread without a budget.
#[derive(Drop)]
pub struct SequentialSolver {
    pub alloc: Global,
}

impl PitSolver for SequentialSolver {
    ghost FindsPits = { λ _. ⊤ };

    ghost Ends = { λ _ _. ⊤ };

    ghost Refuses = { λ _ _ fault. fault ≡ no_memory };

    fn minimal_pit(&self, instance: &Instance) -> Result<Vec<u32>, Fault> {
        solve_pit(self.alloc, instance)
    }
}

/// Returns the pit of a mine with fixed blocks toward a direction, as `Search::pit` finds it. Error: `NoMemory`.
pub fn solve_pit_sequential(
    alloc: Global,
    mine: Instance,
    fixed: &Fixed,
    direction: Direction,
) -> Result<FoundPit, Fault>
    requires { IsFixedOf (graph_of_mine mine) fixed.now }
    ensures found { IfOk result (IsFound direction mine (fixed_of fixed.now.lists)) }
    ensures refused { IfErr result (λ e. e ≡ no_memory) }
{
    find_pit(&SequentialSolver { alloc }, alloc, mine, fixed, direction)
}

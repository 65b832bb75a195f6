//! The pit of a mine with fixed blocks, by the minimal pit of the instance that is searched for it.
ghost use Rattle.std.specs.Prelude.{IfOk, IfErr};
ghost use Rattle.pit_model.specs.Pit.{no_blocks_fixed};
ghost use Rattle.pit_model.specs.Fixed.{fixed_of, graph_of_mine};
ghost use Rattle.mine_graph.specs.FixedBlocks.{IsFixedOf};
ghost use Rattle.pit_search.specs.Searched.{IsFound, OfSearched, RefusesFind};

use crate::found_pit::FoundPit;
use crate::pit_solver::PitSolver;
use crate::searched::Searched;
use faults::Fault;
use mine_graph::{Fixed, Instance};
use pit_model::Direction;
use std::alloc::Global;

/// Finds the pit of a mine with fixed blocks: of the closed sets that contain each forced block and no barred one, the minimal one
/// of maximum value, or the maximal one, as the direction says. The mine's graph is released as soon as the instance that is
/// searched has been made of it, so no two graphs are held during a solve.
///
/// # Errors
///
/// If memory runs out, or as the solver refuses the instance that is searched.
pub fn find_pit<S: PitSolver>(
    solver: &S,
    alloc: Global,
    mine: Instance,
    fixed: &Fixed,
    direction: Direction,
) -> Result<FoundPit, Fault>
    requires solver { S.FindsPits solver.now }
    requires fixed { IsFixedOf (graph_of_mine mine) fixed.now }
    ensures found { IfOk result (IsFound direction mine (fixed_of fixed.now.lists)) }
    ensures within { IfOk result (λ _. OfSearched direction mine (fixed_of fixed.now.lists) (S.Ends solver.now)) }
    ensures refused { IfErr result (λ e. RefusesFind (S.Refuses solver.now) direction mine (fixed_of fixed.now.lists) e) }
{
    mine.law();
    let searched = Searched::of(alloc, mine, fixed, direction)?;
    let found = solver.minimal_pit(&searched.instance)?;
    searched.pit(alloc, fixed, found)
}

/// Finds the pit of a mine without fixed blocks. Errors: those of `find_pit`.
pub fn find_pit_without_fixed_blocks<S: PitSolver>(
    solver: &S,
    alloc: Global,
    mine: Instance,
    direction: Direction,
) -> Result<FoundPit, Fault>
    requires { S.FindsPits solver.now }
    ensures found { IfOk result (IsFound direction mine no_blocks_fixed) }
    ensures within { IfOk result (λ _. OfSearched direction mine no_blocks_fixed (S.Ends solver.now)) }
    ensures refused { IfErr result (λ e. RefusesFind (S.Refuses solver.now) direction mine no_blocks_fixed e) }
{
    find_pit(solver, alloc, mine, &Fixed::none(), direction)
}

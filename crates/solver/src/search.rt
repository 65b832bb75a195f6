//! A search for the pit of a mine: what its steps share, and what it answers.
ghost use Rattle.std.specs.Prelude.{◌≡◌, IfOk, IfErr};
ghost use Rattle.faults.specs.Refused.{no_memory};
ghost use Rattle.pit_model.specs.Fixed.{fixed_of, graph_of_mine};
ghost use Rattle.mine_graph.specs.FixedBlocks.{IsFixedOf};
ghost use Rattle.merging.specs.Reduced.{IsRestIn};
ghost use Rattle.pit_model.specs.declared.direction.Direction.TheVariants.{Least};
ghost use Rattle.pit_model.specs.Pit.{ListsPit, no_blocks_fixed};
ghost use Rattle.solver.specs.Modes.{EndsIn, EndsWithin, LacksRoom, RefusesSolve};
ghost use Rattle.pit_search.specs.Searched.{IsFound, OfSearched};
ghost use Rattle.solver.specs.Searched.{EndsFixed, IsLiftedOutcome, IsShown, RefusesSearch};

use crate::mode::Mode;
use crew::{Entry, Gate, solve_shared};
use faults::Fault;
use merging::{Outcome, ReducedMine, pit_by_parts, solve_parts, solve_pit, solve_single};
use mine_graph::{Fixed, Instance};
use pit_model::Direction;
use pit_search::{FnSolver, FoundPit, find_pit};
use std::alloc::Global;
use std::sync::Wait;
use std::thread::Threads;

/// How a pit is searched for, and which of those of equal worth.
#[derive(Drop)]
pub struct Search<'a, R, G> {
    /// Starts the threads.
    pub rt: &'a R,
    pub alloc: Global,
    pub mode: Mode,
    pub direction: Direction,
    /// Receives the steps of workers.
    pub gate: &'a G,
}

/// The outcome of the rest by the numbers of the whole.
fn lift(
    alloc: Global,
    instance: &Instance,
    fixed: &Fixed,
    rest: &ReducedMine,
    found: &Outcome,
) -> Result<Outcome, Fault>
    requires fixed { IsFixedOf (graph_of_mine instance.now) fixed.now }
    requires rest { IsRestIn instance.now fixed.now rest.now }
    requires found { IsShown rest.now.mine found.now }
    ensures lifted { IfOk result (IsLiftedOutcome instance.now (fixed_of fixed.now.lists) found.now) }
    ensures refused { IfErr result (λ e. e ≡ no_memory) }
{
    match found {
        Outcome::Pit(certificate) => Ok(Outcome::Pit(rest.certificate(
            alloc,
            instance,
            fixed,
            certificate,
        )?)),
        Outcome::Exhausted(count) => Ok(Outcome::Exhausted(*count)),
    }
}

impl<R: Threads + Wait + Sync, G: Gate + Sync> Search<'_, R, G> {
    /// How the mode's solve of an instance for its least pit ended, and in mode shared the journal of what the workers and the
    /// driver decided, also where the budget is used up; in the other modes no entry.
    fn solve(&self, instance: &Instance) -> Result<(Outcome, Vec<Entry>), Fault>
        ensures ended { IfOk result (λ r. EndsIn self.now.mode instance.now r.0 r.1.items) }
        ensures refused { IfErr result (λ e. LacksRoom self.now.mode e.refusal e) }
    {
        let alloc = self.alloc;
        let outcome = match self.mode {
            Mode::Single { budget } => solve_single(alloc, instance, budget)?,
            Mode::Parts => Outcome::Pit(solve_parts(self.rt, alloc, instance)?),
            Mode::Shared {
                workers,
                budget,
                chunk,
            } => return solve_shared(self.rt, alloc, instance, workers, budget, chunk, self.gate),
        };
        Ok((outcome, Vec::new(alloc)))
    }

    /// The least pit of an instance by a solve that makes its certificate. Refused as `minimal_pit` is.
    fn solve_with_certificate(&self, instance: &Instance) -> Result<Vec<u32>, Fault>
        ensures shown { IfOk result (λ pit. ListsPit Least instance.now no_blocks_fixed pit.items) }
        ensures within { IfOk result (λ _. EndsWithin self.now.mode instance.now) }
        ensures refused { IfErr result (λ e. RefusesSolve self.now.mode instance.now e.refusal e) }
    {
        instance.law();
        let (outcome, _) = self.solve(instance)?;
        match outcome {
            Outcome::Pit(certificate) => Ok(certificate.pit),
            Outcome::Exhausted(count) => Err(Fault::exhausted(count)),
        }
    }

    /// Returns the minimal pit of an instance. By one thread without a budget, and by parts, no certificate is made. Errors: lack
    /// of memory (1), a used-up budget with a merger arc left (20).
    pub fn minimal_pit(&self, instance: &Instance) -> Result<Vec<u32>, Fault>
        ensures shown { IfOk result (λ pit. ListsPit Least instance.now no_blocks_fixed pit.items) }
        ensures within { IfOk result (λ _. EndsWithin self.now.mode instance.now) }
        ensures refused { IfErr result (λ e. RefusesSolve self.now.mode instance.now e.refusal e) }
    {
        match self.mode {
            Mode::Single { budget: None } => solve_pit(self.alloc, instance),
            Mode::Parts => pit_by_parts(self.rt, self.alloc, instance),
            _ => self.solve_with_certificate(instance),
        }
    }

    /// Returns the pit of a mine with fixed blocks: of the closed sets that contain each forced block and no barred one, the
    /// minimal one of maximum value, or the maximal one, as the direction says. The mine's graph is released as soon as the
    /// instance that is searched has been made of it, so no two graphs are held during a solve.
    ///
    /// Errors: lack of memory (1), in mode shared a worker that could not be started (22), a used-up budget with a merger arc left
    /// (20). For the greatest pit the budget counts the mergers of the dual instance.
    pub fn pit(&self, mine: Instance, fixed: &Fixed) -> Result<FoundPit, Fault>
        requires { IsFixedOf (graph_of_mine mine) fixed.now }
        ensures found { IfOk result (IsFound self.now.direction mine (fixed_of fixed.now.lists)) }
        ensures within { IfOk result (λ _. OfSearched self.now.direction mine (fixed_of fixed.now.lists) (EndsWithin self.now.mode)) }
        ensures refused { IfErr result (λ e. RefusesSearch self.now.mode self.now.direction mine (fixed_of fixed.now.lists) e.refusal e) }
    {
        let solve = |instance: &Instance| -> Result<Vec<u32>, Fault>
            ensures shown { IfOk result (λ pit. ListsPit Least instance.now no_blocks_fixed pit.items) }
            ensures within { IfOk result (λ _. EndsWithin self.entry.now.mode instance.now) }
            ensures refused { IfErr result (λ e. RefusesSolve self.entry.now.mode instance.now e.refusal e) }
        { self.minimal_pit(instance) };
        find_pit(&FnSolver { solve }, self.alloc, mine, fixed, self.direction)
    }

    /// Returns how the mode's solve of a mine with fixed blocks for its minimal pit ended, in either direction: with a certificate
    /// of the mine; and in mode shared the journal of the reduced mine, by its own numbers. If nothing is fixed, no graph is
    /// copied.
    ///
    /// Errors: lack of memory (1); in mode shared a worker that could not be started (22).
    pub fn solve_with_journal(
        &self,
        instance: &Instance,
        fixed: &Fixed,
    ) -> Result<(Outcome, Vec<Entry>), Fault>
        requires { IsFixedOf (graph_of_mine instance.now) fixed.now }
        ensures ended { IfOk result (λ r. EndsFixed self.now.mode instance.now (fixed_of fixed.now.lists) r.0 r.1.items) }
        ensures refused { IfErr result (λ e. LacksRoom self.now.mode e.refusal e) }
    {
        if fixed.is_empty() {
            return self.solve(instance);
        }
        let rest = ReducedMine::of(self.alloc, instance, fixed)?;
        let (found, entries) = self.solve(&rest.mine)?;
        let outcome = lift(self.alloc, instance, fixed, &rest, &found)?;
        Ok((outcome, entries))
    }
}

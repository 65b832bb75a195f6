//! Whether shares keep the order of precedence, period by period.
ghost use Rattle.std.specs.Prelude.{◌≡◌, ◌<◌, ◌≤◌, ◌+◌, ◌*◌, ◌^◌, ℕ, pos, length, get_or, IfOk, IfErr, IfSome, IfNone, OnOk};
ghost use Rattle.pit_model.specs.Graph.{first_of, second_of};
ghost use Rattle.schedule_model.specs.Schedule.{mined, mined_in_first, whole_block};
ghost use Rattle.scheduling.specs.Checked.{AreShares, RefusesShares};
ghost use Rattle.scheduling.specs.First.{IsFirstWithout};
ghost use Rattle.scheduling.specs.Order.{AreMinedBy, AreMinedOnceBy, IsInOrder, IsInOrderBefore, IsInOrderBy, IsMinedOnceBy};

use crate::moved::share;
use crate::problem::Problem;
use crate::schedule_error::ScheduleError;
use std::alloc::Global;

/// A whole block, in millionths.
pub(crate) const WHOLE: u32 = 1_000_000;

/// Returns the share of a block that is mined in a period.
pub(crate) fn mined(problem: &Problem, shares: &[u32], period: u32, block: u32) -> u32
    requires shares { AreShares problem.now shares.now }
    requires period { period < problem.now.periods }
    requires block { block < problem.now.blocks }
    ensures mined { pos result ≡ mined problem.now shares.now block period }
    ensures few { result ≤ 2 ^ 6 * whole_block }
{
    problem.law();
    let mut sum = 0;
    for destination in 0..problem.destinations() {
        sum += share(problem, shares, period, block, destination);
    }
    sum
}

/// Adds the shares that are mined in a period; or returns the first block whose shares then exceed the whole block.
fn add_mined(problem: &Problem, shares: &[u32], period: u32, by_now: &mut [u32]) -> Option<u32>
    requires shares { AreShares problem.now shares.now }
    requires period { period < problem.now.periods }
    requires before { AreMinedBy problem.now shares.now period by_now.old }
    ensures added { IfNone result (AreMinedBy problem.now shares.now (period + 1) by_now.new) }
    ensures twice { IfSome result (λ b. (b < problem.now.blocks) × IsFirstWithout (IsMinedOnceBy problem.now shares.now period) b) }
{
    for block in 0..problem.blocks() {
        let sum = by_now[block as usize] + mined(problem, shares, period, block);
        if sum > WHOLE {
            return Some(block);
        }
        by_now[block as usize] = sum;
    }
    None
}

/// Returns the first pair of a block and a block that it needs, if more is mined of the former.
fn out_of_order(problem: &Problem, by_now: &[u32]) -> Option<(u32, u32)>
    requires { length by_now.now ≡ problem.now.blocks }
    ensures none { IfNone result ((k : ℕ) → k < length problem.now.pairs → get_or by_now.now (first_of problem.now.pairs k) 0 ≤ get_or by_now.now (second_of problem.now.pairs k) 0) }
    ensures some { IfSome result (λ pair. (k : ℕ) × (k < length problem.now.pairs) × (get_or problem.now.pairs k (0, 0) ≡ pair)
        × IsFirstWithout (λ j. get_or by_now.now (first_of problem.now.pairs j) 0 ≤ get_or by_now.now (second_of problem.now.pairs j) 0) k) }
{
    problem.law();
    let graph = problem.graph();
    graph.law();
    for k in 0..graph.arcs() {
        let (block, needed) = graph.arc(k);
        if by_now[block as usize] > by_now[needed as usize] {
            return Some((block, needed));
        }
    }
    None
}

/// Checks one period more.
fn check_period(
    problem: &Problem,
    shares: &[u32],
    period: u32,
    by_now: &mut [u32],
) -> Result<(), ScheduleError>
    requires shares { AreShares problem.now shares.now }
    requires period { period < problem.now.periods }
    requires before { AreMinedBy problem.now shares.now period by_now.old }
    requires kept { IsInOrderBefore problem.now shares.now period }
    ensures added { OnOk result (AreMinedBy problem.now shares.now (period + 1) by_now.new) }
    ensures once { OnOk result (AreMinedOnceBy problem.now shares.now period) }
    ensures order { OnOk result (IsInOrderBy problem.now shares.now period) }
    ensures refused { IfErr result (RefusesShares problem.now shares.now) }
{
    problem.law();
    if let Some(block) = add_mined(problem, shares, period, by_now) {
        return Err(ScheduleError::MinedTwice(block, period));
    }
    match out_of_order(problem, by_now) {
        Some((block, needed)) => Err(ScheduleError::BeforeNeeded(block, needed, period)),
        None => Ok(()),
    }
}

/// Checks that no block is mined more than once, nor before a block that it needs.
pub(crate) fn check_order(
    alloc: Global,
    problem: &Problem,
    shares: &[u32],
) -> Result<(), ScheduleError>
    requires { AreShares problem.now shares.now }
    ensures order { OnOk result (IsInOrder problem.now shares.now) }
    ensures refused { IfErr result (RefusesShares problem.now shares.now) }
{
    problem.law();
    let mut by_now = vec![in alloc; 0; problem.blocks() as usize]?;
    for period in 0..problem.periods() {
        check_period(problem, shares, period, &mut by_now)?;
    }
    Ok(())
}

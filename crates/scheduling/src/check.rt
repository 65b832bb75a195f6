//! The check of a schedule.
ghost use Rattle.std.specs.Prelude.{◌≡◌, ◌<◌, ℕ, pos, ◌*ℤ◌, ◌≤ℤ◌, IfOk, IfErr, OnOk};
ghost use Rattle.schedule_model.specs.Problem.{capacity};
ghost use Rattle.schedule_model.specs.Schedule.{schedule_value, usage, whole_block, IsSchedule};
ghost use Rattle.scheduling.specs.Checked.{AreShares, IsWithinLimit, RefusesShares};
ghost use Rattle.scheduling.specs.Order.{IsInOrder};

use crate::limits::first_share_above;
use crate::moved::{schedule_value, usage};
use crate::order::{WHOLE, check_order};
use crate::problem::Problem;
use crate::schedule_error::ScheduleError;
use std::alloc::Global;

/// Returns the capacity of a limit in a period, for shares of blocks in millionths.
fn capacity_of_shares(problem: &Problem, limit: u32, period: u32) -> i128
    requires limit { limit < problem.now.limits }
    requires period { period < problem.now.periods }
    ensures { result ≡ pos whole_block *ℤ capacity problem.now limit period }
{
    problem.law();
    let place = limit as usize * problem.periods() as usize + period as usize;
    i128::from(WHOLE) * i128::from(problem.capacities()[place])
}

/// Checks a limit in all periods.
fn check_limit(problem: &Problem, shares: &[u32], limit: u32) -> Result<(), ScheduleError>
    requires shares { AreShares problem.now shares.now }
    requires limit { limit < problem.now.limits }
    requires order { IsInOrder problem.now shares.now }
    requires before { (r s : ℕ) → r < limit → s < problem.now.periods → IsWithinLimit problem.now shares.now r s }
    ensures within { OnOk result ((s : ℕ) → s < problem.now.periods → IsWithinLimit problem.now shares.now limit s) }
    ensures refused { IfErr result (RefusesShares problem.now shares.now) }
{
    for period in 0..problem.periods() {
        let used = usage(problem, shares, limit, period);
        if used > capacity_of_shares(problem, limit, period) {
            return Err(ScheduleError::OverLimit(limit, period, used));
        }
    }
    Ok(())
}

/// Checks all limits in all periods.
fn check_limits(problem: &Problem, shares: &[u32]) -> Result<(), ScheduleError>
    requires shares { AreShares problem.now shares.now }
    requires order { IsInOrder problem.now shares.now }
    ensures within { OnOk result ((r s : ℕ) → r < problem.now.limits → s < problem.now.periods → IsWithinLimit problem.now shares.now r s) }
    ensures refused { IfErr result (RefusesShares problem.now shares.now) }
{
    for limit in 0..problem.limits() {
        check_limit(problem, shares, limit)?;
    }
    Ok(())
}

/// Checks that shares are a schedule, and returns its value in units of 10^-18.
///
/// # Errors
///
/// If memory runs out, or if there are more or fewer shares. Otherwise the first share above a block, the first block that is mined twice or before
/// one that it needs, or the first limit that is exceeded.
pub fn check_schedule(
    alloc: Global,
    problem: &Problem,
    shares: &[u32],
) -> Result<i128, ScheduleError>
    ensures schedule { IfOk result (λ _. IsSchedule problem.now shares.now) }
    ensures value { IfOk result (λ v. v ≡ schedule_value problem.now shares.now) }
    ensures shares { IfOk result (λ _. AreShares problem.now shares.now) }
    ensures refused { IfErr result (RefusesShares problem.now shares.now) }
{
    problem.law();
    let nodes = problem.periods() as usize * problem.blocks() as usize;
    if shares.len() != nodes * problem.destinations() as usize {
        return Err(ScheduleError::WrongCount);
    }
    if let Some(place) = first_share_above(shares) {
        return Err(ScheduleError::ShareAbove(place));
    }
    check_order(alloc, problem, shares)?;
    check_limits(problem, shares)?;
    Ok(schedule_value(problem, shares))
}

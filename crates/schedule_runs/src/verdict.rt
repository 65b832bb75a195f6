//! What is true of a schedule, and the bound of all schedules.
ghost use Rattle.std.specs.Prelude.{◌≡◌, ◌<◌, ◌*◌, IfOk, IfErr, length};
ghost use Rattle.schedule_bound.specs.Worth.{HasNodes, RefusesBound};
ghost use Rattle.schedule_model.specs.Bound.{IsLagrangianBound, IsRoundedUp};
ghost use Rattle.schedule_model.specs.Problem.{capacity};
ghost use Rattle.schedule_model.specs.Schedule.{IsSchedule};
ghost use Rattle.scheduling.specs.Checked.{AreShares, RefusesShares};
ghost use Rattle.scheduling.specs.Limits.{ArePriceNumbers};
ghost use Rattle.schedule_runs.specs.Refusals.{RefusesPriceNumbers, RefusesPriceText};
ghost use Rattle.schedule_runs.specs.Verdicts.{IsBoundAt, IsBoundOf, IsRoundedDown, IsWholeVerdict, Says};

use crate::refused::Refused;
use schedule_bound::lagrangian_bound;
use schedule_model::{schedule_is_bounded, whole_blocks_keep_order};
use schedule_texts::parse_prices;
use scheduling::{BoundError, Problem, ScheduleError, are_blocks_whole, check_schedule};
use std::alloc::Global;

/// Whether shares are a schedule, or what refutes them.
#[derive(Clone, Copy, Debug, PartialEq, Eq, Drop)]
pub enum Verdict {
    /// A schedule of this value, in millionths, rounded down, and whether each block is mined whole in one period, or never.
    Schedule(i128, bool),
    /// More than the whole block is mined by the end of a period: block, period.
    MinedTwice(u32, u32),
    /// By the end of a period more of a block is mined than of one that it needs: block, needed block, period.
    BeforeNeeded(u32, u32, u32),
    /// A limit is exceeded in a period: limit, period, use in millionths, rounded up, and capacity.
    OverLimit(u32, u32, i128, i128),
}

/// Returns a number in units of 10^-18 in millionths, rounded down.
fn rounded_down(x: i128) -> i128
    ensures { IsRoundedDown x result }
{
    let quotient = x / 1_000_000_000_000;
    if x % 1_000_000_000_000 < 0 {
        quotient - 1
    } else {
        quotient
    }
}

/// Returns a number in units of 10^-12 in millionths, rounded up.
fn rounded_up(x: i128) -> i128
    ensures { IsRoundedUp x result }
{
    let quotient = x / 1_000_000;
    if x % 1_000_000 > 0 {
        quotient + 1
    } else {
        quotient
    }
}

/// Returns the capacity of a limit in a period.
fn capacity(problem: &Problem, limit: u32, period: u32) -> i64
    requires limit { limit < problem.now.limits }
    requires period { period < problem.now.periods }
    ensures { result ≡ capacity problem.now limit period }
{
    problem.law();
    problem.capacities()[limit as usize * problem.periods() as usize + period as usize]
}

/// Returns why shares are no schedule.
fn fault_of(problem: &Problem, shares: &[u32], error: ScheduleError) -> Result<Verdict, Refused>
    requires { RefusesShares problem.now shares.now error }
    ensures says { IfOk result (Says problem.now shares.now) }
    ensures refused { IfErr result (λ e. e ≡ Refused.NoMemory) }
{
    match error {
        ScheduleError::MinedTwice(block, period) => Ok(Verdict::MinedTwice(block, period)),
        ScheduleError::BeforeNeeded(block, needed, period) => {
            Ok(Verdict::BeforeNeeded(block, needed, period))
        }
        ScheduleError::OverLimit(limit, period, used) => Ok(Verdict::OverLimit(
            limit,
            period,
            rounded_up(used),
            i128::from(capacity(problem, limit, period)),
        )),
        _ => Err(Refused::NoMemory),
    }
}

/// Returns whether the blocks of a schedule are whole. If so, it keeps strict precedence.
fn is_whole(problem: &Problem, shares: &[u32]) -> bool
    requires schedule { IsSchedule problem.now shares.now }
    requires shares { AreShares problem.now shares.now }
    ensures { IsWholeVerdict problem.now shares.now result }
{
    problem.law();
    whole_blocks_keep_order();
    are_blocks_whole(problem, shares)
}

/// Returns what is true of shares.
pub(crate) fn verdict_of(
    alloc: Global,
    problem: &Problem,
    shares: &[u32],
) -> Result<Verdict, Refused>
    ensures says { IfOk result (Says problem.now shares.now) }
    ensures refused { IfErr result (λ e. e ≡ Refused.NoMemory) }
{
    match check_schedule(alloc, problem, shares) {
        Ok(value) => {
            let whole = is_whole(problem, shares);
            Ok(Verdict::Schedule(rounded_down(value), whole))
        }
        Err(error) => fault_of(problem, shares, error),
    }
}

/// Returns a refusal of prices as one of a run. There are as many prices as are due.
fn refused_by(problem: &Problem, prices: &[i64], error: BoundError) -> Refused
    requires size { length prices.now ≡ problem.now.limits * problem.now.periods }
    requires refused { RefusesBound problem.now prices.now error }
    ensures { RefusesPriceNumbers problem.now prices.now result }
{
    match error {
        BoundError::NoMemory | BoundError::PriceCount => Refused::NoMemory,
        BoundError::PriceOutOfRange(place) => Refused::PriceOutOfRange(place),
        BoundError::ValueBeyond(node) => Refused::ValueBeyond(node),
    }
}

/// Returns the bound at prices, in units of 10^-12.
fn exact_bound(alloc: Global, problem: &Problem, prices: &[i64]) -> Result<i128, Refused>
    requires { length prices.now ≡ problem.now.limits * problem.now.periods }
    ensures bound { IfOk result (IsLagrangianBound problem.now prices.now) }
    ensures prices { IfOk result (λ _. ArePriceNumbers problem.now prices.now) }
    ensures nodes { IfOk result (λ _. HasNodes problem.now prices.now) }
    ensures refused { IfErr result (RefusesPriceNumbers problem.now prices.now) }
{
    match lagrangian_bound(alloc, problem, prices) {
        Ok(bound) => Ok(bound),
        Err(error) => Err(refused_by(problem, prices, error)),
    }
}

/// Returns the bound at prices, in millionths, rounded up: no schedule is worth more.
fn bound_at(alloc: Global, problem: &Problem, prices: &[i64]) -> Result<i128, Refused>
    requires { length prices.now ≡ problem.now.limits * problem.now.periods }
    ensures bound { IfOk result (IsBoundAt problem.now prices.now) }
    ensures refused { IfErr result (RefusesPriceNumbers problem.now prices.now) }
{
    problem.law();
    schedule_is_bounded();
    let exact = exact_bound(alloc, problem, prices)?;
    Ok(rounded_up(exact))
}

/// Returns the bound at the prices that a text spells, in millionths, rounded up: no schedule is worth more.
///
/// # Errors
///
/// The first fault of the text, the first price or the first value that is out of range, or lack of memory.
pub(crate) fn bound_of(alloc: Global, problem: &Problem, text: &[u8]) -> Result<i128, Refused>
    ensures bound { IfOk result (IsBoundOf problem.now text.now) }
    ensures refused { IfErr result (RefusesPriceText problem.now text.now) }
{
    let prices = match parse_prices(alloc, problem.limits(), problem.periods(), text) {
        Ok(prices) => prices,
        Err(fault) => return Err(Refused::Prices(fault)),
    };
    bound_at(alloc, problem, &prices)
}

//! The first share and the first price that are out of range.
ghost use Rattle.std.specs.Prelude.{◌≡◌, ◌<◌, ◌≤◌, ◌*◌, ◌^◌, ℕ, pos, IfErr, IfNone, IfSome, OnOk, length, get_or};
ghost use Rattle.schedule_model.specs.Schedule.{whole_block};
ghost use Rattle.scheduling.specs.First.{IsFirstWithout};
ghost use Rattle.scheduling.specs.Limits.{ArePriceNumbers, IsPrice, RefusesPrices};

use crate::bound_error::BoundError;
use crate::problem::Problem;

/// Returns the place of the first share that is more than a whole block.
pub(crate) fn first_share_above(shares: &[u32]) -> Option<u32>
    requires { length shares.now < 2 ^ 32 }
    ensures none { IfNone result ((i : ℕ) → i < length shares.now → get_or shares.now i 0 ≤ whole_block) }
    ensures some { IfSome result (λ i. (i < length shares.now) × IsFirstWithout (λ j. get_or shares.now j 0 ≤ whole_block) i) }
{
    for i in 0..shares.len() {
        if shares[i] > 1_000_000 {
            return Some(i as u32);
        }
    }
    None
}

/// Returns the place of the first price that is negative or above 10^9.
fn first_no_price(prices: &[i64]) -> Option<u32>
    requires { length prices.now < 2 ^ 32 }
    ensures none { IfNone result ((i : ℕ) → i < length prices.now → IsPrice (get_or prices.now i (pos 0))) }
    ensures some { IfSome result (λ i. (i < length prices.now) × IsFirstWithout (λ j. IsPrice (get_or prices.now j (pos 0))) i) }
{
    for i in 0..prices.len() {
        if prices[i] < 0 || prices[i] > 1_000_000_000_000_000 {
            return Some(i as u32);
        }
    }
    None
}

/// Checks that there is a price for each limit in each period.
///
/// # Errors
///
/// If there are more or fewer, or one is out of range.
pub fn check_prices(problem: &Problem, prices: &[i64]) -> Result<(), BoundError>
    ensures prices { OnOk result (ArePriceNumbers problem.now prices.now) }
    ensures refused { IfErr result (RefusesPrices (problem.now.limits * problem.now.periods) prices.now) }
{
    problem.law();
    let count = problem.limits() as usize * problem.periods() as usize;
    if prices.len() != count {
        return Err(BoundError::PriceCount);
    }
    match first_no_price(prices) {
        Some(place) => Err(BoundError::PriceOutOfRange(place)),
        None => Ok(()),
    }
}

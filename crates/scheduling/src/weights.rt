//! The weights of terms at prices of limits.
ghost use Rattle.std.specs.Prelude.{◌≡◌, ◌<◌, IfOk};
ghost use Rattle.scheduling.specs.Limits.{ArePriceNumbers, IsTerm, IsWithinDistance, most_price};
ghost use Rattle.scheduling.specs.Weights.{weight, AreSmallWeights, AreWeights};

use crate::problem::Problem;
use schedule_model::{Effect, Term};
use std::alloc::{AllocError, Global};

/// Returns the price of a limit in a period, negated.
fn cost_of_use(problem: &Problem, prices: &[i64], limit: u32, period: u32) -> i64
    requires prices { ArePriceNumbers problem.now prices.now }
    requires limit { limit < problem.now.limits }
    requires period { period < problem.now.periods }
    ensures weight { result ≡ weight problem.now prices.now period (Effect.Use limit) 0 }
    ensures small { IsWithinDistance most_price result }
{
    problem.law();
    -prices[limit as usize * problem.periods() as usize + period as usize]
}

/// Returns what one unit of a term's amount is worth, for blocks that are mined in a period.
fn weight(problem: &Problem, prices: &[i64], term: Term, period: u32) -> i64
    requires prices { ArePriceNumbers problem.now prices.now }
    requires term { IsTerm problem.now term }
    requires period { period < problem.now.periods }
    ensures weight { result ≡ weight problem.now prices.now period term.effect term.lag }
    ensures small { IsWithinDistance most_price result }
{
    problem.law();
    let counts = period + term.lag;
    if counts >= problem.periods() {
        return 0;
    }
    match term.effect {
        Effect::Value => problem.discounts()[counts as usize],
        Effect::Use(limit) => cost_of_use(problem, prices, limit, counts),
    }
}

/// Returns the weight of each term, for blocks that are mined in a period.
pub(crate) fn weights_in(
    alloc: Global,
    problem: &Problem,
    prices: &[i64],
    period: u32,
) -> Result<Vec<i64>, AllocError>
    requires prices { ArePriceNumbers problem.now prices.now }
    requires period { period < problem.now.periods }
    ensures weights { IfOk result (λ v. AreWeights problem.now prices.now period v.items) }
    ensures small { IfOk result (λ v. AreSmallWeights problem.now v.items) }
{
    problem.law();
    let mut weights = Vec::with_capacity(alloc, problem.terms())?;
    for k in 0..problem.terms() {
        weights.push(weight(problem, prices, problem.term(k), period))?;
    }
    Ok(weights)
}

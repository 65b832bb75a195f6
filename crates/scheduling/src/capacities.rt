//! The price of capacities.
ghost use Rattle.std.specs.Prelude.{◌≡◌, ◌<◌, ◌*ℤ◌, length};
ghost use Rattle.schedule_model.specs.Bound.{over_limits, price};
ghost use Rattle.schedule_model.specs.Problem.{capacity};
ghost use Rattle.scheduling.specs.Limits.{ArePriceNumbers};
ghost use Rattle.scheduling.specs.Weights.{part_of_price};

use crate::problem::Problem;
use crate::product::product;

/// Returns the price of one capacity.
fn part_of_price(problem: &Problem, prices: &[i64], i: usize) -> i128
    requires prices { ArePriceNumbers problem.now prices.now }
    requires inside { i < length prices.now }
    ensures { result ≡ part_of_price problem.now prices.now i }
{
    problem.law();
    product(prices[i], problem.capacities()[i])
}

/// Returns the price of all capacities.
pub fn price_of_capacities(problem: &Problem, prices: &[i64]) -> i128
    requires { ArePriceNumbers problem.now prices.now }
    ensures { result ≡ over_limits problem.now (λ r s. price problem.now prices.now r s *ℤ capacity problem.now r s) }
{
    problem.law();
    let mut sum = 0;
    for i in 0..prices.len() {
        sum += part_of_price(problem, prices, i);
    }
    sum
}

//! The sums by which the limits and the value of a schedule are checked.
ghost use Rattle.std.specs.Prelude.{◌≡◌, ◌<◌, ◌≤◌, pos, length};
ghost use Rattle.schedule_model.specs.Problem.{discount};
ghost use Rattle.schedule_model.specs.Schedule.{schedule_value, share, usage, whole_block};
ghost use Rattle.scheduling.specs.Checked.{discounted, moved, moved_of_block, part_of_usage, part_of_value, term_value, AreShares};
ghost use Rattle.scheduling.specs.Limits.{most_discount, IsTerm, IsWithinDistance};

use crate::problem::Problem;
use crate::product::{product, scaled};
use schedule_model::{Effect, Term};

/// Returns the share of a block that is mined in a period and sent to a destination.
pub(crate) fn share(
    problem: &Problem,
    shares: &[u32],
    period: u32,
    block: u32,
    destination: u32,
) -> u32
    requires shares { AreShares problem.now shares.now }
    requires period { period < problem.now.periods }
    requires block { block < problem.now.blocks }
    requires destination { destination < problem.now.destinations }
    ensures share { pos result ≡ share problem.now shares.now block period destination }
    ensures most { result ≤ whole_block }
{
    problem.law();
    let node = period as usize * problem.blocks() as usize + block as usize;
    shares[node * problem.destinations() as usize + destination as usize]
}

/// Returns the amount of a term that is sent to its destination in a period, of one block.
fn moved_of_block(problem: &Problem, shares: &[u32], period: u32, block: u32, term: Term) -> i128
    requires shares { AreShares problem.now shares.now }
    requires period { period < problem.now.periods }
    requires block { block < problem.now.blocks }
    requires term { IsTerm problem.now term }
    ensures { result ≡ moved_of_block problem.now shares.now period term.destination term.column block }
{
    let moves = share(problem, shares, period, block, term.destination);
    product(i64::from(moves), problem.amount(block, term.column))
}

/// Returns the amounts of a term that are sent to its destination in a period.
fn moved(problem: &Problem, shares: &[u32], period: u32, term: Term) -> i128
    requires shares { AreShares problem.now shares.now }
    requires period { period < problem.now.periods }
    requires term { IsTerm problem.now term }
    ensures { result ≡ moved problem.now shares.now period term.destination term.column }
{
    problem.law();
    let mut sum = 0;
    for block in 0..problem.blocks() {
        sum += moved_of_block(problem, shares, period, block, term);
    }
    sum
}

/// Returns what one term uses of a limit in a period.
fn part_of_usage(problem: &Problem, shares: &[u32], k: usize, limit: u32, period: u32) -> i128
    requires shares { AreShares problem.now shares.now }
    requires term { k < length problem.now.terms }
    requires period { period < problem.now.periods }
    ensures { result ≡ part_of_usage problem.now shares.now limit period k }
{
    problem.law();
    let term = problem.term(k);
    match term.effect {
        Effect::Value => 0,
        Effect::Use(used) => {
            if used == limit && term.lag <= period {
                moved(problem, shares, period - term.lag, term)
            } else {
                0
            }
        }
    }
}

/// Returns what is used of a limit in a period.
pub(crate) fn usage(problem: &Problem, shares: &[u32], limit: u32, period: u32) -> i128
    requires shares { AreShares problem.now shares.now }
    requires period { period < problem.now.periods }
    ensures { result ≡ usage problem.now shares.now limit period }
{
    problem.law();
    let mut sum = 0;
    for k in 0..problem.terms() {
        sum += part_of_usage(problem, shares, k, limit, period);
    }
    sum
}

/// Returns the discount factor of a period, which is 0 after the last.
fn discount(problem: &Problem, period: u32) -> i64
    ensures discount { result ≡ discount problem.now period }
    ensures small { IsWithinDistance most_discount result }
{
    problem.law();
    if period >= problem.periods() {
        return 0;
    }
    problem.discounts()[period as usize]
}

/// Returns what a term yields for what is mined in a period, discounted.
fn discounted(problem: &Problem, shares: &[u32], term: Term, period: u32) -> i128
    requires shares { AreShares problem.now shares.now }
    requires period { period < problem.now.periods }
    requires term { IsTerm problem.now term }
    ensures { result ≡ discounted problem.now shares.now term.destination term.column term.lag period }
{
    problem.law();
    let counts = period + term.lag;
    scaled(
        moved(problem, shares, period, term),
        discount(problem, counts),
    )
}

/// Returns what a term of value yields.
fn term_value(problem: &Problem, shares: &[u32], term: Term) -> i128
    requires shares { AreShares problem.now shares.now }
    requires term { IsTerm problem.now term }
    ensures { result ≡ term_value problem.now shares.now term.destination Effect.Value term.column term.lag }
{
    problem.law();
    let mut sum = 0;
    for period in 0..problem.periods() {
        sum += discounted(problem, shares, term, period);
    }
    sum
}

/// Returns what the term with a number yields.
fn part_of_value(problem: &Problem, shares: &[u32], k: usize) -> i128
    requires shares { AreShares problem.now shares.now }
    requires term { k < length problem.now.terms }
    ensures { result ≡ part_of_value problem.now shares.now k }
{
    problem.law();
    let term = problem.term(k);
    match term.effect {
        Effect::Value => term_value(problem, shares, term),
        Effect::Use(_) => 0,
    }
}

/// Returns the value of a schedule.
pub(crate) fn schedule_value(problem: &Problem, shares: &[u32]) -> i128
    requires { AreShares problem.now shares.now }
    ensures { result ≡ schedule_value problem.now shares.now }
{
    problem.law();
    let mut sum = 0;
    for k in 0..problem.terms() {
        sum += part_of_value(problem, shares, k);
    }
    sum
}

//! The priced gains of blocks, and the best of each block in each period.
ghost use Rattle.std.specs.Prelude.{◌≡◌, ◌<◌, ◌≤ℤ◌, ◌⊎◌, length, IfOk, OnOk};
ghost use Rattle.scheduling.specs.Gains.{AddsGains, AreBest, IsGreatest};
ghost use Rattle.scheduling.specs.Limits.{ArePriceNumbers};
ghost use Rattle.scheduling.specs.Weights.{part_of_gain, weighted, AreSmallWeights};

use crate::problem::Problem;
use crate::product::product;
use crate::weights::weights_in;
use std::alloc::{AllocError, Global};

/// Returns the weighted amount of a block by one term, if that is of the destination.
fn part_of_gain(problem: &Problem, weights: &[i64], k: usize, block: u32, destination: u32) -> i128
    requires weights { AreSmallWeights problem.now weights.now }
    requires term { k < length problem.now.terms }
    requires block { block < problem.now.blocks }
    ensures { result ≡ part_of_gain problem.now weights.now block destination k }
{
    problem.law();
    let term = problem.term(k);
    if term.destination != destination {
        return 0;
    }
    product(problem.amount(block, term.column), weights[k])
}

/// Returns the weighted amounts of a block at a destination.
fn weighted_gain(problem: &Problem, weights: &[i64], block: u32, destination: u32) -> i128
    requires weights { AreSmallWeights problem.now weights.now }
    requires block { block < problem.now.blocks }
    ensures { result ≡ weighted problem.now weights.now block destination }
{
    problem.law();
    let mut gain = 0;
    for k in 0..problem.terms() {
        gain += part_of_gain(problem, weights, k, block, destination);
    }
    gain
}

/// Returns the greater of two numbers.
fn greater(x: i128, y: i128) -> i128
    ensures one { (result ≡ x) ⊎ (result ≡ y) }
    ensures first { x ≤ℤ result }
    ensures second { y ≤ℤ result }
{
    if x < y { y } else { x }
}

/// Returns the greatest of the weighted amounts of a block over all destinations.
fn best_gain(problem: &Problem, weights: &[i64], block: u32) -> i128
    requires weights { AreSmallWeights problem.now weights.now }
    requires block { block < problem.now.blocks }
    ensures { IsGreatest problem.now weights.now block problem.now.destinations result }
{
    problem.law();
    let mut best = weighted_gain(problem, weights, block, 0);
    for destination in 1..problem.destinations() {
        best = greater(best, weighted_gain(problem, weights, block, destination));
    }
    best
}

/// Returns the best priced gain of each block in each period, period by period.
pub fn best_gains(alloc: Global, problem: &Problem, prices: &[i64]) -> Result<Vec<i128>, AllocError>
    requires { ArePriceNumbers problem.now prices.now }
    ensures { IfOk result (λ gains. AreBest problem.now prices.now gains.items) }
{
    problem.law();
    let mut gains = Vec::new(alloc);
    for period in 0..problem.periods() {
        let weights = weights_in(alloc, problem, prices, period)?;
        add_gains(problem, &weights, &mut gains)?;
    }
    Ok(gains)
}

/// Adds the greatest of the weighted amounts of each block.
fn add_gains(problem: &Problem, weights: &[i64], gains: &mut Vec<i128>) -> Result<(), AllocError>
    requires { AreSmallWeights problem.now weights.now }
    ensures { OnOk result (AddsGains problem.now weights.now gains.old.items gains.new.items) }
{
    for block in 0..problem.blocks() {
        gains.push(best_gain(problem, weights, block))?;
    }
    Ok(())
}

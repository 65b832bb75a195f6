//! The time-expanded instance: its values and its pairs.
ghost use Rattle.std.specs.Prelude.{◌≡◌, ◌≤◌, ◌<◌, ◌^◌, ℕ, pos, neg_ℤ, ◌≤ℤ◌, length, get_or, IfOk, IfErr, IfSome, IfNone};
ghost use Rattle.schedule_model.specs.Bound.{AreNodePairs, IsRoundedUp};
ghost use Rattle.scheduling.specs.Gains.{most_gain, AreBest};
ghost use Rattle.scheduling.specs.Limits.{AreWithinDistance, IsWithinDistance};
ghost use Rattle.scheduling.specs.Nodes.{most_step, step_of, AreNodeValues, RefusesValues};

use crate::bound_error::BoundError;
use std::alloc::Global;

/// The unit of the values of nodes.
pub const UNIT: i128 = 1_000_000;

/// The greatest value of a node.
const MOST_VALUE: i128 = 100_000_000_000_000_000_000_000;

/// Returns a number in millions, rounded up.
fn rounded_up(x: i128) -> i128
    requires { IsWithinDistance most_step x }
    ensures { IsRoundedUp x result }
{
    let quotient = x / UNIT;
    if quotient * UNIT < x {
        quotient + 1
    } else {
        quotient
    }
}

/// Returns what mining a block by the period of a node brings, and not only by the next period.
fn step(gains: &[i128], blocks: usize, node: usize) -> i128
    requires small { AreWithinDistance most_gain gains.now }
    requires node { node < length gains.now }
    requires few { length gains.now ≤ 2 ^ 22 }
    requires blocks { blocks ≤ 2 ^ 22 }
    ensures step { result ≡ step_of gains.now blocks node }
    ensures within { IsWithinDistance most_step result }
{
    if node + blocks < gains.len() {
        gains[node] - gains[node + blocks]
    } else {
        gains[node]
    }
}

/// Returns the values of all nodes, or the first node whose value is out of range.
pub fn node_values(alloc: Global, gains: &[i128], blocks: usize) -> Result<Vec<i128>, BoundError>
    requires small { AreWithinDistance most_gain gains.now }
    requires few { length gains.now ≤ 2 ^ 22 }
    requires blocks { blocks ≤ 2 ^ 22 }
    ensures values { IfOk result (λ v. AreNodeValues gains.now blocks (length gains.now) v.items) }
    ensures refused { IfErr result (RefusesValues gains.now blocks) }
{
    let mut values = Vec::with_capacity(alloc, gains.len())?;
    for node in 0..gains.len() {
        let value = rounded_up(step(gains, blocks, node));
        if value < -MOST_VALUE || value > MOST_VALUE {
            return Err(BoundError::ValueBeyond(node as u32));
        }
        values.push(value)?;
    }
    Ok(values)
}

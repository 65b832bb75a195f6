//! A number of 128 bits as two halves of 64, which C can take.
ghost use Rattle.std.specs.Prelude.{◌≡◌, ◌↔◌, ◌+ℤ◌, ◌*ℤ◌, ◌^◌, pos, length, IsTrue, IfOk};
ghost use Rattle.arrays.specs.Halves.{AreHalves};

use std::alloc::{AllocError, Global};

/// A number is `high` times 2^64 plus `low`.
#[derive(Clone, Copy, Debug)]
pub struct Halves {
    pub high: i64,
    pub low: u64,
}

/// Splits a number into its two halves.
pub fn split_i128(number: i128) -> Halves
    ensures { (pos (2 ^ 64) *ℤ result.high +ℤ pos result.low) ≡ number }
{
    if number >= 0 {
        let size = number as u128;
        Halves {
            high: (size / (1 << 64)) as i64,
            low: (size % (1 << 64)) as u64,
        }
    } else {
        let size = (-(number + 1)) as u128;
        Halves {
            high: -1 - (size / (1 << 64)) as i64,
            low: u64::MAX - (size % (1 << 64)) as u64,
        }
    }
}

/// Returns whether there is room for the two halves of `count` numbers, and for no more.
pub fn have_room(count: usize, high: &[i64], low: &[u64]) -> bool
    ensures { IsTrue result ↔ (length high.now ≡ count) × (length low.now ≡ count) }
{
    high.len() == count && low.len() == count
}

/// Writes the two halves of each number.
pub fn write_halves(numbers: &[i128], high: &mut [i64], low: &mut [u64])
    requires highs { length high.old ≡ length numbers.now }
    requires lows { length low.old ≡ length numbers.now }
    ensures { AreHalves numbers.now high.new low.new }
{
    for k in 0..numbers.len() {
        let parts = split_i128(numbers[k]);
        high[k] = parts.high;
        low[k] = parts.low;
    }
}

/// Joins two halves into a number.
fn join_i128(high: i64, low: u64) -> i128
    ensures { result ≡ pos (2 ^ 64) *ℤ high +ℤ pos low }
{
    i128::from(high) * (1 << 64) + i128::from(low)
}

/// Joins each two halves into a number.
pub fn join_halves(alloc: Global, high: &[i64], low: &[u64]) -> Result<Vec<i128>, AllocError>
    requires { length low.now ≡ length high.now }
    ensures { IfOk result (λ v. AreHalves v.items high.now low.now) }
{
    let mut numbers = Vec::with_capacity(alloc, high.len())?;
    for k in 0..high.len() {
        numbers.push(join_i128(high[k], low[k]))?;
    }
    Ok(numbers)
}

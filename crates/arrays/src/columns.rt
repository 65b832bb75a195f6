//! The revenues and the costs of a deposit's blocks, from arrays, or why the arrays encode none.
ghost use Rattle.std.specs.Prelude.{◌≡◌, ◌≤◌, ◌^◌, ◌⊎◌, pos, ◌≤ℤ◌, length, IfOk, IfErr, IfSome, IfNone};
ghost use Rattle.pit_model.specs.Deposit.{IsAmount};
ghost use Rattle.pit_model.specs.Size.{most_blocks};
ghost use Rattle.arrays.specs.Refused.{RefusesAmount, RefusesAmounts};

use crate::array_error::ArrayError;
use crate::mine::widened;
use faults::Refusal;
use nesting::Columns;
use std::alloc::Global;

/// The most that a revenue or a cost may be, in millionths.
const MOST_AMOUNT: i64 = 1_000_000_000_000_000_000;

/// Why no block has this amount: it is negative (15), or above 10^18 (4).
fn refusal_of(amount: i64, block: u32) -> Option<Refusal>
    ensures some { IfSome result (RefusesAmount block amount) }
    ensures least { IfNone result (pos 0 ≤ℤ amount) }
    ensures most { IfNone result (amount ≤ℤ pos (10 ^ 18)) }
{
    if amount < 0 {
        Some(Refusal::NegativeColumn(block))
    } else if amount > MOST_AMOUNT {
        Some(Refusal::OverLimit)
    } else {
        None
    }
}

/// The first block with an amount that no block may have.
fn first_wrong(amounts: &[i64]) -> Option<ArrayError>
    requires { length amounts.now ≤ most_blocks }
    ensures some { IfSome result (λ e. RefusesAmounts amounts.now e.refusal e.place) }
    ensures none { IfNone result (IsAmount (length amounts.now) amounts.now) }
{
    for u in 0..amounts.len() {
        let place = u as u32;
        if let Some(refusal) = refusal_of(amounts[u], place) {
            return Some(ArrayError { refusal, place });
        }
    }
    None
}

/// Returns the revenues and costs of as many blocks. Errors: the first of the revenues, and then of the costs, that is negative
/// (15) or above 10^18 (4); lack of memory (1).
pub fn columns_of(alloc: Global, revenues: &[i64], costs: &[i64]) -> Result<Columns, ArrayError>
    requires few { length revenues.now ≤ most_blocks }
    requires counted { length costs.now ≡ length revenues.now }
    ensures revenues { IfOk result (λ c. c.revenues ≡ revenues.now) }
    ensures costs { IfOk result (λ c. c.costs ≡ costs.now) }
    ensures refused { IfErr result (λ e. RefusesAmounts revenues.now e.refusal e.place ⊎ (IsAmount (length revenues.now) revenues.now × RefusesAmounts costs.now e.refusal e.place)) }
{
    if let Some(wrong) = first_wrong(revenues) {
        return Err(wrong);
    }
    if let Some(wrong) = first_wrong(costs) {
        return Err(wrong);
    }
    let revenues = widened(alloc, revenues)?;
    let costs = widened(alloc, costs)?;
    Ok(Columns::new(revenues, costs))
}

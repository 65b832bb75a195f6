//! The items of a list of factors, one by one, and their checks.
ghost use Rattle.std.specs.Prelude.{◌≡◌, ◌<◌, ◌^◌, Some, None, IfOk, IfErr};
ghost use Rattle.nesting.specs.FactorList.{at_item, item_fault_after};

use faults::{Fault, Refusal, Source};

/// The most that a factor may be, in per mille.
const MOST_FACTOR: u64 = 100_000;

/// The most factors of a list.
const MOST_FACTORS: usize = 1000;

/// The fault of an item, counted from 1.
fn at_item(refusal: Refusal, item: usize) -> Fault
    ensures { result ≡ at_item refusal item }
{
    Fault::at_line(Source::Factors, refusal, item as u64)
}

/// Checks the item after `count` others of a list, given the factor before it and its number, `None` if it is not a whole number.
/// Returns the factor.
///
/// # Errors
///
/// Not a whole number (5), above the limit or one item too many (4), or not greater than the item before (19).
#[tactic(auto, unfolding(crate::specs::FactorList::item_fault_after))]
pub fn check_item(count: usize, before: Option<u32>, number: Option<u64>) -> Result<u32, Fault>
    requires { count < 2 ^ 63 }
    ensures passes { IfOk result (λ factor. (number ≡ Some factor) × (item_fault_after count before number ≡ None)) }
    ensures fails { IfErr result (λ fault. item_fault_after count before number ≡ Some fault) }
{
    if count >= MOST_FACTORS {
        return Err(at_item(Refusal::OverLimit, count + 1));
    }
    let Some(factor) = number else {
        return Err(at_item(Refusal::NotWhole, count + 1));
    };
    if factor > MOST_FACTOR {
        return Err(at_item(Refusal::OverLimit, count + 1));
    }
    match before {
        Some(least) if factor <= u64::from(least) => {
            Err(at_item(Refusal::FactorsNotRising, count + 1))
        }
        _ => Ok(factor as u32),
    }
}

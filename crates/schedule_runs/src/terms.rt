//! The terms of a problem, of the numbers that a text lists.
ghost use Rattle.std.specs.Prelude.{◌≡◌, ◌<◌, ◌≤◌, ◌+◌, ◌*◌, ◌^◌, ℕ, pos, ◌≤ℤ◌, length, get_or, IfErr, IfOk};
ghost use Rattle.schedule_model.specs.Problem.{no_term};
ghost use Rattle.scheduling.specs.Limits.{IsTermOf};
ghost use Rattle.schedule_runs.specs.Limited.{AreInRangeOf};
ghost use Rattle.schedule_runs.specs.ProblemRead.{IsUseTerm, IsValueTerm};

use crate::broken_limit::Section;
use crate::refused::Refused;
use schedule_model::{Effect, Term};
use scheduling::Sizes;
use std::alloc::Global;

/// Returns a number as one of 32 bits.
fn small(number: i64) -> u32
    requires low { pos 0 ≤ℤ number }
    requires high { number ≤ℤ pos 4294967295 }
    ensures { number ≡ pos result }
{
    number as u32
}

/// Returns a term of value.
fn value_term(sizes: Sizes, values: &[i64], k: usize) -> Term
    requires inside { 3 * k + 2 < length values.now }
    requires range { AreInRangeOf sizes Section.Values values.now }
    ensures listed { IsValueTerm values.now k result }
    ensures term { IsTermOf sizes.destinations sizes.columns sizes.limits result }
{
    Term {
        destination: small(values[3 * k]),
        effect: Effect::Value,
        column: small(values[3 * k + 1]),
        lag: small(values[3 * k + 2]),
    }
}

/// Returns a term of use.
fn use_term(sizes: Sizes, uses: &[i64], k: usize) -> Term
    requires inside { 4 * k + 3 < length uses.now }
    requires range { AreInRangeOf sizes Section.Uses uses.now }
    ensures listed { IsUseTerm uses.now k result }
    ensures term { IsTermOf sizes.destinations sizes.columns sizes.limits result }
{
    let destination = small(uses[4 * k]);
    let limit = small(uses[4 * k + 1]);
    let column = small(uses[4 * k + 2]);
    let lag = small(uses[4 * k + 3]);
    Term {
        destination,
        effect: Effect::Use(limit),
        column,
        lag,
    }
}

/// Returns the terms of value.
pub(crate) fn value_terms(
    alloc: Global,
    sizes: Sizes,
    values: &[i64],
    count: usize,
) -> Result<Vec<Term>, Refused>
    requires size { length values.now ≡ count * 3 }
    requires range { AreInRangeOf sizes Section.Values values.now }
    ensures count { IfOk result (λ v. length v.items ≡ count) }
    ensures terms { IfOk result (λ v. (k : ℕ) → k < count → IsValueTerm values.now k (get_or v.items k no_term)) }
    ensures lawful { IfOk result (λ v. (k : ℕ) → k < count → IsTermOf sizes.destinations sizes.columns sizes.limits (get_or v.items k no_term)) }
    ensures refused { IfErr result (λ e. e ≡ Refused.NoMemory) }
{
    let mut terms = Vec::new(alloc);
    for k in 0..count {
        terms.push(value_term(sizes, values, k))?;
    }
    Ok(terms)
}

/// Adds the terms of use.
pub(crate) fn add_use_terms(
    sizes: Sizes,
    uses: &[i64],
    count: usize,
    terms: &mut Vec<Term>,
) -> Result<(), Refused>
    requires size { length uses.now ≡ count * 4 }
    requires range { AreInRangeOf sizes Section.Uses uses.now }
    ensures count { IfOk result (λ _. length terms.new.items ≡ length terms.old.items + count) }
    ensures kept { IfOk result (λ _. (k : ℕ) → k < length terms.old.items → get_or terms.new.items k no_term ≡ get_or terms.old.items k no_term) }
    ensures terms { IfOk result (λ _. (k : ℕ) → k < count → IsUseTerm uses.now k (get_or terms.new.items (length terms.old.items + k) no_term)) }
    ensures lawful { IfOk result (λ _. (k : ℕ) → k < count → IsTermOf sizes.destinations sizes.columns sizes.limits (get_or terms.new.items (length terms.old.items + k) no_term)) }
    ensures refused { IfErr result (λ e. e ≡ Refused.NoMemory) }
{
    for k in 0..count {
        terms.push(use_term(sizes, uses, k))?;
    }
    Ok(())
}

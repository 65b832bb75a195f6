//! Whether what a problem's text says is within the limits.
ghost use Rattle.std.specs.Prelude.{◌≡◌, ◌<◌, ◌≤◌, ◌*◌, ◌+◌, ◌%◌, ℕ, IfErr, IfOk, IfSome, IfNone, IsTrue, OnOk, false, length};
ghost use Rattle.pit_model.specs.Size.{most_pairs};
ghost use Rattle.scheduling.specs.First.{IsFirstWithout};
ghost use Rattle.schedule_texts.specs.ProblemText.{lists};
ghost use Rattle.schedule_runs.specs.Limited.{AreInRangeOf, AreLawful, AreLawfulCounts, AreLawfulNumbers, IsFirstOutOfRange, IsFirstUnlawful, IsInRange, IsLawfulCount, how_many, least_in, most_in, most_of_use, most_of_value, number_at, section_numbers, sizes_in};
ghost use Rattle.schedule_runs.specs.Refusals.{BreaksOwnLimit};

use crate::broken_limit::{BrokenLimit, Quantity, Section};
use schedule_texts::{Counts, Lists};
use scheduling::Sizes;

/// Returns how many there are of a quantity.
fn how_many(c: Counts, quantity: Quantity) -> u128
    ensures { result ≡ how_many c quantity }
{
    match quantity {
        Quantity::Blocks => u128::from(c.blocks),
        Quantity::Periods => u128::from(c.periods),
        Quantity::Destinations => u128::from(c.destinations),
        Quantity::Columns => u128::from(c.columns),
        Quantity::Limits => u128::from(c.limits),
        Quantity::Terms => u128::from(c.values) + u128::from(c.uses),
        Quantity::Nodes => u128::from(c.periods) * u128::from(c.blocks),
        Quantity::Capacities => u128::from(c.limits) * u128::from(c.periods),
    }
}

/// Returns whether a quantity may have a number.
fn is_lawful(quantity: Quantity, n: u128) -> bool
    ensures yes { IsTrue result → IsLawfulCount quantity n }
    ensures no { result ≡ false → IsLawfulCount quantity n → ⊥ }
{
    n >= quantity.fewest() && n <= quantity.greatest()
}

/// Checks that there are neither too few nor too many of any quantity.
fn check_counts(c: Counts) -> Result<(), BrokenLimit>
    ensures lawful { OnOk result (AreLawfulCounts c) }
    ensures refused { IfErr result (λ why. (quantity : Quantity) × (n : ℕ) × (why ≡ BrokenLimit.Count quantity n) × IsFirstUnlawful c quantity n) }
{
    for i in 0..Quantity::ALL.len() {
        let quantity = Quantity::ALL[i];
        let n = how_many(c, quantity);
        if !is_lawful(quantity, n) {
            return Err(BrokenLimit::Count(quantity, n));
        }
    }
    Ok(())
}

/// Returns the sizes of a problem.
fn sizes_of(c: Counts) -> Sizes
    requires { AreLawfulCounts c }
    ensures { result ≡ sizes_in c }
{
    Sizes {
        periods: c.periods as u32,
        destinations: c.destinations as u32,
        columns: c.columns as u32,
        limits: c.limits as u32,
    }
}

/// The longest lag of a term.
const MOST_LAG: i64 = 65_536;

/// Returns the greatest number at a place of a line of `VALUE`: destination, column, lag.
fn most_of_value(sizes: Sizes, place: usize) -> i64
    ensures { result ≡ most_of_value sizes place }
{
    match place {
        0 => i64::from(sizes.destinations) - 1,
        1 => i64::from(sizes.columns) - 1,
        _ => MOST_LAG,
    }
}

/// Returns the greatest number at a place of a line of `USE`: destination, limit, column, lag.
fn most_of_use(sizes: Sizes, place: usize) -> i64
    ensures { result ≡ most_of_use sizes place }
{
    match place {
        0 => i64::from(sizes.destinations) - 1,
        1 => i64::from(sizes.limits) - 1,
        2 => i64::from(sizes.columns) - 1,
        _ => MOST_LAG,
    }
}

/// Returns the least number of a section.
fn least_in(section: Section) -> i64
    ensures { result ≡ least_in section }
{
    match section {
        Section::Discounts => -1_000_000,
        Section::Capacities => -1_000_000_000_000_000_000,
        Section::Amounts => -10_000_000_000_000_000,
        Section::Values | Section::Uses => 0,
    }
}

/// Returns the greatest number at a place of a section.
fn most_in(sizes: Sizes, section: Section, i: usize) -> i64
    ensures { result ≡ most_in sizes section i }
{
    match section {
        Section::Discounts => 1_000_000,
        Section::Capacities => 1_000_000_000_000_000_000,
        Section::Values => most_of_value(sizes, i % 3),
        Section::Uses => most_of_use(sizes, i % 4),
        Section::Amounts => 10_000_000_000_000_000,
    }
}

/// Returns whether a number at a place of a section is within its range.
fn is_in_range(sizes: Sizes, section: Section, i: usize, number: i64) -> bool
    ensures yes { IsTrue result → IsInRange sizes section i number }
    ensures no { result ≡ false → IsInRange sizes section i number → ⊥ }
{
    number >= least_in(section) && number <= most_in(sizes, section, i)
}

/// Returns the place of the first number of a section that is out of range.
fn first_out_of_range(sizes: Sizes, section: Section, numbers: &[i64]) -> Option<usize>
    ensures none { IfNone result (AreInRangeOf sizes section numbers.now) }
    ensures some { IfSome result (λ i. (i < length numbers.now) × IsFirstWithout (λ j. IsInRange sizes section j (number_at numbers.now j)) i) }
{
    for i in 0..numbers.len() {
        if !is_in_range(sizes, section, i, numbers[i]) {
            return Some(i);
        }
    }
    None
}

/// Returns the numbers of a section.
fn section_numbers(read: &Lists, section: Section) -> &[i64]
    ensures { result.now ≡ section_numbers (lists read.now.counts read.now.discounts.items read.now.capacities.items read.now.values.items read.now.uses.items read.now.amounts.items) section }
{
    match section {
        Section::Discounts => &read.discounts,
        Section::Capacities => &read.capacities,
        Section::Values => &read.values,
        Section::Uses => &read.uses,
        Section::Amounts => &read.amounts,
    }
}

/// Checks the numbers of all sections.
fn check_numbers(read: &Lists, sizes: Sizes) -> Result<(), BrokenLimit>
    requires { sizes ≡ sizes_in read.now.counts }
    ensures lawful { OnOk result (AreLawfulNumbers (lists read.now.counts read.now.discounts.items read.now.capacities.items read.now.values.items read.now.uses.items read.now.amounts.items)) }
    ensures refused { IfErr result (λ why. (section : Section) × (n : ℕ) × (why ≡ BrokenLimit.Number section n)
        × IsFirstOutOfRange (lists read.now.counts read.now.discounts.items read.now.capacities.items read.now.values.items read.now.uses.items read.now.amounts.items) section n) }
{
    for k in 0..Section::ALL.len() {
        let section = Section::ALL[k];
        if let Some(i) = first_out_of_range(sizes, section, section_numbers(read, section)) {
            return Err(BrokenLimit::Number(section, i as u64));
        }
    }
    Ok(())
}

/// Returns the sizes of a problem whose counts and numbers are within the limits.
///
/// # Errors
///
/// The first limit that is broken.
pub(crate) fn checked_sizes(read: &Lists) -> Result<Sizes, BrokenLimit>
    ensures sizes { IfOk result (λ sizes. sizes ≡ sizes_in read.now.counts) }
    ensures lawful { IfOk result (λ _. AreLawful (lists read.now.counts read.now.discounts.items read.now.capacities.items read.now.values.items read.now.uses.items read.now.amounts.items)) }
    ensures refused { IfErr result (BreaksOwnLimit (lists read.now.counts read.now.discounts.items read.now.capacities.items read.now.values.items read.now.uses.items read.now.amounts.items)) }
{
    check_counts(read.counts)?;
    let sizes = sizes_of(read.counts);
    check_numbers(read, sizes)?;
    Ok(sizes)
}

/// The most pairs of nodes.
const MOST_PAIRS: u128 = 67_108_864;

/// Checks that there are not too many pairs of nodes.
pub(crate) fn check_pairs(blocks: u32, arcs: u32, periods: u32) -> Result<(), BrokenLimit>
    ensures few { OnOk result (periods * (arcs + blocks) ≤ most_pairs) }
    ensures refused { IfErr result (λ why. (why ≡ BrokenLimit.Pairs (periods * (arcs + blocks))) × (most_pairs < periods * (arcs + blocks))) }
{
    let pairs = u128::from(periods) * (u128::from(arcs) + u128::from(blocks));
    if pairs > MOST_PAIRS {
        return Err(BrokenLimit::Pairs(pairs));
    }
    Ok(())
}

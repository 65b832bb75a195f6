//! The text of a scheduling problem.
ghost use Rattle.std.specs.Prelude.{◌≡◌, ◌*◌, IfOk, length};
ghost use Rattle.minelib_reader.specs.Answer.{Gives};
ghost use Rattle.minelib_reader.specs.Text.{rows_at, lines_at};
ghost use Rattle.schedule_texts.specs.ProblemText.{columns, counts_of, lists, lists_in, numbered_columns, sections_of};

use crate::section::{Columns, check_ended, check_titled, read_count, read_section};
use crate::word::Word;
use faults::Fault;
use minelib_reader::TextRows;
use std::alloc::Global;

/// How many there are of each.
#[derive(Clone, Copy, Debug, PartialEq, Eq)]
pub struct Counts {
    pub blocks: u64,
    pub periods: u64,
    pub destinations: u64,
    pub columns: u64,
    pub limits: u64,
    pub values: u64,
    pub uses: u64,
}

/// The numbers of a problem as they are read: discount factors, capacities limit by limit, terms of value (destination, column, lag), terms
/// of use (destination, limit, column, lag), and amounts block by block.
#[derive(Debug, Drop)]
pub struct Lists {
    pub counts: Counts,
    pub discounts: Vec<i64>,
    pub capacities: Vec<i64>,
    pub values: Vec<i64>,
    pub uses: Vec<i64>,
    pub amounts: Vec<i64>,
}

/// Reads how many there are of each.
#[tactic(auto, unfolding(crate::specs::ProblemText::counts_of))]
fn read_counts(rows: &mut TextRows) -> Result<Counts, Fault>
    ensures gives { Gives (λ c. (c, rows_at rows.new.number rows.new.rest.now)) result
        (counts_of (lines_at rows.old.number rows.old.rest.now) (rows_at rows.old.number rows.old.rest.now)) }
    ensures lines { lines_at rows.new.number rows.new.rest.now ≡ lines_at rows.old.number rows.old.rest.now }
{
    let blocks = read_count(Word::Blocks, rows)?;
    let periods = read_count(Word::Periods, rows)?;
    let destinations = read_count(Word::Destinations, rows)?;
    let columns = read_count(Word::Columns, rows)?;
    let limits = read_count(Word::Limits, rows)?;
    let values = read_count(Word::Values, rows)?;
    let uses = read_count(Word::Uses, rows)?;
    Ok(Counts {
        blocks,
        periods,
        destinations,
        columns,
        limits,
        values,
        uses,
    })
}

/// Returns columns of decimals.
fn decimals(width: u64) -> Columns
    ensures { result ≡ columns width 0 }
{
    Columns {
        width,
        wholes: 0,
        numbered: false,
    }
}

/// Returns columns of decimals after the number of the line.
fn numbered_decimals(width: u64) -> Columns
    ensures { result ≡ numbered_columns width }
{
    Columns {
        width,
        wholes: 0,
        numbered: true,
    }
}

/// Returns columns of whole numbers.
fn wholes(width: u64) -> Columns
    ensures { result ≡ columns width width }
{
    Columns {
        width,
        wholes: width,
        numbered: false,
    }
}

/// Reads the sections of a problem.
#[tactic(auto, unfolding(crate::specs::ProblemText::sections_of))]
fn read_lists(alloc: Global, counts: Counts, rows: &mut TextRows) -> Result<Lists, Fault>
    ensures gives { Gives (λ l. (lists l.counts l.discounts.items l.capacities.items l.values.items l.uses.items l.amounts.items, rows_at rows.new.number rows.new.rest.now)) result
        (sections_of (lines_at rows.old.number rows.old.rest.now) counts (rows_at rows.old.number rows.old.rest.now)) }
    ensures counts { IfOk result (λ l. l.counts ≡ counts) }
    ensures discounts { IfOk result (λ l. length l.discounts.items ≡ counts.periods) }
    ensures capacities { IfOk result (λ l. length l.capacities.items ≡ counts.limits * counts.periods) }
    ensures values { IfOk result (λ l. length l.values.items ≡ counts.values * 3) }
    ensures uses { IfOk result (λ l. length l.uses.items ≡ counts.uses * 4) }
    ensures amounts { IfOk result (λ l. length l.amounts.items ≡ counts.blocks * counts.columns) }
{
    let discounts = read_section(alloc, Word::Discounts, decimals(counts.periods), 1, rows)?;
    let capacities = read_section(
        alloc,
        Word::Capacities,
        decimals(counts.periods),
        counts.limits,
        rows,
    )?;
    let values = read_section(alloc, Word::Value, wholes(3), counts.values, rows)?;
    let uses = read_section(alloc, Word::Use, wholes(4), counts.uses, rows)?;
    let amounts = read_section(
        alloc,
        Word::Amounts,
        numbered_decimals(counts.columns),
        counts.blocks,
        rows,
    )?;
    Ok(Lists {
        counts,
        discounts,
        capacities,
        values,
        uses,
        amounts,
    })
}

/// Returns the counts and the numbers that a text spells.
///
/// # Errors
///
/// The first fault of the text, or `NoMemory`.
#[tactic(auto, unfolding(crate::specs::ProblemText::lists_of_rows))]
pub fn parse_problem(alloc: Global, text: &[u8]) -> Result<Lists, Fault>
    ensures gives { Gives (λ l. lists l.counts l.discounts.items l.capacities.items l.values.items l.uses.items l.amounts.items) result (lists_in text.now) }
    ensures discounts { IfOk result (λ l. length l.discounts.items ≡ l.counts.periods) }
    ensures capacities { IfOk result (λ l. length l.capacities.items ≡ l.counts.limits * l.counts.periods) }
    ensures values { IfOk result (λ l. length l.values.items ≡ l.counts.values * 3) }
    ensures uses { IfOk result (λ l. length l.uses.items ≡ l.counts.uses * 4) }
    ensures amounts { IfOk result (λ l. length l.amounts.items ≡ l.counts.blocks * l.counts.columns) }
{
    let mut rows = TextRows::new(text);
    check_titled(Word::Problem, &mut rows)?;
    let counts = read_counts(&mut rows)?;
    let lists = read_lists(alloc, counts, &mut rows)?;
    check_ended(&mut rows)?;
    Ok(lists)
}

//! The texts of a schedule and of prices.
ghost use Rattle.std.specs.Prelude.{◌≡◌, ◌*◌, ℕ, IfOk, length};
ghost use Rattle.minelib_reader.specs.Answer.{Gives};
ghost use Rattle.minelib_reader.specs.Text.{rows_at, lines_at};
ghost use Rattle.schedule_texts.specs.ScheduleText.{prices_in, shares_in, sizes_of};

use crate::section::{
    Columns, check_ended, check_same_count, check_titled, read_count, read_section,
};
use crate::word::Word;
use faults::Fault;
use minelib_reader::TextRows;
use std::alloc::Global;

/// Checks that the next lines have these counts.
#[tactic(auto, unfolding(crate::specs::ScheduleText::sizes_of))]
fn check_sizes(
    blocks: u32,
    periods: u32,
    destinations: u32,
    rows: &mut TextRows,
) -> Result<(), Fault>
    ensures gives { Gives (λ _. rows_at rows.new.number rows.new.rest.now) result
        (sizes_of blocks periods destinations (lines_at rows.old.number rows.old.rest.now) (rows_at rows.old.number rows.old.rest.now)) }
    ensures count { lines_at rows.new.number rows.new.rest.now ≡ lines_at rows.old.number rows.old.rest.now }
{
    check_same_count(Word::Blocks, blocks, rows)?;
    check_same_count(Word::Periods, periods, rows)?;
    check_same_count(Word::Destinations, destinations, rows)?;
    Ok(())
}

/// Returns the shares that a text spells for a number of blocks, periods and destinations, one after the other: block, period, destination,
/// and the share in millionths.
///
/// # Errors
///
/// The first fault of the text, or `NoMemory`.
#[tactic(auto, unfolding(crate::specs::ScheduleText::shares_of_rows))]
pub fn parse_shares(
    alloc: Global,
    blocks: u32,
    periods: u32,
    destinations: u32,
    text: &[u8],
) -> Result<Vec<i64>, Fault>
    ensures gives { Gives (λ v. v.items) result (shares_in blocks periods destinations text.now) }
    ensures fours { IfOk result (λ v. (count : ℕ) × (length v.items ≡ count * 4)) }
{
    let mut rows = TextRows::new(text);
    check_titled(Word::Schedule, &mut rows)?;
    check_sizes(blocks, periods, destinations, &mut rows)?;
    let count = read_count(Word::Shares, &mut rows)?;
    let columns = Columns {
        width: 4,
        wholes: 3,
        numbered: false,
    };
    let shares = read_section(alloc, Word::Share, columns, count, &mut rows)?;
    check_ended(&mut rows)?;
    Ok(shares)
}

/// Returns the prices of each limit in each period that a text spells for a number of limits and periods.
///
/// # Errors
///
/// The first fault of the text, or `NoMemory`.
#[tactic(auto, unfolding(crate::specs::ScheduleText::prices_of_rows))]
pub fn parse_prices(
    alloc: Global,
    limits: u32,
    periods: u32,
    text: &[u8],
) -> Result<Vec<i64>, Fault>
    ensures gives { Gives (λ v. v.items) result (prices_in limits periods text.now) }
    ensures size { IfOk result (λ v. length v.items ≡ limits * periods) }
{
    let mut rows = TextRows::new(text);
    check_titled(Word::Prices, &mut rows)?;
    check_same_count(Word::Limits, limits, &mut rows)?;
    check_same_count(Word::Periods, periods, &mut rows)?;
    let columns = Columns {
        width: u64::from(periods),
        wholes: 0,
        numbered: false,
    };
    let prices = read_section(alloc, Word::Price, columns, u64::from(limits), &mut rows)?;
    check_ended(&mut rows)?;
    Ok(prices)
}

//! The lines of a journal's text behind its head, each checked by a function of its own, in the order of
//! `specs/JournalLines.antt`. `journal_reader` says which line is due.
ghost use Rattle.std.specs.Prelude.{◌≡◌};
ghost use Rattle.minelib_reader.specs.Answer.{Gives};
ghost use Rattle.minelib_reader.specs.Text.{row, fields_of};
ghost use Rattle.report.specs.JournalLines.{budget_field, budget_line, entry_count_line, decision_line, in_journal, verdict_of, wide_field};

use crate::head::{read_field, three_fields};
use faults::{Fault, Refusal, Source};
use minelib_reader::{Row, digits, whole_number};
use pit_model::{Entry, Verdict};

const MOST_SEAT: u64 = 64;

pub fn in_journal(refusal: Refusal, line: u64) -> Fault
    ensures { result ≡ in_journal refusal line }
{
    Fault::at_line(Source::Journal, refusal, line)
}

/// A number of up to 20 digits and 64 bits.
#[tactic(auto, unfolding(crate::specs::JournalLines::wide_field))]
fn read_wide(field: &[u8], line: u64) -> Result<u64, Fault>
    ensures { Gives (λ n. n) result (wide_field line field.now) }
{
    let Some(number) = digits(field, 20) else {
        return Err(in_journal(Refusal::NotWhole, line));
    };
    if number > u128::from(u64::MAX) {
        return Err(in_journal(Refusal::OverLimit, line));
    }
    Ok(number as u64)
}

/// The budget that a field names, or the word for none.
#[tactic(auto, unfolding(crate::specs::JournalLines::budget_field))]
fn read_budget_field(field: &[u8], line: u64) -> Result<Option<u64>, Fault>
    ensures { Gives (λ b. b) result (budget_field line field.now) }
{
    if field == b"none".as_slice() {
        return Ok(None);
    }
    Ok(Some(read_wide(field, line)?))
}

#[tactic(auto, unfolding(crate::specs::JournalLines::budget_line))]
pub fn read_budget(r: Row) -> Result<Option<u64>, Fault>
    ensures { Gives (λ b. b) result (budget_line (row r.entry.line (fields_of r.entry.text.now))) }
{
    let field = read_field(Source::Journal, b"BUDGET:", r)?;
    read_budget_field(field, r.line)
}

/// How many entries follow.
#[tactic(auto, unfolding(crate::specs::JournalLines::entry_count_line))]
pub fn read_count(r: Row) -> Result<u64, Fault>
    ensures { Gives (λ n. n) result (entry_count_line (row r.entry.line (fields_of r.entry.text.now))) }
{
    let field = read_field(Source::Journal, b"ENTRIES:", r)?;
    read_wide(field, r.line)
}

fn verdict_of(number: u64) -> Option<Verdict>
    ensures { result ≡ verdict_of number }
{
    match number {
        1 => Some(Verdict::Applied),
        2 => Some(Verdict::Stale),
        3 => Some(Verdict::Spent),
        _ => None,
    }
}

/// An entry whose arc is one of m.
#[tactic(auto, unfolding(crate::specs::JournalLines::decision_line))]
pub fn read_entry(m: u32, r: Row) -> Result<Entry, Fault>
    ensures gives { Gives (λ entry. entry) result (decision_line m (row r.entry.line (fields_of r.entry.text.now))) }
{
    let Some((first, second, third)) = three_fields(r.text) else {
        return Err(in_journal(Refusal::WrongFieldCount, r.line));
    };
    let Some(seat) = whole_number(first) else {
        return Err(in_journal(Refusal::NotWhole, r.line));
    };
    if seat > MOST_SEAT {
        return Err(in_journal(Refusal::OverLimit, r.line));
    }
    let Some(arc) = whole_number(second) else {
        return Err(in_journal(Refusal::NotWhole, r.line));
    };
    if arc >= u64::from(m) {
        return Err(in_journal(Refusal::IdOutOfPlace, r.line));
    }
    let Some(number) = whole_number(third) else {
        return Err(in_journal(Refusal::NotWhole, r.line));
    };
    let Some(verdict) = verdict_of(number) else {
        return Err(in_journal(Refusal::OverLimit, r.line));
    };
    Ok(Entry {
        seat: seat as u32,
        arc: arc as u32,
        verdict,
    })
}

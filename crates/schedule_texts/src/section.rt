//! A section of a text: lines of a word and numbers, and the counts before it. Each line is checked in the order of `specs/Section.antt`.
ghost use Rattle.std.specs.Prelude.{◌≡◌, ℕ, ℤ, List, Ok, ◌+◌, ◌*◌, ◌++◌, length, IfOk, IfErr};
ghost use Rattle.minelib_reader.specs.Answer.{Gives, FailsBy};
ghost use Rattle.minelib_reader.specs.Text.{row, rows_at, lines_at, fields_of};
ghost use Rattle.schedule_texts.specs.ProblemText.{titled};
ghost use Rattle.schedule_texts.specs.Section.{AddsNumbers, count_of, due_row, no_row_left, in_text, own_fields, same_count, section_line, numeric_field, numeric_fields, section_of};

use crate::word::Word;
use faults::{Fault, Refusal, Source};
use minelib_reader::{Row, TextRows, decimal, next_field, two_fields, whole_number};
use report::{check_count, read_number};
use std::alloc::Global;

/// The numbers of a line.
#[derive(Clone, Copy, Debug, PartialEq, Eq)]
pub struct Columns {
    /// How many there are.
    pub width: u64,
    /// How many of the first are whole numbers; the others are decimals.
    pub wholes: u64,
    /// Whether the number of the line in its section comes before them.
    pub numbered: bool,
}

fn in_text(refusal: Refusal, line: u64) -> Fault
    ensures { result ≡ in_text refusal line }
{
    Fault::at_line(Source::None, refusal, line)
}

/// Returns the number of a field: a whole number if some are left, otherwise a decimal, in millionths.
#[tactic(auto, unfolding(crate::specs::Section::numeric_field))]
fn numeric_field(line: u64, wholes: u64, field: &[u8]) -> Result<i64, Fault>
    ensures { Gives (λ x. x) result (numeric_field line wholes field.now) }
{
    if wholes == 0 {
        match decimal(field) {
            Some(number) => Ok(number as i64),
            None => Err(in_text(Refusal::NotDecimal, line)),
        }
    } else {
        match whole_number(field) {
            Some(number) => Ok(number as i64),
            None => Err(in_text(Refusal::NotWhole, line)),
        }
    }
}

/// Adds the numbers of a part of a line, from left to right; the first ones are whole.
fn read_numbers(line: u64, wholes: u64, text: &[u8], numbers: &mut Vec<i64>) -> Result<(), Fault>
    ensures ok { IfOk result (λ _. (own : List ℤ) × (numeric_fields line wholes (fields_of text.now) ≡ Ok own) × (numbers.new.items ≡ numbers.old.items ++ own)) }
    ensures err { IfErr result (λ e. FailsBy e.refusal e (numeric_fields line wholes (fields_of text.now))) }
{
    let mut rest = text;
    let mut left = wholes;
    while let Some((field, behind)) = next_field(rest) {
        let number = numeric_field(line, left, field)?;
        numbers.push(number)?;
        rest = behind;
        left = left.saturating_sub(1);
    }
    Ok(())
}

/// Returns how many fields stand in a part of a line.
fn count_fields(text: &[u8]) -> u64
    ensures { result ≡ length (fields_of text.now) }
{
    let mut count = 0;
    let mut rest = text;
    while let Some((_, behind)) = next_field(rest) {
        count += 1;
        rest = behind;
    }
    count
}

/// Returns the part of a line after the number of the line, if lines are numbered.
#[tactic(auto, unfolding(crate::specs::Section::own_fields))]
fn own_fields<'a>(numbered: bool, place: u64, line: u64, text: &'a [u8]) -> Result<&'a [u8], Fault>
    ensures { Gives (λ rest. fields_of rest.now) result (own_fields numbered place line (fields_of text.now)) }
{
    if !numbered {
        return Ok(text);
    }
    let Some((first, rest)) = next_field(text) else {
        return Err(in_text(Refusal::WrongFieldCount, line));
    };
    let Some(number) = whole_number(first) else {
        return Err(in_text(Refusal::NotWhole, line));
    };
    if number != place {
        return Err(in_text(Refusal::IdOutOfPlace, line));
    }
    Ok(rest)
}

/// Adds the numbers of the line at a place of its section.
#[tactic(auto, unfolding(crate::specs::Section::section_line))]
fn read_line(
    word: Word,
    columns: Columns,
    place: u64,
    r: Row,
    numbers: &mut Vec<i64>,
) -> Result<(), Fault>
    ensures ok { IfOk result (λ _. AddsNumbers word columns place (row r.entry.line (fields_of r.entry.text.now)) numbers.old.items numbers.new.items) }
    ensures err { IfErr result (λ e. FailsBy e.refusal e (section_line word columns place (row r.entry.line (fields_of r.entry.text.now)))) }
{
    let Some((first, rest)) = next_field(r.text) else {
        return Err(in_text(Refusal::WrongHeader, r.line));
    };
    if first != word.text() {
        return Err(in_text(Refusal::WrongHeader, r.line));
    }
    let own = own_fields(columns.numbered, place, r.line, rest)?;
    if count_fields(own) != columns.width {
        return Err(in_text(Refusal::WrongFieldCount, r.line));
    }
    read_numbers(r.line, columns.wholes, own, numbers)
}

/// Takes the next row, where one is due.
fn next_due<'a>(rows: &mut TextRows<'a>) -> Result<Row<'a>, Fault>
    ensures gives { Gives (λ r. (row r.line (fields_of r.text.now), rows_at rows.new.number rows.new.rest.now)) result
        (due_row (lines_at rows.old.number rows.old.rest.now) (rows_at rows.old.number rows.old.rest.now)) }
    ensures count { lines_at rows.new.number rows.new.rest.now ≡ lines_at rows.old.number rows.old.rest.now }
{
    match rows.next_row() {
        Some(row) => Ok(row),
        None => Err(in_text(Refusal::EndsEarly, rows.number + 1)),
    }
}

/// Checks that no row is left.
pub(crate) fn check_ended(rows: &mut TextRows) -> Result<(), Fault>
    ensures { Gives (λ _. tt) result (no_row_left (rows_at rows.old.number rows.old.rest.now)) }
{
    match rows.next_row() {
        None => Ok(()),
        Some(row) => Err(in_text(Refusal::AfterEnd, row.line)),
    }
}

/// Checks the title of a text, which is this word and the number 2 of the form.
#[tactic(auto, unfolding(crate::specs::ProblemText::titled))]
pub(crate) fn check_titled(word: Word, rows: &mut TextRows) -> Result<(), Fault>
    ensures gives { Gives (λ _. rows_at rows.new.number rows.new.rest.now) result
        (titled (lines_at rows.old.number rows.old.rest.now) word (rows_at rows.old.number rows.old.rest.now)) }
    ensures count { lines_at rows.new.number rows.new.rest.now ≡ lines_at rows.old.number rows.old.rest.now }
{
    let row = next_due(rows)?;
    match two_fields(row.text) {
        Some((first, form)) if first == word.text() && form == b"2".as_slice() => Ok(()),
        _ => Err(in_text(Refusal::WrongHeader, row.line)),
    }
}

/// Returns the whole number behind a word in the next line.
#[tactic(auto, unfolding(crate::specs::Section::count_of))]
pub(crate) fn read_count(word: Word, rows: &mut TextRows) -> Result<u64, Fault>
    ensures gives { Gives (λ n. (n, rows_at rows.new.number rows.new.rest.now)) result
        (count_of (lines_at rows.old.number rows.old.rest.now) word (rows_at rows.old.number rows.old.rest.now)) }
    ensures count { lines_at rows.new.number rows.new.rest.now ≡ lines_at rows.old.number rows.old.rest.now }
{
    let row = next_due(rows)?;
    read_number(Source::None, word.text(), row)
}

/// Checks that the next line has a word and this number.
#[tactic(auto, unfolding(crate::specs::Section::same_count))]
pub(crate) fn check_same_count(word: Word, number: u32, rows: &mut TextRows) -> Result<(), Fault>
    ensures gives { Gives (λ _. rows_at rows.new.number rows.new.rest.now) result
        (same_count (lines_at rows.old.number rows.old.rest.now) word number (rows_at rows.old.number rows.old.rest.now)) }
    ensures count { lines_at rows.new.number rows.new.rest.now ≡ lines_at rows.old.number rows.old.rest.now }
{
    let row = next_due(rows)?;
    check_count(Source::None, word.text(), number, row)
}

/// Returns the numbers of `count` lines, line by line.
pub(crate) fn read_section(
    alloc: Global,
    word: Word,
    columns: Columns,
    count: u64,
    rows: &mut TextRows,
) -> Result<Vec<i64>, Fault>
    ensures gives { Gives (λ v. (v.items, rows_at rows.new.number rows.new.rest.now)) result
        (section_of (lines_at rows.old.number rows.old.rest.now) word columns count (rows_at rows.old.number rows.old.rest.now)) }
    ensures lines { lines_at rows.new.number rows.new.rest.now ≡ lines_at rows.old.number rows.old.rest.now }
    ensures size { IfOk result (λ v. length v.items ≡ count * columns.width) }
{
    let mut numbers = Vec::new(alloc);
    for place in 0..count {
        let row = next_due(rows)?;
        read_line(word, columns, place, row, &mut numbers)?;
    }
    Ok(numbers)
}

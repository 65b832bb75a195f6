//! The text of an optimisation model (`.upit`): a header of four lines, then a value for each block.
//! Each line is checked by a function of its own, in the order of `specs/Upit.antt`; the first fault ends the reading.
ghost use Rattle.std.specs.Prelude.{◌≡◌, ◌↔◌, ℕ, List, Ok, Err, ◌≤◌, ◌+◌, ◌<◌, ◌^◌, length, IfOk, IfErr};
ghost use Rattle.std.specs.Io.KnownBytes.{Keeps};
ghost use Rattle.faults.specs.declared.fault.Fault.{Fault as AnyFault};
ghost use Rattle.faults.specs.declared.source.Source.TheVariants as sources;
ghost use Rattle.minelib_reader.specs.Answer.{Gives, Answers, AnswersBy, FailsAt};
ghost use Rattle.minelib_reader.specs.Number.{IsBounded};
ghost use Rattle.minelib_reader.specs.Text.{Row as TextRow, row, rows_at, lines_at, fields_of};
ghost use Rattle.minelib_reader.specs.Upit.{Upit, upit, in_model, due, name_line, type_line, blocks_line, objective_line, value_line, values_from, ended, header_of, upit_of};
ghost use Rattle.minelib_reader.specs.UpitFault.{IsFirstUpitFault};
ghost use Rattle.minelib_reader.specs.UpitGrammar.{SpellsUpit};
ghost use Rattle.minelib_reader.specs.UpitLimits.{AreSmall, IsSmallModel};
ghost use Rattle.pit_model.specs.Size.{most_blocks};

use crate::device::InBytes;
use crate::input::read_all;
use crate::limits::MOST_BLOCKS;
use crate::lines::{next_field, two_fields};
use crate::number::{Decimal, decimal, whole_number};
use crate::rows::{Row, TextRows};
use counters::Counters;
use faults::{Fault, Refusal, Source};
use std::alloc::Global;

/// An optimisation model: a number of blocks, and the value of each, in millionths.
#[derive(Debug, Drop)]
pub struct Model {
    pub n: u32,
    pub values: Vec<Decimal>,
}

fn in_model(refusal: Refusal, line: u64) -> Fault
    ensures { result ≡ in_model refusal line }
{
    Fault::at_line(Source::Model, refusal, line)
}

#[tactic(auto, unfolding(crate::specs::Upit::name_line))]
fn check_name(r: Row) -> Result<(), Fault>
    ensures { Gives (λ _. tt) result (name_line (row r.entry.line (fields_of r.entry.text.now))) }
{
    match next_field(r.text) {
        Some((word, _)) if word == b"NAME:".as_slice() => Ok(()),
        _ => Err(in_model(Refusal::WrongHeader, r.line)),
    }
}

#[tactic(auto, unfolding(crate::specs::Upit::type_line))]
fn check_type(r: Row) -> Result<(), Fault>
    ensures { Gives (λ _. tt) result (type_line (row r.entry.line (fields_of r.entry.text.now))) }
{
    match two_fields(r.text) {
        Some((word, kind)) if word == b"TYPE:".as_slice() && kind == b"UPIT".as_slice() => Ok(()),
        _ => Err(in_model(Refusal::WrongHeader, r.line)),
    }
}

#[tactic(auto, unfolding(crate::specs::Upit::blocks_line))]
fn read_count(r: Row) -> Result<u32, Fault>
    ensures gives { Gives (λ n. n) result (blocks_line (row r.entry.line (fields_of r.entry.text.now))) }
    ensures few { IfOk result (λ n. n ≤ most_blocks) }
{
    let Some((word, number)) = two_fields(r.text) else {
        return Err(in_model(Refusal::WrongHeader, r.line));
    };
    if word != b"NBLOCKS:".as_slice() {
        return Err(in_model(Refusal::WrongHeader, r.line));
    }
    let Some(n) = whole_number(number) else {
        return Err(in_model(Refusal::NotWhole, r.line));
    };
    if n > MOST_BLOCKS {
        return Err(in_model(Refusal::OverLimit, r.line));
    }
    Ok(n as u32)
}

#[tactic(auto, unfolding(crate::specs::Upit::value_line))]
fn read_value(id: u32, r: Row) -> Result<Decimal, Fault>
    ensures gives { Gives (λ v. v) result (value_line id (row r.entry.line (fields_of r.entry.text.now))) }
    ensures small { IfOk result (IsBounded (10 ^ 18)) }
{
    let Some((first, second)) = two_fields(r.text) else {
        return Err(in_model(Refusal::WrongFieldCount, r.line));
    };
    let Some(named) = whole_number(first) else {
        return Err(in_model(Refusal::NotWhole, r.line));
    };
    if named != u64::from(id) {
        return Err(in_model(Refusal::IdOutOfPlace, r.line));
    }
    match decimal(second) {
        Some(value) => Ok(value),
        None => Err(in_model(Refusal::NotDecimal, r.line)),
    }
}

#[tactic(auto, unfolding(crate::specs::Upit::objective_line))]
fn check_objective(r: Row) -> Result<(), Fault>
    ensures { Gives (λ _. tt) result (objective_line (row r.entry.line (fields_of r.entry.text.now))) }
{
    if let Some((word, rest)) = next_field(r.text)
        && word == b"OBJECTIVE_FUNCTION:".as_slice()
        && next_field(rest).is_none()
    {
        return Ok(());
    }
    Err(in_model(Refusal::WrongHeader, r.line))
}

/// The next row, where one is due.
fn next_due<'a>(rows: &mut TextRows<'a>) -> Result<Row<'a>, Fault>
    ensures gives { Gives (λ r. (row r.line (fields_of r.text.now), rows_at rows.new.number rows.new.rest.now)) result
        (due (lines_at rows.old.number rows.old.rest.now) (rows_at rows.old.number rows.old.rest.now)) }
    ensures count { lines_at rows.new.number rows.new.rest.now ≡ lines_at rows.old.number rows.old.rest.now }
{
    match rows.next_row() {
        Some(row) => Ok(row),
        None => Err(in_model(Refusal::EndsEarly, rows.number + 1)),
    }
}

fn read_values(
    alloc: Global,
    n: u32,
    rows: &mut TextRows,
    counters: &Counters,
) -> Result<Vec<Decimal>, Fault>
    ensures gives { Gives (λ v. (v.items, rows_at rows.new.number rows.new.rest.now)) result
        (values_from (lines_at rows.old.number rows.old.rest.now) 0 n (rows_at rows.old.number rows.old.rest.now)) }
    ensures count { IfOk result (λ v. length v.items ≡ n) }
    ensures small { IfOk result (λ v. AreSmall v.items) }
{
    let mut values = Vec::new(alloc);
    for id in 0..n {
        let row = next_due(rows)?;
        let value = read_value(id, row)?;
        values.push(value)?;
        counters.blocks_read(u64::from(id) + 1);
    }
    Ok(values)
}

#[tactic(auto, unfolding(crate::specs::Upit::header_of))]
fn read_header(rows: &mut TextRows) -> Result<u32, Fault>
    ensures gives { Gives (λ n. (n, rows_at rows.new.number rows.new.rest.now)) result
        (header_of (lines_at rows.old.number rows.old.rest.now) (rows_at rows.old.number rows.old.rest.now)) }
    ensures count { lines_at rows.new.number rows.new.rest.now ≡ lines_at rows.old.number rows.old.rest.now }
    ensures few { IfOk result (λ n. n ≤ most_blocks) }
{
    let name = next_due(rows)?;
    check_name(name)?;
    let kind = next_due(rows)?;
    check_type(kind)?;
    let blocks = next_due(rows)?;
    let n = read_count(blocks)?;
    let objective = next_due(rows)?;
    check_objective(objective)?;
    Ok(n)
}

fn check_ended(rows: &mut TextRows) -> Result<(), Fault>
    ensures { Gives (λ _. tt) result (ended (rows_at rows.old.number rows.old.rest.now)) }
{
    match rows.next_row() {
        None => Ok(()),
        Some(row) => Err(in_model(Refusal::AfterEnd, row.line)),
    }
}

#[tactic(auto, unfolding(crate::specs::Upit::upit_of_rows))]
fn parse_lines(alloc: Global, text: &[u8], counters: &Counters) -> Result<Model, Fault>
    ensures exact { Gives (λ m. upit m.n m.values.items) result (upit_of text.now) }
    ensures small { IfOk result (λ m. IsSmallModel m.n m.values.items) }
{
    let mut rows = TextRows::new(text);
    let n = read_header(&mut rows)?;
    let values = read_values(alloc, n, &mut rows, counters)?;
    check_ended(&mut rows)?;
    Ok(Model { n, values })
}

/// The model that a text spells, else the first fault of the text, or `NoMemory`.
pub fn parse_upit(alloc: Global, text: &[u8]) -> Result<Model, Fault>
    // Which model or which fault it is.
    ensures exact { Gives (λ m. upit m.n m.values.items) result (upit_of text.now) }
    // What is read is spelled so, and what is spelled so is read, unless memory runs out.
    ensures spelled { IfOk result (λ m. SpellsUpit text.now (upit m.n m.values.items)) }
    ensures read { (m : Upit) → SpellsUpit text.now m → Gives (λ m. upit m.n m.values.items) result (Ok m) }
    ensures first_fault { IfErr result (λ e. FailsAt e.refusal e (IsFirstUpitFault text.now)) }
    ensures small { IfOk result (λ m. IsSmallModel m.n m.values.items) }
{
    parse_watched(alloc, text, &Counters::none())
}

/// Returns what `parse_upit` returns. The counters receive each block.
fn parse_watched(alloc: Global, text: &[u8], counters: &Counters) -> Result<Model, Fault>
    ensures exact { Gives (λ m. upit m.n m.values.items) result (upit_of text.now) }
    ensures spelled { IfOk result (λ m. SpellsUpit text.now (upit m.n m.values.items)) }
    ensures read { (m : Upit) → SpellsUpit text.now m → Gives (λ m. upit m.n m.values.items) result (Ok m) }
    ensures first_fault { IfErr result (λ e. FailsAt e.refusal e (IsFirstUpitFault text.now)) }
    ensures small { IfOk result (λ m. IsSmallModel m.n m.values.items) }
{
    parse_lines(alloc, text, counters)
}

/// Each text spells one model or has one first fault, and not both: what is read of it says which.
pub fn upit_law()
    ensures spelled { (text : List ℕ) (m : Upit) → (upit_of text ≡ Ok m) ↔ SpellsUpit text m }
    ensures faulty { (text : List ℕ) (fault : AnyFault) → (upit_of text ≡ Err fault) ↔ IsFirstUpitFault text fault }
{}

/// The model that all spells which the reader has left, else the first fault of that text. Refused by `ReadFailed` exactly
/// where the reader counted a failure in this call, and by `NoMemory`.
pub fn read_upit<R: InBytes>(alloc: Global, reader: &mut R) -> Result<Model, Fault>
    requires countable { (R.progress reader.old).failures < 2 ^ 63 }
    ensures answers { AnswersBy (λ m. upit m.n m.values.items) SpellsUpit IsFirstUpitFault sources.Model (R.progress reader.old) (R.progress reader.new) (R.IsAtEnd reader.new) result }
    ensures small { IfOk result (λ m. IsSmallModel m.n m.values.items) }
    ensures known { Keeps (R.known_text reader.old) (R.known_text reader.new) }

    // The same by what is read of a text.
    ensures exact { Answers (λ m. upit m.n m.values.items) upit_of sources.Model (R.progress reader.old) (R.progress reader.new) (R.IsAtEnd reader.new) result }
{
    let text = read_all(alloc, reader, Source::Model)?;
    parse_watched(alloc, &text, &reader.counters())
}

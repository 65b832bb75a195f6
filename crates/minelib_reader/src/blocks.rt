//! The text of a block model file (`.blocks`): for each block a line with its id, its place and its attributes.
//! Each line is checked in the order of `specs/Blocks.antt`; the first fault ends the reading.
//! The first line says how many attributes the blocks have, so its fields are counted before the lines are read.
ghost use Rattle.std.specs.Prelude.{◌≡◌, ◌↔◌, ℕ, ℤ, List, Ok, Err, ◌≤◌, ◌<◌, ◌^◌, ◌++◌, length, IfOk, IfErr};
ghost use Rattle.std.specs.Io.KnownBytes.{Keeps};
ghost use Rattle.std.specs.List.{All};
ghost use Rattle.faults.specs.declared.fault.Fault.{Fault as AnyFault};
ghost use Rattle.faults.specs.declared.source.Source.TheVariants as sources;
ghost use Rattle.minelib_reader.specs.Added.{AddsBlock};
ghost use Rattle.minelib_reader.specs.Answer.{Gives, Answers, AnswersBy, FailsBy, FailsAt};
ghost use Rattle.minelib_reader.specs.Blocks.{in_blocks, width_line, width_of, coordinate_of, front_of, attribute_of, attributes_of, block_line, blocks_from, as_table, table_of};
ghost use Rattle.minelib_reader.specs.BlocksFault.{IsFirstTableFault};
ghost use Rattle.minelib_reader.specs.BlocksGrammar.{SpellsTable};
ghost use Rattle.minelib_reader.specs.Number.{IsBounded};
ghost use Rattle.minelib_reader.specs.Table.{Table};
ghost use Rattle.minelib_reader.specs.Text.{row, rows_of, fields_of};
ghost use Rattle.pit_model.specs.Size.{most_blocks};

use crate::device::InBytes;
use crate::input::read_all;
use crate::limits::MOST_BLOCKS;
use crate::lines::{count_fields, first_four, next_field};
use crate::number::{decimal, signed, whole_number};
use crate::rows::{Row, TextRows};
use crate::table::BlockTable;
use counters::Counters;
use faults::{Fault, Refusal, Source};
use std::alloc::Global;

const MOST_COLUMNS: usize = 64;

/// The place of a block, and the part of its line that writes its attributes.
#[derive(Clone, Copy)]
struct BlockFront<'a> {
    place: (i32, i32, i32),
    rest: &'a [u8],
}

pub(crate) fn in_blocks(refusal: Refusal, line: u64) -> Fault
    ensures { result ≡ in_blocks refusal line }
{
    Fault::at_line(Source::Blocks, refusal, line)
}

/// How many attributes the first line has.
#[tactic(auto, unfolding(crate::specs::Blocks::width_line))]
fn count_attributes(r: Row) -> Result<u32, Fault>
    ensures gives { Gives (λ w. w) result (width_line (row r.entry.line (fields_of r.entry.text.now))) }
    ensures narrow { IfOk result (λ w. w ≤ 64) }
{
    let count = count_fields(r.text);
    if count < 4 {
        return Err(in_blocks(Refusal::WrongFieldCount, r.line));
    }
    if count - 4 > MOST_COLUMNS {
        return Err(in_blocks(Refusal::OverLimit, r.line));
    }
    Ok((count - 4) as u32)
}

fn read_width(text: &[u8]) -> Result<u32, Fault>
    ensures gives { Gives (λ w. w) result (width_of (rows_of text.now)) }
    ensures narrow { IfOk result (λ w. w ≤ 64) }
{
    let mut rows = TextRows::new(text);
    match rows.next_row() {
        None => Ok(0),
        Some(first) => count_attributes(first),
    }
}

#[tactic(auto, unfolding(crate::specs::Blocks::coordinate_of))]
fn read_coordinate(line: u64, field: &[u8]) -> Result<i32, Fault>
    ensures { Gives (λ c. c) result (coordinate_of line field.now) }
{
    let Some(c) = signed(field) else {
        return Err(in_blocks(Refusal::NotWhole, line));
    };
    if c < i64::from(i32::MIN) || c > i64::from(i32::MAX) {
        return Err(in_blocks(Refusal::OverLimit, line));
    }
    Ok(c as i32)
}

/// The place of a block, where its line passes all checks up to its attributes.
#[tactic(auto, unfolding(crate::specs::Blocks::front_of))]
fn read_front<'a>(width: u32, id: u64, r: Row<'a>) -> Result<BlockFront<'a>, Fault>
    ensures gives { Gives (λ f. (f.place, fields_of f.rest.now)) result (front_of width id (row r.entry.line (fields_of r.entry.text.now))) }
    ensures known { IfOk result (λ _. id < most_blocks) }
    ensures wide { IfOk result (λ f. length (fields_of f.rest.now) ≡ width) }
{
    let Some((named, x, y, z, rest)) = first_four(r.text) else {
        return Err(in_blocks(Refusal::WrongFieldCount, r.line));
    };
    if count_fields(rest) != width as usize {
        return Err(in_blocks(Refusal::WrongFieldCount, r.line));
    }
    let Some(named) = whole_number(named) else {
        return Err(in_blocks(Refusal::NotWhole, r.line));
    };
    if named != id {
        return Err(in_blocks(Refusal::IdOutOfPlace, r.line));
    }
    if named >= MOST_BLOCKS {
        return Err(in_blocks(Refusal::OverLimit, r.line));
    }
    let x = read_coordinate(r.line, x)?;
    let y = read_coordinate(r.line, y)?;
    let z = read_coordinate(r.line, z)?;
    Ok(BlockFront {
        place: (x, y, z),
        rest,
    })
}

#[tactic(auto, unfolding(crate::specs::Blocks::attribute_of))]
fn read_attribute(line: u64, field: &[u8]) -> Result<i128, Fault>
    ensures gives { Gives (λ v. v) result (attribute_of line field.now) }
    ensures small { IfOk result (IsBounded (10 ^ 18)) }
{
    match decimal(field) {
        Some(value) => Ok(value),
        None => Err(in_blocks(Refusal::NotDecimal, line)),
    }
}

/// Adds the attributes of a block, from left to right.
fn read_attributes(line: u64, text: &[u8], attributes: &mut Vec<i128>) -> Result<(), Fault>
    requires small { All (IsBounded (10 ^ 18)) attributes.old.items }
    ensures ok { IfOk result (λ _. (own : List ℤ) × (attributes_of line (fields_of text.now) ≡ Ok own) × (attributes.new.items ≡ attributes.old.items ++ own)) }
    ensures err { IfErr result (λ e. FailsBy e.refusal e (attributes_of line (fields_of text.now))) }
    ensures small { All (IsBounded (10 ^ 18)) attributes.new.items }
{
    let mut rest = text;
    while let Some((field, behind)) = next_field(rest) {
        let value = read_attribute(line, field)?;
        attributes.push(value)?;
        rest = behind;
    }
    Ok(())
}

/// Adds the attributes of a line, and answers the place of its block.
fn read_block(
    width: u32,
    id: u64,
    r: Row,
    attributes: &mut Vec<i128>,
) -> Result<(i32, i32, i32), Fault>
    requires small { All (IsBounded (10 ^ 18)) attributes.old.items }
    ensures ok { IfOk result (λ place. AddsBlock width id (row r.entry.line (fields_of r.entry.text.now)) place attributes.old.items attributes.new.items) }
    ensures err { IfErr result (λ e. FailsBy e.refusal e (block_line width id (row r.entry.line (fields_of r.entry.text.now)))) }
    ensures known { IfOk result (λ _. id < most_blocks) }
    ensures small { All (IsBounded (10 ^ 18)) attributes.new.items }
{
    let front = read_front(width, id, r)?;
    read_attributes(r.line, front.rest, attributes)?;
    Ok(front.place)
}

/// The table of all lines.
fn read_lines(
    alloc: Global,
    width: u32,
    text: &[u8],
    counters: &Counters,
) -> Result<BlockTable, Fault>
    requires narrow { width ≤ 64 }
    ensures { Gives (λ t. t) result (as_table width (blocks_from width 0 (rows_of text.now))) }
{
    let mut rows = TextRows::new(text);
    let mut places = Vec::new(alloc);
    let mut attributes = Vec::new(alloc);
    while let Some(row) = rows.next_row() {
        let place = read_block(width, places.len() as u64, row, &mut attributes)?;
        places.push(place)?;
        counters.blocks_read(places.len() as u64);
    }
    Ok(BlockTable::of_blocks(width, places, attributes))
}

#[tactic(auto, unfolding(crate::specs::Blocks::table_of_rows))]
fn parse_lines(alloc: Global, text: &[u8], counters: &Counters) -> Result<BlockTable, Fault>
    ensures { Gives (λ t. t) result (table_of text.now) }
{
    let width = read_width(text)?;
    read_lines(alloc, width, text, counters)
}

/// Each text spells one table or has one first fault, and not both: what is read of it says which.
pub fn blocks_law()
    ensures spelled { (text : List ℕ) (t : Table) → (table_of text ≡ Ok t) ↔ SpellsTable text t }
    ensures faulty { (text : List ℕ) (fault : AnyFault) → (table_of text ≡ Err fault) ↔ IsFirstTableFault text fault }
{}

/// The table that a text spells, else the first fault of the text, or `NoMemory`.
pub fn parse_blocks(alloc: Global, text: &[u8]) -> Result<BlockTable, Fault>
    // Which table or which fault it is.
    ensures exact { Gives (λ t. t) result (table_of text.now) }
    // What is read is spelled so, and what is spelled so is read, unless memory runs out.
    ensures spelled { IfOk result (λ t. SpellsTable text.now t) }
    ensures read { (t : Table) → SpellsTable text.now t → Gives (λ t. t) result (Ok t) }
    ensures first_fault { IfErr result (λ e. FailsAt e.refusal e (IsFirstTableFault text.now)) }
{
    parse_watched(alloc, text, &Counters::none())
}

/// Returns what `parse_blocks` returns. The counters receive each block.
fn parse_watched(alloc: Global, text: &[u8], counters: &Counters) -> Result<BlockTable, Fault>
    ensures exact { Gives (λ t. t) result (table_of text.now) }
    ensures spelled { IfOk result (λ t. SpellsTable text.now t) }
    ensures read { (t : Table) → SpellsTable text.now t → Gives (λ t. t) result (Ok t) }
    ensures first_fault { IfErr result (λ e. FailsAt e.refusal e (IsFirstTableFault text.now)) }
{
    parse_lines(alloc, text, counters)
}

/// The table that all spells which the reader has left, else the first fault of that text. Refused by `ReadFailed` exactly
/// where the reader counted a failure in this call, and by `NoMemory`.
pub fn read_blocks<R: InBytes>(alloc: Global, reader: &mut R) -> Result<BlockTable, Fault>
    requires countable { (R.progress reader.old).failures < 2 ^ 63 }
    ensures answers { AnswersBy (λ t. t) SpellsTable IsFirstTableFault sources.Blocks (R.progress reader.old) (R.progress reader.new) (R.IsAtEnd reader.new) result }
    ensures known { Keeps (R.known_text reader.old) (R.known_text reader.new) }

    // The same by what is read of a text.
    ensures exact { Answers (λ t. t) table_of sources.Blocks (R.progress reader.old) (R.progress reader.new) (R.IsAtEnd reader.new) result }
{
    let text = read_all(alloc, reader, Source::Blocks)?;
    parse_watched(alloc, &text, &reader.counters())
}

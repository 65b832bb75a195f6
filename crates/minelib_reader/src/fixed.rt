//! The text of a file of fixed blocks: for each of them a line with the word `in` or `out` and its id; ids increase from line to
//! line, with either word. Each line is checked in the order of `specs/Fixed.antt`; the first fault ends the reading.
ghost use Rattle.std.specs.Prelude.{◌≡◌, ◌↔◌, ℕ, List, Ok, Err, ◌<◌, ◌^◌, IfOk, IfErr};
ghost use Rattle.std.specs.Io.KnownBytes.{Keeps};
ghost use Rattle.faults.specs.declared.fault.Fault.{Fault as AnyFault};
ghost use Rattle.faults.specs.declared.source.Source.TheVariants as sources;
ghost use Rattle.minelib_reader.specs.Answer.{Gives, Answers, AnswersBy, FailsAt};
ghost use Rattle.minelib_reader.specs.Fixed.{fixed_blocks_of, fixed_lists, fixed_line, in_fixed, is_forced_by};
ghost use Rattle.minelib_reader.specs.FixedFault.{IsFirstFixedFault};
ghost use Rattle.minelib_reader.specs.FixedGrammar.{SpellsFixed};
ghost use Rattle.minelib_reader.specs.Text.{row, fields_of};
ghost use Rattle.pit_model.specs.Fixed.{AreFixable, FixedLists};

use crate::device::InBytes;
use crate::input::read_all;
use crate::lines::two_fields;
use crate::number::whole_number;
use crate::rows::{Row, TextRows};
use faults::{Fault, Refusal, Source};
use std::alloc::Global;

fn in_fixed(refusal: Refusal, line: u64) -> Fault
    ensures { result ≡ in_fixed refusal line }
{
    Fault::at_line(Source::Fixed, refusal, line)
}

/// Whether a word forces a block in; `None` where it does not bar it either.
#[tactic(auto, unfolding(crate::specs::Fixed::is_forced_by))]
fn is_forced_by(word: &[u8]) -> Option<bool>
    ensures { result ≡ is_forced_by word.now }
{
    if word == b"in".as_slice() {
        return Some(true);
    }
    if word == b"out".as_slice() {
        return Some(false);
    }
    None
}

/// Whether the block of a line is forced in, and the block, which is at least `from`.
#[tactic(auto, unfolding(crate::specs::Fixed::fixed_line))]
fn read_line(n: u32, from: u32, r: Row) -> Result<(bool, u32), Fault>
    ensures gives { Gives (λ l. l) result (fixed_line n from (row r.entry.line (fields_of r.entry.text.now))) }
    ensures known { IfOk result (λ l. l.1 < n) }
{
    let Some((word, number)) = two_fields(r.text) else {
        return Err(in_fixed(Refusal::WrongFieldCount, r.line));
    };
    let Some(is_forced) = is_forced_by(word) else {
        return Err(in_fixed(Refusal::WrongHeader, r.line));
    };
    let Some(id) = whole_number(number) else {
        return Err(in_fixed(Refusal::NotWhole, r.line));
    };
    if id >= u64::from(n) || id < u64::from(from) {
        return Err(in_fixed(Refusal::IdOutOfPlace, r.line));
    }
    Ok((is_forced, id as u32))
}

/// The blocks forced in by all lines, and those barred.
fn parse_lines(alloc: Global, text: &[u8], n: u32) -> Result<(Vec<u32>, Vec<u32>), Fault>
    ensures { Gives (λ v. fixed_lists v.0.items v.1.items) result (fixed_blocks_of n text.now) }
{
    let mut rows = TextRows::new(text);
    let mut forced = Vec::new(alloc);
    let mut barred = Vec::new(alloc);
    let mut from = 0;
    while let Some(row) = rows.next_row() {
        let (is_forced, id) = read_line(n, from, row)?;
        if is_forced {
            forced.push(id)?;
        } else {
            barred.push(id)?;
        }
        from = id + 1;
    }
    Ok((forced, barred))
}

/// Each text spells one pair of lists for n blocks or has one first fault, and not both: what is read of it says which.
pub fn fixed_law()
    ensures spelled { (n : ℕ) (text : List ℕ) (lists : FixedLists) → (fixed_blocks_of n text ≡ Ok lists) ↔ SpellsFixed n text lists }
    ensures faulty { (n : ℕ) (text : List ℕ) (fault : AnyFault) → (fixed_blocks_of n text ≡ Err fault) ↔ IsFirstFixedFault n text fault }
{}

/// Returns the blocks of n that a text forces in, and those that it bars, each list increasing. Errors: the first fault of the
/// text; `NoMemory`.
pub fn parse_fixed(alloc: Global, text: &[u8], n: u32) -> Result<(Vec<u32>, Vec<u32>), Fault>
    // Which blocks or which fault it is.
    ensures exact { Gives (λ v. fixed_lists v.0.items v.1.items) result (fixed_blocks_of n text.now) }
    // What is read is spelled so, and what is spelled so is read, unless memory runs out.
    ensures spelled { IfOk result (λ v. SpellsFixed n text.now (fixed_lists v.0.items v.1.items)) }
    ensures read { (lists : FixedLists) → SpellsFixed n text.now lists → Gives (λ v. fixed_lists v.0.items v.1.items) result (Ok lists) }
    ensures first_fault { IfErr result (λ e. FailsAt e.refusal e (IsFirstFixedFault n text.now)) }
    ensures fixable { IfOk result (λ v. AreFixable n (fixed_lists v.0.items v.1.items)) }
{
    parse_lines(alloc, text, n)
}

/// The blocks of n that are forced in and those that are barred, each list rising, that all spells which the reader has left,
/// else the first fault of that text. Refused by `ReadFailed` exactly where the reader counted a failure in this call, and by
/// `NoMemory`.
pub fn read_fixed<R: InBytes>(
    alloc: Global,
    reader: &mut R,
    n: u32,
) -> Result<(Vec<u32>, Vec<u32>), Fault>
    requires countable { (R.progress reader.old).failures < 2 ^ 63 }
    ensures answers { AnswersBy (λ v. fixed_lists v.0.items v.1.items) (SpellsFixed n) (IsFirstFixedFault n) sources.Fixed (R.progress reader.old) (R.progress reader.new) (R.IsAtEnd reader.new) result }
    ensures fixable { IfOk result (λ v. AreFixable n (fixed_lists v.0.items v.1.items)) }
    ensures known { Keeps (R.known_text reader.old) (R.known_text reader.new) }

    // The same by what is read of a text.
    ensures exact { Answers (λ v. fixed_lists v.0.items v.1.items) (fixed_blocks_of n) sources.Fixed (R.progress reader.old) (R.progress reader.new) (R.IsAtEnd reader.new) result }
{
    let text = read_all(alloc, reader, Source::Fixed)?;
    parse_fixed(alloc, &text, n)
}

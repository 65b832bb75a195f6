//! The lines that a text about a graph begins with, in a certificate as in a journal: its title, and the counts of blocks
//! and arcs, which are to be the graph's. Each is checked by the input that it stands in and by its word.
ghost use Rattle.std.specs.Prelude.{◌≡◌};
ghost use Rattle.std.specs.Option.{option_map};
ghost use Rattle.minelib_reader.specs.Answer.{Gives};
ghost use Rattle.minelib_reader.specs.Text.{row, fields_of};
ghost use Rattle.report.specs.HeadLines.{field_line, number_line, same_line, three_of, title_line};

use faults::{Fault, Refusal, Source};
use minelib_reader::{Row, next_field, two_fields, whole_number};

/// The fields of a line of three.
pub fn three_fields(text: &[u8]) -> Option<(&[u8], &[u8], &[u8])>
    ensures { option_map (λ p. (p.0.now, p.1.now, p.2.now)) result ≡ three_of (fields_of text.now) }
{
    let (first, rest) = next_field(text)?;
    let (second, rest) = next_field(rest)?;
    let (third, rest) = next_field(rest)?;
    match next_field(rest) {
        None => Some((first, second, third)),
        Some(_) => None,
    }
}

/// The title, which is this word and the number 1 of the form. Refused as a wrong header.
#[tactic(auto, unfolding(crate::specs::HeadLines::title_line))]
pub fn check_title(source: Source, word: &[u8], r: Row) -> Result<(), Fault>
    ensures { Gives (λ _. tt) result (title_line source word.now (row r.entry.line (fields_of r.entry.text.now))) }
{
    match two_fields(r.text) {
        Some((first, version)) if first == word && version == b"1".as_slice() => Ok(()),
        _ => Err(Fault::at_line(source, Refusal::WrongHeader, r.line)),
    }
}

/// The field behind a word. Refused as a wrong header, where the line does not begin with the word or has not two fields.
#[tactic(auto, unfolding(crate::specs::HeadLines::field_line))]
pub fn read_field<'a>(source: Source, word: &[u8], r: Row<'a>) -> Result<&'a [u8], Fault>
    ensures { Gives (λ f. f.now) result (field_line source word.now (row r.entry.line (fields_of r.entry.text.now))) }
{
    let Some((first, second)) = two_fields(r.text) else {
        return Err(Fault::at_line(source, Refusal::WrongHeader, r.line));
    };
    if first != word {
        return Err(Fault::at_line(source, Refusal::WrongHeader, r.line));
    }
    Ok(second)
}

/// The whole number behind a word.
#[tactic(auto, unfolding(crate::specs::HeadLines::number_line))]
pub fn read_number(source: Source, word: &[u8], r: Row) -> Result<u64, Fault>
    ensures { Gives (λ n. n) result (number_line source word.now (row r.entry.line (fields_of r.entry.text.now))) }
{
    let field = read_field(source, word, r)?;
    match whole_number(field) {
        Some(number) => Ok(number),
        None => Err(Fault::at_line(source, Refusal::NotWhole, r.line)),
    }
}

/// A count, which must be this one. Refused as a count that differs, behind what `read_number` refuses.
#[tactic(auto, unfolding(crate::specs::HeadLines::same_line))]
pub fn check_count(source: Source, word: &[u8], count: u32, r: Row) -> Result<(), Fault>
    ensures { Gives (λ _. tt) result (same_line source word.now count (row r.entry.line (fields_of r.entry.text.now))) }
{
    let number = read_number(source, word, r)?;
    if number != u64::from(count) {
        return Err(Fault::at_line(source, Refusal::CountsDiffer, r.line));
    }
    Ok(())
}

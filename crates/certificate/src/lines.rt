//! The lines of a certificate's text behind the graph's counts, each checked by a function of its own, in the order of
//! `specs/CertificateLines.antt`. `reader` says which line is due, and `report` checks the title and the graph's counts.
ghost use Rattle.std.specs.Prelude.{◌≡◌, ◌+◌, ◌<◌, ◌≤◌, ◌^◌, [], ◌∷◌, length, IfOk, IfSome};
ghost use Rattle.std.specs.Option.{option_map};
ghost use Rattle.minelib_reader.specs.Answer.{Gives};
ghost use Rattle.minelib_reader.specs.Text.{row, fields_of};
ghost use Rattle.certificate.specs.CertificateLines.{in_certificate, one_of, arc_of, count_line, id_line, arc_line};

use faults::{Fault, Refusal, Source};
use mine_graph::Graph;
use minelib_reader::{Row, digits, next_field, whole_number};
use report::{read_number, three_fields};

const MOST_AMOUNT: u128 = 1_000_000_000_000_000_000_000_000_000_000;

pub fn in_certificate(refusal: Refusal, line: u64) -> Fault
    ensures { result ≡ in_certificate refusal line }
{
    Fault::at_line(Source::Certificate, refusal, line)
}

/// The field of a line of one.
fn one_field(text: &[u8]) -> Option<&[u8]>
    ensures { option_map (λ f. f.now) result ≡ one_of (fields_of text.now) }
{
    let (first, rest) = next_field(text)?;
    match next_field(rest) {
        None => Some(first),
        Some(_) => None,
    }
}

/// The number of lines that follow, at most the given one.
#[tactic(auto, unfolding(crate::specs::CertificateLines::count_line))]
pub fn read_count(word: &[u8], most: u32, r: Row) -> Result<u32, Fault>
    ensures gives { Gives (λ n. n) result (count_line word.now most (row r.entry.line (fields_of r.entry.text.now))) }
{
    let number = read_number(Source::Certificate, word, r)?;
    if number > u64::from(most) {
        return Err(in_certificate(Refusal::OverLimit, r.line));
    }
    Ok(number as u32)
}

/// A block of n, which is at least `from`.
#[tactic(auto, unfolding(crate::specs::CertificateLines::id_line))]
pub fn read_id(n: u32, from: u32, r: Row) -> Result<u32, Fault>
    ensures gives { Gives (λ id. id) result (id_line n from (row r.entry.line (fields_of r.entry.text.now))) }
    ensures below { IfOk result (λ id. id < n) }
{
    let Some(field) = one_field(r.text) else {
        return Err(in_certificate(Refusal::WrongFieldCount, r.line));
    };
    let Some(id) = whole_number(field) else {
        return Err(in_certificate(Refusal::NotWhole, r.line));
    };
    if id >= u64::from(n) || id < u64::from(from) {
        return Err(in_certificate(Refusal::IdOutOfPlace, r.line));
    }
    Ok(id as u32)
}

/// The number of a pair of the graph.
fn arc_of(graph: &Graph, u: u64, p: u64) -> Option<u32>
    ensures arc { result ≡ arc_of graph.now.pairs u p }
    ensures below { IfSome result (λ k. k < length graph.now.pairs) }
{
    graph.law();
    let n = u64::from(graph.n());
    if u >= n || p >= n {
        return None;
    }
    graph.arc_of(u as u32, p as u32)
}

/// An arc of at least the number `from`, with its amount.
#[tactic(auto, unfolding(crate::specs::CertificateLines::arc_line))]
pub fn read_arc(graph: &Graph, from: u32, r: Row) -> Result<(u32, u128), Fault>
    ensures gives { Gives (λ a. a) result (arc_line graph.now.pairs from (row r.entry.line (fields_of r.entry.text.now))) }
    ensures below { IfOk result (λ a. a.0 < length graph.now.pairs) }
    ensures small { IfOk result (λ a. a.1 ≤ 10 ^ 30) }
{
    let Some((first, second, third)) = three_fields(r.text) else {
        return Err(in_certificate(Refusal::WrongFieldCount, r.line));
    };
    let Some(u) = whole_number(first) else {
        return Err(in_certificate(Refusal::NotWhole, r.line));
    };
    let Some(p) = whole_number(second) else {
        return Err(in_certificate(Refusal::NotWhole, r.line));
    };
    let Some(arc) = arc_of(graph, u, p) else {
        return Err(in_certificate(Refusal::IdOutOfPlace, r.line));
    };
    if arc < from {
        return Err(in_certificate(Refusal::IdOutOfPlace, r.line));
    }
    let Some(amount) = digits(third, 31) else {
        return Err(in_certificate(Refusal::NotWhole, r.line));
    };
    if amount == 0 || amount > MOST_AMOUNT {
        return Err(in_certificate(Refusal::OverLimit, r.line));
    }
    Ok((arc, amount))
}

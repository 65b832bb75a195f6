//! The lines of a certificate's text before the blocks of the pit: its title, the graph's counts, and in format 2 the fixed blocks,
//! which must be the given ones. `lines` checks each line except for that, and `reader` goes on after them.
ghost use Rattle.std.specs.Prelude.{◌≡◌, ◌<◌, IfOk};
ghost use Rattle.minelib_reader.specs.Answer.{Gives};
ghost use Rattle.minelib_reader.specs.Text.{row, fields_of};
ghost use Rattle.certificate.specs.CertificateLines.{behind_fixed, fixed_count_line, fixed_id_line, fixes_nothing, format_line, head_line, inside_line, list_of, kind_word};

use crate::due::{CertificateLine, Head, Kind};
use crate::lines::{in_certificate, read_count, read_id};
use faults::{Fault, Refusal, Source};
use mine_graph::{Fixed, Graph};
use minelib_reader::{Row, two_fields};
use report::{check_count, check_title};

/// The word before the number of blocks of a kind.
pub fn word_of(kind: Kind) -> &'static [u8]
    ensures { result.now ≡ kind_word kind }
{
    match kind {
        Kind::Forced => b"FORCED:".as_slice(),
        Kind::Barred => b"BARRED:".as_slice(),
    }
}

/// The blocks of a kind.
fn list_of(fixed: &Fixed, kind: Kind) -> &[u32]
    ensures { result.now ≡ list_of fixed.now.lists kind }
{
    match kind {
        Kind::Forced => fixed.forced(),
        Kind::Barred => fixed.barred(),
    }
}

/// Whether no block is forced in, and none barred.
pub fn fixes_nothing(fixed: &Fixed) -> bool
    ensures { result ≡ fixes_nothing fixed.now.lists }
{
    fixed.is_empty()
}

/// Whether the title is that of format 2, which names the fixed blocks. Refused is that of format 1 where a block is fixed.
#[tactic(auto, unfolding(crate::specs::CertificateLines::format_line, crate::specs::CertificateLines::first_format))]
fn read_format(fixed: &Fixed, r: Row) -> Result<bool, Fault>
    ensures { Gives (λ b. b) result (format_line fixed.now.lists (row r.entry.line (fields_of r.entry.text.now))) }
{
    if let Some((word, format)) = two_fields(r.text)
        && word == b"PITCERT".as_slice()
        && format == b"2".as_slice()
    {
        return Ok(true);
    }
    check_title(Source::Certificate, b"PITCERT", r)?;
    if !fixes_nothing(fixed) {
        return Err(in_certificate(Refusal::CountsDiffer, r.line));
    }
    Ok(false)
}

/// How many blocks of a kind follow.
#[tactic(auto, unfolding(crate::specs::CertificateLines::fixed_count_line))]
fn take_fixed_count(
    graph: &Graph,
    fixed: &Fixed,
    kind: Kind,
    r: Row,
) -> Result<CertificateLine, Fault>
    ensures { Gives (λ due. due) result (fixed_count_line graph.now.blocks fixed.now.lists kind (row r.entry.line (fields_of r.entry.text.now))) }
{
    let count = read_count(word_of(kind), graph.n(), r)?;
    if count as usize != list_of(fixed, kind).len() {
        return Err(in_certificate(Refusal::CountsDiffer, r.line));
    }
    Ok(CertificateLine::Head(Head::FixedBlock {
        kind,
        at: 0,
        from: 0,
    }))
}

/// How many blocks of the pit follow.
#[tactic(auto, unfolding(crate::specs::CertificateLines::inside_line))]
fn take_inside(graph: &Graph, r: Row) -> Result<CertificateLine, Fault>
    ensures { Gives (λ due. due) result (inside_line graph.now.blocks (row r.entry.line (fields_of r.entry.text.now))) }
{
    let left = read_count(b"IN:", graph.n(), r)?;
    Ok(CertificateLine::Block { left, from: 0 })
}

/// The line behind the last block of a kind.
fn take_behind(graph: &Graph, fixed: &Fixed, kind: Kind, r: Row) -> Result<CertificateLine, Fault>
    ensures { Gives (λ due. due) result (behind_fixed graph.now.blocks fixed.now.lists kind (row r.entry.line (fields_of r.entry.text.now))) }
{
    match kind {
        Kind::Forced => take_fixed_count(graph, fixed, Kind::Barred, r),
        Kind::Barred => take_inside(graph, r),
    }
}

/// A fixed block of n, at least `from`, which is this one.
#[tactic(auto, unfolding(crate::specs::CertificateLines::fixed_id_line))]
fn read_fixed_id(n: u32, from: u32, id: u32, r: Row) -> Result<u32, Fault>
    ensures gives { Gives (λ id. id) result (fixed_id_line n from id (row r.entry.line (fields_of r.entry.text.now))) }
    ensures below { IfOk result (λ id. id < n) }
{
    let named = read_id(n, from, r)?;
    if named != id {
        return Err(in_certificate(Refusal::CountsDiffer, r.line));
    }
    Ok(named)
}

/// A line before the blocks of the pit; it answers which one is due next.
#[tactic(auto, unfolding(crate::specs::CertificateLines::head_line, crate::specs::CertificateLines::fixed_block_line))]
pub fn take_head(graph: &Graph, fixed: &Fixed, head: Head, r: Row) -> Result<CertificateLine, Fault>
    ensures { Gives (λ due. due) result (head_line graph.now fixed.now.lists head (row r.entry.line (fields_of r.entry.text.now))) }
{
    match head {
        Head::Title => {
            let names_fixed = read_format(fixed, r)?;
            Ok(CertificateLine::Head(Head::Blocks { names_fixed }))
        }
        Head::Blocks { names_fixed } => {
            check_count(Source::Certificate, b"BLOCKS:", graph.n(), r)?;
            Ok(CertificateLine::Head(Head::Arcs { names_fixed }))
        }
        Head::Arcs { names_fixed } => {
            check_count(Source::Certificate, b"ARCS:", graph.arcs(), r)?;
            if names_fixed {
                return Ok(CertificateLine::Head(Head::FixedCount(Kind::Forced)));
            }
            Ok(CertificateLine::Head(Head::Count))
        }
        Head::FixedCount(kind) => take_fixed_count(graph, fixed, kind, r),
        Head::FixedBlock { kind, at, from } => match list_of(fixed, kind).get(at) {
            None => take_behind(graph, fixed, kind, r),
            Some(&id) => {
                let named = read_fixed_id(graph.n(), from, id, r)?;
                let (at, from) = (at + 1, named + 1);
                Ok(CertificateLine::Head(Head::FixedBlock { kind, at, from }))
            }
        },
        Head::Count => take_inside(graph, r),
    }
}

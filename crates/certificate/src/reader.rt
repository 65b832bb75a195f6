//! The text of a certificate: its head (`head`), the blocks of the pit, how many arcs carry something, and these.
//! Each line is the one that is `CertificateLine`, checked by a function of `lines`; the first fault ends the reading.
ghost use Rattle.std.specs.Prelude.{◌≡◌, ◌↔◌, ℕ, ℤ, List, Ok, Err, ◌<◌, ◌^◌, length, IfOk, IfErr};
ghost use Rattle.std.specs.Io.KnownBytes.{Keeps};
ghost use Rattle.faults.specs.declared.fault.Fault.{Fault as AnyFault};
ghost use Rattle.faults.specs.declared.source.Source.TheVariants as sources;
ghost use Rattle.minelib_reader.specs.Answer.{Gives, Answers, AnswersBy, FailsBy, FailsAt};
ghost use Rattle.minelib_reader.specs.Text.{row, fields_of};
ghost use Rattle.pit_model.specs.Fixed.{FixedLists};
ghost use Rattle.pit_model.specs.Graph.{AreRising, Graph as AnyGraph};
ghost use Rattle.optimality.specs.Check.{IsCandidate};
ghost use Rattle.certificate.specs.CertificateLines.{arc_step, block_step, certificate_of, end_at, pit_and_flow, state, step_at, PitAndFlow};
ghost use Rattle.certificate.specs.CertificateFault.{IsFirstCertificateFault};
ghost use Rattle.certificate.specs.CertificateGrammar.{SpellsCertificate};

use crate::due::{CertificateLine, Head};
use crate::head::take_head;
use crate::lines::{in_certificate, read_arc, read_count, read_id};
use faults::{Fault, Refusal, Source};
use mine_graph::{Fixed, Graph};
use minelib_reader::{InBytes, Row, TextRows, read_all};
use optimality::Certificate;
use std::alloc::Global;

/// The line of a block, while some are left; then how many arcs follow.
fn take_block(
    graph: &Graph,
    left: u32,
    from: u32,
    r: Row,
    pit: &mut Vec<u32>,
) -> Result<CertificateLine, Fault>
    ensures ok { IfOk result (λ due. (flow : List ℤ) → block_step graph.now left from pit.old.items flow (row r.entry.line (fields_of r.entry.text.now)) ≡ Ok (state due pit.new.items flow)) }
    ensures err { IfErr result (λ e. (flow : List ℤ) → FailsBy e.refusal e (block_step graph.now left from pit.old.items flow (row r.entry.line (fields_of r.entry.text.now)))) }
{
    graph.law();
    if left == 0 {
        let count = read_count(b"FLOW:", graph.arcs(), r)?;
        return Ok(CertificateLine::Arc {
            left: count,
            from: 0,
        });
    }
    let id = read_id(graph.n(), from, r)?;
    pit.push(id)?;
    Ok(CertificateLine::Block {
        left: left - 1,
        from: id + 1,
    })
}

/// The line of an arc, while some are left.
fn take_arc(
    graph: &Graph,
    left: u32,
    from: u32,
    r: Row,
    flow: &mut Vec<i128>,
) -> Result<CertificateLine, Fault>
    requires { length flow.old.items ≡ length graph.now.pairs }
    ensures ok { IfOk result (λ due. (pit : List ℕ) → arc_step graph.now left from pit flow.old.items (row r.entry.line (fields_of r.entry.text.now)) ≡ Ok (state due pit flow.new.items)) }
    ensures err { IfErr result (λ e. (pit : List ℕ) → FailsBy e.refusal e (arc_step graph.now left from pit flow.old.items (row r.entry.line (fields_of r.entry.text.now)))) }
    ensures counted { length flow.new.items ≡ length graph.now.pairs }
{
    graph.law();
    if left == 0 {
        return Err(in_certificate(Refusal::AfterEnd, r.line));
    }
    let (arc, amount) = read_arc(graph, from, r)?;
    flow[arc as usize] = amount as i128;
    Ok(CertificateLine::Arc {
        left: left - 1,
        from: arc + 1,
    })
}

/// The line that is due; it answers which one is due next.
#[tactic(auto, unfolding(crate::specs::CertificateLines::step_at))]
fn take_line(
    graph: &Graph,
    fixed: &Fixed,
    due: CertificateLine,
    r: Row,
    found: &mut Certificate,
) -> Result<CertificateLine, Fault>
    requires { length found.old.flow.items ≡ length graph.now.pairs }
    ensures ok { IfOk result (λ next. step_at graph.now fixed.now.lists due found.old.pit.items found.old.flow.items (row r.entry.line (fields_of r.entry.text.now)) ≡ Ok (state next found.new.pit.items found.new.flow.items)) }
    ensures err { IfErr result (λ e. FailsBy e.refusal e (step_at graph.now fixed.now.lists due found.old.pit.items found.old.flow.items (row r.entry.line (fields_of r.entry.text.now)))) }
    ensures counted { length found.new.flow.items ≡ length graph.now.pairs }
{
    match due {
        CertificateLine::Head(head) => take_head(graph, fixed, head, r),
        CertificateLine::Block { left, from } => take_block(graph, left, from, r, &mut found.pit),
        CertificateLine::Arc { left, from } => take_arc(graph, left, from, r, &mut found.flow),
    }
}

/// Nothing is due any more, in a text of this many lines.
#[tactic(auto, unfolding(crate::specs::CertificateLines::end_at))]
fn check_end(due: CertificateLine, count: u64) -> Result<(), Fault>
    requires { count < 2 ^ 63 }
    ensures { (pit : List ℕ) (flow : List ℤ) → Gives (λ _. pit_and_flow pit flow) result (end_at count due pit flow) }
{
    match due {
        CertificateLine::Arc { left: 0, .. } => Ok(()),
        _ => Err(in_certificate(Refusal::EndsEarly, count + 1)),
    }
}

/// All lines, one after the other.
fn parse_lines(
    alloc: Global,
    text: &[u8],
    graph: &Graph,
    fixed: &Fixed,
) -> Result<Certificate, Fault>
    ensures exact { Gives (λ c. pit_and_flow c.pit.items c.flow.items) result (certificate_of graph.now fixed.now.lists text.now) }
{
    let mut rows = TextRows::new(text);
    let pit = Vec::new(alloc);
    let flow = vec![in alloc; 0i128; graph.arcs() as usize]?;
    let mut found = Certificate { pit, flow };
    let mut due = CertificateLine::Head(Head::Title);
    while let Some(row) = rows.next_row() {
        due = take_line(graph, fixed, due, row, &mut found)?;
    }
    check_end(due, rows.number)?;
    Ok(found)
}

/// Each text spells one certificate of a graph with these fixed blocks or has one first fault, and not both: what is read of
/// it says which. The pairs of a graph are in order, so each of them has one number.
pub fn certificate_law()
    ensures spelled { (graph : AnyGraph) (lists : FixedLists) (text : List ℕ) (c : PitAndFlow) → AreRising graph.pairs → (certificate_of graph lists text ≡ Ok c) ↔ SpellsCertificate graph lists text c }
    ensures faulty { (graph : AnyGraph) (lists : FixedLists) (text : List ℕ) (fault : AnyFault) → (certificate_of graph lists text ≡ Err fault) ↔ IsFirstCertificateFault graph lists text fault }
{}

/// The certificate of the graph with these fixed blocks that a text spells, else the first fault of the text, or `NoMemory`.
pub fn parse_certificate(
    alloc: Global,
    text: &[u8],
    graph: &Graph,
    fixed: &Fixed,
) -> Result<Certificate, Fault>
    // Which certificate or which fault it is.
    ensures exact { Gives (λ c. pit_and_flow c.pit.items c.flow.items) result (certificate_of graph.now fixed.now.lists text.now) }
    // What is read is spelled so, and what is spelled so is read, unless memory runs out.
    ensures spelled { IfOk result (λ c. SpellsCertificate graph.now fixed.now.lists text.now (pit_and_flow c.pit.items c.flow.items)) }
    ensures read { (c : PitAndFlow) → SpellsCertificate graph.now fixed.now.lists text.now c → Gives (λ c. pit_and_flow c.pit.items c.flow.items) result (Ok c) }
    ensures first_fault { IfErr result (λ e. FailsAt e.refusal e (IsFirstCertificateFault graph.now fixed.now.lists text.now)) }
    ensures candidate { IfOk result (λ c. IsCandidate graph.now.blocks (length graph.now.pairs) c.pit.items c.flow.items) }
{
    graph.law();
    parse_lines(alloc, text, graph, fixed)
}

/// The certificate of the graph with these fixed blocks that all spells which the reader has left, else the first fault of
/// that text. Refused by `ReadFailed` exactly where the reader counted a failure in this call, and by `NoMemory`.
pub fn read<R: InBytes>(
    alloc: Global,
    reader: &mut R,
    graph: &Graph,
    fixed: &Fixed,
) -> Result<Certificate, Fault>
    requires countable { (R.progress reader.old).failures < 2 ^ 63 }
    ensures answers { AnswersBy (λ c. pit_and_flow c.pit.items c.flow.items) (SpellsCertificate graph.now fixed.now.lists) (IsFirstCertificateFault graph.now fixed.now.lists) sources.Certificate (R.progress reader.old) (R.progress reader.new) (R.IsAtEnd reader.new) result }
    ensures candidate { IfOk result (λ c. IsCandidate graph.now.blocks (length graph.now.pairs) c.pit.items c.flow.items) }
    ensures known { Keeps (R.known_text reader.old) (R.known_text reader.new) }

    // The same by what is read of a text.
    ensures exact { Answers (λ c. pit_and_flow c.pit.items c.flow.items) (certificate_of graph.now fixed.now.lists) sources.Certificate (R.progress reader.old) (R.progress reader.new) (R.IsAtEnd reader.new) result }
{
    let text = read_all(alloc, reader, Source::Certificate)?;
    parse_certificate(alloc, &text, graph, fixed)
}

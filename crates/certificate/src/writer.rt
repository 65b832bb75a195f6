//! The text of a certificate: its head, a line for each block of the pit, and a line for each arc that carries something.
//! Pieces go through the buffer of `report`, so that nothing is written behind a write that failed.
ghost use Rattle.std.specs.Prelude.{◌≡◌, ◌<◌, ◌≤◌, ◌^◌, pos, int_lt, length, IfErr};
ghost use Rattle.std.specs.List.{flat_map};
ghost use Rattle.minelib_reader.specs.Device.{Writes};
ghost use Rattle.faults.specs.Refused.{write_failed};
ghost use Rattle.pit_model.specs.PitText.{line_of};
ghost use Rattle.report.specs.Puts.{IsReady, Puts};
ghost use Rattle.optimality.specs.Check.{amount, IsCandidate};
ghost use Rattle.certificate.specs.CertificateGrammar.{SpellsCertificate};
ghost use Rattle.certificate.specs.CertificateLines.{pit_and_flow};
ghost use Rattle.mine_graph.specs.FixedBlocks.{IsFixedOf};
ghost use Rattle.certificate.specs.CertificateText.{carrying, certificate_head, certificate_text, flow_head, flow_line, graph_head, list_text};

use crate::due::Kind;
use crate::head::{fixes_nothing, word_of};
use faults::Fault;
use mine_graph::{Fixed, Graph};
use minelib_reader::OutBytes;
use optimality::Certificate;
use report::{Out, end_line, finish, put, put_line, put_number};

/// Writes the title, with the number of the format, and how many blocks and arcs the graph has.
fn put_graph_head<W: OutBytes>(writer: &mut W, out: &mut Out, format: &[u8], graph: &Graph)
    requires ready { IsReady (W.progress writer.old) out.old }
    requires short { length format.now ≤ 64 }
    ensures puts { Puts (W.progress writer.old) out.old (W.progress writer.new) out.new (graph_head format.now graph.now.blocks (length graph.now.pairs)) }
    ensures ready { IsReady (W.progress writer.new) out.new }
{
    put(writer, out, b"PITCERT ");
    put(writer, out, format);
    put(writer, out, b"\nBLOCKS: ");
    put_number(writer, out, graph.n());
    put(writer, out, b"\nARCS: ");
    put_number(writer, out, graph.arcs());
    end_line(writer, out);
}

/// Writes a line for each of these blocks.
fn put_ids<W: OutBytes>(writer: &mut W, out: &mut Out, ids: &[u32])
    requires { IsReady (W.progress writer.old) out.old }
    ensures puts { Puts (W.progress writer.old) out.old (W.progress writer.new) out.new (flat_map line_of ids.now) }
    ensures ready { IsReady (W.progress writer.new) out.new }
{
    for &id in ids {
        put_line(writer, out, id);
    }
}

/// Writes behind this word how many blocks follow, and a line for each of them.
fn put_list<W: OutBytes>(writer: &mut W, out: &mut Out, word: &[u8], ids: &[u32])
    requires ready { IsReady (W.progress writer.old) out.old }
    requires short { length word.now ≤ 64 }
    ensures puts { Puts (W.progress writer.old) out.old (W.progress writer.new) out.new (list_text word.now ids.now) }
    ensures ready { IsReady (W.progress writer.new) out.new }
{
    put(writer, out, word);
    put(writer, out, b" ");
    put_number(writer, out, ids.len());
    end_line(writer, out);
    put_ids(writer, out, ids);
}

/// Writes the lines before those of the pit: in format 2 if a block is fixed, otherwise in format 1.
fn put_head<W: OutBytes>(writer: &mut W, out: &mut Out, graph: &Graph, fixed: &Fixed)
    requires { IsReady (W.progress writer.old) out.old }
    ensures puts { Puts (W.progress writer.old) out.old (W.progress writer.new) out.new (certificate_head graph.now fixed.now.lists) }
    ensures ready { IsReady (W.progress writer.new) out.new }
{
    if fixes_nothing(fixed) {
        put_graph_head(writer, out, b"1", graph);
        return;
    }
    put_graph_head(writer, out, b"2", graph);
    put_list(writer, out, word_of(Kind::Forced), fixed.forced());
    put_list(writer, out, word_of(Kind::Barred), fixed.barred());
}

/// Whether an arc carries something.
fn carries(flow: &[i128], k: u32) -> bool
    requires { k < length flow.now }
    ensures { result ≡ int_lt (pos 0) (amount flow.now k) }
{
    flow[k as usize] > 0
}

/// How many arcs carry something.
fn count_carrying(flow: &[i128], m: u32) -> u32
    requires { m ≡ length flow.now }
    ensures { result ≡ length (carrying flow.now m) }
{
    let mut count = 0;
    for k in 0..m {
        if carries(flow, k) {
            count += 1;
        }
    }
    count
}

/// Writes the line before the first arc: how many arcs carry something.
fn put_flow_head<W: OutBytes>(writer: &mut W, out: &mut Out, count: u32)
    requires { IsReady (W.progress writer.old) out.old }
    ensures puts { Puts (W.progress writer.old) out.old (W.progress writer.new) out.new (flow_head count) }
    ensures ready { IsReady (W.progress writer.new) out.new }
{
    put(writer, out, b"FLOW: ");
    put_number(writer, out, count);
    end_line(writer, out);
}

/// Writes the line of an arc.
fn put_arc<W: OutBytes>(writer: &mut W, out: &mut Out, graph: &Graph, flow: &[i128], k: u32)
    requires ready { IsReady (W.progress writer.old) out.old }
    requires arc { k < length graph.now.pairs }
    requires counted { length flow.now ≡ length graph.now.pairs }
    ensures puts { Puts (W.progress writer.old) out.old (W.progress writer.new) out.new (flow_line graph.now.pairs flow.now k) }
    ensures ready { IsReady (W.progress writer.new) out.new }
{
    let (u, p) = graph.arc(k);
    put_number(writer, out, u);
    put(writer, out, b" ");
    put_number(writer, out, p);
    put(writer, out, b" ");
    put_number(writer, out, flow[k as usize].unsigned_abs());
    end_line(writer, out);
}

/// Writes a line for each arc that carries something.
fn put_flow<W: OutBytes>(writer: &mut W, out: &mut Out, graph: &Graph, flow: &[i128])
    requires ready { IsReady (W.progress writer.old) out.old }
    requires counted { length flow.now ≡ length graph.now.pairs }
    ensures puts { Puts (W.progress writer.old) out.old (W.progress writer.new) out.new (flat_map (flow_line graph.now.pairs flow.now) (carrying flow.now (length graph.now.pairs))) }
    ensures ready { IsReady (W.progress writer.new) out.new }
{
    for k in 0..graph.arcs() {
        if carries(flow, k) {
            put_arc(writer, out, graph, flow, k);
        }
    }
}

/// Writes the text of a certificate of the graph with these fixed blocks. Refused where a write failed: a beginning of the
/// text was written then. It takes no memory.
pub fn write<W: OutBytes>(
    writer: &mut W,
    graph: &Graph,
    fixed: &Fixed,
    certificate: &Certificate,
) -> Result<(), Fault>
    requires countable { (W.progress writer.old).failures < 2 ^ 63 }
    requires of_graph { IsFixedOf graph.now fixed.now }
    requires candidate { IsCandidate graph.now.blocks (length graph.now.pairs) certificate.now.pit.items certificate.now.flow.items }
    ensures text { Writes (W.progress writer.old) (W.progress writer.new) (certificate_text graph.now fixed.now.lists certificate.now.pit.items certificate.now.flow.items) result }
    ensures refused { IfErr result (λ fault. fault ≡ write_failed) }

    // Reading the text gives the certificate back.
    ensures spelled { SpellsCertificate graph.now fixed.now.lists (certificate_text graph.now fixed.now.lists certificate.now.pit.items certificate.now.flow.items) (pit_and_flow certificate.now.pit.items certificate.now.flow.items) }
{
    graph.law();
    let flow = certificate.flow.as_slice();
    let mut out = Out::new();
    put_head(writer, &mut out, graph, fixed);
    put_list(writer, &mut out, b"IN:", certificate.pit.as_slice());
    put_flow_head(writer, &mut out, count_carrying(flow, graph.arcs()));
    put_flow(writer, &mut out, graph, flow);
    finish(writer, &mut out)
}

//! The text of a journal: its head, and a line for each entry.
ghost use Rattle.std.specs.Prelude.{◌≡◌, ◌<◌, ◌^◌, length, IfErr};
ghost use Rattle.std.specs.List.{flat_map};
ghost use Rattle.minelib_reader.specs.Device.{Writes};
ghost use Rattle.faults.specs.Refused.{write_failed};
ghost use Rattle.pit_model.specs.JournalText.{budget_text, entry_line, journal_head, journal_text, verdict_number, AreSeatedBelow};
ghost use Rattle.report.specs.JournalGrammar.{SpellsJournal};
ghost use Rattle.report.specs.JournalLines.{budget_and_entries};
ghost use Rattle.report.specs.Puts.{IsReady, Puts};

use crate::number::put_number;
use crate::out::{Out, end_line, finish, put};
use faults::Fault;
use mine_graph::Graph;
use minelib_reader::OutBytes;
use pit_model::{Entry, Verdict};

/// The number that stands for a verdict.
fn verdict_number(verdict: Verdict) -> u32
    ensures { result ≡ verdict_number verdict }
{
    match verdict {
        Verdict::Applied => 1,
        Verdict::Stale => 2,
        Verdict::Spent => 3,
    }
}

/// Writes the budget, or the word for none.
fn put_budget<W: OutBytes>(writer: &mut W, out: &mut Out, budget: Option<u64>)
    requires { IsReady (W.progress writer.old) out.old }
    ensures puts { Puts (W.progress writer.old) out.old (W.progress writer.new) out.new (budget_text budget) }
    ensures ready { IsReady (W.progress writer.new) out.new }
{
    match budget {
        None => put(writer, out, b"none"),
        Some(most) => put_number(writer, out, most),
    }
}

/// Writes the lines before the first entry: the counts of the graph, the budget, and how many entries there are.
fn put_head<W: OutBytes>(
    writer: &mut W,
    out: &mut Out,
    graph: &Graph,
    budget: Option<u64>,
    count: usize,
)
    requires { IsReady (W.progress writer.old) out.old }
    ensures puts { Puts (W.progress writer.old) out.old (W.progress writer.new) out.new (journal_head graph.now.blocks (length graph.now.pairs) budget count) }
    ensures ready { IsReady (W.progress writer.new) out.new }
{
    put(writer, out, b"PITJOURNAL 1\nBLOCKS: ");
    put_number(writer, out, graph.n());
    put(writer, out, b"\nARCS: ");
    put_number(writer, out, graph.arcs());
    put(writer, out, b"\nBUDGET: ");
    put_budget(writer, out, budget);
    put(writer, out, b"\nENTRIES: ");
    put_number(writer, out, count);
    end_line(writer, out);
}

/// Writes the line of an entry.
fn put_entry<W: OutBytes>(writer: &mut W, out: &mut Out, entry: Entry)
    requires { IsReady (W.progress writer.old) out.old }
    ensures puts { Puts (W.progress writer.old) out.old (W.progress writer.new) out.new (entry_line entry) }
    ensures ready { IsReady (W.progress writer.new) out.new }
{
    put_number(writer, out, entry.seat);
    put(writer, out, b" ");
    put_number(writer, out, entry.arc);
    put(writer, out, b" ");
    put_number(writer, out, verdict_number(entry.verdict));
    end_line(writer, out);
}

/// Writes a line for each entry.
fn put_entries<W: OutBytes>(writer: &mut W, out: &mut Out, entries: &[Entry])
    requires { IsReady (W.progress writer.old) out.old }
    ensures puts { Puts (W.progress writer.old) out.old (W.progress writer.new) out.new (flat_map entry_line entries.now) }
    ensures ready { IsReady (W.progress writer.new) out.new }
{
    for i in 0..entries.len() {
        put_entry(writer, out, entries[i]);
    }
}

/// Writes the text of a journal of the graph, with the budget that it was made under. Refused where a write failed: a
/// beginning of the text was written then. It takes no memory.
pub fn write_journal<W: OutBytes>(
    writer: &mut W,
    graph: &Graph,
    budget: Option<u64>,
    entries: &[Entry],
) -> Result<(), Fault>
    requires countable { (W.progress writer.old).failures < 2 ^ 63 }
    requires seated { AreSeatedBelow (length graph.now.pairs) entries.now }
    ensures text { Writes (W.progress writer.old) (W.progress writer.new) (journal_text graph.now.blocks (length graph.now.pairs) budget entries.now) result }
    ensures refused { IfErr result (λ fault. fault ≡ write_failed) }

    // Reading the text gives the journal back.
    ensures spelled { SpellsJournal graph.now (journal_text graph.now.blocks (length graph.now.pairs) budget entries.now) (budget_and_entries budget entries.now) }
{
    graph.law();
    let mut out = Out::new();
    put_head(writer, &mut out, graph, budget, entries.len());
    put_entries(writer, &mut out, entries);
    finish(writer, &mut out)
}

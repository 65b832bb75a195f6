//! The text of a journal: a head of five lines, and a line for each entry.
//! Each line is the one that is `JournalLine`, checked by a function of `head` or `journal_lines`; the first fault ends the reading.
//! Room is made entry by entry, and never for the count that a text names.
ghost use Rattle.std.specs.Prelude.{◌≡◌, ◌↔◌, ℕ, List, Ok, Err, ◌<◌, ◌^◌, length, IfOk, IfErr};
ghost use Rattle.std.specs.Io.KnownBytes.{Keeps};
ghost use Rattle.faults.specs.declared.fault.Fault.{Fault as AnyFault};
ghost use Rattle.faults.specs.declared.source.Source.TheVariants as sources;
ghost use Rattle.minelib_reader.specs.Answer.{Gives, Answers, AnswersBy, FailsBy, FailsAt};
ghost use Rattle.minelib_reader.specs.Text.{row, fields_of};
ghost use Rattle.pit_model.specs.Graph.{Graph as AnyGraph};
ghost use Rattle.pit_model.specs.JournalText.{AreSeatedBelow};
ghost use Rattle.report.specs.JournalLines.{budget_and_entries, journal_end_at, entry_step, journal_of, journal_state, journal_step_at, BudgetAndEntries};
ghost use Rattle.report.specs.JournalFault.{IsFirstJournalFault};
ghost use Rattle.report.specs.JournalGrammar.{JournalReadsBack, SpellsJournal};

use crate::due::JournalLine;
use crate::head::{check_count, check_title};
use crate::journal_lines::{in_journal, read_budget, read_count, read_entry};
use crate::journal_text::JournalText;
use faults::{Fault, Refusal, Source};
use mine_graph::Graph;
use minelib_reader::{InBytes, Row, TextRows, read_all};
use pit_model::Entry;
use std::alloc::Global;

/// The line of an entry, while some are left.
fn take_entry(
    graph: &Graph,
    budget: Option<u64>,
    left: u64,
    r: Row,
    entries: &mut Vec<Entry>,
) -> Result<JournalLine, Fault>
    ensures ok { IfOk result (λ next. entry_step graph.now budget left entries.old.items (row r.entry.line (fields_of r.entry.text.now)) ≡ Ok (journal_state next entries.new.items)) }
    ensures err { IfErr result (λ e. FailsBy e.refusal e (entry_step graph.now budget left entries.old.items (row r.entry.line (fields_of r.entry.text.now)))) }
{
    if left == 0 {
        return Err(in_journal(Refusal::AfterEnd, r.line));
    }
    let entry = read_entry(graph.arcs(), r)?;
    entries.push(entry)?;
    Ok(JournalLine::Entries {
        budget,
        left: left - 1,
    })
}

/// The line that is due; it answers which one is due next.
#[tactic(auto, unfolding(crate::specs::JournalLines::journal_step_at))]
fn take_line(
    graph: &Graph,
    due: JournalLine,
    r: Row,
    entries: &mut Vec<Entry>,
) -> Result<JournalLine, Fault>
    ensures ok { IfOk result (λ next. journal_step_at graph.now due entries.old.items (row r.entry.line (fields_of r.entry.text.now)) ≡ Ok (journal_state next entries.new.items)) }
    ensures err { IfErr result (λ e. FailsBy e.refusal e (journal_step_at graph.now due entries.old.items (row r.entry.line (fields_of r.entry.text.now)))) }
{
    match due {
        JournalLine::Title => {
            check_title(Source::Journal, b"PITJOURNAL", r)?;
            Ok(JournalLine::Blocks)
        }
        JournalLine::Blocks => {
            check_count(Source::Journal, b"BLOCKS:", graph.n(), r)?;
            Ok(JournalLine::Arcs)
        }
        JournalLine::Arcs => {
            check_count(Source::Journal, b"ARCS:", graph.arcs(), r)?;
            Ok(JournalLine::Budget)
        }
        JournalLine::Budget => {
            let budget = read_budget(r)?;
            Ok(JournalLine::Count { budget })
        }
        JournalLine::Count { budget } => {
            let left = read_count(r)?;
            Ok(JournalLine::Entries { budget, left })
        }
        JournalLine::Entries { budget, left } => take_entry(graph, budget, left, r, entries),
    }
}

/// The budget, if nothing is due any more, in a text of this many lines.
#[tactic(auto, unfolding(crate::specs::JournalLines::journal_end_at))]
fn check_end(due: JournalLine, count: u64) -> Result<Option<u64>, Fault>
    requires { count < 2 ^ 63 }
    ensures { (entries : _) → Gives (λ budget. budget_and_entries budget entries) result (journal_end_at count due entries) }
{
    match due {
        JournalLine::Entries { budget, left: 0 } => Ok(budget),
        _ => Err(in_journal(Refusal::EndsEarly, count + 1)),
    }
}

/// All lines, one after the other.
fn parse_lines(alloc: Global, text: &[u8], graph: &Graph) -> Result<JournalText, Fault>
    ensures exact { Gives (λ j. budget_and_entries j.budget j.entries.items) result (journal_of graph.now text.now) }
{
    let mut rows = TextRows::new(text);
    let mut entries = Vec::new(alloc);
    let mut due = JournalLine::Title;
    while let Some(row) = rows.next_row() {
        due = take_line(graph, due, row, &mut entries)?;
    }
    let budget = check_end(due, rows.number)?;
    Ok(JournalText { budget, entries })
}

/// Each text spells one journal of a graph or has one first fault, and not both: what is read of it says which.
pub fn journal_law()
    ensures spelled { (graph : AnyGraph) (text : List ℕ) (j : BudgetAndEntries) → (journal_of graph text ≡ Ok j) ↔ SpellsJournal graph text j }
    ensures faulty { (graph : AnyGraph) (text : List ℕ) (fault : AnyFault) → (journal_of graph text ≡ Err fault) ↔ IsFirstJournalFault graph text fault }
{}

/// The text that `write_journal` writes is read as that journal, and as no other.
pub fn journal_reads_back()
    ensures { JournalReadsBack }
{}

/// The budget and entries that a text spells for the graph, else the first fault of the text, or `NoMemory`.
pub fn parse_journal(alloc: Global, text: &[u8], graph: &Graph) -> Result<JournalText, Fault>
    // Which journal or which fault it is.
    ensures exact { Gives (λ j. budget_and_entries j.budget j.entries.items) result (journal_of graph.now text.now) }
    // What is read is spelled so, and what is spelled so is read, unless memory runs out.
    ensures spelled { IfOk result (λ j. SpellsJournal graph.now text.now (budget_and_entries j.budget j.entries.items)) }
    ensures read { (j : BudgetAndEntries) → SpellsJournal graph.now text.now j → Gives (λ j. budget_and_entries j.budget j.entries.items) result (Ok j) }
    ensures first_fault { IfErr result (λ e. FailsAt e.refusal e (IsFirstJournalFault graph.now text.now)) }
    ensures seated { IfOk result (λ j. AreSeatedBelow (length graph.now.pairs) j.entries.items) }
{
    parse_lines(alloc, text, graph)
}

/// The budget and the entries that all spells which the reader has left, else the first fault of that text: its counts are
/// to be those of the graph. Refused by `ReadFailed` exactly where the reader counted a failure in this call, and by
/// `NoMemory`.
pub fn read_journal<R: InBytes>(
    alloc: Global,
    reader: &mut R,
    graph: &Graph,
) -> Result<JournalText, Fault>
    requires countable { (R.progress reader.old).failures < 2 ^ 63 }
    ensures answers { AnswersBy (λ j. budget_and_entries j.budget j.entries.items) (SpellsJournal graph.now) (IsFirstJournalFault graph.now) sources.Journal (R.progress reader.old) (R.progress reader.new) (R.IsAtEnd reader.new) result }
    ensures seated { IfOk result (λ j. AreSeatedBelow (length graph.now.pairs) j.entries.items) }
    ensures known { Keeps (R.known_text reader.old) (R.known_text reader.new) }

    // The same by what is read of a text.
    ensures exact { Answers (λ j. budget_and_entries j.budget j.entries.items) (journal_of graph.now) sources.Journal (R.progress reader.old) (R.progress reader.new) (R.IsAtEnd reader.new) result }
{
    let text = read_all(alloc, reader, Source::Journal)?;
    parse_journal(alloc, &text, graph)
}

//! `replay`: from the bytes of a mine's files and of a journal to the bytes of the pit, or of a report on the journal.
ghost use Rattle.std.specs.Prelude.{◌≡◌, ◌<◌, ◌^◌, ℕ, Bool, IfOk, IfErr};
ghost use Rattle.faults.specs.Refused.{write_failed};
ghost use Rattle.mine_graph.specs.FixedBlocks.{IsFixedOf};
ghost use Rattle.pit_model.specs.declared.direction.Direction.{Direction as AnyDirection};
ghost use Rattle.pit_model.specs.Pit.{ListsPit};
ghost use Rattle.pit_model.specs.Fixed.{fixed_of, graph_of_mine};
ghost use Rattle.pit_model.specs.Mine.{members};
ghost use Rattle.std.specs.Io.KnownBytes.{Keeps};
ghost use Rattle.commands.specs.Kept.{KeepsTexts};
ghost use Rattle.commands.specs.Replay.{IsReplayed, IsReplayedOn, ReportsEnd, ReportsReplay, FailsToReport, RefusesJournal, RefusesJournalOn, RefusesReplay, ShowsEnd};
ghost use Rattle.commands.specs.Solve.{files_of, mine_files, given_by, fixed_instance_of, MayRead, WritesPit};
ghost use Rattle.commands.specs.Ended.{Ended};
ghost use Rattle.commands.specs.Over.{EndsReplayCall};
ghost use Rattle.commands.specs.Place.{file_state};

use crate::ending::report_fault;
use crate::inputs::InputFiles;
use crate::mine::{FixedMine, open_mine, read_mine};
use crate::options::ReplayOptions;
use crate::place::Readable;
use crate::readers::readers_of;
use crate::status::Status;
use faults::Fault;
use merging::{ReducedMine, Replayed, join_pit, replay};
use mine_graph::Instance;
use minelib_reader::{FileReader, InBytes, OutBytes};
use report::{read_journal, write_difference, write_open, write_pit};
use std::alloc::Global;

/// Reads the journal of an instance and replays it.
#[tactic(auto, using(crate::proofs::Keeping::still_kept, crate::proofs::Keeping::still_kept_if_any))]
fn replay_on<J: InBytes>(alloc: Global, rest: &Instance, journal: &mut J) -> Result<Replayed, Fault>
    requires countable { (J.progress journal.old).failures < 2 ^ 63 }
    ensures replayed { IfOk result (IsReplayedOn rest.now (given_by J.InBytes journal.old journal.new)) }
    ensures refused { IfErr result (λ e. RefusesJournalOn e.refusal e rest.now (given_by J.InBytes journal.old journal.new)) }
    ensures kept { Keeps (J.known_text journal.old) (J.known_text journal.new) }
{
    rest.law();
    let said = read_journal(alloc, journal, rest.graph())?;
    replay(alloc, rest, said.budget, &said.entries)
}

/// Reads the journal of the reduced mine and replays it; numbers a pit by the whole mine.
#[tactic(auto, using(crate::proofs::Keeping::still_kept, crate::proofs::Keeping::still_kept_if_any))]
fn replay_of<J: InBytes>(
    alloc: Global,
    fixed_mine: &FixedMine,
    journal: &mut J,
) -> Result<Replayed, Fault>
    requires countable { (J.progress journal.old).failures < 2 ^ 63 }
    requires fixed { IsFixedOf (graph_of_mine fixed_mine.now.mine) fixed_mine.now.fixed }
    ensures replayed { IfOk result (IsReplayed (fixed_instance_of fixed_mine.now) (given_by J.InBytes journal.old journal.new)) }
    ensures refused { IfErr result (λ e. RefusesJournal e.refusal e (fixed_instance_of fixed_mine.now) (given_by J.InBytes journal.old journal.new)) }
    ensures kept { Keeps (J.known_text journal.old) (J.known_text journal.new) }
{
    if fixed_mine.fixed.is_empty() {
        return replay_on(alloc, &fixed_mine.mine, journal);
    }
    let rest = ReducedMine::of(alloc, &fixed_mine.mine, &fixed_mine.fixed)?;
    match replay_on(alloc, &rest.mine, journal)? {
        Replayed::Pit(found) => {
            let n = fixed_mine.mine.graph().n();
            let pit = join_pit(alloc, n, &fixed_mine.fixed, &rest.blocks, &found)?;
            Ok(Replayed::Pit(pit))
        }
        end => Ok(end),
    }
}

/// Writes the text of a pit, minimal or not.
fn put_pit<W: OutBytes>(out: &mut W, fixed_mine: &FixedMine, pit: &[u32]) -> Result<(), Fault>
    requires countable { (W.progress out.old).failures < 2 ^ 63 }
    requires listed { (set : ℕ → Bool) × (pit.now ≡ members fixed_mine.now.mine.blocks set) }
    ensures written { (direction : AnyDirection) → ListsPit direction fixed_mine.now.mine (fixed_of fixed_mine.now.fixed.lists) pit.now → WritesPit direction (fixed_instance_of fixed_mine.now) (W.progress out.old) (W.progress out.new) result }
    ensures refused { IfErr result (λ e. e ≡ write_failed) }
{
    fixed_mine.mine.law();
    let worth = fixed_mine.mine.worth(pit);
    write_pit(out, fixed_mine.mine.graph().n(), pit, worth)
}

/// Writes the result of a replay. A used-up budget is a fault, with nothing written.
fn put_end<W: OutBytes>(
    out: &mut W,
    fixed_mine: &FixedMine,
    end: &Replayed,
) -> Result<Status, Fault>
    requires countable { (W.progress out.old).failures < 2 ^ 63 }
    requires shown { ShowsEnd (fixed_instance_of fixed_mine.now) end.now }
    ensures reported { IfOk result (ReportsEnd (fixed_instance_of fixed_mine.now) end.now (W.progress out.old) (W.progress out.new)) }
    ensures refused { IfErr result (FailsToReport (fixed_instance_of fixed_mine.now) end.now (W.progress out.old) (W.progress out.new)) }
{
    match end {
        Replayed::Pit(pit) => {
            put_pit(out, fixed_mine, pit)?;
            Ok(Status::Done)
        }
        Replayed::Differs(entry) => {
            write_difference(out, *entry)?;
            Ok(Status::No)
        }
        Replayed::Open(mergers) => {
            write_open(out, *mergers)?;
            Ok(Status::No)
        }
        Replayed::Exhausted(budget) => Err(Fault::exhausted(*budget)),
    }
}

/// Reads a model, a precedence file, the file of fixed blocks if there is one, and a journal of the reduced mine, in this order.
/// Replays the journal on one thread and writes the result.
///
/// If each verdict is lawful and no merger arc is left, it writes the text of the pit: the text that the journaled run wrote.
/// Otherwise the status is `No`, and it writes the first entry whose verdict is not lawful, or the number of mergers after which a
/// merger arc is left that the budget allows.
///
/// # Errors
///
/// The first fault of the files (3 to 14, 17, 21), lack of memory (1), a failed read (2), or a used-up budget of the journal with a
/// merger arc left (20): nothing is written. A failed write (18): the beginning of the answer is written.
#[tactic(auto, using(crate::proofs::Keeping::still_kept, crate::proofs::Keeping::still_kept_if_any))]
pub fn run_replay<M: InBytes, P: InBytes, F: InBytes, J: InBytes, W: OutBytes>(
    alloc: Global,
    model: &mut M,
    prec: &mut P,
    fixed: &mut Option<F>,
    journal: &mut J,
    out: &mut W,
) -> Result<Status, Fault>
    requires read { MayRead M.progress P.progress F.progress (mine_files model.old prec.old fixed.old) }
    requires journal_countable { (J.progress journal.old).failures < 2 ^ 63 }
    requires out_countable { (W.progress out.old).failures < 2 ^ 63 }
    ensures reported { IfOk result (ReportsReplay
        (files_of M.InBytes P.InBytes F.InBytes (mine_files model.old prec.old fixed.old) (mine_files model.new prec.new fixed.new))
        (given_by J.InBytes journal.old journal.new)
        (W.progress out.old) (W.progress out.new)) }
    ensures refused { IfErr result (λ e. RefusesReplay e.refusal e
        (files_of M.InBytes P.InBytes F.InBytes (mine_files model.old prec.old fixed.old) (mine_files model.new prec.new fixed.new))
        (given_by J.InBytes journal.old journal.new)
        (W.progress out.old) (W.progress out.new)) }
    ensures files_kept { KeepsTexts M.known_text P.known_text F.known_text (mine_files model.old prec.old fixed.old) (mine_files model.new prec.new fixed.new) }
    ensures journal_kept { Keeps (J.known_text journal.old) (J.known_text journal.new) }
{
    let fixed_mine = read_mine(alloc, model, prec, fixed)?;
    fixed_mine.mine.law();
    let end = replay_of(alloc, &fixed_mine, journal)?;
    put_end(out, &fixed_mine, &end)
}

/// Opens the files of `replay` and runs it over their readers.
fn replay_files<F: InputFiles, W: OutBytes>(
    alloc: Global,
    files: &mut F,
    options: &ReplayOptions<'_>,
    out: &mut W,
) -> Result<Status, Fault>
    requires countable { (W.progress out.old).failures < 2 ^ 63 }
    ensures { EndsReplayCall ⟦<F as Readable>⟧.place options.now (file_state files.old (W.progress out.old)) (file_state files.new (W.progress out.new)) result }
{
    let mine = open_mine(files, &options.mine)?;
    let journal = files.open_journal(options.journal)?;
    let mut mine = readers_of(mine, &files.counters());
    let mut journal = FileReader::new(journal);
    run_replay(
        alloc,
        &mut mine.model,
        &mut mine.prec,
        &mut mine.fixed,
        &mut journal,
        out,
    )
}

/// Runs `replay` over a file system: opens the files of a mine and then the journal, and writes the result. Reports a fault on
/// `err` and returns the exit status.
pub fn replay_call<F: InputFiles, W: OutBytes, E: OutBytes>(
    alloc: Global,
    files: &mut F,
    options: &ReplayOptions<'_>,
    out: &mut W,
    err: &mut E,
) -> u8
    requires out_countable { (W.progress out.old).failures < 2 ^ 63 }
    requires err_countable { (E.progress err.old).failures < 2 ^ 63 }
    ensures { Ended result (E.progress err.old) (E.progress err.new) (EndsReplayCall ⟦<F as Readable>⟧.place options.now
        (file_state files.old (W.progress out.old)) (file_state files.new (W.progress out.new))) }
{
    let outcome = replay_files(alloc, files, options, out);
    report_fault(err, &outcome)
}

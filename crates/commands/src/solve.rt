//! `solve`: from the bytes of a model, a precedence file and a file of fixed blocks to the bytes of the pit, of the certificate
//! that proves it optimal, and of the journal of the workers' decisions.
ghost use Rattle.std.specs.Prelude.{◌≡◌, ◌<◌, ◌^◌, Ok, IfOk, IfErr};
ghost use Rattle.optimality.specs.Certificate.{IsFixedCertificateOf};
ghost use Rattle.mine_graph.specs.FixedBlocks.{IsFixedOf};
ghost use Rattle.pit_model.specs.declared.direction.Direction.TheVariants.{Least};
ghost use Rattle.pit_model.specs.Fixed.{fixed_of, graph_of_mine};
ghost use Rattle.pit_model.specs.Replay.{IsComplete};
ghost use Rattle.commands.specs.Certified.{IsCertified, PutsCertificate};
ghost use Rattle.commands.specs.Chosen.{chosen, progress_of, IsCountable, OfWriterIfAny, Stays};
ghost use Rattle.commands.specs.Journaled.{EndOf, IsJournaled, MayJournal, MayPutEntries, PutsEntries, PutsJournal, RefusesEntries};
ghost use Rattle.commands.specs.Run.{settings_of, EndsJournaled, HoldsOfSearched, MayWrite, RefusesOutcome, RefusesPit, RefusesRun};
ghost use Rattle.commands.specs.Kept.{KeepsTexts};
ghost use Rattle.commands.specs.Solve.{files_of, mine_files, fixed_instance_of, IsDone, MayRead};
ghost use Rattle.solver.specs.Modes.{EndsWithin};
ghost use Rattle.pit_search.specs.Searched.{IsFound, OfSearched};
ghost use Rattle.solver.specs.Searched.{EndsFixed};
ghost use Rattle.commands.specs.Ended.{Ended};
ghost use Rattle.commands.specs.Place.{file_state};
ghost use Rattle.commands.specs.Solved.{EndsSolveCall};

use crate::ending::report_fault;
use crate::make_outputs::{end_outputs, make_outputs};
use crate::mine::{FixedMine, open_mine, read_mine};
use crate::options::SolveOptions;
use crate::outputs::OutputFiles;
use crate::place::Writable;
use crate::readers::readers_of;
use crate::status::Status;
use crate::writers::{output_of, writer_of};
use certificate::{Certificate, write};
use counters::Phase;
use faults::Fault;
use merging::Outcome;
use minelib_reader::{InBytes, OutBytes};
use pit_model::Direction;
use report::{write_journal, write_pit};
use solver::{Entry, FoundPit, Mode, OpenGate, Search};
use std::alloc::{AllocGlobal, Global};
use std::sync::Wait;
use std::thread::Threads;

/// Writes a certificate of the mine to its writer, if there is one.
fn put_certificate<C: OutBytes>(
    out: &mut Option<C>,
    fixed_mine: &FixedMine,
    certificate: &Certificate,
) -> Result<(), Fault>
    requires countable { IsCountable (progress_of C.progress out.old) }
    requires fixed { IsFixedOf (graph_of_mine fixed_mine.now.mine) fixed_mine.now.fixed }
    requires shown { IsFixedCertificateOf fixed_mine.now.mine (fixed_of fixed_mine.now.fixed.lists) certificate.now }
    ensures puts { PutsCertificate (fixed_instance_of fixed_mine.now) (chosen C.progress out.old out.new) result }
    ensures stays { Stays out.old out.new }
{
    fixed_mine.mine.law();
    match out {
        None => Ok(()),
        Some(writer) => write(
            writer,
            fixed_mine.mine.graph(),
            &fixed_mine.fixed,
            certificate,
        ),
    }
}

/// Writes the entries of a journal of the reduced mine. If blocks are fixed, its graph is made again.
fn put_entries<J: OutBytes>(
    writer: &mut J,
    fixed_mine: &FixedMine,
    budget: Option<u64>,
    entries: &[Entry],
) -> Result<(), Fault>
    requires countable { (J.progress writer.old).failures < 2 ^ 63 }
    requires fixed { IsFixedOf (graph_of_mine fixed_mine.now.mine) fixed_mine.now.fixed }
    requires may { MayPutEntries (fixed_instance_of fixed_mine.now) entries.now }
    ensures written { IfOk result (λ x. PutsEntries (fixed_instance_of fixed_mine.now) budget entries.now (J.progress writer.old) (J.progress writer.new) (Ok x)) }
    ensures refused { IfErr result (λ e. RefusesEntries (fixed_instance_of fixed_mine.now) budget entries.now e.refusal e (J.progress writer.old) (J.progress writer.new)) }
{
    fixed_mine.mine.law();
    if fixed_mine.fixed.is_empty() {
        return write_journal(writer, fixed_mine.mine.graph(), budget, entries);
    }
    let rest = fixed_mine.fixed.rest(fixed_mine.mine.graph())?;
    write_journal(writer, &rest.graph, budget, entries)
}

/// Writes the journal of a solve to its writer, if there is one.
fn put_journal<J: OutBytes>(
    out: &mut Option<J>,
    fixed_mine: &FixedMine,
    mode: &Mode,
    solved: &(Outcome, Vec<Entry>),
) -> Result<(), Fault>
    requires countable { IsCountable (progress_of J.progress out.old) }
    requires may { MayJournal mode.now (progress_of J.progress out.old) }
    requires fixed { IsFixedOf (graph_of_mine fixed_mine.now.mine) fixed_mine.now.fixed }
    requires ended { EndsFixed mode.now fixed_mine.now.mine (fixed_of fixed_mine.now.fixed.lists) solved.now.0 solved.now.1.items }
    ensures put { IfOk result (λ x. PutsJournal (EndOf solved.now.0) mode.now (fixed_instance_of fixed_mine.now) (chosen J.progress out.old out.new) (Ok x)) }
    ensures refused { IfErr result (λ e. RefusesOutcome mode.now (fixed_instance_of fixed_mine.now) e.refusal e (chosen J.progress out.old out.new)) }
    ensures stays { Stays out.old out.new }
{
    match out {
        None => Ok(()),
        Some(writer) => match *mode {
            Mode::Shared { budget, .. } => put_entries(writer, fixed_mine, budget, &solved.1),
            Mode::Single { .. } | Mode::Parts => unreachable!(),
        },
    }
}

/// Solves a mine and writes the journal to its writer, if there is one, also if the budget is used up.
fn solve_journaled<J: OutBytes, R: Threads + Wait + Sync>(
    search: &Search<'_, R, OpenGate>,
    fixed_mine: &FixedMine,
    journal: &mut Option<J>,
) -> Result<Outcome, Fault>
    requires countable { IsCountable (progress_of J.progress journal.old) }
    requires may { MayJournal search.now.mode (progress_of J.progress journal.old) }
    requires fixed { IsFixedOf (graph_of_mine fixed_mine.now.mine) fixed_mine.now.fixed }
    ensures ended { IfOk result (EndsJournaled search.now.mode (fixed_instance_of fixed_mine.now) (chosen J.progress journal.old journal.new)) }
    ensures refused { IfErr result (λ e. RefusesOutcome search.now.mode (fixed_instance_of fixed_mine.now) e.refusal e (chosen J.progress journal.old journal.new)) }
    ensures stays { Stays journal.old journal.new }
{
    let solved = search.solve_with_journal(&fixed_mine.mine, &fixed_mine.fixed)?;
    put_journal(journal, fixed_mine, &search.mode, &solved)?;
    Ok(solved.0)
}

/// Finds the minimal pit of a mine. Writes the journal and then the certificate to their writers, if there are any.
fn recorded_pit<J: OutBytes, C: OutBytes, R: Threads + Wait + Sync>(
    search: &Search<'_, R, OpenGate>,
    fixed_mine: &FixedMine,
    journal: &mut Option<J>,
    certificate: &mut Option<C>,
) -> Result<FoundPit, Fault>
    requires journal_countable { IsCountable (progress_of J.progress journal.old) }
    requires may { MayJournal search.now.mode (progress_of J.progress journal.old) }
    requires countable { IsCountable (progress_of C.progress certificate.old) }
    requires fixed { IsFixedOf (graph_of_mine fixed_mine.now.mine) fixed_mine.now.fixed }
    ensures found { IfOk result (IsFound Least fixed_mine.now.mine (fixed_of fixed_mine.now.fixed.lists)) }
    ensures journaled { IfOk result (λ _. PutsJournal IsComplete search.now.mode (fixed_instance_of fixed_mine.now) (chosen J.progress journal.old journal.new) (Ok tt)) }
    ensures certified { IfOk result (λ _. PutsCertificate (fixed_instance_of fixed_mine.now) (chosen C.progress certificate.old certificate.new) (Ok tt)) }
    ensures within { IfOk result (λ _. OfSearched Least fixed_mine.now.mine (fixed_of fixed_mine.now.fixed.lists) (EndsWithin search.now.mode)) }
    ensures refused { IfErr result (λ e. RefusesPit search.now.mode Least (fixed_instance_of fixed_mine.now) e.refusal e (chosen J.progress journal.old journal.new) (chosen C.progress certificate.old certificate.new)) }
    ensures journal_stays { Stays journal.old journal.new }
    ensures certificate_stays { Stays certificate.old certificate.new }
{
    match solve_journaled(search, fixed_mine, journal)? {
        Outcome::Exhausted(count) => Err(Fault::exhausted(count)),
        Outcome::Pit(shown) => {
            put_certificate(certificate, fixed_mine, &shown)?;
            fixed_mine.mine.law();
            let worth = fixed_mine.mine.worth(&shown.pit);
            Ok(FoundPit {
                blocks: shown.pit,
                worth,
            })
        }
    }
}

/// Finds the pit of a mine in a direction. If neither a journal nor a certificate is wanted, the mine's graph is released while the
/// reduced mine is solved; the greatest pit has neither.
fn solve_mine<J: OutBytes, C: OutBytes, R: Threads + Wait + Sync>(
    search: &Search<'_, R, OpenGate>,
    fixed_mine: FixedMine,
    journal: &mut Option<J>,
    certificate: &mut Option<C>,
) -> Result<FoundPit, Fault>
    requires may { MayWrite J.progress C.progress (settings_of search.now.mode search.now.direction) journal.old certificate.old }
    requires fixed { IsFixedOf (graph_of_mine fixed_mine.mine) fixed_mine.fixed }
    ensures found { IfOk result (IsFound search.now.direction fixed_mine.mine (fixed_of fixed_mine.fixed.lists)) }
    ensures journaled { IfOk result (λ _. PutsJournal IsComplete search.now.mode (fixed_instance_of fixed_mine) (chosen J.progress journal.old journal.new) (Ok tt)) }
    ensures certified { IfOk result (λ _. PutsCertificate (fixed_instance_of fixed_mine) (chosen C.progress certificate.old certificate.new) (Ok tt)) }
    ensures within { IfOk result (λ _. OfSearched search.now.direction fixed_mine.mine (fixed_of fixed_mine.fixed.lists) (EndsWithin search.now.mode)) }
    ensures refused { IfErr result (λ e. RefusesPit search.now.mode search.now.direction (fixed_instance_of fixed_mine) e.refusal e (chosen J.progress journal.old journal.new) (chosen C.progress certificate.old certificate.new)) }
    ensures journal_stays { Stays journal.old journal.new }
    ensures certificate_stays { Stays certificate.old certificate.new }
{
    if journal.is_none() && certificate.is_none() {
        let FixedMine { mine, fixed } = fixed_mine;
        return search.pit(mine, &fixed);
    }
    recorded_pit(search, &fixed_mine, journal, certificate)
}

/// Reads a model, a precedence file and the file of fixed blocks if there is one, in this order, and writes the text of the pit,
/// the same in every mode. Of the closed sets that contain each forced block and no barred one, the pit is the smallest of maximal
/// value, or the largest if `pit` is `Greatest`.
///
/// If there is a writer for the journal, which only mode shared may have, the journal of the workers' decisions is written first:
/// `run_replay` ends at the same pit. If there is one for the certificate, the certificate that proves the pit optimal is written
/// next: `run_check` answers yes to it. The greatest pit has neither.
///
/// # Errors
///
/// The first fault of the files (3 to 14, 21), lack of memory (1), a failed read (2) or a worker that could not be started (22):
/// nothing is written. A used-up budget (20): the whole journal is written, and nothing else. A failed write (18): the beginning of
/// these texts is written, in their order.
#[tactic(auto, using(crate::proofs::Keeping::still_kept, crate::proofs::Keeping::still_kept_if_any))]
pub fn run_solve<
    R: Threads + Wait + Sync,
    M: InBytes,
    P: InBytes,
    F: InBytes,
    J: OutBytes,
    C: OutBytes,
    W: OutBytes,
>(
    rt: &R,
    alloc: Global,
    model: &mut M,
    prec: &mut P,
    fixed: &mut Option<F>,
    journal: &mut Option<J>,
    certificate: &mut Option<C>,
    out: &mut W,
    mode: Mode,
    pit: Direction,
) -> Result<Status, Fault>
    requires read { MayRead M.progress P.progress F.progress (mine_files model.old prec.old fixed.old) }
    requires write { MayWrite J.progress C.progress (settings_of mode pit) journal.old certificate.old }
    requires out_countable { (W.progress out.old).failures < 2 ^ 63 }
    ensures done { IfOk result (IsDone pit
        (files_of M.InBytes P.InBytes F.InBytes (mine_files model.old prec.old fixed.old) (mine_files model.new prec.new fixed.new))
        (W.progress out.old) (W.progress out.new)) }
    ensures journaled { IfOk result (λ _. OfWriterIfAny (chosen J.progress journal.old journal.new) (IsJournaled IsComplete mode
        (files_of M.InBytes P.InBytes F.InBytes (mine_files model.old prec.old fixed.old) (mine_files model.new prec.new fixed.new)))) }
    ensures certified { IfOk result (λ _. OfWriterIfAny (chosen C.progress certificate.old certificate.new) (IsCertified
        (files_of M.InBytes P.InBytes F.InBytes (mine_files model.old prec.old fixed.old) (mine_files model.new prec.new fixed.new)))) }
    ensures within { IfOk result (λ _. HoldsOfSearched pit
        (files_of M.InBytes P.InBytes F.InBytes (mine_files model.old prec.old fixed.old) (mine_files model.new prec.new fixed.new))
        (EndsWithin mode)) }
    ensures refused { IfErr result (λ e. RefusesRun (settings_of mode pit) e.refusal e
        (files_of M.InBytes P.InBytes F.InBytes (mine_files model.old prec.old fixed.old) (mine_files model.new prec.new fixed.new))
        (chosen J.progress journal.old journal.new) (chosen C.progress certificate.old certificate.new)
        (W.progress out.old) (W.progress out.new)) }
    ensures files_kept { KeepsTexts M.known_text P.known_text F.known_text (mine_files model.old prec.old fixed.old) (mine_files model.new prec.new fixed.new) }
    ensures journal_stays { Stays journal.old journal.new }
    ensures certificate_stays { Stays certificate.old certificate.new }
{
    let fixed_mine = read_mine(alloc, model, prec, fixed)?;
    let n = fixed_mine.mine.graph().n();
    let search = Search {
        rt,
        alloc,
        mode,
        direction: pit,
        gate: &OpenGate,
    };
    let found = solve_mine(&search, fixed_mine, journal, certificate)?;
    model.counters().enter(Phase::Writing);
    write_pit(out, n, &found.blocks, found.worth)?;
    Ok(Status::Done)
}

/// Runs `solve` over a file system: opens the files of a mine, creates the journal and the certificate if they are wanted, writes
/// the pit to `out`, and keeps or removes these outputs. Reports a fault on `err` and returns the exit status. `rt` starts the
/// workers.
pub fn solve_call<R: AllocGlobal + Threads + Wait + Sync, F: OutputFiles, W: OutBytes, E: OutBytes>(
    rt: &R,
    files: &mut F,
    options: &SolveOptions<'_>,
    out: &mut W,
    err: &mut E,
) -> u8
    requires out_countable { (W.progress out.old).failures < 2 ^ 63 }
    requires err_countable { (E.progress err.old).failures < 2 ^ 63 }
    ensures { Ended result (E.progress err.old) (E.progress err.new) (EndsSolveCall ⟦<F as Writable>⟧.place options.now
        (file_state files.old (W.progress out.old)) (file_state files.new (W.progress out.new))) }
{
    let mine = match open_mine(files, &options.mine) {
        Ok(mine) => mine,
        Err(fault) => return report_fault(err, &Err(fault)),
    };
    let (journal, certificate) = match make_outputs(files, options, &mine) {
        Ok(made) => made,
        Err(fault) => return report_fault(err, &Err(fault)),
    };
    let mut mine = readers_of(mine, &files.counters());
    let mut journal = writer_of(journal);
    let mut certificate = writer_of(certificate);
    let outcome = run_solve(
        rt,
        rt.alloc(),
        &mut mine.model,
        &mut mine.prec,
        &mut mine.fixed,
        &mut journal,
        &mut certificate,
        out,
        options.settings.mode,
        options.settings.pit,
    );
    let made = (output_of(journal), output_of(certificate));
    report_fault(err, &end_outputs(files, made, outcome))
}

//! `shells`: from the bytes of a block model and a precedence file to the bytes of the nested pits.
ghost use Rattle.std.specs.Prelude.{◌<◌, ◌^◌, IfOk, IfErr};
ghost use Rattle.shells.specs.ByMode.{EachEndsWithin};
ghost use Rattle.std.specs.Io.KnownBytes.{Keeps};
ghost use Rattle.commands.specs.Solve.{given_by};
ghost use Rattle.commands.specs.ShellsRun.{HoldsOfDeposit, IsShellsDone, RefusesShellsRun};
ghost use Rattle.commands.specs.Ended.{Ended};
ghost use Rattle.commands.specs.Nested.{EndsShells};
ghost use Rattle.commands.specs.Place.{file_state};

use crate::deposit::read_deposit;
use crate::ending::report_fault;
use crate::inputs::InputFiles;
use crate::options::ShellsOptions;
use crate::place::Readable;
use crate::status::Status;
use counters::Phase;
use faults::Fault;
use minelib_reader::{FileReader, InBytes, OutBytes};
use pit_model::Direction;
use report::write_shells;
use shells::{Factors, FromText, shells};
use solver::{Mode, OpenGate};
use std::alloc::{AllocGlobal, Global};
use std::sync::Wait;
use std::thread::Threads;

/// Reads a block model and then a precedence file, takes the columns of revenue and cost, and writes the text of the shells: at
/// each factor the pit in the direction `pit`, the same in every mode.
///
/// # Errors
///
/// The first fault of the files (3 to 14) or of the columns (15, 16), lack of memory (1), a failed read (2), a used-up budget at
/// some factor (20) or a worker that could not be started (22): nothing is written. A failed write (18): the beginning of the text
/// is written.
#[tactic(auto, using(crate::proofs::Keeping::still_kept, crate::proofs::Keeping::still_kept_if_any))]
pub fn run_shells<R: Threads + Wait + Sync, B: InBytes, P: InBytes, W: OutBytes>(
    rt: &R,
    alloc: Global,
    blocks: &mut B,
    prec: &mut P,
    out: &mut W,
    revenue: u32,
    cost: u32,
    factors: &Factors,
    mode: Mode,
    pit: Direction,
) -> Result<Status, Fault>
    requires blocks_countable { (B.progress blocks.old).failures < 2 ^ 63 }
    requires prec_countable { (P.progress prec.old).failures < 2 ^ 63 }
    requires out_countable { (W.progress out.old).failures < 2 ^ 63 }
    ensures done { IfOk result (IsShellsDone pit
        (given_by B.InBytes blocks.old blocks.new)
        (given_by P.InBytes prec.old prec.new)
        revenue cost factors.now (W.progress out.old) (W.progress out.new)) }
    ensures within { IfOk result (λ _. HoldsOfDeposit
        (given_by B.InBytes blocks.old blocks.new)
        (given_by P.InBytes prec.old prec.new)
        revenue cost (λ deposit. EachEndsWithin mode pit deposit factors.now)) }
    ensures refused { IfErr result (λ e. RefusesShellsRun mode pit e.refusal e
        (given_by B.InBytes blocks.old blocks.new)
        (given_by P.InBytes prec.old prec.new)
        revenue cost factors.now (W.progress out.old) (W.progress out.new)) }
    ensures blocks_kept { Keeps (B.known_text blocks.old) (B.known_text blocks.new) }
    ensures prec_kept { Keeps (P.known_text prec.old) (P.known_text prec.new) }
{
    let deposit = read_deposit(alloc, blocks, prec, revenue, cost)?;
    let list = shells(
        rt,
        alloc,
        &deposit.columns,
        &deposit.graph,
        factors,
        &mode,
        &OpenGate,
        pit,
    )?;
    blocks.counters().enter(Phase::Writing);
    write_shells(out, &list)?;
    Ok(Status::Done)
}

/// Reads the factors, then opens the files of `shells` and runs it over their readers. `rt` starts the workers.
fn shells_files<R: AllocGlobal + Threads + Wait + Sync, F: InputFiles, W: OutBytes>(
    rt: &R,
    files: &mut F,
    options: &ShellsOptions<'_>,
    out: &mut W,
) -> Result<Status, Fault>
    requires countable { (W.progress out.old).failures < 2 ^ 63 }
    ensures { EndsShells ⟦<F as Readable>⟧.place options.now (file_state files.old (W.progress out.old)) (file_state files.new (W.progress out.new)) result }
{
    let alloc = rt.alloc();
    let factors = Factors::read(alloc, options.factors)?;
    let blocks = files.open_blocks(options.blocks)?;
    let prec = files.open_prec(options.prec)?;
    let counters = files.counters();
    let mut blocks = FileReader::with_counters(blocks, counters.share());
    let mut prec = FileReader::with_counters(prec, counters);
    run_shells(
        rt,
        alloc,
        &mut blocks,
        &mut prec,
        out,
        options.revenue,
        options.cost,
        &factors,
        options.settings.mode,
        options.settings.pit,
    )
}

/// Runs `shells` over a file system: reads the factors, opens the block model and then the precedence file, and writes the shells.
/// Reports a fault on `err` and returns the exit status. `rt` starts the workers.
pub fn shells_call<R: AllocGlobal + Threads + Wait + Sync, F: InputFiles, W: OutBytes, E: OutBytes>(
    rt: &R,
    files: &mut F,
    options: &ShellsOptions<'_>,
    out: &mut W,
    err: &mut E,
) -> u8
    requires out_countable { (W.progress out.old).failures < 2 ^ 63 }
    requires err_countable { (E.progress err.old).failures < 2 ^ 63 }
    ensures { Ended result (E.progress err.old) (E.progress err.new) (EndsShells ⟦<F as Readable>⟧.place options.now
        (file_state files.old (W.progress out.old)) (file_state files.new (W.progress out.new))) }
{
    let outcome = shells_files(rt, files, options, out);
    report_fault(err, &outcome)
}

//! `check`: from the bytes of a mine's files and of a certificate to the bytes of `yes` or `no`.
ghost use Rattle.std.specs.Prelude.{◌≡◌, ◌<◌, ◌^◌, IfOk, IfErr};
ghost use Rattle.mine_graph.specs.FixedBlocks.{IsFixedOf};
ghost use Rattle.pit_model.specs.Fixed.{graph_of_mine};
ghost use Rattle.std.specs.Io.KnownBytes.{Keeps};
ghost use Rattle.commands.specs.Kept.{KeepsTexts};
ghost use Rattle.commands.specs.Check.{status_of_answer, IsAnswered, IsChecked, RefusesCertificate, RefusesCheck};
ghost use Rattle.commands.specs.Solve.{files_of, mine_files, given_by, fixed_instance_of, MayRead};
ghost use Rattle.commands.specs.Ended.{Ended};
ghost use Rattle.commands.specs.Over.{EndsCheck};
ghost use Rattle.commands.specs.Place.{file_state};

use crate::ending::report_fault;
use crate::inputs::InputFiles;
use crate::mine::{FixedMine, open_mine, read_mine};
use crate::options::CheckOptions;
use crate::place::Readable;
use crate::readers::readers_of;
use crate::status::Status;
use certificate::{check, read};
use faults::Fault;
use minelib_reader::{FileReader, InBytes, OutBytes};
use report::write_answer;
use std::alloc::Global;

/// Returns the status of an answer.
fn status_of(answer: bool) -> Status
    ensures { result ≡ status_of_answer answer }
{
    if answer { Status::Done } else { Status::No }
}

/// Reads a certificate and returns whether it proves the pit of the mine optimal.
#[tactic(auto, using(crate::proofs::Keeping::still_kept, crate::proofs::Keeping::still_kept_if_any))]
fn answer_of<C: InBytes>(
    alloc: Global,
    fixed_mine: &FixedMine,
    certificate: &mut C,
) -> Result<bool, Fault>
    requires countable { (C.progress certificate.old).failures < 2 ^ 63 }
    requires fixed { IsFixedOf (graph_of_mine fixed_mine.now.mine) fixed_mine.now.fixed }
    ensures answered { IfOk result (IsAnswered (fixed_instance_of fixed_mine.now) (given_by C.InBytes certificate.old certificate.new)) }
    ensures refused { IfErr result (λ e. RefusesCertificate e.refusal e (fixed_instance_of fixed_mine.now) (given_by C.InBytes certificate.old certificate.new)) }
    ensures kept { Keeps (C.known_text certificate.old) (C.known_text certificate.new) }
{
    fixed_mine.mine.law();
    let shown = read(
        alloc,
        certificate,
        fixed_mine.mine.graph(),
        &fixed_mine.fixed,
    )?;
    check(alloc, &fixed_mine.mine, &fixed_mine.fixed, &shown)
}

/// Reads a model, a precedence file, the file of fixed blocks if there is one, and a certificate, in this order. Writes `yes` if
/// the certificate proves its blocks to be the pit of the mine, otherwise `no`, with status `No`.
///
/// # Errors
///
/// The first fault of the files (3 to 14, 17, 21), lack of memory (1) and a failed read (2), all with nothing written; and a failed
/// write (18), with a beginning of the answer written.
#[tactic(auto, using(crate::proofs::Keeping::still_kept, crate::proofs::Keeping::still_kept_if_any))]
pub fn run_check<M: InBytes, P: InBytes, F: InBytes, C: InBytes, W: OutBytes>(
    alloc: Global,
    model: &mut M,
    prec: &mut P,
    fixed: &mut Option<F>,
    certificate: &mut C,
    out: &mut W,
) -> Result<Status, Fault>
    requires read { MayRead M.progress P.progress F.progress (mine_files model.old prec.old fixed.old) }
    requires certificate_countable { (C.progress certificate.old).failures < 2 ^ 63 }
    requires out_countable { (W.progress out.old).failures < 2 ^ 63 }
    ensures checked { IfOk result (IsChecked
        (files_of M.InBytes P.InBytes F.InBytes (mine_files model.old prec.old fixed.old) (mine_files model.new prec.new fixed.new))
        (given_by C.InBytes certificate.old certificate.new)
        (W.progress out.old) (W.progress out.new)) }
    ensures refused { IfErr result (λ e. RefusesCheck e.refusal e
        (files_of M.InBytes P.InBytes F.InBytes (mine_files model.old prec.old fixed.old) (mine_files model.new prec.new fixed.new))
        (given_by C.InBytes certificate.old certificate.new)
        (W.progress out.old) (W.progress out.new)) }
    ensures files_kept { KeepsTexts M.known_text P.known_text F.known_text (mine_files model.old prec.old fixed.old) (mine_files model.new prec.new fixed.new) }
    ensures certificate_kept { Keeps (C.known_text certificate.old) (C.known_text certificate.new) }
{
    let fixed_mine = read_mine(alloc, model, prec, fixed)?;
    fixed_mine.mine.law();
    let answer = answer_of(alloc, &fixed_mine, certificate)?;
    write_answer(out, answer)?;
    Ok(status_of(answer))
}

/// Opens the files of `check` and runs it over their readers.
fn check_files<F: InputFiles, W: OutBytes>(
    alloc: Global,
    files: &mut F,
    options: &CheckOptions<'_>,
    out: &mut W,
) -> Result<Status, Fault>
    requires countable { (W.progress out.old).failures < 2 ^ 63 }
    ensures { EndsCheck ⟦<F as Readable>⟧.place options.now (file_state files.old (W.progress out.old)) (file_state files.new (W.progress out.new)) result }
{
    let mine = open_mine(files, &options.mine)?;
    let certificate = files.open_certificate(options.certificate)?;
    let mut mine = readers_of(mine, &files.counters());
    let mut certificate = FileReader::new(certificate);
    run_check(
        alloc,
        &mut mine.model,
        &mut mine.prec,
        &mut mine.fixed,
        &mut certificate,
        out,
    )
}

/// Runs `check` over a file system: opens the files of a mine and then the certificate, and writes the answer. Reports a fault on
/// `err` and returns the exit status.
pub fn check_call<F: InputFiles, W: OutBytes, E: OutBytes>(
    alloc: Global,
    files: &mut F,
    options: &CheckOptions<'_>,
    out: &mut W,
    err: &mut E,
) -> u8
    requires out_countable { (W.progress out.old).failures < 2 ^ 63 }
    requires err_countable { (E.progress err.old).failures < 2 ^ 63 }
    ensures { Ended result (E.progress err.old) (E.progress err.new) (EndsCheck ⟦<F as Readable>⟧.place options.now
        (file_state files.old (W.progress out.old)) (file_state files.new (W.progress out.new))) }
{
    let outcome = check_files(alloc, files, options, out);
    report_fault(err, &outcome)
}

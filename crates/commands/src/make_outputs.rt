//! Creates the outputs next to standard output, and keeps or removes each at the end.
ghost use Rattle.std.specs.Prelude.{◌≡◌, ◌&&◌, ◌||◌, IfOk, IfErr, is_some, is_ok, option_copied};
ghost use Rattle.faults.specs.declared.source.Source.TheVariants as sources;
ghost use Rattle.commands.specs.Faults.{IsUnmade};
ghost use Rattle.commands.specs.Opened.{known_if_any};
ghost use Rattle.commands.specs.Made.{EndsIfAny, EndsOutputs, MakesIfAny, MakesOutputs, SparesIfAny, SparesOutputs, behind_outputs, certificate_toward, finished, output_contents, is_exhausted as ended_at_budget, wanted_journal, output as output_of, wanted_by};

use crate::inputs::MineStreams;
use crate::options::{SolveOptions, SolveSettings};
use crate::outputs::OutputFiles;
use crate::status::Status;
use faults::{Fault, Refusal};
use pit_model::Direction;
use solver::Mode;
use std::io::Write;

/// The journal and the certificate of `solve`, where they are wanted.
pub(crate) type MadeOutputs<F> = (
    Option<<F as OutputFiles>::JournalOut>,
    Option<<F as OutputFiles>::CertificateOut>,
);

/// Returns the name of the journal if one may be written: only mode shared has one, and only for the least pit.
fn journal_wanted<'a>(settings: SolveSettings, name: Option<&'a str>) -> Option<&'a str>
    ensures { option_copied result ≡ wanted_journal settings (option_copied name.entry) }
{
    match settings.pit {
        Direction::Greatest => None,
        Direction::Least => match settings.mode {
            Mode::Shared { .. } => name,
            Mode::Single { .. } | Mode::Parts => None,
        },
    }
}

/// Returns the name of the certificate if one may be written: only the least pit has one.
fn certificate_wanted<'a>(pit: Direction, name: Option<&'a str>) -> Option<&'a str>
    ensures { option_copied result ≡ certificate_toward pit (option_copied name.entry) }
{
    match pit {
        Direction::Greatest => None,
        Direction::Least => name,
    }
}

/// Creates the journal, if one is wanted.
fn make_journal_if_any<F: OutputFiles>(
    files: &mut F,
    path: Option<&str>,
    inputs: &MineStreams<F>,
) -> Result<Option<F::JournalOut>, Fault>
    ensures made { IfOk result (λ r. MakesIfAny F.OutputFiles.own sources.Journal (option_copied path.entry) (known_if_any (⟦<F::JournalOut as Write>⟧.contents) r) files.old files.new) }
    ensures named { IfOk result (λ r. is_some r ≡ is_some (option_copied path.entry)) }
    ensures unmade { IfErr result IsUnmade }
    ensures spared { IfErr result (λ _. SparesIfAny F.OutputFiles.own sources.Journal (option_copied path.entry) files.old files.new) }
{
    match path {
        None => Ok(None),
        Some(path) => Ok(Some(files.make_journal(path, inputs)?)),
    }
}

/// Creates the certificate, if one is wanted.
fn make_certificate_if_any<F: OutputFiles>(
    files: &mut F,
    path: Option<&str>,
    inputs: &MineStreams<F>,
    journal: Option<&F::JournalOut>,
) -> Result<Option<F::CertificateOut>, Fault>
    ensures made { IfOk result (λ r. MakesIfAny F.OutputFiles.own sources.Certificate (option_copied path.entry) (known_if_any (⟦<F::CertificateOut as Write>⟧.contents) r) files.old files.new) }
    ensures named { IfOk result (λ r. is_some r ≡ is_some (option_copied path.entry)) }
    ensures unmade { IfErr result IsUnmade }
    ensures spared { IfErr result (λ _. SparesIfAny F.OutputFiles.own sources.Certificate (option_copied path.entry) files.old files.new) }
{
    match path {
        None => Ok(None),
        Some(path) => Ok(Some(files.make_certificate(path, inputs, journal)?)),
    }
}

/// Ends the journal, where there is one.
fn end_journal_if_any<F: OutputFiles>(
    files: &mut F,
    output: Option<F::JournalOut>,
    is_kept: bool,
) -> Result<(), Fault>
    ensures { EndsIfAny F.OutputFiles.own (output_of sources.Journal (is_some output) (known_if_any (⟦<F::JournalOut as Write>⟧.contents) output) is_kept) result files.old files.new }
{
    match output {
        None => Ok(()),
        Some(output) => files.end_journal(output, is_kept),
    }
}

/// Ends the certificate, where there is one.
fn end_certificate_if_any<F: OutputFiles>(
    files: &mut F,
    output: Option<F::CertificateOut>,
    is_kept: bool,
) -> Result<(), Fault>
    ensures { EndsIfAny F.OutputFiles.own (output_of sources.Certificate (is_some output) (known_if_any (⟦<F::CertificateOut as Write>⟧.contents) output) is_kept) result files.old files.new }
{
    match output {
        None => Ok(()),
        Some(output) => files.end_certificate(output, is_kept),
    }
}

/// Creates the outputs that are wanted. If one is refused, none is left.
pub(crate) fn make_outputs<F: OutputFiles>(
    files: &mut F,
    options: &SolveOptions<'_>,
    inputs: &MineStreams<F>,
) -> Result<MadeOutputs<F>, Fault>
    ensures made { IfOk result (λ r. MakesOutputs F.OutputFiles.own (wanted_by options.now)
        (output_contents (known_if_any (⟦<F::JournalOut as Write>⟧.contents) r.0) (known_if_any (⟦<F::CertificateOut as Write>⟧.contents) r.1)) files.old files.new) }
    ensures journal_named { IfOk result (λ r. is_some r.0 ≡ is_some (wanted_by options.now).journal) }
    ensures certificate_named { IfOk result (λ r. is_some r.1 ≡ is_some (wanted_by options.now).certificate) }
    ensures unmade { IfErr result IsUnmade }
    ensures spared { IfErr result (λ _. SparesOutputs F.OutputFiles.own (wanted_by options.now) files.old files.new) }
{
    let settings = options.settings;
    let journal = make_journal_if_any(files, journal_wanted(settings, options.journal), inputs)?;
    let path = certificate_wanted(settings.pit, options.certificate);
    match make_certificate_if_any(files, path, inputs, journal.as_ref()) {
        Ok(certificate) => Ok((journal, certificate)),
        Err(fault) => {
            let _ = end_journal_if_any(files, journal, false);
            Err(fault)
        }
    }
}

/// Returns whether the run used up its budget.
fn is_exhausted(outcome: &Result<Status, Fault>) -> bool
    ensures { result ≡ ended_at_budget outcome.now }
{
    match outcome {
        Ok(_) => false,
        Err(fault) => matches!(fault.refusal, Refusal::Exhausted(_)),
    }
}

/// Returns whether the journal of a run is kept: the run was done, or used up its budget.
fn keeps_journal(outcome: &Result<Status, Fault>) -> bool
    ensures { result ≡ (is_ok outcome.now || ended_at_budget outcome.now) }
{
    outcome.is_ok() || is_exhausted(outcome)
}

/// Returns whether the certificate of a run is kept: the run was done, and its journal, if there is one, was kept.
fn keeps_certificate(outcome: &Result<Status, Fault>, journal: &Result<(), Fault>) -> bool
    ensures { result ≡ (is_ok outcome.now && is_ok journal.now) }
{
    outcome.is_ok() && journal.is_ok()
}

/// Returns how a call ends: with the fault of the journal's end, otherwise that of the certificate's end, otherwise as the run
/// ended.
fn behind(
    journal: Result<(), Fault>,
    certificate: Result<(), Fault>,
    outcome: Result<Status, Fault>,
) -> Result<Status, Fault>
    ensures { result ≡ behind_outputs journal certificate outcome }
{
    match (journal, certificate) {
        (Err(fault), _) | (Ok(()), Err(fault)) => Err(fault),
        (Ok(()), Ok(())) => outcome,
    }
}

/// Ends the outputs after a run: keeps them if it was done, and the journal also if the budget is used up.
pub(crate) fn end_outputs<F: OutputFiles>(
    files: &mut F,
    outputs: MadeOutputs<F>,
    outcome: Result<Status, Fault>,
) -> Result<Status, Fault>
    ensures { EndsOutputs F.OutputFiles.own (finished outcome (is_some outputs.0) (is_some outputs.1)
        (output_contents (known_if_any (⟦<F::JournalOut as Write>⟧.contents) outputs.0) (known_if_any (⟦<F::CertificateOut as Write>⟧.contents) outputs.1))) result files.old files.new }
{
    let (journal, certificate) = outputs;
    let is_kept = keeps_journal(&outcome);
    let journal = end_journal_if_any(files, journal, is_kept);
    let is_kept = keeps_certificate(&outcome, &journal);
    let certificate = end_certificate_if_any(files, certificate, is_kept);
    behind(journal, certificate, outcome)
}

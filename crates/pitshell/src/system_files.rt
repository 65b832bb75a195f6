//! The files of the system, as the calls of the program open, make and end them.
//! What a file of the system holds and where its name leads no clause can say: each call may lead to any state.

ghost use Rattle.std.specs.Prelude.{◌≡◌, IfErr};
ghost use Rattle.faults.specs.Refused.{write_failed};
ghost use Rattle.commands.specs.Faults.{IsUnopened};

use crate::output::Output;
use crate::stats::write_stats;
use crate::watch::Times;
use commands::{InputFiles, MineFiles, OutputFiles};
use counters::Counters;
use faults::{Fault, Refusal, Source};
use std::fs::File;

/// The files of the system: the counters of the run that reads them, the stats file if one is wanted, and the outputs that are on
/// disk and wait for their final names.
#[derive(Drop)]
pub struct SystemFiles<'a> {
    rt: &'a HostRuntime,
    pub counters: Counters,
    stats: Option<Output>,
    journal: Option<Output>,
    certificate: Option<Output>,
}

/// Flushes an output that is to be kept, and returns it. Removes one that is not kept or cannot be flushed.
fn kept(rt: &HostRuntime, output: Output, is_kept: bool) -> Result<Option<Output>, Fault>
    ensures refused { IfErr result (λ e. e ≡ write_failed) }
{
    let synced = if is_kept { output.sync() } else { Ok(()) };
    if is_kept && synced.is_ok() {
        return Ok(Some(output));
    }
    output.discard(rt);
    synced?;
    Ok(None)
}

/// Renames these outputs in this order, or removes them all. After a failed rename it removes the rest.
fn end_all(rt: &HostRuntime, outputs: [Option<Output>; 3], is_kept: bool) -> Result<(), Fault> {
    let mut outcome = Ok(());
    for output in outputs.into_iter().flatten() {
        if is_kept && outcome.is_ok() {
            outcome = output.take_name(rt);
        } else {
            output.discard(rt);
        }
    }
    outcome
}

impl<'a> SystemFiles<'a> {
    /// The files for one call.
    pub fn new(rt: &'a HostRuntime, counters: Counters, stats: Option<Output>) -> SystemFiles<'a> {
        SystemFiles {
            rt,
            counters,
            stats,
            journal: None,
            certificate: None,
        }
    }

    /// Ends the outputs after the call. If they are kept, it writes the stats file first and then renames all outputs. If the stats
    /// file cannot be written, it renames none.
    pub fn end(self, is_kept: bool, times: &Times) -> Result<(), Fault> {
        let SystemFiles {
            rt,
            counters,
            stats,
            journal,
            certificate,
        } = self;
        let mut stats = stats;
        let written = match (&mut stats, counters.stats()) {
            (Some(output), Some(counted)) if is_kept => write_stats(rt, output, times, &counted),
            _ => Ok(()),
        };
        let is_kept = is_kept && written.is_ok();
        let ended = end_all(rt, [journal, certificate, stats], is_kept);
        written?;
        ended
    }
}

/// Opens an input; one that cannot be opened is a read that failed.
fn open_as(rt: &HostRuntime, path: &str, source: Source) -> Result<File, Fault>
    ensures refused { IfErr result (IsUnopened source) }
{
    match File::open(rt, path) {
        Ok(file) => Ok(file),
        Err(_) => Err(Fault::at_line(source, Refusal::ReadFailed, 0)),
    }
}

impl InputFiles for SystemFiles<'_> {
    type Model = File;

    type Prec = File;

    type Fixed = File;

    type Certificate = File;

    type Journal = File;

    type Blocks = File;

    ghost opens = { λ _ _ _ _ _. Unit {0} };

    ghost lacks = { λ _ _ _ _. Unit {0} };

    fn open_model(&mut self, path: &str) -> Result<File, Fault> {
        open_as(self.rt, path, Source::Model)
    }

    fn open_prec(&mut self, path: &str) -> Result<File, Fault> {
        open_as(self.rt, path, Source::Precedence)
    }

    fn open_fixed(&mut self, path: &str) -> Result<File, Fault> {
        open_as(self.rt, path, Source::Fixed)
    }

    fn open_certificate(&mut self, path: &str) -> Result<File, Fault> {
        open_as(self.rt, path, Source::Certificate)
    }

    fn open_journal(&mut self, path: &str) -> Result<File, Fault> {
        open_as(self.rt, path, Source::Journal)
    }

    fn open_blocks(&mut self, path: &str) -> Result<File, Fault> {
        open_as(self.rt, path, Source::Blocks)
    }

    fn counters(&self) -> Counters {
        self.counters.share()
    }
}

impl OutputFiles for SystemFiles<'_> {
    type JournalOut = Output;

    type CertificateOut = Output;

    ghost makes = { λ _ _ _ _ _. Unit {0} };

    ghost spares = { λ _ _ _ _. Unit {0} };

    ghost ends = { λ _ _ _ _ _. Unit {0} };

    ghost loses = { λ _ _ _. Unit {0} };

    fn make_journal(
        &mut self,
        path: &str,
        inputs: &MineFiles<File, File, File>,
    ) -> Result<Output, Fault> {
        let MineFiles { model, prec, fixed } = inputs;
        let stats = self.stats.as_ref().map(|output| &output.file);
        Output::create(
            self.rt,
            path,
            &[Some(model), Some(prec), fixed.as_ref(), stats],
        )
    }

    fn make_certificate(
        &mut self,
        path: &str,
        inputs: &MineFiles<File, File, File>,
        journal: Option<&Output>,
    ) -> Result<Output, Fault> {
        let MineFiles { model, prec, fixed } = inputs;
        let journal = journal.map(|output| &output.file);
        let stats = self.stats.as_ref().map(|output| &output.file);
        Output::create(
            self.rt,
            path,
            &[Some(model), Some(prec), fixed.as_ref(), journal, stats],
        )
    }

    fn end_journal(&mut self, output: Output, is_kept: bool) -> Result<(), Fault> {
        self.journal = kept(self.rt, output, is_kept)?;
        Ok(())
    }

    fn end_certificate(&mut self, output: Output, is_kept: bool) -> Result<(), Fault> {
        self.certificate = kept(self.rt, output, is_kept)?;
        Ok(())
    }
}

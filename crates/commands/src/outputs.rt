//! The file system to which a command writes its journal and certificate.
ghost use Rattle.std.specs.Prelude.{◌≡◌, ℕ, Bool, List, Option, IfOk, IfErr};
ghost use Rattle.faults.specs.Refused.{write_failed};
ghost use Rattle.faults.specs.declared.source.Source.{Source as AnySource};
ghost use Rattle.faults.specs.declared.source.Source.TheVariants as sources;
ghost use Rattle.commands.specs.Faults.{IsUnmade};

use crate::inputs::{InputFiles, MineStreams};
use faults::Fault;
use std::io::Write;

/// Creates output files and ends each: keeps it under its name or removes it. Each call leads from one state of the file system to
/// the next. The two kinds have stream types of their own, so none can be taken for the other.
pub trait OutputFiles: InputFiles {
    type JournalOut: Write + Drop;

    type CertificateOut: Write + Drop;

    /// The output with this name was created as this source, and holds this, if known.
    ghost makes: { Self → List ℕ → AnySource → Option (List ℕ) → Self → Type 0 };

    /// The output with this name could not be created.
    ghost spares: { Self → List ℕ → AnySource → Self → Type 0 };

    /// The output of this source was ended, holding this, if known; it is kept if the flag is true.
    ghost ends: { Self → AnySource → Option (List ℕ) → Bool → Self → Type 0 };

    /// The output of this source was to be kept, and could not be.
    ghost loses: { Self → AnySource → Self → Type 0 };

    /// Creates the output for a journal, which may be none of the inputs.
    ///
    /// # Errors
    ///
    /// A failed write (18) or lack of memory (1).
    fn make_journal(
        &mut self,
        path: &str,
        inputs: &MineStreams<Self>,
    ) -> Result<Self::JournalOut, Fault>
        ensures made { IfOk result (λ s. makes self.old path.now sources.Journal (⟦<Self::JournalOut as Write>⟧.contents s) self.new) }
        ensures spared { IfErr result (λ e. IsUnmade e × spares self.old path.now sources.Journal self.new) };

    /// Creates the output for a certificate, which may be none of the inputs and not the journal.
    ///
    /// # Errors
    ///
    /// A failed write (18) or lack of memory (1).
    fn make_certificate(
        &mut self,
        path: &str,
        inputs: &MineStreams<Self>,
        journal: Option<&Self::JournalOut>,
    ) -> Result<Self::CertificateOut, Fault>
        ensures made { IfOk result (λ s. makes self.old path.now sources.Certificate (⟦<Self::CertificateOut as Write>⟧.contents s) self.new) }
        ensures spared { IfErr result (λ e. IsUnmade e × spares self.old path.now sources.Certificate self.new) };

    /// Ends a journal.
    ///
    /// # Errors
    ///
    /// A failed write (18), if it cannot be kept.
    fn end_journal(&mut self, output: Self::JournalOut, is_kept: bool) -> Result<(), Fault>
        ensures ended { IfOk result (λ _. ends self.old sources.Journal (⟦<Self::JournalOut as Write>⟧.contents output) is_kept self.new) }
        ensures lost { IfErr result (λ e. (e ≡ write_failed) × loses self.old sources.Journal self.new) };

    /// Ends a certificate.
    ///
    /// # Errors
    ///
    /// A failed write (18), if it cannot be kept.
    fn end_certificate(&mut self, output: Self::CertificateOut, is_kept: bool) -> Result<(), Fault>
        ensures ended { IfOk result (λ _. ends self.old sources.Certificate (⟦<Self::CertificateOut as Write>⟧.contents output) is_kept self.new) }
        ensures lost { IfErr result (λ e. (e ≡ write_failed) × loses self.old sources.Certificate self.new) };
}

//! The file system that a command reads from.
ghost use Rattle.std.specs.Prelude.{ℕ, List, Option, IfOk, IfErr};
ghost use Rattle.faults.specs.declared.source.Source.{Source as AnySource};
ghost use Rattle.faults.specs.declared.source.Source.TheVariants as sources;
ghost use Rattle.commands.specs.Faults.{IsUnopened};

use crate::mine::MineFiles;
use counters::Counters;
use faults::Fault;
use minelib_reader::InputStream;
use std::io::Read;

/// Opens input files by name, each as a kind of file. Each kind has a stream type of its own, so none can be taken for another.
/// Each call leads from one state of the file system to the next; the relations say which transitions an implementation makes.
pub trait InputFiles {
    type Model: InputStream + Drop;

    type Prec: InputStream + Drop;

    type Fixed: InputStream + Drop;

    type Certificate: InputStream + Drop;

    type Journal: InputStream + Drop;

    type Blocks: InputStream + Drop;

    /// The file with this name was opened as this source. Its text is this, if known.
    ghost opens: { Self → List ℕ → AnySource → Option (List ℕ) → Self → Type 0 };

    /// The file with this name could not be opened as this source.
    ghost lacks: { Self → List ℕ → AnySource → Self → Type 0 };

    /// Opens a model.
    ///
    /// # Errors
    ///
    /// A failed read (2) of that source, as for every kind of file, or lack of memory (1).
    fn open_model(&mut self, path: &str) -> Result<Self::Model, Fault>
        ensures opened { IfOk result (λ s. opens self.old path.now sources.Model (⟦<Self::Model as Read>⟧.remaining s) self.new) }
        ensures lacked { IfErr result (λ e. IsUnopened sources.Model e × lacks self.old path.now sources.Model self.new) };

    /// Opens a precedence file.
    fn open_prec(&mut self, path: &str) -> Result<Self::Prec, Fault>
        ensures opened { IfOk result (λ s. opens self.old path.now sources.Precedence (⟦<Self::Prec as Read>⟧.remaining s) self.new) }
        ensures lacked { IfErr result (λ e. IsUnopened sources.Precedence e × lacks self.old path.now sources.Precedence self.new) };

    /// Opens a file of fixed blocks.
    fn open_fixed(&mut self, path: &str) -> Result<Self::Fixed, Fault>
        ensures opened { IfOk result (λ s. opens self.old path.now sources.Fixed (⟦<Self::Fixed as Read>⟧.remaining s) self.new) }
        ensures lacked { IfErr result (λ e. IsUnopened sources.Fixed e × lacks self.old path.now sources.Fixed self.new) };

    /// Opens a certificate.
    fn open_certificate(&mut self, path: &str) -> Result<Self::Certificate, Fault>
        ensures opened { IfOk result (λ s. opens self.old path.now sources.Certificate (⟦<Self::Certificate as Read>⟧.remaining s) self.new) }
        ensures lacked { IfErr result (λ e. IsUnopened sources.Certificate e × lacks self.old path.now sources.Certificate self.new) };

    /// Opens a journal.
    fn open_journal(&mut self, path: &str) -> Result<Self::Journal, Fault>
        ensures opened { IfOk result (λ s. opens self.old path.now sources.Journal (⟦<Self::Journal as Read>⟧.remaining s) self.new) }
        ensures lacked { IfErr result (λ e. IsUnopened sources.Journal e × lacks self.old path.now sources.Journal self.new) };

    /// Opens a block model.
    fn open_blocks(&mut self, path: &str) -> Result<Self::Blocks, Fault>
        ensures opened { IfOk result (λ s. opens self.old path.now sources.Blocks (⟦<Self::Blocks as Read>⟧.remaining s) self.new) }
        ensures lacked { IfErr result (λ e. IsUnopened sources.Blocks e × lacks self.old path.now sources.Blocks self.new) };

    /// Returns the counters of the runs that read these files. No clause concerns them.
    fn counters(&self) -> Counters {
        Counters::none()
    }
}

/// The streams of the files of a mine.
pub type MineStreams<F> = MineFiles<
    <F as InputFiles>::Model,
    <F as InputFiles>::Prec,
    <F as InputFiles>::Fixed,
>;

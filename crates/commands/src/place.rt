//! The readers and writers over the streams of a file system, in the words of clauses.
ghost use Rattle.commands.specs.Place.{InputPlace, OutputPlace};

use crate::inputs::InputFiles;
use crate::outputs::OutputFiles;
use minelib_reader::{FileReader, InBytes, OutBytes, StreamWriter};

/// A file system of inputs, with a reader over each stream.
pub trait Readable: InputFiles {
    ghost place: { InputPlace Self Self.Model Self.Prec Self.Fixed Self.Certificate Self.Journal Self.Blocks };
}

impl<F: InputFiles> Readable for F {
    ghost place = { record {
      files = F.InputFiles;
      model = ⟦<FileReader<F::Model> as InBytes>⟧;
      prec = ⟦<FileReader<F::Prec> as InBytes>⟧;
      fixed = ⟦<FileReader<F::Fixed> as InBytes>⟧;
      certificate = ⟦<FileReader<F::Certificate> as InBytes>⟧;
      journal = ⟦<FileReader<F::Journal> as InBytes>⟧;
      blocks = ⟦<FileReader<F::Blocks> as InBytes>⟧;
    } };
}

/// A file system of inputs and outputs, with a reader or a writer over each stream.
pub trait Writable: OutputFiles {
    ghost place: { OutputPlace Self Self.JournalOut Self.CertificateOut Self.Model Self.Prec Self.Fixed Self.Certificate Self.Journal Self.Blocks };
}

impl<F: OutputFiles> Writable for F {
    ghost place = { record {
      inputs = ⟦<F as Readable>⟧.place;
      files = F.OutputFiles.own;
      writers = record {
        journal = ⟦<StreamWriter<F::JournalOut> as OutBytes>⟧;
        certificate = ⟦<StreamWriter<F::CertificateOut> as OutBytes>⟧;
      };
    } };
}

//! The files by name, and the outputs that a command makes.
ghost use Rattle.std.specs.Prelude.{◌≡◌, Some, None, IfOk, IfErr};
ghost use Rattle.commands.specs.Faults.{IsUnmade, IsUnopened};
ghost use Rattle.std.specs.Option.{option_map};
ghost use Rattle.memory_files.specs.MemoryRelations.{text_under, EndsInMemory, LacksInMemory, MakesInMemory, OpensInMemory};

use crate::stream::MemoryStream;
use commands::{InputFiles, MineFiles, OutputFiles};
use faults::{Fault, Refusal, Source};
use std::alloc::Global;

/// A file that can be read.
#[derive(Clone, Copy, Debug)]
pub struct MemoryFile<'a> {
    pub name: &'a str,
    pub text: &'a [u8],
}

/// An output: the name that it was made under, and its bytes once it is kept.
#[derive(Debug, Drop)]
pub struct MemoryOutput {
    pub name: Vec<u8>,
    pub text: Option<Vec<u8>>,
}

/// The files that a command reads, and its outputs. No output takes the name of a file.
#[derive(Drop)]
pub struct MemoryFiles<'a> {
    alloc: Global,
    pub files: &'a [MemoryFile<'a>],
    pub journal: MemoryOutput,
    pub certificate: MemoryOutput,
}

/// The bytes of the first file of a name.
fn find<'a>(files: &'a [MemoryFile<'a>], name: &str) -> Option<&'a [u8]>
    ensures { option_map (λ text. text.now) result ≡ text_under files.entry.now name.now }
{
    for file in files {
        if file.name == name {
            return Some(file.text);
        }
    }
    None
}

/// An output that was not made.
fn no_output(alloc: Global) -> MemoryOutput {
    MemoryOutput {
        name: Vec::new(alloc),
        text: None,
    }
}

impl<'a> MemoryFiles<'a> {
    /// Holds these files and no output.
    pub fn new(alloc: Global, files: &'a [MemoryFile<'a>]) -> MemoryFiles<'a>
        ensures { result.files ≡ files.entry }
    {
        MemoryFiles {
            alloc,
            files,
            journal: no_output(alloc),
            certificate: no_output(alloc),
        }
    }

    /// Opens the file of a name.
    fn open(&self, path: &str, source: Source) -> Result<MemoryStream<'a>, Fault>
        ensures opened { IfOk result (λ s. text_under self.now.files.now path.now ≡ Some s.left.now) }
        ensures lacked { IfErr result (λ e. IsUnopened source e × (text_under self.now.files.now path.now ≡ None)) }
    {
        match find(self.files, path) {
            Some(text) => Ok(MemoryStream { left: text }),
            None => Err(Fault::at_line(source, Refusal::ReadFailed, 0)),
        }
    }

    /// A new output of a name.
    fn output(&self, path: &str) -> Result<MemoryOutput, Fault>
        ensures made { IfOk result (λ made. (made.name.items ≡ path.now) × (made.text ≡ None)) }
        ensures unmade { IfErr result IsUnmade }
    {
        if find(self.files, path).is_some() {
            return Err(Fault::write_failed());
        }
        Ok(MemoryOutput {
            name: Vec::from_slice(self.alloc, path.as_bytes())?,
            text: None,
        })
    }
}

impl<'a> InputFiles for MemoryFiles<'a> {
    type Model = MemoryStream<'a>;

    type Prec = MemoryStream<'a>;

    type Fixed = MemoryStream<'a>;

    type Certificate = MemoryStream<'a>;

    type Journal = MemoryStream<'a>;

    type Blocks = MemoryStream<'a>;

    ghost opens = { λ old name _ text new. OpensInMemory old name text new };

    ghost lacks = { λ old name _ new. LacksInMemory old name new };

    fn open_model(&mut self, path: &str) -> Result<MemoryStream<'a>, Fault> {
        self.open(path, Source::Model)
    }

    fn open_prec(&mut self, path: &str) -> Result<MemoryStream<'a>, Fault> {
        self.open(path, Source::Precedence)
    }

    fn open_fixed(&mut self, path: &str) -> Result<MemoryStream<'a>, Fault> {
        self.open(path, Source::Fixed)
    }

    fn open_certificate(&mut self, path: &str) -> Result<MemoryStream<'a>, Fault> {
        self.open(path, Source::Certificate)
    }

    fn open_journal(&mut self, path: &str) -> Result<MemoryStream<'a>, Fault> {
        self.open(path, Source::Journal)
    }

    fn open_blocks(&mut self, path: &str) -> Result<MemoryStream<'a>, Fault> {
        self.open(path, Source::Blocks)
    }
}

impl<'a> OutputFiles for MemoryFiles<'a> {
    type JournalOut = Vec<u8>;

    type CertificateOut = Vec<u8>;

    ghost makes = { λ old name source holds new. MakesInMemory source old name holds new };

    ghost spares = { λ old _ _ new. new ≡ old };

    ghost ends = { λ old source holds is_kept new. EndsInMemory source old holds is_kept new };

    ghost loses = { λ _ _ _. ⊥ };

    fn make_journal(
        &mut self,
        path: &str,
        _inputs: &MineFiles<MemoryStream<'a>, MemoryStream<'a>, MemoryStream<'a>>,
    ) -> Result<Vec<u8>, Fault> {
        self.journal = self.output(path)?;
        Ok(Vec::new(self.alloc))
    }

    fn make_certificate(
        &mut self,
        path: &str,
        _inputs: &MineFiles<MemoryStream<'a>, MemoryStream<'a>, MemoryStream<'a>>,
        _journal: Option<&Vec<u8>>,
    ) -> Result<Vec<u8>, Fault> {
        self.certificate = self.output(path)?;
        Ok(Vec::new(self.alloc))
    }

    fn end_journal(&mut self, output: Vec<u8>, is_kept: bool) -> Result<(), Fault> {
        self.journal.text = if is_kept { Some(output) } else { None };
        Ok(())
    }

    fn end_certificate(&mut self, output: Vec<u8>, is_kept: bool) -> Result<(), Fault> {
        self.certificate.text = if is_kept { Some(output) } else { None };
        Ok(())
    }
}

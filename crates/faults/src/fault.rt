//! A fault: a refusal and where it lies.
ghost use Rattle.std.specs.Prelude.{◌≡◌};
ghost use Rattle.faults.specs.Refused.{at_line, clash, exhausted, no_memory, no_seat, nowhere, write_failed};

use crate::refusal::Refusal;
use crate::source::Source;
use std::alloc::{AllocError, AllocFailed};
use std::fmt;
use std::fmt::{Display, Formatter, Write};
use thiserror::Error;

/// A refusal, the input that it lies in, and the line, from 1, or 0 where none applies; for factors the item, from 1.
#[derive(Debug, Drop, Error)]
pub struct Fault {
    pub refusal: Refusal,
    pub source: Source,
    pub line: u64,
}

impl Fault {
    /// The fault of a line of an input, counted from 1, or of the input as a whole (0).
    pub fn at_line(source: Source, refusal: Refusal, line: u64) -> Fault
        ensures { result ≡ at_line source refusal line }
    {
        Fault {
            refusal,
            source,
            line,
        }
    }

    /// A refusal that lies in no input.
    fn nowhere(refusal: Refusal) -> Fault
        ensures { result ≡ nowhere refusal }
    {
        Fault::at_line(Source::None, refusal, 0)
    }

    /// What a caller of a writer answers where a write failed.
    pub fn write_failed() -> Fault
        ensures { result ≡ write_failed }
    {
        Fault::nowhere(Refusal::WriteFailed)
    }

    /// What is answered where a table, a place in one or a thread was refused.
    pub fn no_seat() -> Fault
        ensures { result ≡ no_seat }
    {
        Fault::nowhere(Refusal::NoSeat)
    }

    /// The answer if the budget of this many mergers is used up.
    pub fn exhausted(count: u64) -> Fault
        ensures { result ≡ exhausted count }
    {
        Fault::nowhere(Refusal::Exhausted(count))
    }

    /// What is answered where a barred block must be dug.
    pub fn clash(block: u32) -> Fault
        ensures { result ≡ clash block }
    {
        Fault::nowhere(Refusal::FixedClash(block))
    }
}

impl From<AllocError> for Fault {
    ghost from_gives = { λ _ f. f ≡ no_memory };

    fn from(_e: AllocError) -> Fault {
        Fault::nowhere(Refusal::NoMemory)
    }
}

impl<T: Drop> From<AllocFailed<T>> for Fault {
    ghost from_gives = { λ _ f. f ≡ no_memory };

    fn from(_e: AllocFailed<T>) -> Fault {
        Fault::nowhere(Refusal::NoMemory)
    }
}

impl Display for Fault {
    fn fmt<W: Write>(&self, f: &mut Formatter<W>) -> fmt::Result {
        f.write_str(self.refusal.words())?;
        match &self.refusal {
            Refusal::Cycle(blocks) => {
                for block in blocks {
                    write!(f, " {block}")?;
                }
            }
            Refusal::NegativeColumn(block) => write!(f, "{block}")?,
            Refusal::FixedClash(block) => write!(f, "{block}")?,
            Refusal::NoSuchColumn(column) => write!(f, "{column}")?,
            Refusal::Exhausted(mergers) => write!(f, "{mergers} mergers")?,
            _ => {}
        }
        f.write_str(self.source.words())?;
        if self.line > 0 {
            write!(f, "{}{}", self.source.place_word(), self.line)?;
        }
        Ok(())
    }
}

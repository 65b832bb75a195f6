//! The streams of the system under the devices, and one call of theirs at a time. `Read` and `Write` never say that a call
//! succeeds, so over them alone a device that makes no call and always fails would keep its promises. Of a stream of this module it
//! may be known that no call fails. A file is one, and so is everything that `Write` moves.
ghost use Rattle.std.specs.Prelude.{IsErr, IsOk, IsTrue};
ghost use Rattle.std.specs.Io.{ReadsAtMost, WritesAtMost};
ghost use Rattle.std.specs.Io.KnownBytes.{ReadConsumes, WriteAppends};
ghost use Rattle.minelib_reader.specs.Device.{TakesSome};

use std::fs::File;
use std::io;
use std::io::{ErrorKind, Read, Write};

/// How often a call of the system that a signal interrupts is made before it counts as failed.
pub(crate) const MOST_TRIES: u32 = 1000;

/// A stream that is read.
pub trait InputStream: Read {
    /// No read fails from here on. Of a file it is never known.
    ghost IsSound: { Self → Type 0 } = { λ _. ⊥ };

    /// One read.
    fn read_once(&mut self, buf: &mut [u8]) -> io::Result<usize>
        ensures bound { ReadsAtMost result buf.new }
        ensures known { ReadConsumes (Self.remaining self.old) (Self.remaining self.new) result buf.new }
        ensures sound { IsSound self.old → IsOk result × IsSound self.new };

    /// How many bytes it holds, as far as the system says; 0 where it does not, as of a pipe. No clause speaks of it.
    fn size(&self) -> u64 {
        0
    }
}

impl InputStream for File {
    fn read_once(&mut self, buf: &mut [u8]) -> io::Result<usize> {
        self.read(buf)
    }

    fn size(&self) -> u64 {
        match self.metadata() {
            Ok(metadata) => metadata.len(),
            Err(_) => 0,
        }
    }
}

/// A stream that is written.
pub trait OutputStream: Write {
    /// No write fails from here on, and each takes some of its text. Of a file it is never known.
    ghost IsSound: { Self → Type 0 } = { λ _. ⊥ };

    /// One write.
    fn write_once(&mut self, text: &[u8]) -> io::Result<usize>
        ensures bound { WritesAtMost result text.now }
        ensures known { WriteAppends (Self.contents self.old) (Self.contents self.new) result text.now }
        ensures sound { IsSound self.old → TakesSome result text.now × IsSound self.new };
}

impl<S: Write> OutputStream for S {
    fn write_once(&mut self, text: &[u8]) -> io::Result<usize> {
        self.write(text)
    }
}

/// Whether a signal interrupted the call, so that it is to be made again.
pub(crate) fn is_interrupted(answer: &io::Result<usize>) -> bool
    ensures { IsTrue result → IsErr answer.now }
{
    match answer {
        Ok(_) => false,
        Err(error) => error.kind() == ErrorKind::Interrupted,
    }
}

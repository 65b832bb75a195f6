//! An open file in memory.
ghost use Rattle.std.specs.Prelude.{Some, IsOk, ⊤};
ghost use Rattle.std.specs.Io.{ReadsAtMost};
ghost use Rattle.std.specs.Io.KnownBytes.{ReadConsumes};

use minelib_reader::InputStream;
use std::io;
use std::io::Read;

/// The bytes of a file that are left to be read.
#[derive(Drop)]
pub struct MemoryStream<'a> {
    pub left: &'a [u8],
}

impl Read for MemoryStream<'_> {
    ghost remaining = { λ s. Some s.left.now };

    fn read(&mut self, buf: &mut [u8]) -> io::Result<usize>
        ensures bound { ReadsAtMost result buf.new }
        ensures bytes { ReadConsumes (Some self.old.left.now) (Some self.new.left.now) result buf.new }
        ensures ok { IsOk result }
    {
        self.left.read(buf)
    }
}

impl InputStream for MemoryStream<'_> {
    ghost IsSound = { λ _. ⊤ };

    fn read_once(&mut self, buf: &mut [u8]) -> io::Result<usize> {
        self.read(buf)
    }

    fn size(&self) -> u64 {
        self.left.len() as u64
    }
}

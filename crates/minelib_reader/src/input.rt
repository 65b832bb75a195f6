//! A reader over memory and one over a stream, as a file, which meet `InBytes`,
//! and `read_all`, by which the readers of this crate take a whole text.
ghost use Rattle.std.specs.Prelude.{◌≡◌, ◌≤◌, ◌<◌, ◌^◌, ◌-◌, [], length, take, IfOk, IsOk, MatchResult, Some, IsTrue, ⊤};
ghost use Rattle.std.specs.Io.{ReadsAtMost};
ghost use Rattle.std.specs.Io.KnownBytes.{Keeps, ReadConsumes, prepend_known, IsAtEnd as KnownEnd};
ghost use Rattle.minelib_reader.specs.Device.{Progress, unread};
ghost use Rattle.minelib_reader.specs.Answer.{IsRead, Refuses};

use crate::device::{DeviceFailed, InBytes};
use crate::stream::{InputStream, MOST_TRIES, is_interrupted};
use crate::tally::Tally;
use counters::Counters;
use faults::{Fault, Refusal, Source};
use std::alloc::Global;
use std::io;

/// Reads a text that lies in memory. It never fails.
#[derive(Drop)]
pub struct MemoryReader<'a> {
    text: &'a [u8],
    at: usize,
    ghost in_text: { at ≤ length text.now },
}

impl<'a> MemoryReader<'a> {
    /// Begins at the front of the text.
    pub fn new(text: &'a [u8]) -> MemoryReader<'a>
        ensures text { ⟦<MemoryReader<'a> as InBytes>⟧.known_text result ≡ Some text.entry.now }
        ensures start { ⟦<MemoryReader<'a> as InBytes>⟧.progress result ≡ unread (length text.entry.now) }
    {
        MemoryReader { text, at: 0 }
    }
}

impl InBytes for MemoryReader<'_> {
    ghost progress = { λ r. record { bytes = take r.at r.text.now; failures = 0; allowance = length r.text.now - r.at } };

    ghost IsAtEnd = { λ r. r.at ≡ length r.text.now };

    ghost known_text = { λ r. Some r.text.now };

    ghost IsSound = { λ _. ⊤ };

    fn read(&mut self, buf: &mut [u8]) -> Result<usize, DeviceFailed> {
        let rest = &self.text[self.at..];
        let n = rest.len().min(buf.len());
        buf[..n].copy_from_slice(&rest[..n]);
        self.at += n;
        Ok(n)
    }
}

const MOST_BYTES: u64 = 1 << 40;

/// Reads a stream, as a file, at most 2^40 bytes of it: each call behind these fails, and so does one that signals interrupt
/// again and again.
#[derive(Drop)]
pub struct FileReader<S> {
    stream: S,
    tally: Tally,
    ended: bool,
    size: u64,
    counters: Counters,
}

impl<S: InputStream + Drop> FileReader<S> {
    /// Begins where the stream stands.
    pub fn new(stream: S) -> FileReader<S>
        ensures start { ⟦<FileReader<S> as InBytes>⟧.progress result ≡ unread (2 ^ 40) }
        ensures known { ⟦<FileReader<S> as InBytes>⟧.known_text result ≡ prepend_known [] (S.remaining stream) }
        ensures sound { S.IsSound stream → ⟦<FileReader<S> as InBytes>⟧.IsSound result }
    {
        FileReader::with_counters(stream, Counters::none())
    }

    /// Returns what `new` returns. These counters receive the number of bytes that are read.
    pub fn with_counters(stream: S, counters: Counters) -> FileReader<S>
        ensures start { ⟦<FileReader<S> as InBytes>⟧.progress result ≡ unread (2 ^ 40) }
        ensures known { ⟦<FileReader<S> as InBytes>⟧.known_text result ≡ prepend_known [] (S.remaining stream) }
        ensures sound { S.IsSound stream → ⟦<FileReader<S> as InBytes>⟧.IsSound result }
    {
        let size = stream.size().min(MOST_BYTES);
        FileReader {
            stream,
            tally: Tally::new(MOST_BYTES),
            ended: false,
            size,
            counters,
        }
    }
}

/// One read; a call that a signal interrupts is made again.
fn read_again<S: InputStream>(stream: &mut S, buf: &mut [u8]) -> io::Result<usize>
    ensures bound { ReadsAtMost result buf.new }
    ensures known { ReadConsumes (S.remaining stream.old) (S.remaining stream.new) result buf.new }
    ensures sound { S.IsSound stream.old → IsOk result × S.IsSound stream.new }
{
    for _try in 1..MOST_TRIES {
        let answer = stream.read_once(buf);
        if !is_interrupted(&answer) {
            return answer;
        }
    }
    stream.read_once(buf)
}

impl<S: InputStream + Drop> InBytes for FileReader<S> {
    ghost progress = { λ r. r.tally };

    ghost IsAtEnd = { λ r. IsTrue r.ended × KnownEnd (S.remaining r.stream) };

    ghost known_text = { λ r. prepend_known r.tally.bytes (S.remaining r.stream) };

    ghost IsSound = { λ r. S.IsSound r.stream };

    fn read(&mut self, buf: &mut [u8]) -> Result<usize, DeviceFailed> {
        let most = self.tally.allowance().min(buf.len() as u64) as usize;
        if most == 0 {
            self.tally.failed();
            return Err(DeviceFailed);
        }
        match read_again(&mut self.stream, &mut buf[..most]) {
            Ok(n) => {
                self.ended = n == 0;
                self.tally.gave(&buf[..n]);
                self.counters.read(n as u64);
                Ok(n)
            }
            Err(_) => {
                self.tally.failed();
                Err(DeviceFailed)
            }
        }
    }

    fn size(&self) -> u64 {
        self.size
    }

    fn counters(&self) -> Counters {
        self.counters.share()
    }
}

/// How many bytes are read at once.
pub(crate) const CHUNK: usize = 65536;

/// All that is left to be read. Refused by `NoMemory`, and by `ReadFailed` with that source and no line. Memory for as many bytes
/// as the source holds is taken before the first is read: a file larger than memory is refused at once.
pub fn read_all<R: InBytes>(alloc: Global, reader: &mut R, source: Source) -> Result<Vec<u8>, Fault>
    requires countable { (R.progress reader.old).failures < 2 ^ 63 }
    ensures text { MatchResult result
        (λ v. IsRead (R.progress reader.old) (R.progress reader.new) (R.IsAtEnd reader.new) v.items)
        (λ e. Refuses e.refusal source e (R.progress reader.old) (R.progress reader.new) ⊥) }
    ensures short { IfOk result (λ v. length v.items ≤ (R.progress reader.old).allowance) }
    ensures known { Keeps (R.known_text reader.old) (R.known_text reader.new) }
{
    let mut text = Vec::with_capacity(alloc, reader.size() as usize)?;
    let mut chunk = [0u8; CHUNK];
    loop {
        match reader.read(&mut chunk) {
            Ok(0) => return Ok(text),
            Ok(n) => text.extend_from_slice(&chunk[..n])?,
            Err(DeviceFailed) => {
                return Err(Fault::at_line(source, Refusal::ReadFailed, 0));
            }
        }
    }
}

//! A writer into memory and one into a stream, which meet `OutBytes`,
//! and `write_all`, by which the program writes its texts.
ghost use Rattle.std.specs.Prelude.{◌≡◌, ◌<◌, ◌^◌, [], Some};
ghost use Rattle.std.specs.Io.{WritesAtMost};
ghost use Rattle.std.specs.Io.KnownBytes.{WriteAppends};
ghost use Rattle.minelib_reader.specs.Device.{Progress, unread, Writes, TakesSome};

use crate::device::{DeviceFailed, OutBytes};
use crate::stream::{MOST_TRIES, OutputStream, is_interrupted};
use crate::tally::Tally;
use std::alloc::Global;
use std::io;

/// Keeps what is written, up to a limit of bytes in all. A write past the limit, and one for which no memory is left, counts as
/// failed.
#[derive(Drop)]
pub struct MemoryWriter {
    pub text: Vec<u8>,
    room: usize,
    failures: u64,
}

impl MemoryWriter {
    /// Holds no byte yet, and takes up to `room`.
    pub fn new(alloc: Global, room: usize) -> MemoryWriter
        ensures empty { result.text.items ≡ [] }
        ensures start { ⟦<MemoryWriter as OutBytes>⟧.progress result ≡ unread room }
    {
        MemoryWriter {
            text: Vec::new(alloc),
            room,
            failures: 0,
        }
    }
}

impl OutBytes for MemoryWriter {
    ghost progress = { λ w. record { bytes = w.text.items; failures = w.failures; allowance = w.room } };

    ghost known_content = { λ w. Some w.text.items };

    fn write(&mut self, text: &[u8]) -> Result<usize, DeviceFailed> {
        let n = text.len().min(self.room);
        if n == 0 && !text.is_empty() || self.text.extend_from_slice(&text[..n]).is_err() {
            self.failures += 1;
            return Err(DeviceFailed);
        }
        self.room -= n;
        Ok(n)
    }
}

/// Writes a file or another stream of the system, such as standard output. A stream that takes no byte counts as failed,
/// and so does a call that signals interrupt again and again.
#[derive(Drop)]
pub struct StreamWriter<S> {
    stream: S,
    tally: Tally,
}

impl<S: OutputStream + Drop> StreamWriter<S> {
    /// Begins where the stream stands.
    pub fn new(stream: S) -> StreamWriter<S>
        ensures start { ⟦<StreamWriter<S> as OutBytes>⟧.progress result ≡ unread 0 }
        ensures known { ⟦<StreamWriter<S> as OutBytes>⟧.known_content result ≡ S.contents stream }
        ensures sound { S.IsSound stream → ⟦<StreamWriter<S> as OutBytes>⟧.IsSound result }
    {
        StreamWriter {
            stream,
            tally: Tally::new(0),
        }
    }

    /// Hands the stream back.
    pub fn into_stream(self) -> S
        ensures known { S.contents result ≡ ⟦<StreamWriter<S> as OutBytes>⟧.known_content self }
    {
        let StreamWriter { stream, .. } = self;
        stream
    }
}

/// One write; a call that a signal interrupts is made again.
fn write_again<S: OutputStream>(stream: &mut S, text: &[u8]) -> io::Result<usize>
    ensures bound { WritesAtMost result text.now }
    ensures known { WriteAppends (S.contents stream.old) (S.contents stream.new) result text.now }
    ensures sound { S.IsSound stream.old → TakesSome result text.now × S.IsSound stream.new }
{
    for _try in 1..MOST_TRIES {
        let answer = stream.write_once(text);
        if !is_interrupted(&answer) {
            return answer;
        }
    }
    stream.write_once(text)
}

impl<S: OutputStream + Drop> OutBytes for StreamWriter<S> {
    ghost progress = { λ w. w.tally };

    ghost known_content = { λ w. S.contents w.stream };

    ghost IsSound = { λ w. S.IsSound w.stream };

    fn write(&mut self, text: &[u8]) -> Result<usize, DeviceFailed> {
        match write_again(&mut self.stream, text) {
            Ok(n) if n > 0 || text.is_empty() => {
                self.tally.took(&text[..n]);
                Ok(n)
            }
            _ => {
                self.tally.failed();
                Err(DeviceFailed)
            }
        }
    }
}

/// Writes all of a text; after a failure a beginning of it is written.
pub fn write_all<W: OutBytes>(writer: &mut W, text: &[u8]) -> Result<(), DeviceFailed>
    requires { (W.progress writer.old).failures < 2 ^ 63 }
    ensures { Writes (W.progress writer.old) (W.progress writer.new) text.now result }
{
    let mut at = 0;
    while at < text.len() {
        at += writer.write(&text[at..])?;
    }
    Ok(())
}

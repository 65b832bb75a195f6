//! Pieces of a text go into a buffer of 64 KiB, so that the writer is called once for each 64 KiB and not for each piece.
//! After a write that failed nothing is written any more; so the text stands where it broke off.
ghost use Rattle.std.specs.Prelude.{◌≡◌, ◌+◌, ◌≤◌, [], ◌++◌, false, codes, length};
ghost use Rattle.report.specs.Puts.{AnswersWrite, IsReady, Puts};

use faults::Fault;
use minelib_reader::{OutBytes, write_all};
use std::marker::Model;

const SIZE: usize = 65536;

/// The bytes that wait to be written, and whether a write failed.
#[derive(Drop)]
pub struct Out {
    buffer: [u8; 65536],
    len: usize,
    failed: bool,
}

impl Model for Out {
    ghost use Rattle.std.specs.Prelude.{◌≤◌, take};
    ghost use Rattle.report.specs.Puts.{Waiting};

    ghost Value = { Waiting };

    ghost view = { λ o. record { bytes = take o.len o.buffer; failed = o.failed } };

    ghost invariant = { λ o. o.len ≤ 65536 };
}

impl Out {
    /// Nothing waits, and nothing failed.
    pub fn new() -> Out
        ensures bytes { result.bytes ≡ [] }
        ensures failed { result.failed ≡ false }
    {
        Out {
            buffer: [0; 65536],
            len: 0,
            failed: false,
        }
    }

    /// Lets a text wait behind the bytes that wait.
    fn append(&mut self, text: &[u8])
        requires { length self.old.bytes + length text.now ≤ 65536 }
        ensures bytes { self.new.bytes ≡ self.old.bytes ++ text.now }
        ensures failed { self.new.failed ≡ self.old.failed }
    {
        let end = self.len + text.len();
        self.buffer[self.len..end].copy_from_slice(text);
        self.len = end;
    }
}

/// Writes the bytes that wait.
fn flush<W: OutBytes>(writer: &mut W, out: &mut Out)
    requires { IsReady (W.progress writer.old) out.old }
    ensures puts { Puts (W.progress writer.old) out.old (W.progress writer.new) out.new [] }
    ensures ready { IsReady (W.progress writer.new) out.new }
    ensures none { out.new.bytes ≡ [] }
{
    if !out.failed {
        if write_all(writer, &out.buffer[..out.len]).is_err() {
            out.failed = true;
        }
    }
    out.len = 0;
}

/// Makes room for `count` bytes.
fn make_room<W: OutBytes>(writer: &mut W, out: &mut Out, count: usize)
    requires ready { IsReady (W.progress writer.old) out.old }
    requires short { count ≤ 65536 }
    ensures puts { Puts (W.progress writer.old) out.old (W.progress writer.new) out.new [] }
    ensures ready { IsReady (W.progress writer.new) out.new }
    ensures room { length out.new.bytes + count ≤ 65536 }
{
    if SIZE - out.len < count {
        flush(writer, out);
    }
}

/// Writes a short text behind the bytes that wait, or lets it wait.
pub fn put<W: OutBytes>(writer: &mut W, out: &mut Out, text: &[u8])
    requires ready { IsReady (W.progress writer.old) out.old }
    requires short { length text.now ≤ 65536 }
    ensures puts { Puts (W.progress writer.old) out.old (W.progress writer.new) out.new text.now }
    ensures ready { IsReady (W.progress writer.new) out.new }
{
    make_room(writer, out, text.len());
    out.append(text);
}

/// Ends a line.
pub fn end_line<W: OutBytes>(writer: &mut W, out: &mut Out)
    requires { IsReady (W.progress writer.old) out.old }
    ensures puts { Puts (W.progress writer.old) out.old (W.progress writer.new) out.new (codes "\n") }
    ensures ready { IsReady (W.progress writer.new) out.new }
{
    put(writer, out, b"\n");
}

/// Writes what waits, and answers whether each write went well.
pub fn finish<W: OutBytes>(writer: &mut W, out: &mut Out) -> Result<(), Fault>
    requires { IsReady (W.progress writer.old) out.old }
    ensures puts { Puts (W.progress writer.old) out.old (W.progress writer.new) out.new [] }
    ensures none { out.new.bytes ≡ [] }
    ensures answers { AnswersWrite out.new result }
{
    flush(writer, out);
    if out.failed {
        Err(Fault::write_failed())
    } else {
        Ok(())
    }
}

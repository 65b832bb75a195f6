//! The text of a pit: its head, and a line for each block.
ghost use Rattle.std.specs.Prelude.{◌≡◌, ◌<◌, ◌^◌, IfErr};
ghost use Rattle.minelib_reader.specs.Device.{Writes};
ghost use Rattle.faults.specs.Refused.{write_failed};
ghost use Rattle.pit_model.specs.PitText.{line_of, pit_head, pit_text};
ghost use Rattle.report.specs.PitGrammar.{PitReadsBack};
ghost use Rattle.report.specs.Puts.{IsReady, Puts};

use crate::number::{put_millionths, put_number};
use crate::out::{Out, end_line, finish, put};
use faults::Fault;
use minelib_reader::OutBytes;

/// Writes the lines before the first block: how many blocks there are, how many are in the pit, and its worth.
fn put_head<W: OutBytes>(writer: &mut W, out: &mut Out, n: u32, count: usize, worth: i128)
    requires { IsReady (W.progress writer.old) out.old }
    ensures puts { Puts (W.progress writer.old) out.old (W.progress writer.new) out.new (pit_head n count worth) }
    ensures ready { IsReady (W.progress writer.new) out.new }
{
    put(writer, out, b"PIT\nBLOCKS: ");
    put_number(writer, out, n);
    put(writer, out, b"\nIN: ");
    put_number(writer, out, count);
    put(writer, out, b"\nWORTH: ");
    put_millionths(writer, out, worth);
    end_line(writer, out);
}

/// Writes the line of a block.
pub fn put_line<W: OutBytes>(writer: &mut W, out: &mut Out, id: u32)
    requires { IsReady (W.progress writer.old) out.old }
    ensures puts { Puts (W.progress writer.old) out.old (W.progress writer.new) out.new (line_of id) }
    ensures ready { IsReady (W.progress writer.new) out.new }
{
    put_number(writer, out, id);
    end_line(writer, out);
}

/// Writes the text of a pit of a mine of n blocks, with its value in millionths. Error: a failed write, after which the beginning
/// of the text is written. It allocates nothing.
pub fn write_pit<W: OutBytes>(writer: &mut W, n: u32, pit: &[u32], worth: i128) -> Result<(), Fault>
    requires { (W.progress writer.old).failures < 2 ^ 63 }
    ensures text { Writes (W.progress writer.old) (W.progress writer.new) (pit_text n pit.now worth) result }
    ensures refused { IfErr result (λ fault. fault ≡ write_failed) }
{
    let mut out = Out::new();
    put_head(writer, &mut out, n, pit.len(), worth);
    for &id in pit {
        put_line(writer, &mut out, id);
    }
    finish(writer, &mut out)
}

/// The text that `write_pit` writes is read as that pit with its value, and as no other.
pub fn pit_reads_back()
    ensures { PitReadsBack }
{}

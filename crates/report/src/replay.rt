//! The texts of a replay that ends without a pit, each as one line.
ghost use Rattle.std.specs.Prelude.{◌≡◌, ◌<◌, ◌^◌, IfErr};
ghost use Rattle.minelib_reader.specs.Device.{Writes};
ghost use Rattle.faults.specs.Refused.{write_failed};
ghost use Rattle.report.specs.ReplayText.{difference_text, open_text};

use crate::number::put_number;
use crate::out::{Out, finish, put};
use faults::Fault;
use minelib_reader::OutBytes;

/// Writes which entry of a journal, counted from 1, is the first without its lawful verdict. Refused where a write failed: a
/// beginning of the text was written then. It takes no memory.
#[tactic(auto, unfolding(crate::specs::ReplayText::difference_text))]
pub fn write_difference<W: OutBytes>(writer: &mut W, entry: u64) -> Result<(), Fault>
    requires { (W.progress writer.old).failures < 2 ^ 63 }
    ensures text { Writes (W.progress writer.old) (W.progress writer.new) (difference_text entry) result }
    ensures refused { IfErr result (λ fault. fault ≡ write_failed) }
{
    let mut out = Out::new();
    put(writer, &mut out, b"entry ");
    put_number(writer, &mut out, entry);
    put(writer, &mut out, b" differs\n");
    finish(writer, &mut out)
}

/// Writes after how many mergers a merger arc is left that the journal does not decide. Refused where a write failed: a
/// beginning of the text was written then. It takes no memory.
#[tactic(auto, unfolding(crate::specs::ReplayText::open_text))]
pub fn write_open<W: OutBytes>(writer: &mut W, mergers: u64) -> Result<(), Fault>
    requires { (W.progress writer.old).failures < 2 ^ 63 }
    ensures text { Writes (W.progress writer.old) (W.progress writer.new) (open_text mergers) result }
    ensures refused { IfErr result (λ fault. fault ≡ write_failed) }
{
    let mut out = Out::new();
    put(writer, &mut out, b"open after ");
    put_number(writer, &mut out, mergers);
    put(writer, &mut out, b" mergers\n");
    finish(writer, &mut out)
}

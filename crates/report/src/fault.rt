//! The text of a fault: one line, with the number and words of the refusal, the input and the line or item.
ghost use Rattle.std.specs.Prelude.{◌≡◌, ◌≤◌, ◌<◌, ◌^◌, length, IfErr};
ghost use Rattle.std.specs.List.{flat_map};
ghost use Rattle.minelib_reader.specs.Device.{Writes};
ghost use Rattle.faults.specs.Refused.{write_failed};
ghost use Rattle.report.specs.FaultText.{cycle_block, detail_of, fault_text, place_text};
ghost use Rattle.report.specs.Puts.{IsReady, Puts};

use crate::number::put_number;
use crate::out::{Out, end_line, finish, put};
use faults::{Fault, Refusal, Source};
use minelib_reader::OutBytes;

/// Writes the blocks of a cycle.
fn put_cycle<W: OutBytes>(writer: &mut W, out: &mut Out, blocks: &[u32])
    requires { IsReady (W.progress writer.old) out.old }
    ensures puts { Puts (W.progress writer.old) out.old (W.progress writer.new) out.new (flat_map cycle_block blocks.now) }
    ensures ready { IsReady (W.progress writer.new) out.new }
{
    for &block in blocks {
        put(writer, out, b" ");
        put_number(writer, out, block);
    }
}

/// Writes what differs from fault to fault.
#[tactic(auto, unfolding(crate::specs::FaultText::detail_of))]
fn put_detail<W: OutBytes>(writer: &mut W, out: &mut Out, refusal: &Refusal)
    requires { IsReady (W.progress writer.old) out.old }
    ensures puts { Puts (W.progress writer.old) out.old (W.progress writer.new) out.new (detail_of refusal.now) }
    ensures ready { IsReady (W.progress writer.new) out.new }
{
    match refusal {
        Refusal::Cycle(list) => put_cycle(writer, out, list),
        Refusal::NegativeColumn(block) => put_number(writer, out, *block),
        Refusal::FixedClash(block) => put_number(writer, out, *block),
        Refusal::NoSuchColumn(column) => put_number(writer, out, *column),
        Refusal::Exhausted(mergers) => {
            put_number(writer, out, *mergers);
            put(writer, out, b" mergers");
        }
        _ => put(writer, out, b""),
    }
}

/// Writes the line or item, where there is one.
#[tactic(auto, unfolding(crate::specs::FaultText::place_text))]
fn put_place<W: OutBytes>(writer: &mut W, out: &mut Out, source: Source, line: u64)
    requires { IsReady (W.progress writer.old) out.old }
    ensures puts { Puts (W.progress writer.old) out.old (W.progress writer.new) out.new (place_text source line) }
    ensures ready { IsReady (W.progress writer.new) out.new }
{
    if line == 0 {
        put(writer, out, b"");
    } else {
        put(writer, out, source.place_word().as_bytes());
        put_number(writer, out, line);
    }
}

/// Writes the text of a fault. Refused where a write failed: a beginning of the text was written then. It takes no memory.
#[tactic(auto, unfolding(crate::specs::FaultText::fault_text))]
pub fn write_fault<W: OutBytes>(writer: &mut W, fault: &Fault) -> Result<(), Fault>
    requires { (W.progress writer.old).failures < 2 ^ 63 }
    ensures text { Writes (W.progress writer.old) (W.progress writer.new) (fault_text fault.now) result }
    ensures refused { IfErr result (λ refusal. refusal ≡ write_failed) }
{
    let mut out = Out::new();
    put(writer, &mut out, b"error ");
    put_number(writer, &mut out, fault.refusal.number());
    put(writer, &mut out, b": ");
    put(writer, &mut out, fault.refusal.words().as_bytes());
    put_detail(writer, &mut out, &fault.refusal);
    put(writer, &mut out, fault.source.words().as_bytes());
    put_place(writer, &mut out, fault.source, fault.line);
    end_line(writer, &mut out);
    finish(writer, &mut out)
}

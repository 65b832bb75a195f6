//! The text of a list of shells: its head, a line for each shell, and for each block of the last one the factor at which it
//! comes in.
ghost use Rattle.std.specs.Prelude.{◌≡◌, ◌<◌, ◌≤◌, ◌^◌, ℕ, length, get_or, IfErr};
ghost use Rattle.std.specs.List.{flat_map, All, AllPairs};
ghost use Rattle.std.specs.List.Sorted.{IsStrictlyIncreasing};
ghost use Rattle.minelib_reader.specs.Device.{Writes};
ghost use Rattle.faults.specs.Refused.{write_failed};
ghost use Rattle.pit_model.specs.Shells.{IsWithin};
ghost use Rattle.pit_model.specs.ShellText.{block_factor_line, first_factor, has_block, last_pit, shell_line, shells_head, shells_text};
ghost use Rattle.report.specs.FirstWith.{IsFirstWith};
ghost use Rattle.report.specs.Puts.{IsReady, Puts};

use crate::number::{put_billionths, put_number};
use crate::out::{Out, end_line, finish, put};
use faults::Fault;
use minelib_reader::OutBytes;
use pit_model::{Shell, ShellList};

/// Writes the lines before the first shell: how many blocks there are, and how many factors.
fn put_shells_head<W: OutBytes>(writer: &mut W, out: &mut Out, n: u32, count: usize)
    requires { IsReady (W.progress writer.old) out.old }
    ensures puts { Puts (W.progress writer.old) out.old (W.progress writer.new) out.new (shells_head n count) }
    ensures ready { IsReady (W.progress writer.new) out.new }
{
    put(writer, out, b"SHELLS\nBLOCKS: ");
    put_number(writer, out, n);
    put(writer, out, b"\nFACTORS: ");
    put_number(writer, out, count);
    end_line(writer, out);
}

/// Writes the line of a shell: its factor, how many blocks it has, and its worth.
fn put_shell<W: OutBytes>(writer: &mut W, out: &mut Out, shell: &Shell)
    requires { IsReady (W.progress writer.old) out.old }
    ensures puts { Puts (W.progress writer.old) out.old (W.progress writer.new) out.new (shell_line shell.now) }
    ensures ready { IsReady (W.progress writer.new) out.new }
{
    let pit: &[u32] = &shell.pit;
    put_number(writer, out, shell.factor);
    put(writer, out, b" ");
    put_number(writer, out, pit.len());
    put(writer, out, b" ");
    put_billionths(writer, out, shell.worth);
    end_line(writer, out);
}

/// The place of the first block that is not less than one, in blocks that rise.
fn place_of(blocks: &[u32], block: u32) -> usize
    requires { (i j : ℕ) → i ≤ j → j < length blocks.now → get_or blocks.now i 0 ≤ get_or blocks.now j 0 }
    ensures within { result ≤ length blocks.now }
    ensures before { (i : ℕ) → i < result → get_or blocks.now i 0 < block }
    ensures after { (i : ℕ) → result ≤ i → i < length blocks.now → block ≤ get_or blocks.now i 0 }
{
    blocks.partition_point(|b| *b < block)
}

/// Whether a shell has a block, by halving its blocks.
fn holds(shell: &Shell, block: u32) -> bool
    requires { IsStrictlyIncreasing shell.now.pit.items }
    ensures { result ≡ has_block block shell.now }
{
    let pit: &[u32] = &shell.pit;
    let place = place_of(pit, block);
    place < pit.len() && pit[place] == block
}

/// The number of the first shell that has a block, by halving the shells; as many as there are where none has it.
fn first_with(shells: &[Shell], block: u32) -> usize
    requires rising { All (λ shell. IsStrictlyIncreasing shell.pit.items) shells.now }
    requires nested { AllPairs IsWithin shells.now }
    ensures { IsFirstWith shells.now block result }
{
    let mut low = 0;
    let mut high = shells.len();
    'halving: while low < high {
        let middle = low + (high - low) / 2;
        if holds(&shells[middle], block) {
            high = middle;
        } else {
            low = middle + 1;
        }
    }
    low
}

/// The factor of the first shell that has a block; 0 where none has it.
fn first_factor_of(shells: &[Shell], block: u32) -> u32
    requires rising { All (λ shell. IsStrictlyIncreasing shell.pit.items) shells.now }
    requires nested { AllPairs IsWithin shells.now }
    ensures { result ≡ first_factor shells.now block }
{
    let place = first_with(shells, block);
    if place < shells.len() {
        shells[place].factor
    } else {
        0
    }
}

/// Writes the line of a block: its number, and the factor of the first shell that has it.
fn put_block<W: OutBytes>(writer: &mut W, out: &mut Out, shells: &[Shell], block: u32)
    requires ready { IsReady (W.progress writer.old) out.old }
    requires rising { All (λ shell. IsStrictlyIncreasing shell.pit.items) shells.now }
    requires nested { AllPairs IsWithin shells.now }
    ensures puts { Puts (W.progress writer.old) out.old (W.progress writer.new) out.new (block_factor_line shells.now block) }
    ensures ready { IsReady (W.progress writer.new) out.new }
{
    put_number(writer, out, block);
    put(writer, out, b" ");
    put_number(writer, out, first_factor_of(shells, block));
    end_line(writer, out);
}

/// The blocks of the last shell.
fn last_pit(shells: &[Shell]) -> &[u32]
    ensures { result.now ≡ last_pit shells.now }
{
    match shells.last() {
        Some(shell) => &shell.pit,
        None => &[],
    }
}

/// Writes the lines of the shells.
fn put_shells<W: OutBytes>(writer: &mut W, out: &mut Out, shells: &[Shell])
    requires { IsReady (W.progress writer.old) out.old }
    ensures puts { Puts (W.progress writer.old) out.old (W.progress writer.new) out.new (flat_map shell_line shells.now) }
    ensures ready { IsReady (W.progress writer.new) out.new }
{
    for i in 0..shells.len() {
        put_shell(writer, out, &shells[i]);
    }
}

/// Writes the lines of these blocks.
fn put_blocks<W: OutBytes>(writer: &mut W, out: &mut Out, shells: &[Shell], blocks: &[u32])
    requires ready { IsReady (W.progress writer.old) out.old }
    requires rising { All (λ shell. IsStrictlyIncreasing shell.pit.items) shells.now }
    requires nested { AllPairs IsWithin shells.now }
    ensures puts { Puts (W.progress writer.old) out.old (W.progress writer.new) out.new (flat_map (block_factor_line shells.now) blocks.now) }
    ensures ready { IsReady (W.progress writer.new) out.new }
{
    for &block in blocks {
        put_block(writer, out, shells, block);
    }
}

/// Writes the text of a list of shells, with their worths in billionths. The blocks of each shell rise, and each shell lies
/// within all later ones. Refused where a write failed: a beginning of the text was written then. It takes no memory.
pub fn write_shells<W: OutBytes>(writer: &mut W, list: &ShellList) -> Result<(), Fault>
    requires countable { (W.progress writer.old).failures < 2 ^ 63 }
    requires rising { All (λ shell. IsStrictlyIncreasing shell.pit.items) list.now.shells.items }
    requires nested { AllPairs IsWithin list.now.shells.items }
    ensures text { Writes (W.progress writer.old) (W.progress writer.new) (shells_text list.now.n list.now.shells.items) result }
    ensures refused { IfErr result (λ fault. fault ≡ write_failed) }
{
    let mut out = Out::new();
    put_shells_head(writer, &mut out, list.n, list.shells.len());
    put_shells(writer, &mut out, &list.shells);
    put_blocks(writer, &mut out, &list.shells, last_pit(&list.shells));
    finish(writer, &mut out)
}

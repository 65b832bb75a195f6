//! The cycle of rows that encode no mine.
ghost use Rattle.std.specs.Prelude.{◌≡◌, ◌<◌, ℕ, length, get_or, IfOk, IfErr, IfSome, IfNone};
ghost use Rattle.arrays.specs.Cycles.{EncodeNoCycle, WritesCycle};
ghost use Rattle.arrays.specs.Refused.{RefusesRows};

use crate::array_error::ArrayError;
use crate::graph::graph_of;
use csr::CsrView;
use faults::Refusal;
use std::alloc::Global;

/// Writes the blocks of a list, as far as there is room.
fn write_front(blocks: &[u32], room: &mut [u32])
    ensures { (i : ℕ) → i < length blocks.now → i < length room.new → get_or room.new i 0 ≡ get_or blocks.now i 0 }
{
    for i in 0..blocks.len().min(room.len()) {
        room[i] = blocks[i];
    }
}

/// Writes the blocks of a cycle in the rows of `blocks` blocks, as far as there is room, and returns how many there are; None if
/// the graph is acyclic. Each block needs the next, and the last needs the first. Errors: those of `mine_of` for its rows. Without a
/// cycle, and after an error, the room is unchanged.
pub fn find_cycle(
    alloc: Global,
    blocks: usize,
    rows: &CsrView<'_>,
    room: &mut [u32],
) -> Result<Option<usize>, ArrayError>
    ensures none { IfOk result (λ found. IfNone found (EncodeNoCycle blocks rows.now.offsets.now rows.now.targets.now)) }
    ensures unwritten { IfOk result (λ found. IfNone found (room.new ≡ room.old)) }
    ensures some { IfOk result (λ found. IfSome found (λ count. (0 < count) × WritesCycle blocks rows.now.offsets.now rows.now.targets.now room.new count)) }
    ensures refused { IfErr result (λ e. RefusesRows blocks rows.now.offsets.now rows.now.targets.now e.refusal e.place) }
    ensures kept { IfErr result (λ _. room.new ≡ room.old) }
{
    match graph_of(alloc, blocks, rows) {
        Ok(graph) => {
            graph.law();
            Ok(None)
        }
        Err(ArrayError { refusal, place }) => match refusal {
            Refusal::Cycle(cycle) => {
                write_front(&cycle, room);
                Ok(Some(cycle.len()))
            }
            refusal => Err(ArrayError { refusal, place }),
        },
    }
}

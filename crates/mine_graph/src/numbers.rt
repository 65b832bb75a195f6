//! Blocks or pairs by their numbers: all of them, and those that have a mark.
ghost use Rattle.std.specs.Prelude.{◌≡◌, ◌<◌, length, IfOk};
ghost use Rattle.std.specs.List.{range_with_len};
ghost use Rattle.pit_model.specs.Mine.{members};
ghost use Rattle.mine_graph.specs.FixedBlocks.{mark_of};

use std::alloc::{AllocError, Global};

/// The numbers below n, rising.
pub fn all_numbers(alloc: Global, n: u32) -> Result<Vec<u32>, AllocError>
    ensures { IfOk result (λ v. v.items ≡ range_with_len 0 n) }
{
    (0..n).collect(alloc)
}

/// The numbers that have a mark, rising.
pub fn marked_numbers(alloc: Global, marks: &[bool]) -> Result<Vec<u32>, AllocError>
    requires { length marks.now < 4294967296 }
    ensures { IfOk result (λ v. v.items ≡ members (length marks.now) (mark_of marks.now)) }
{
    let n = marks.len() as u32;
    Ok((0..n).filter(|&u| marks[u as usize]).collect(alloc)?)
}

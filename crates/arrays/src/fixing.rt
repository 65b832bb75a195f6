//! Blocks forced in and blocks barred, as an array has them: 1 and 2, and 0 for a block that is neither.
ghost use Rattle.std.specs.Prelude.{◌≡◌, ◌==◌, ◌<◌, ◌≤◌, ℕ, length, get_or, IfOk, IfErr, IfSome, IfNone};
ghost use Rattle.pit_model.specs.Size.{most_blocks};
ghost use Rattle.pit_model.specs.Fixed.{fixed_of};
ghost use Rattle.pit_model.specs.Mine.{members};
ghost use Rattle.mine_graph.specs.FixedBlocks.{IsFixedOf};
ghost use Rattle.arrays.specs.Fixing.{AreForBlocks, RefusesFixing, fixed_by, toward};
ghost use Rattle.arrays.specs.Refused.{IsFirstPlace};

use crate::array_error::ArrayError;
use faults::Refusal;
use mine_graph::{Fixed, Graph};
use pit_model::Direction;
use std::alloc::{AllocError, Global};

/// The direction that is asked for.
pub fn toward(greatest: bool) -> Direction
    ensures { result ≡ toward greatest }
{
    if greatest {
        Direction::Greatest
    } else {
        Direction::Least
    }
}

/// The first place of a number above the most that says something.
pub fn first_above(numbers: &[u8], most: u8) -> Option<u32>
    requires { length numbers.now ≤ most_blocks }
    ensures some { IfSome result (λ k. (k < length numbers.now) × IsFirstPlace (λ i. most < get_or numbers.now i 0) k) }
    ensures none { IfNone result ((k : ℕ) → k < length numbers.now → get_or numbers.now k 0 ≤ most) }
{
    for k in 0..numbers.len() {
        if numbers[k] > most {
            return Some(k as u32);
        }
    }
    None
}

/// The blocks with a number, rising.
pub fn blocks_with(alloc: Global, numbers: &[u8], number: u8) -> Result<Vec<u32>, AllocError>
    requires { length numbers.now ≤ most_blocks }
    ensures { IfOk result (λ list. list.items ≡ members (length numbers.now) (λ u. get_or numbers.now u 0 == number)) }
{
    let n = numbers.len() as u32;
    (0..n)
        .filter(|&u| numbers[u as usize] == number)
        .collect(alloc)
}

/// Returns what numbers fix of a graph's blocks. Errors: the least barred block that is forced in (21); lack of memory (1).
pub fn fixed_by(alloc: Global, graph: &Graph, numbers: &[u8]) -> Result<Fixed, ArrayError>
    requires { AreForBlocks graph.now.blocks numbers.now }
    ensures fixes { IfOk result (λ f. fixed_of f.lists ≡ fixed_by numbers.now) }
    ensures of_graph { IfOk result (IsFixedOf graph.now) }
    ensures refused { IfErr result (λ e. RefusesFixing graph.now.pairs numbers.now e.refusal e.place) }
{
    if numbers.len() == 0 {
        return Ok(Fixed::none());
    }
    graph.law();
    let forced = blocks_with(alloc, numbers, 1)?;
    let barred = blocks_with(alloc, numbers, 2)?;
    match Fixed::new(alloc, graph, forced, barred) {
        Ok(fixed) => Ok(fixed),
        Err(fault) => Err(ArrayError {
            place: clash_of(&fault.refusal),
            refusal: fault.refusal,
        }),
    }
}

/// The block of a clash; of another refusal 0.
fn clash_of(refusal: &Refusal) -> u32
    ensures clash { (block : ℕ) → refusal.now ≡ Refusal.FixedClash block → result ≡ block }
    ensures none { refusal.now ≡ Refusal.NoMemory → result ≡ 0 }
{
    match refusal {
        Refusal::FixedClash(block) => *block,
        _ => 0,
    }
}

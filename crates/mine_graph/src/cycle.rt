//! The cycle that a refusal names: the walk from the least block left over, each time to the least block needed
//! of those left over, from the first visit of the first repeated block on. Needs the pairs in order, and what
//! counting down left over.
ghost use Rattle.std.specs.Prelude.{◌≡◌, ℕ, ◌-◌, ◌^◌, ◌<◌, ◌≤◌, length, get_or, IfOk, IsTrue};
ghost use Rattle.pit_model.specs.Graph.{first_of, second_of, AreInRange, AreRising};
ghost use Rattle.pit_model.specs.Cycle.{AcyclicIsWellFounded, IsCycleList, IsLargestWithPredecessorInside, IsLeast, IsLeastNeeded, HasPredecessorInside, IsWalk};
ghost use Rattle.csr.specs.View.{pairs_in, AreRows};
ghost use Rattle.csr.specs.Left.{left_over};

use csr::CsrView;
use std::alloc::{AllocError, Global};

/// Pairs without a cycle have no needy set but the empty one: so a cycle is named only where there is one.
pub fn acyclic_is_well_founded()
    ensures { AcyclicIsWellFounded }
{}

/// Returns the least block that the block needs among those with something left.
fn least_needed(rows: CsrView<'_>, left: &[u32], block: u32) -> u32
    requires rising { AreRising (pairs_in rows) }
    requires range { AreInRange (pairs_in rows) (length left.now) }
    requires rows { AreRows (length left.now) rows }
    requires below { block < length left.now }
    requires needy { (k : ℕ) × (k < length (pairs_in rows)) × (first_of (pairs_in rows) k ≡ block) × IsTrue (left_over left.now (second_of (pairs_in rows) k)) }
    ensures { IsLeastNeeded (pairs_in rows.entry) (left_over left.now) block result }
{
    let at = block as usize;
    for k in rows.offsets[at] as usize..rows.offsets[at + 1] as usize {
        let needed = rows.targets[k];
        if left[needed as usize] != 0 {
            return needed;
        }
    }
    block
}

/// Walks from a block, each time to the least needed block with something left. Returns the place of the first repeated
/// block, and the length of the walk then.
fn walk_round(
    rows: CsrView<'_>,
    left: &[u32],
    first: u32,
    path: &mut [u32],
    places: &mut [u32],
) -> (usize, usize)
    requires rising { AreRising (pairs_in rows) }
    requires few { length left.now < 2 ^ 31 }
    requires range { AreInRange (pairs_in rows) (length left.now) }
    requires rows { AreRows (length left.now) rows }
    requires needy { HasPredecessorInside (pairs_in rows) (length left.now) (left_over left.now) }
    requires first { IsLeast (left_over left.now) first }
    requires path { length path.old ≡ length left.now }
    requires places { length places.old ≡ length left.now }
    requires none { (u : ℕ) → get_or places.old u 0 ≡ 0 }
    ensures walk { IsWalk (pairs_in rows.entry) (left_over left.now) path.new result.1 }
    ensures visit { result.0 < result.1 }
    ensures room { result.1 ≤ length path.new }
    ensures repeats { IsLeastNeeded (pairs_in rows.entry) (left_over left.now) (get_or path.new (result.1 - 1) 0) (get_or path.new result.0 0) }
{
    path[0] = first;
    places[first as usize] = 1;
    for count in 1..left.len() + 1 {
        let next = least_needed(rows, left, path[count - 1]);
        if places[next as usize] != 0 {
            return (places[next as usize] as usize - 1, count);
        }
        path[count] = next;
        places[next as usize] = count as u32 + 1;
    }
    (0, 0)
}

/// Returns the list of the cycle in which the walk from the first block left over ends.
pub fn cycle_of(
    alloc: Global,
    rows: CsrView<'_>,
    left: &[u32],
    first: u32,
) -> Result<Vec<u32>, AllocError>
    requires rising { AreRising (pairs_in rows) }
    requires few { length left.now < 2 ^ 31 }
    requires range { AreInRange (pairs_in rows) (length left.now) }
    requires rows { AreRows (length left.now) rows }
    requires largest { IsLargestWithPredecessorInside (pairs_in rows) (length left.now) (left_over left.now) }
    requires first { IsLeast (left_over left.now) first }
    ensures { IfOk result (λ cycle. IsCycleList (pairs_in rows.entry) (length left.now) cycle.items) }
{
    let mut path = vec![in alloc; 0; left.len()]?;
    let mut places = vec![in alloc; 0; left.len()]?;
    let (visit, count) = walk_round(rows, left, first, &mut path, &mut places);
    Vec::from_slice(alloc, &path[visit..count])
}

//! What is tested of the pairs that rows encode: both blocks are there, none needs itself, and none names a block twice.
ghost use Rattle.std.specs.Prelude.{◌≡◌, ◌+◌, ◌<◌, ◌≤◌, ℕ, length, get_or, IfOk, IfSome, IfNone};
ghost use Rattle.pit_model.specs.Size.{most_blocks, most_pairs};
ghost use Rattle.pit_model.specs.Graph.{AreApart, AreInRange};
ghost use Rattle.csr.specs.View.{pairs_in, AreRows};
ghost use Rattle.arrays.specs.Named.{AreNamed, IsRepeated};
ghost use Rattle.arrays.specs.Encoded.{IsInRow};
ghost use Rattle.arrays.specs.Refused.{IsFirstPlace};

use csr::CsrView;
use std::alloc::{AllocError, Global};

/// The first place of a block that there is not.
pub fn first_outside(blocks: u32, needs: &[u32]) -> Option<u32>
    requires { length needs.now ≤ most_pairs }
    ensures some { IfSome result (λ k. (k < length needs.now) × IsFirstPlace (λ i. blocks ≤ get_or needs.now i 0) k) }
    ensures none { IfNone result ((k : ℕ) → k < length needs.now → get_or needs.now k 0 < blocks) }
{
    for k in 0..needs.len() {
        if needs[k] >= blocks {
            return Some(k as u32);
        }
    }
    None
}

/// The first place of a row at which its own block stands.
fn own_place(rows: CsrView<'_>, block: u32) -> Option<u32>
    requires inside { get_or rows.offsets.now (block + 1) 0 ≤ length rows.targets.now }
    requires block { block + 1 < length rows.offsets.now }
    ensures some { IfSome result (λ k. IsInRow rows.entry.offsets.now block k × (get_or rows.entry.targets.now k 0 ≡ block)) }
    ensures first { IfSome result (λ k. (i : ℕ) → IsInRow rows.entry.offsets.now block i → i < k → get_or rows.entry.targets.now i 0 ≡ block → ⊥) }
    ensures none { IfNone result ((i : ℕ) → IsInRow rows.entry.offsets.now block i → get_or rows.entry.targets.now i 0 ≡ block → ⊥) }
{
    for k in rows.offsets[block as usize]..rows.offsets[block as usize + 1] {
        if rows.targets[k as usize] == block {
            return Some(k);
        }
    }
    None
}

/// The first place of a block that needs itself.
pub fn first_of_itself(blocks: u32, rows: CsrView<'_>) -> Option<u32>
    requires rows { AreRows blocks rows }
    requires few { blocks ≤ most_blocks }
    ensures { IfSome result (IsFirstPlace (λ k. IsInRow rows.entry.offsets.now (get_or rows.entry.targets.now k 0) k)) }
{
    for block in 0..blocks {
        if let Some(place) = own_place(rows, block) {
            return Some(place);
        }
    }
    None
}

/// The first place of a row that names a block that it names before, where each block knows the last row so far that named it.
fn repeated_place(rows: CsrView<'_>, block: u32, named: &mut [u32]) -> Option<u32>
    requires few { length named.old ≤ most_blocks }
    requires block { block < length named.old }
    requires in_range { AreInRange (pairs_in rows) (length named.old) }
    requires rows { AreRows (length named.old) rows }
    requires named { AreNamed (pairs_in rows) named.old (get_or rows.offsets.now block 0) }
    ensures some { IfSome result (IsFirstPlace (IsRepeated (pairs_in rows.entry))) }
    ensures none { IfNone result (AreNamed (pairs_in rows.entry) named.new (get_or rows.entry.offsets.now (block + 1) 0)) }
    ensures size { length named.new ≡ length named.old }
{
    for k in rows.offsets[block as usize]..rows.offsets[block as usize + 1] {
        let needed = rows.targets[k as usize] as usize;
        if named[needed] == block + 1 {
            return Some(k);
        }
        named[needed] = block + 1;
    }
    None
}

/// The first place of a pair that stands before.
pub fn first_repeated(
    alloc: Global,
    blocks: u32,
    rows: CsrView<'_>,
) -> Result<Option<u32>, AllocError>
    requires few { blocks ≤ most_blocks }
    requires rows { AreRows blocks rows }
    requires below { (k : ℕ) → k < length rows.targets.now → get_or rows.targets.now k 0 < blocks }
    ensures some { IfOk result (λ r. IfSome r (IsFirstPlace (IsRepeated (pairs_in rows.entry)))) }
    ensures none { IfOk result (λ r. IfNone r (AreApart (pairs_in rows.entry))) }
{
    let mut named = vec![in alloc; 0u32; blocks as usize]?;
    for block in 0..blocks {
        if let Some(place) = repeated_place(rows, block, &mut named) {
            return Ok(Some(place));
        }
    }
    Ok(None)
}

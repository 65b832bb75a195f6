//! Compressed rows that share equal parts (dictionary encoding). A row is kept as the differences from its block to its targets, and
//! rows with the same differences share one list of them, their pattern. A mine on a grid has few patterns: its rows differ only at
//! the walls of the grid.
ghost use Rattle.std.specs.Prelude.{◌≡◌, ◌↔◌, ℕ, ◌+◌, ◌^◌, ◌<◌, ◌≤◌, IsTrue, length, get_or, IfOk};
ghost use Rattle.pit_model.specs.Graph.{first_of, second_of, AreInRange, AreRising};
ghost use Rattle.csr.specs.Rows.{pairs_of, IsCsr};
ghost use Rattle.csr.specs.Shared.{shared_targets, target_after, AreShared};
ghost use Rattle.csr.specs.Transposed.{LeadAtMost};
ghost use Rattle.csr.specs.View.{pairs_in, AreRows};

use crate::builder::CsrBuilder;
use crate::rows::Csr;
use crate::view::CsrView;
use std::alloc::{AllocError, Global};
use std::marker::Model;
use std::ops::Range;

/// The arcs of a block: the number of the first, and the difference from the block to the target of each, modulo 2^32.
#[derive(Clone, Copy)]
pub struct SharedRow<'a> {
    pub start: u32,
    pub differences: &'a [u32],
}

/// How far targets are ahead of their block and back at most.
#[derive(Clone, Copy)]
pub(crate) struct Reach {
    pub ahead: u32,
    pub back: u32,
}

/// Returns the largest difference ahead, and the largest back: differences of 2^31 and more lead back.
fn reach_of(differences: &[u32]) -> Reach
    ensures few { result.ahead < 2 ^ 31 }
    ensures few_back { result.back ≤ 2 ^ 31 }
    ensures fits { (k : ℕ) → k < length differences.now → get_or differences.now k 0 < 2 ^ 32 }
    ensures ahead { (k : ℕ) → k < length differences.now → get_or differences.now k 0 < 2 ^ 31 → get_or differences.now k 0 ≤ result.ahead }
    ensures back { (k : ℕ) → k < length differences.now → 2 ^ 31 ≤ get_or differences.now k 0 → 2 ^ 32 ≤ get_or differences.now k 0 + result.back }
{
    let mut reach = Reach { ahead: 0, back: 0 };
    for k in 0..differences.len() {
        let difference = differences[k];
        if difference < 1 << 31 {
            reach.ahead = reach.ahead.max(difference);
        } else {
            reach.back = reach.back.max(u32::MAX - difference + 1);
        }
    }
    reach
}

/// The arcs of blocks 0 to `blocks` - 1, in compressed rows with shared patterns: 8 bytes for each block, and 4 for each arc of a
/// row whose pattern no other row shares.
#[derive(Drop)]
pub struct SharedRows {
    /// Row u begins at place `offsets[u]`, and ends before place `offsets[u + 1]`.
    offsets: Vec<u32>,
    /// The differences of row u begin at `patterns[u]`.
    patterns: Vec<u32>,
    /// Target minus block, modulo 2^32.
    differences: Vec<u32>,
}

impl Model for SharedRows {
    ghost use Rattle.std.specs.Prelude.{length};
    ghost use Rattle.pit_model.specs.Graph.{Graph};
    ghost use Rattle.csr.specs.Rows.{pairs_of};
    ghost use Rattle.csr.specs.Shared.{shared_targets, AreShared};

    ghost Value = { Graph };

    ghost view = { λ r. record { blocks = length r.patterns.items; pairs = pairs_of r.offsets.items (shared_targets r.offsets.items r.patterns.items r.differences.items) } };

    ghost invariant = { λ r. AreShared r.offsets.items r.patterns.items r.differences.items };
}

impl SharedRows {
    /// Returns the rows of these arrays.
    pub(crate) fn from_closed(
        offsets: Vec<u32>,
        patterns: Vec<u32>,
        differences: Vec<u32>,
    ) -> SharedRows
        requires { AreShared offsets.items patterns.items differences.items }
        ensures blocks { result.blocks ≡ length patterns.items }
        ensures pairs { result.pairs ≡ pairs_of offsets.items (shared_targets offsets.items patterns.items differences.items) }
    {
        SharedRows {
            offsets,
            patterns,
            differences,
        }
    }

    /// Returns the rows of `blocks` blocks with these arcs, which are sorted by their first block.
    ///
    /// # Errors
    ///
    /// If memory runs out.
    pub fn from_pairs(
        alloc: Global,
        blocks: u32,
        pairs: &[(u32, u32)],
    ) -> Result<SharedRows, AllocError>
        requires few { length pairs.now < 2 ^ 32 }
        requires order { (k l : ℕ) → k ≤ l → l < length pairs.now → first_of pairs.now k ≤ first_of pairs.now l }
        requires below { (k : ℕ) → k < length pairs.now → first_of pairs.now k < blocks }
        ensures blocks { IfOk result (λ r. r.blocks ≡ blocks) }
        ensures pairs { IfOk result (λ r. r.pairs ≡ pairs.now) }
    {
        let mut rows = CsrBuilder::new(alloc)?;
        for k in 0..pairs.len() {
            rows.open_row(pairs[k].0)?;
            rows.push(pairs[k].1)?;
        }
        rows.finish(blocks)
    }

    /// Copies borrowed rows of `n` blocks.
    ///
    /// # Errors
    ///
    /// If memory runs out.
    pub fn from_view(alloc: Global, n: u32, rows: CsrView<'_>) -> Result<SharedRows, AllocError>
        requires few { length rows.targets.now < 2 ^ 32 }
        requires rows { AreRows n rows }
        ensures blocks { IfOk result (λ r. r.blocks ≡ n) }
        ensures pairs { IfOk result (λ r. r.pairs ≡ pairs_in rows.entry) }
    {
        let mut shared = CsrBuilder::new(alloc)?;
        for u in 0..n {
            shared.open_row(u)?;
            for k in rows.offsets[u as usize]..rows.offsets[u as usize + 1] {
                shared.push(rows.targets[k as usize])?;
            }
        }
        shared.finish(n)
    }

    /// Returns rows with the same arcs that keep all targets.
    ///
    /// # Errors
    ///
    /// If memory runs out.
    pub fn to_rows(&self) -> Result<Csr, AllocError>
        requires { self.now.blocks < 2 ^ 32 }
        ensures blocks { IfOk result (λ r. r.blocks ≡ self.now.blocks) }
        ensures pairs { IfOk result (λ r. r.pairs ≡ self.now.pairs) }
    {
        let alloc = self.alloc();
        let mut targets = vec![in alloc; 0; self.len()]?;
        for u in 0..self.patterns.len() as u32 {
            let row = self.shared_row(u);
            for i in 0..row.differences.len() {
                targets[row.start as usize + i] = u.wrapping_add(row.differences[i]);
            }
        }
        Ok(Csr::from_closed(Vec::from_slice(alloc, &self.offsets)?, targets))
    }

    /// Returns whether the arcs are sorted by (block, target).
    pub(crate) fn is_sorted(&self) -> bool
        requires { self.now.blocks < 2 ^ 32 }
        ensures { IsTrue result ↔ AreRising self.now.pairs }
    {
        for u in 0..self.patterns.len() as u32 {
            let row = self.shared_row(u);
            for i in 1..row.differences.len() {
                let before = u.wrapping_add(row.differences[i - 1]);
                if before >= u.wrapping_add(row.differences[i]) {
                    return false;
                }
            }
        }
        true
    }

    /// Returns the allocator of the rows.
    pub fn alloc(&self) -> Global {
        *self.patterns.allocator()
    }

    /// Returns the number of arcs.
    pub fn len(&self) -> usize
        ensures { result ≡ length self.now.pairs }
    {
        self.offsets[self.patterns.len()] as usize
    }

    /// Returns where each row begins, and after them where the last one ends.
    pub fn offsets(&self) -> &[u32]
        ensures rows { IsCsr self.now.blocks (length self.now.pairs) result.now }
        ensures own { (u k : ℕ) → u < self.now.blocks → k < length self.now.pairs → (first_of self.now.pairs k ≡ u) ↔ ((get_or result.now u 0 ≤ k) × (k < get_or result.now (u + 1) 0)) }
    {
        &self.offsets
    }

    /// Returns how far arcs lead at most.
    pub(crate) fn reach(&self) -> Reach
        requires few { self.now.blocks < 2 ^ 31 }
        requires range { AreInRange self.now.pairs self.now.blocks }
        ensures few { result.ahead < 2 ^ 31 }
        ensures few_back { result.back ≤ 2 ^ 31 }
        ensures reach { LeadAtMost self.now.pairs result.ahead result.back }
    {
        reach_of(&self.differences)
    }

    /// Returns the range of places of a block's arcs.
    pub fn row(&self, u: u32) -> Range<u32>
        requires { u < self.now.blocks }
        ensures order { result.start ≤ result.end }
        ensures inside { result.end ≤ length self.now.pairs }
        ensures own { (k : ℕ) → k < length self.now.pairs → (first_of self.now.pairs k ≡ u) ↔ ((result.start ≤ k) × (k < result.end)) }
    {
        self.offsets[u as usize]..self.offsets[u as usize + 1]
    }

    /// Returns the row of a block.
    pub fn shared_row(&self, u: u32) -> SharedRow<'_>
        requires { u < self.now.blocks }
        ensures inside { result.start + length result.differences.now ≤ length self.now.pairs }
        ensures own { (k : ℕ) → k < length self.now.pairs → (first_of self.now.pairs k ≡ u) ↔ ((result.start ≤ k) × (k < result.start + length result.differences.now)) }
        ensures targets { (i : ℕ) → i < length result.differences.now → target_after u (get_or result.differences.now i 0) ≡ second_of self.now.pairs (result.start + i) }
    {
        let start = self.offsets[u as usize];
        let count = (self.offsets[u as usize + 1] - start) as usize;
        let pattern = self.patterns[u as usize] as usize;
        SharedRow {
            start,
            differences: &self.differences[pattern..pattern + count],
        }
    }

    /// Returns the target of arc `k` of block `u`.
    pub fn target(&self, u: u32, k: u32) -> u32
        requires inside { k < length self.now.pairs }
        requires own { first_of self.now.pairs k ≡ u }
        ensures { result ≡ second_of self.now.pairs k }
    {
        let place = (k - self.offsets[u as usize]) as usize;
        u.wrapping_add(self.differences[self.patterns[u as usize] as usize + place])
    }
}

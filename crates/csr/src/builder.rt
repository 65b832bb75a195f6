//! Builds compressed rows with shared patterns, row by row, and each row target by target.
ghost use Rattle.std.specs.Prelude.{◌≡◌, ℕ, ◌+◌, ◌-◌, ◌^◌, ◌<◌, ◌≤◌, [], ◌∷◌, ◌++◌, length, map, drop, get_or, IfOk, IfErr};
ghost use Rattle.pit_model.specs.Graph.{first_of};

use crate::shared::SharedRows;
use crate::sharing::{SLOTS, share_last};
use std::alloc::{AllocError, Global};
use std::marker::Model;

/// Arcs that are added row by row. The rows of the blocks below `blocks` are closed and share patterns; the row of block `blocks` is
/// open and receives the next targets.
#[derive(Drop)]
pub struct CsrBuilder {
    /// Where the row of each block begins, up to the open one.
    offsets: Vec<u32>,
    /// The differences of closed row u begin at `patterns[u]`.
    patterns: Vec<u32>,
    /// The differences of closed rows, and after them the targets of the open row.
    numbers: Vec<u32>,
    /// The number of differences.
    used: usize,
    /// The pattern of the last closed row.
    guess: usize,
    /// The pattern of the last row with each hash.
    recent: Vec<u32>,
}

impl Model for CsrBuilder {
    ghost use Rattle.std.specs.Prelude.{length};
    ghost use Rattle.pit_model.specs.Graph.{Graph};
    ghost use Rattle.csr.specs.Rows.{pairs_of};
    ghost use Rattle.csr.specs.Built.{built_targets, IsBuilt};

    ghost Value = { Graph };

    ghost view = { λ r. record { blocks = length r.patterns.items; pairs = pairs_of r.offsets.items (built_targets r.offsets.items r.patterns.items r.numbers.items r.used) } };

    ghost invariant = { λ r. IsBuilt r.offsets.items r.patterns.items r.numbers.items r.used r.recent.items };
}

impl CsrBuilder {
    /// Returns a builder without arcs; the row of block 0 is open.
    ///
    /// # Errors
    ///
    /// If memory runs out.
    pub fn new(alloc: Global) -> Result<CsrBuilder, AllocError>
        ensures blocks { IfOk result (λ r. r.blocks ≡ 0) }
        ensures pairs { IfOk result (λ r. r.pairs ≡ []) }
    {
        let mut offsets = Vec::new(alloc);
        offsets.push(0)?;
        let recent = vec![in alloc; 0; SLOTS]?;
        Ok(CsrBuilder {
            offsets,
            patterns: Vec::new(alloc),
            numbers: Vec::new(alloc),
            used: 0,
            guess: 0,
            recent,
        })
    }

    /// Closes the open row, and opens that of the next block.
    ///
    /// # Errors
    ///
    /// If memory runs out; the row is then still open.
    fn close_row(&mut self) -> Result<(), AllocError>
        requires few { length self.old.pairs < 2 ^ 32 }
        requires few_blocks { self.old.blocks < 2 ^ 32 }
        ensures pairs { self.new.pairs ≡ self.old.pairs }
        ensures closed { IfOk result (λ _. self.new.blocks ≡ self.old.blocks + 1) }
        ensures refused { IfErr result (λ _. self.new.blocks ≡ self.old.blocks) }
    {
        let end = self.len() as u32;
        let block = self.patterns.len() as u32;
        self.offsets.reserve(1)?;
        self.patterns.reserve(1)?;
        self.guess = share_last(
            &mut self.numbers,
            block,
            self.used,
            self.guess,
            &mut self.recent,
        );
        self.used = self.numbers.len();
        self.offsets.push_reserved(end);
        self.patterns.push_reserved(self.guess as u32);
        Ok(())
    }

    /// Closes the rows of all blocks below this one, and opens its row.
    ///
    /// # Errors
    ///
    /// If memory runs out; fewer rows are then closed.
    pub fn open_row(&mut self, block: u32) -> Result<(), AllocError>
        requires few { length self.old.pairs < 2 ^ 32 }
        requires order { self.old.blocks ≤ block }
        ensures pairs { self.new.pairs ≡ self.old.pairs }
        ensures upto { self.new.blocks ≤ block }
        ensures row { IfOk result (λ _. self.new.blocks ≡ block) }
    {
        for _ in self.patterns.len()..block as usize {
            self.close_row()?;
        }
        Ok(())
    }

    /// Adds an arc from the block of the open row.
    ///
    /// # Errors
    ///
    /// If memory runs out; nothing is then added.
    pub fn push(&mut self, target: u32) -> Result<(), AllocError>
        ensures added { IfOk result (λ _. self.new.pairs ≡ self.old.pairs ++ (self.old.blocks, target) ∷ []) }
        ensures refused { IfErr result (λ _. self.new.pairs ≡ self.old.pairs) }
        ensures row { self.new.blocks ≡ self.old.blocks }
    {
        self.numbers.push(target)?;
        Ok(())
    }

    /// Returns the number of arcs.
    pub fn len(&self) -> usize
        ensures { result ≡ length self.now.pairs }
    {
        let added = self.numbers.len() - self.used;
        self.offsets[self.patterns.len()] as usize + added
    }

    /// Returns the targets of the arcs from place `begin` on, which are arcs of the open row.
    pub fn targets_from(&self, begin: usize) -> &[u32]
        requires inside { begin ≤ length self.now.pairs }
        requires own { (k : ℕ) → begin ≤ k → k < length self.now.pairs → first_of self.now.pairs k ≡ self.now.blocks }
        ensures { result.now ≡ map (λ q. q.1) (drop begin self.now.pairs) }
    {
        let end = self.numbers.len();
        let count = self.len() - begin;
        &self.numbers[end - count..end]
    }

    /// Closes the rows of all `blocks` blocks. Copies nothing.
    ///
    /// # Errors
    ///
    /// If memory runs out.
    pub fn finish(self, blocks: u32) -> Result<SharedRows, AllocError>
        requires few { length self.pairs < 2 ^ 32 }
        requires order { self.blocks ≤ blocks }
        requires below { (k : ℕ) → k < length self.pairs → first_of self.pairs k < blocks }
        ensures blocks { IfOk result (λ r. r.blocks ≡ blocks) }
        ensures pairs { IfOk result (λ r. r.pairs ≡ self.pairs) }
    {
        let mut rows = self;
        rows.open_row(blocks)?;
        let CsrBuilder {
            offsets,
            patterns,
            mut numbers,
            ..
        } = rows;
        numbers.shrink_to_fit();
        Ok(SharedRows::from_closed(offsets, patterns, numbers))
    }
}

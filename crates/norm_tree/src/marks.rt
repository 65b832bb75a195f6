//! Marks on blocks, and a search for the next marked block. Each run of 64 blocks also has a mark, set if one of its blocks is
//! marked, so that a search skips runs without one.
ghost use Rattle.std.specs.Prelude.{◌≡◌, ℕ, ◌*◌, ◌+◌, ◌^◌, ◌<◌, ◌≤◌, false, true, length, get_or, IsTrue, IfOk, IfErr, IfSome, IsNone};
ghost use Rattle.pit_model.specs.Size.{most_blocks};
ghost use Rattle.faults.specs.Refused.{no_memory};
ghost use Rattle.norm_tree.specs.Runs.{AreInRuns};

use faults::Fault;
use std::alloc::Global;
use std::marker::Model;

/// How many blocks a run has.
const RUN: usize = 64;

/// A mark for each block.
#[derive(Drop)]
pub(crate) struct Marks {
    blocks: Vec<bool>,
    runs: Vec<bool>,
}

impl Model for Marks {
    ghost use Rattle.std.specs.Prelude.{List, Bool, length, ◌<◌, ◌^◌};
    ghost use Rattle.norm_tree.specs.Runs.{AreInRuns};

    ghost Value = { List Bool };

    ghost view = { λ m. m.blocks.items };

    ghost invariant = { λ m. AreInRuns m.blocks.items m.runs.items };
}

/// Returns the first marked place from `from` on and before `to`.
fn first_between(marks: &[bool], from: usize, to: usize) -> Option<usize>
    requires { to ≤ length marks.now }
    ensures marked { IfSome result (λ i. (from ≤ i) × (i < to) × IsTrue (get_or marks.now i false)) }
    ensures before { IfSome result (λ i. (j : ℕ) → from ≤ j → j < i → get_or marks.now j false ≡ false) }
    ensures none { IsNone result → (j : ℕ) → from ≤ j → j < to → get_or marks.now j false ≡ false }
{
    for place in from..to {
        if marks[place] {
            return Some(place);
        }
    }
    None
}

/// Returns the first marked block of the runs from `from` on.
fn first_of_runs(blocks: &[bool], runs: &[bool], from: usize) -> Option<usize>
    requires { AreInRuns blocks.now runs.now }
    ensures marked { IfSome result (λ u. (64 * from ≤ u) × (u < length blocks.now) × IsTrue (get_or blocks.now u false)) }
    ensures before { IfSome result (λ u. (v : ℕ) → 64 * from ≤ v → v < u → get_or blocks.now v false ≡ false) }
    ensures none { IsNone result → (v : ℕ) → 64 * from ≤ v → get_or blocks.now v false ≡ false }
{
    for run in from..runs.len() {
        if runs[run] {
            let start = (run * RUN).min(blocks.len());
            let end = (run * RUN + RUN).min(blocks.len());
            let found = first_between(blocks, start, end);
            if found.is_some() {
                return found;
            }
        }
    }
    None
}

/// Removes the marks from `from` on and before `to`.
fn clear(marks: &mut [bool], from: usize, to: usize)
    requires order { from ≤ to }
    requires inside { to ≤ length marks.old }
    ensures count { length marks.new ≡ length marks.old }
    ensures cleared { (i : ℕ) → from ≤ i → i < to → get_or marks.new i false ≡ false }
    ensures before { (i : ℕ) → i < from → get_or marks.new i false ≡ get_or marks.old i false }
    ensures behind { (i : ℕ) → to ≤ i → get_or marks.new i false ≡ get_or marks.old i false }
{
    for place in from..to {
        marks[place] = false;
    }
}

/// Removes the marks of the runs before `to`, and of their blocks.
fn clear_runs(blocks: &mut [bool], runs: &mut [bool], to: usize)
    requires in_runs { AreInRuns blocks.old runs.old }
    requires inside { 64 * to ≤ length blocks.old }
    ensures in_runs { AreInRuns blocks.new runs.new }
    ensures count { length blocks.new ≡ length blocks.old }
    ensures cleared { (u : ℕ) → u < 64 * to → get_or blocks.new u false ≡ false }
    ensures rest { (u : ℕ) → 64 * to ≤ u → get_or blocks.new u false ≡ get_or blocks.old u false }
{
    for run in 0..to {
        if runs[run] {
            clear(blocks, run * RUN, run * RUN + RUN);
            runs[run] = false;
        }
    }
}

impl Marks {
    /// Returns `count` blocks without a mark.
    ///
    /// # Errors
    ///
    /// If memory runs out.
    pub(crate) fn none(alloc: Global, count: u32) -> Result<Marks, Fault>
        requires few { count ≤ most_blocks }
        ensures count { IfOk result (λ m. length m ≡ count) }
        ensures unmarked { IfOk result (λ m. (u : ℕ) → get_or m u false ≡ false) }
        ensures no_memory { IfErr result (λ e. e ≡ no_memory) }
    {
        let blocks = vec![in alloc; false; count as usize]?;
        let runs = vec![in alloc; false; count as usize / RUN + 1]?;
        Ok(Marks { blocks, runs })
    }

    /// Marks a block.
    pub(crate) fn mark(&mut self, block: u32)
        requires { block < length self.old }
        ensures count { length self.new ≡ length self.old }
        ensures at { get_or self.new block false ≡ true }
        ensures rest { (u : ℕ) → (u ≡ block → ⊥) → get_or self.new u false ≡ get_or self.old u false }
    {
        self.blocks[block as usize] = true;
        self.runs[block as usize / RUN] = true;
    }

    /// Removes the marks of all blocks below one.
    pub(crate) fn clear_below(&mut self, block: u32)
        requires { block ≤ length self.old }
        ensures count { length self.new ≡ length self.old }
        ensures cleared { (u : ℕ) → u < block → get_or self.new u false ≡ false }
        ensures rest { (u : ℕ) → block ≤ u → get_or self.new u false ≡ get_or self.old u false }
    {
        let run = block as usize / RUN;
        clear_runs(&mut self.blocks, &mut self.runs, run);
        clear(&mut self.blocks, run * RUN, block as usize);
    }

    /// Returns the least marked block from `from` on.
    pub(crate) fn next(&self, from: u32) -> Option<u32>
        ensures marked { IfSome result (λ u. (from ≤ u) × (u < length self.now) × IsTrue (get_or self.now u false)) }
        ensures least { IfSome result (λ u. (v : ℕ) → from ≤ v → v < u → get_or self.now v false ≡ false) }
        ensures none { IsNone result → (u : ℕ) → from ≤ u → get_or self.now u false ≡ false }
    {
        let blocks = self.blocks.as_slice();
        let run = from as usize / RUN;
        let end = (run * RUN + RUN).min(blocks.len());
        match first_between(blocks, from as usize, end) {
            Some(block) => Some(block as u32),
            None => Some(first_of_runs(blocks, &self.runs, run + 1)? as u32),
        }
    }
}

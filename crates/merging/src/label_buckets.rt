//! Strong roots in buckets by label: a first-in-first-out list for each label, with one link for each block.
ghost use Rattle.std.specs.Prelude.{◌≡◌, ◌<◌, ◌≤◌, ◌^◌, length, IfOk, IfErr, IfSome};
ghost use Rattle.pit_model.specs.Size.{most_blocks};
ghost use Rattle.faults.specs.Refused.{no_memory};

use faults::Fault;
use std::alloc::Global;
use std::marker::Model;

/// The entry where no block is: no block has this number.
const NONE: u32 = u32::MAX;

/// To a contract it is the number of blocks and the number of labels.
#[derive(Drop)]
pub struct LabelBuckets {
    /// For each label the blocks that came first and last, and for each block the one that came after it.
    first: Vec<u32>,
    last: Vec<u32>,
    next: Vec<u32>,
    /// Each bucket with a block has a label from `lowest` on and below `end`.
    lowest: u16,
    end: u16,
}

impl Model for LabelBuckets {
    ghost use Rattle.std.specs.Prelude.{◌≡◌, ◌<◌, ◌≤◌, ◌^◌, length};
    ghost use Rattle.merging.specs.Order.{Buckets};

    ghost Value = { Buckets };

    ghost view = { λ w. record { blocks = length w.next.items; labels = length w.first.items } };

    ghost invariant = { λ w. (length w.first.items < 2 ^ 16) × (length w.last.items ≡ length w.first.items) × (w.end ≤ length w.first.items) };
}

/// Returns the block of an entry, if it names one of the blocks below `blocks`.
fn named(entry: u32, blocks: usize) -> Option<u32>
    ensures { IfSome result (λ u. u < blocks) }
{
    if (entry as usize) < blocks {
        Some(entry)
    } else {
        None
    }
}

/// Returns the lowest label, from `from` on and below `end`, whose list is not empty.
fn lowest_from(first: &[u32], from: u16, end: u16) -> Option<u16>
    requires { end ≤ length first.now }
    ensures { IfSome result (λ l. l < length first.now) }
{
    for label in from..end {
        if first[label as usize] != NONE {
            return Some(label);
        }
    }
    None
}

impl LabelBuckets {
    /// Returns empty buckets, one for each of the labels below `labels`.
    ///
    /// # Errors
    ///
    /// If memory runs out.
    pub fn new(alloc: Global, blocks: u32, labels: u16) -> Result<LabelBuckets, Fault>
        requires { blocks ≤ most_blocks }
        ensures blocks { IfOk result (λ w. w.blocks ≡ blocks) }
        ensures labels { IfOk result (λ w. w.labels ≡ labels) }
        ensures no_memory { IfErr result (λ e. e ≡ no_memory) }
    {
        Ok(LabelBuckets {
            first: vec![in alloc; NONE; labels as usize]?,
            last: vec![in alloc; NONE; labels as usize]?,
            next: vec![in alloc; NONE; blocks as usize]?,
            lowest: 0,
            end: 0,
        })
    }

    /// Empties all buckets.
    pub fn clear(&mut self)
        ensures { self.new ≡ self.old }
    {
        self.first.fill(NONE);
        self.last.fill(NONE);
        self.lowest = 0;
        self.end = 0;
    }

    /// Appends a block to the bucket of its label.
    pub fn push(&mut self, label: u16, block: u32)
        requires label { label < self.old.labels }
        requires block { block < self.old.blocks }
        ensures { self.new ≡ self.old }
    {
        match named(self.last[label as usize], self.next.len()) {
            Some(before) => self.next[before as usize] = block,
            None => self.first[label as usize] = block,
        }
        self.last[label as usize] = block;
        self.next[block as usize] = NONE;
        self.lowest = self.lowest.min(label);
        self.end = self.end.max(label + 1);
    }

    /// Removes and returns the first block of the lowest label, with that label.
    pub fn pop(&mut self) -> Option<(u16, u32)>
        ensures same { self.new ≡ self.old }
        ensures label { IfSome result (λ r. r.0 < self.old.labels) }
        ensures block { IfSome result (λ r. r.1 < self.old.blocks) }
    {
        let label = lowest_from(&self.first, self.lowest, self.end)?;
        self.lowest = label;
        let block = named(self.first[label as usize], self.next.len())?;
        self.first[label as usize] = self.next[block as usize];
        if self.next[block as usize] == NONE {
            self.last[label as usize] = NONE;
        }
        Some((label, block))
    }
}

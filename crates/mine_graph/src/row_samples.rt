//! Finds the row of a place by binary search between samples: the rows of every 64th place, which take a 64th of the places' memory.
ghost use Rattle.std.specs.Prelude.{◌≡◌, ℕ, ◌+◌, ◌^◌, ◌<◌, ◌≤◌, length, get_or, IfOk};
ghost use Rattle.pit_model.specs.Graph.{AreInRange};
ghost use Rattle.mine_graph.specs.RowSamples.{AreRowSamples};

use csr::SharedRows;
use std::alloc::{AllocError, Global};

/// The number of places from one sample to the next.
pub const STEP: usize = 64;

/// The row from `least` to `most` that a place lies in.
pub fn row_between(starts: &[u32], least: u32, most: u32, place: u32) -> u32
    requires order { least ≤ most }
    requires inside { most + 1 < length starts.now }
    requires few { length starts.now ≤ 2 ^ 31 }
    requires rise { (v w : ℕ) → v ≤ w → w < length starts.now → get_or starts.now v 0 ≤ get_or starts.now w 0 }
    ensures { (v : ℕ) → least ≤ v → v ≤ most → get_or starts.now v 0 ≤ place → place < get_or starts.now (v + 1) 0 → result ≡ v }
{
    let ends = &starts[least as usize + 1..most as usize + 1];
    least + ends.partition_point(|&end| end <= place) as u32
}

/// Returns the sample after `mark`, or the last row without one.
pub fn next_row_sample(row_samples: &[u32], mark: usize, last: u32) -> u32
    requires { mark < length row_samples.now }
    ensures before { mark + 1 < length row_samples.now → result ≡ get_or row_samples.now (mark + 1) 0 }
    ensures behind { length row_samples.now ≤ mark + 1 → result ≡ last }
{
    if mark + 1 < row_samples.len() {
        row_samples[mark + 1]
    } else {
        last
    }
}

/// Samples the row of every 64th place.
pub fn sample_rows(alloc: Global, n: u32, rows: &SharedRows) -> Result<Vec<u32>, AllocError>
    requires few { length rows.now.pairs < 2 ^ 31 }
    requires few_blocks { n < 2 ^ 31 }
    requires range { AreInRange rows.now.pairs n }
    requires blocks { rows.now.blocks ≡ n }
    ensures { IfOk result (λ v. AreRowSamples rows.now.pairs v.items) }
{
    let mut row_samples = Vec::with_capacity(alloc, rows.len() / STEP + 1)?;
    let offsets = rows.offsets();
    let last = n.saturating_sub(1);
    for i in 0..rows.len().div_ceil(STEP) {
        row_samples.push(row_between(offsets, 0, last, (i * STEP) as u32))?;
    }
    Ok(row_samples)
}

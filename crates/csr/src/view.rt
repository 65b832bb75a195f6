//! Compressed rows that borrow their arrays.
ghost use Rattle.std.specs.Prelude.{◌≤◌, ◌<◌, ◌+◌, ◌↔◌, ℕ, IsTrue, length, get_or};
ghost use Rattle.csr.specs.Rows.{RowRises, RowsRise};

/// The targets of the arcs of block u are at the places from `offsets[u]` to before `offsets[u + 1]`.
#[derive(Clone, Copy)]
pub struct CsrView<'a> {
    pub offsets: &'a [u32],
    pub targets: &'a [u32],
}

/// Returns whether the targets from place `begin` to before `end` rise.
fn row_rises(targets: &[u32], begin: usize, end: usize) -> bool
    requires { end ≤ length targets.now }
    ensures { IsTrue result ↔ RowRises targets.now begin end }
{
    for k in begin..end {
        if k > begin && targets[k - 1] >= targets[k] {
            return false;
        }
    }
    true
}

/// Returns whether the targets of each row rise.
pub fn rows_rise(rows: CsrView<'_>) -> bool
    requires { (v : ℕ) → v + 1 < length rows.offsets.now → get_or rows.offsets.now (v + 1) 0 ≤ length rows.targets.now }
    ensures { IsTrue result ↔ RowsRise rows.entry.offsets.now rows.entry.targets.now }
{
    for v in 1..rows.offsets.len() {
        if !row_rises(
            rows.targets,
            rows.offsets[v - 1] as usize,
            rows.offsets[v] as usize,
        ) {
            return false;
        }
    }
    true
}

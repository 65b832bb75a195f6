//! Whether arrays are compressed rows.
ghost use Rattle.std.specs.Prelude.{◌↔◌, IsTrue};
ghost use Rattle.csr.specs.Rows.{IsCsr};

/// Whether these are the offsets of `blocks` rows over `places` places.
pub fn are_rows(blocks: u32, places: usize, offsets: &[u32]) -> bool
    ensures { IsTrue result ↔ IsCsr blocks places offsets.now }
{
    let last = blocks as usize;
    if offsets.len() != last + 1 || offsets[0] != 0 || offsets[last] as usize != places {
        return false;
    }
    for u in 0..last {
        if offsets[u] > offsets[u + 1] {
            return false;
        }
    }
    true
}

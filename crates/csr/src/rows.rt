//! Compressed rows that own their arrays.
ghost use Rattle.std.specs.Prelude.{◌≡◌, ◌↔◌, ℕ, ◌+◌, ◌-◌, ◌^◌, ◌<◌, ◌≤◌, length, get_or, IfOk};
ghost use Rattle.pit_model.specs.Graph.{first_of, second_of};
ghost use Rattle.csr.specs.Rows.{pairs_of, IsCsr};
ghost use Rattle.csr.specs.View.{pairs_in, AreRows};

use crate::view::CsrView;
use std::alloc::{AllocError, Global};
use std::marker::Model;

/// The arcs of blocks 0 to `blocks` - 1, in compressed rows: 4 bytes for each arc and 4 for each block.
#[derive(Drop)]
pub struct Csr {
    /// Row u begins at place `offsets[u]`, and ends before place `offsets[u + 1]`.
    offsets: Vec<u32>,
    targets: Vec<u32>,
}

impl Model for Csr {
    ghost use Rattle.std.specs.Prelude.{◌-◌, length};
    ghost use Rattle.pit_model.specs.Graph.{Graph};
    ghost use Rattle.csr.specs.Rows.{pairs_of, IsCsr};

    ghost Value = { Graph };

    ghost view = { λ r. record { blocks = length r.offsets.items - 1; pairs = pairs_of r.offsets.items r.targets.items } };

    ghost invariant = { λ r. IsCsr (length r.offsets.items - 1) (length r.targets.items) r.offsets.items };
}

impl Csr {
    /// Returns the rows of these arrays.
    pub(crate) fn from_closed(offsets: Vec<u32>, targets: Vec<u32>) -> Csr
        requires { IsCsr (length offsets.items - 1) (length targets.items) offsets.items }
        ensures blocks { result.blocks ≡ length offsets.items - 1 }
        ensures pairs { result.pairs ≡ pairs_of offsets.items targets.items }
    {
        Csr { offsets, targets }
    }

    /// Borrows the rows.
    pub fn view(&self) -> CsrView<'_>
        ensures rows { AreRows self.now.blocks result }
        ensures pairs { pairs_in result ≡ self.now.pairs }
    {
        CsrView {
            offsets: &self.offsets,
            targets: &self.targets,
        }
    }

    /// Returns the allocator of the rows.
    pub fn alloc(&self) -> Global {
        *self.targets.allocator()
    }

    /// Copies the arcs into a list, in order.
    ///
    /// # Errors
    ///
    /// If memory runs out.
    pub fn to_pairs(&self, alloc: Global) -> Result<Vec<(u32, u32)>, AllocError>
        requires { self.now.blocks < 2 ^ 32 }
        ensures { IfOk result (λ v. v.items ≡ self.now.pairs) }
    {
        let mut pairs = Vec::with_capacity(alloc, self.targets.len())?;
        let mut block = 0;
        for k in 0..self.targets.len() {
            while block + 1 < self.offsets.len() && self.offsets[block + 1] as usize <= k {
                block += 1;
            }
            pairs.push((block as u32, self.targets[k]))?;
        }
        Ok(pairs)
    }
}

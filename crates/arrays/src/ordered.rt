//! The mine of rows that rise: there the place of a need is the number of its pair.
ghost use Rattle.std.specs.Prelude.{◌≡◌, ◌↔◌, ◌≤◌, ◌⊎◌, IsTrue, length, get_or, IfOk, IfErr};
ghost use Rattle.faults.specs.declared.refusal.Refusal.TheVariants.{IdOutOfPlace};
ghost use Rattle.csr.specs.Rows.{RowsRise};
ghost use Rattle.arrays.specs.Refused.{RefusesRows};
ghost use Rattle.arrays.specs.Encoded.{EncodesMine};

use crate::array_error::ArrayError;
use crate::mine::mine_of;
use csr::{CsrView, rows_rise};
use faults::Refusal;
use mine_graph::Instance;
use std::alloc::Global;

/// The mine that the arrays encode, whose pairs are numbered by the places of their needs. Refused as `mine_of` is, and where the blocks
/// of a row do not rise (7).
pub fn ordered_mine_of(
    alloc: Global,
    values: &[i64],
    rows: &CsrView<'_>,
) -> Result<Instance, ArrayError>
    ensures encoded { IfOk result (EncodesMine values.now rows.now.offsets.now rows.now.targets.now) }
    ensures refused { IfErr result (λ e. RefusesRows (length values.now) rows.now.offsets.now rows.now.targets.now e.refusal e.place
        ⊎ (e.refusal ≡ IdOutOfPlace) × (e.place ≡ 0) × (RowsRise rows.now.offsets.now rows.now.targets.now → ⊥)) }
{
    let mine = mine_of(alloc, values, rows)?;
    mine.law();
    if !rows_rise(*rows) {
        return Err(ArrayError {
            refusal: Refusal::IdOutOfPlace,
            place: 0,
        });
    }
    Ok(mine)
}

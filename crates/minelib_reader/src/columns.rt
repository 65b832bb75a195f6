//! One attribute of all blocks of a table, where it is nowhere negative.
ghost use Rattle.std.specs.Prelude.{IfOk, IfErr};
ghost use Rattle.minelib_reader.specs.Column.{IsColumn, RefusesColumn};

use crate::blocks::in_blocks;
use crate::table::BlockTable;
use faults::{Fault, Refusal};
use std::alloc::Global;

/// Column k of a table, in millionths. Refused by `NoSuchColumn` where the table has fewer columns, by `NegativeColumn` with
/// the least block that has a negative number there, and by `NoMemory`.
pub fn column(alloc: Global, table: &BlockTable, k: u32) -> Result<Vec<i128>, Fault>
    ensures column { IfOk result (λ v. IsColumn table.now k v.items) }
    ensures refused { IfErr result (λ e. RefusesColumn table.now k e.refusal e) }
{
    if k >= table.width() {
        return Err(in_blocks(Refusal::NoSuchColumn(k), 0));
    }
    let mut values = Vec::new(alloc);
    for id in 0..table.len() {
        let value = table.attribute(id, k);
        if value < 0 {
            return Err(in_blocks(Refusal::NegativeColumn(id), 0));
        }
        values.push(value)?;
    }
    Ok(values)
}

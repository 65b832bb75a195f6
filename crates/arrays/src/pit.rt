//! The pit of a mine that arrays encode, by one thread.
ghost use Rattle.std.specs.Prelude.{◌≡◌, length, IfOk, IfErr};
ghost use Rattle.pit_search.specs.Searched.{IsFound};
ghost use Rattle.arrays.specs.Fixing.{AreForBlocks, RefusesFixing, fixed_by, toward};
ghost use Rattle.arrays.specs.Refused.{RefusesPitArrays};
ghost use Rattle.arrays.specs.Solved.{MarkPit};

use crate::array_error::ArrayError;
use crate::fixing::{first_above, fixed_by, toward};
use crate::marks::write_marks;
use crate::mine::mine_of;
use csr::CsrView;
use faults::Refusal;
use mine_graph::Instance;
use pit_search::{FoundPit, solve_pit_sequential};
use std::alloc::Global;

/// The value of each block in millionths, and which blocks each needs; and of each block, or of none at all, a number that says whether
/// it is fixed.
#[derive(Clone, Copy)]
pub struct MineArrays<'a> {
    pub values: &'a [i64],
    pub rows: CsrView<'a>,
    pub numbers: &'a [u8],
}

/// The pit of a mine with the blocks that the numbers fix: the smallest of the best sets, or the greatest.
fn solve_pit(
    alloc: Global,
    mine: Instance,
    numbers: &[u8],
    greatest: bool,
) -> Result<FoundPit, ArrayError>
    requires { AreForBlocks mine.blocks numbers.now }
    ensures found { IfOk result (IsFound (toward greatest) mine (fixed_by numbers.now)) }
    ensures refused { IfErr result (λ e. RefusesFixing mine.pairs numbers.now e.refusal e.place) }
{
    mine.law();
    let fixed = fixed_by(alloc, mine.graph(), numbers)?;
    match solve_pit_sequential(alloc, mine, &fixed, toward(greatest)) {
        Ok(found) => Ok(found),
        Err(_) => Err(ArrayError {
            refusal: Refusal::NoMemory,
            place: 0,
        }),
    }
}

/// Marks the pit of the mine that the arrays encode, and returns its value. A number of 1 forces its block in, 2 bars it, and 0
/// leaves it open; there may be no numbers at all. Errors: those of `mine_of`; not a mark for each block, or numbers for only some
/// (17); a number above 2 (3); a barred block that is forced in (21). After an error the marks are unchanged.
pub fn mark_pit(
    alloc: Global,
    arrays: &MineArrays<'_>,
    greatest: bool,
    marks: &mut [u8],
) -> Result<i128, ArrayError>
    ensures marked { IfOk result (MarkPit arrays.now.values.now arrays.now.rows.offsets.now arrays.now.rows.targets.now arrays.now.numbers.now greatest marks.new) }
    ensures refused { IfErr result (λ e. RefusesPitArrays (length arrays.now.values.now) arrays.now.rows.offsets.now arrays.now.rows.targets.now arrays.now.numbers.now marks.old e.refusal e.place) }
    ensures kept { IfErr result (λ _. marks.new ≡ marks.old) }
{
    let MineArrays {
        values,
        rows,
        numbers,
    } = *arrays;
    if marks.len() != values.len() || (numbers.len() != 0 && numbers.len() != values.len()) {
        return Err(ArrayError {
            refusal: Refusal::CountsDiffer,
            place: 0,
        });
    }
    let mine = mine_of(alloc, values, &rows)?;
    mine.law();
    if let Some(place) = first_above(numbers, 2) {
        return Err(ArrayError {
            refusal: Refusal::WrongHeader,
            place,
        });
    }
    let found = solve_pit(alloc, mine, numbers, greatest)?;
    write_marks(&found.blocks, marks);
    Ok(found.worth)
}

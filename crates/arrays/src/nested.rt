//! The nested pits of a deposit that arrays encode, by one thread.
ghost use Rattle.std.specs.Prelude.{◌≡◌, map, IfOk, IfErr};
ghost use Rattle.arrays.specs.Nested.{MarkShells};
ghost use Rattle.arrays.specs.Refused.{RefusesFactors, RefusesShellArrays};
ghost use Rattle.arrays.specs.Encoded.{priced_rows};

use crate::array_error::ArrayError;
use crate::columns::columns_of;
use crate::firsts::write_firsts;
use crate::graph::graph_of;
use csr::CsrView;
use faults::Refusal;
use nesting::{Factors, shells_sequential};
use pit_model::Shell;
use std::alloc::{AllocError, Global};

/// The revenue and the cost of each block in millionths, and which blocks each needs.
#[derive(Clone, Copy)]
pub struct DepositArrays<'a> {
    pub revenues: &'a [i64],
    pub costs: &'a [i64],
    pub rows: CsrView<'a>,
}

/// Returns the factors of a list. Errors: the first that is above 100,000, or the first beyond 1,000 (4); the first not greater
/// than the one before (19); lack of memory (1).
fn factors_of(alloc: Global, list: &[u32]) -> Result<Factors, ArrayError>
    ensures list { IfOk result (λ f. f ≡ list.now) }
    ensures refused { IfErr result (λ e. RefusesFactors list.now e.refusal) }
    ensures no_place { IfErr result (λ e. e.place ≡ 0) }
{
    let list = list.iter().copied().collect(alloc)?;
    match Factors::new(list) {
        Ok(factors) => Ok(factors),
        Err(fault) => Err(ArrayError {
            refusal: fault.refusal,
            place: 0,
        }),
    }
}

/// The worths of shells.
fn worths_of(alloc: Global, shells: &[Shell]) -> Result<Vec<i128>, AllocError>
    ensures { IfOk result (λ v. v.items ≡ map (λ (shell : Shell). shell.worth) shells.now) }
{
    let mut worths = Vec::with_capacity(alloc, shells.len())?;
    for shell in shells {
        worths.push(shell.worth)?;
    }
    Ok(worths)
}

/// Writes for each block the number, from 0, of the first factor whose pit holds it, or the number of factors if none does, and
/// returns the value of each factor's pit, in billionths. Errors: not a cost and a number for each revenue (17); those of `mine_of`
/// for its rows; the first amount that is negative (15) or above 10^18 (4); a list of factors that does not increase (19), goes
/// above 100,000 or has more than 1,000 (4); lack of memory (1). After an error the numbers are unchanged.
pub fn mark_shells(
    alloc: Global,
    deposit: &DepositArrays<'_>,
    factors: &[u32],
    firsts: &mut [u32],
) -> Result<Vec<i128>, ArrayError>
    ensures marked { IfOk result (λ worths. MarkShells (priced_rows deposit.now.revenues.now deposit.now.costs.now deposit.now.rows.offsets.now deposit.now.rows.targets.now) factors.now firsts.new worths.items) }
    ensures refused { IfErr result (λ e. RefusesShellArrays (priced_rows deposit.now.revenues.now deposit.now.costs.now deposit.now.rows.offsets.now deposit.now.rows.targets.now) factors.now firsts.old e.refusal e.place) }
    ensures kept { IfErr result (λ _. firsts.new ≡ firsts.old) }
{
    let DepositArrays {
        revenues,
        costs,
        rows,
    } = *deposit;
    if costs.len() != revenues.len() || firsts.len() != revenues.len() {
        return Err(ArrayError {
            refusal: Refusal::CountsDiffer,
            place: 0,
        });
    }
    let graph = graph_of(alloc, revenues.len(), &rows)?;
    let columns = columns_of(alloc, revenues, costs)?;
    columns.law();
    let factors = factors_of(alloc, factors)?;
    factors.law();
    let Ok(shells) = shells_sequential(alloc, &columns, &graph, &factors) else {
        return Err(ArrayError {
            refusal: Refusal::NoMemory,
            place: 0,
        });
    };
    let worths = worths_of(alloc, &shells)?;
    write_firsts(&shells, firsts);
    Ok(worths)
}

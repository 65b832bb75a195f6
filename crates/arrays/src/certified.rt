//! The pit of a mine that arrays encode, with the flow that shows it, by one thread; and the check of such a flow.
ghost use Rattle.std.specs.Prelude.{◌≡◌, ◌↔◌, ◌<◌, ◌≤◌, ℕ, pos, ◌≤ℤ◌, IsTrue, length, get_or, IfOk, IfErr, IfSome, IfNone};
ghost use Rattle.pit_model.specs.Mine.{arcs};
ghost use Rattle.pit_model.specs.Size.{most_pairs};
ghost use Rattle.optimality.specs.Certificate.{IsCertificateOf};
ghost use Rattle.optimality.specs.Check.{AreAmounts};
ghost use Rattle.arrays.specs.Certified.{CertifyMarks, MarkCertified, RefusesCertified, RefusesCertificateArrays, RefusesFlow};

use crate::array_error::ArrayError;
use crate::fixing::{blocks_with, first_above};
use crate::marks::write_marks;
use crate::ordered::ordered_mine_of;
use csr::CsrView;
use faults::{Fault, Refusal};
use merging::{Outcome, solve_single};
use mine_graph::{Fixed, Instance};
use optimality::{Certificate, check};
use std::alloc::Global;

/// The most that an amount on a pair may be, in the unit of the values.
const MOST_AMOUNT: i128 = 1_000_000_000_000_000_000_000_000_000_000;

/// The worth of a pit, and the flow that shows it: an amount for each need, by its place.
#[derive(Drop)]
pub struct Certified {
    pub worth: i128,
    pub flow: Vec<i128>,
}

/// Returns the certificate of a mine. Error: `NoMemory`.
fn certificate_of(alloc: Global, mine: &Instance) -> Result<Certificate, ArrayError>
    ensures certifies { IfOk result (IsCertificateOf mine.now) }
    ensures refused { IfErr result (λ e. (e.refusal ≡ Refusal.NoMemory) × (e.place ≡ 0)) }
{
    match solve_single(alloc, mine, None) {
        Ok(Outcome::Pit(certificate)) => Ok(certificate),
        Ok(Outcome::Exhausted(_)) => unreachable!(),
        Err(_) => Err(ArrayError {
            refusal: Refusal::NoMemory,
            place: 0,
        }),
    }
}

/// Marks the pit of the mine that the arrays encode, and returns its value and the flow that proves it optimal. Errors: those of
/// `mine_of`; 7 if the blocks of a row do not increase; 17 if there is not a mark for each block. After an error the marks are
/// unchanged.
pub fn mark_certified(
    alloc: Global,
    values: &[i64],
    rows: &CsrView<'_>,
    marks: &mut [u8],
) -> Result<Certified, ArrayError>
    ensures marked { IfOk result (λ c. MarkCertified values.now rows.now.offsets.now rows.now.targets.now marks.new c.flow.items c.worth) }
    ensures refused { IfErr result (λ e. RefusesCertified (length values.now) rows.now.offsets.now rows.now.targets.now marks.old e.refusal e.place) }
    ensures kept { IfErr result (λ _. marks.new ≡ marks.old) }
{
    if marks.len() != values.len() {
        return Err(ArrayError {
            refusal: Refusal::CountsDiffer,
            place: 0,
        });
    }
    let mine = ordered_mine_of(alloc, values, rows)?;
    mine.law();
    let certificate = certificate_of(alloc, &mine)?;
    write_marks(&certificate.pit, marks);
    Ok(Certified {
        worth: mine.worth(&certificate.pit),
        flow: certificate.flow,
    })
}

/// The first amount that no pair may have: negative (15), or above 10^30 (4).
fn first_unfit(flow: &[i128]) -> Option<ArrayError>
    requires { length flow.now ≤ most_pairs }
    ensures some { IfSome result (λ e. RefusesFlow flow.now e.refusal e.place) }
    ensures none { IfNone result (AreAmounts flow.now) }
{
    for k in 0..flow.len() {
        let place = k as u32;
        if flow[k] < 0 {
            return Some(ArrayError {
                refusal: Refusal::NegativeColumn(place),
                place,
            });
        }
        if flow[k] > MOST_AMOUNT {
            return Some(ArrayError {
                refusal: Refusal::OverLimit,
                place,
            });
        }
    }
    None
}

/// Whether the flow shows that the marked blocks are the pit of the mine that the arrays encode. Refused as `mark_certified` is; where
/// there is not an amount for each need (17); by a mark above 1 (3), and by an amount that is negative (15) or above 10^30 (4).
pub fn check_marks(
    alloc: Global,
    values: &[i64],
    rows: &CsrView<'_>,
    marks: &[u8],
    flow: Vec<i128>,
) -> Result<bool, ArrayError>
    ensures exact { IfOk result (λ yes. IsTrue yes ↔ CertifyMarks values.now rows.now.offsets.now rows.now.targets.now marks.now flow.items) }
    ensures refused { IfErr result (λ e. RefusesCertificateArrays (length values.now) rows.now.offsets.now rows.now.targets.now marks.now flow.items e.refusal e.place) }
{
    if marks.len() != values.len() || flow.len() != rows.targets.len() {
        return Err(ArrayError {
            refusal: Refusal::CountsDiffer,
            place: 0,
        });
    }
    let mine = ordered_mine_of(alloc, values, rows)?;
    mine.law();
    if let Some(place) = first_above(marks, 1) {
        return Err(ArrayError {
            refusal: Refusal::WrongHeader,
            place,
        });
    }
    if let Some(unfit) = first_unfit(&flow) {
        return Err(unfit);
    }
    let pit = blocks_with(alloc, marks, 1)?;
    match check(alloc, &mine, &Fixed::none(), &Certificate { pit, flow }) {
        Ok(yes) => Ok(yes),
        Err(_) => Err(ArrayError {
            refusal: Refusal::NoMemory,
            place: 0,
        }),
    }
}

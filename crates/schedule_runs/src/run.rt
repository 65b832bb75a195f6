//! The commands `check` and `bound`, from the bytes of texts to the bytes that are written.
ghost use Rattle.std.specs.Prelude.{◌≡◌, ◌<◌, ◌⊎◌, ◌^◌, IfOk, IfErr};
ghost use Rattle.schedule_runs.specs.Refusals.{IsFailedWrite, RefusesBoth, RefusesBoundOf, RefusesTexts};
ghost use Rattle.schedule_runs.specs.Runs.{IsBoundWritten, IsCheckedSchedule, IsCheckedAndBounded};

use crate::problem::read_problem;
use crate::refused::Refused;
use crate::shares::read_shares;
use crate::text::{write_both, write_bound, write_verdict};
use crate::verdict::{Verdict, bound_of, verdict_of};
use minelib_reader::OutBytes;
use std::alloc::Global;

/// The texts of a problem and of its precedence.
#[derive(Clone, Copy)]
pub struct ProblemTexts<'a> {
    pub problem: &'a [u8],
    pub precedence: &'a [u8],
}

/// Writes whether a text is a schedule of a problem, and its value or what refutes it. Returns the verdict.
///
/// # Errors
///
/// The first fault of the texts, the first limit that they break, or lack of memory, with nothing written; and a failed write, with a
/// beginning of the text written.
pub fn run_check<W: OutBytes>(
    alloc: Global,
    texts: ProblemTexts<'_>,
    schedule: &[u8],
    out: &mut W,
) -> Result<Verdict, Refused>
    requires { (W.progress out.old).failures < 2 ^ 63 }
    ensures checked { IfOk result (λ v. IsCheckedSchedule texts.entry.problem.now texts.entry.precedence.now schedule.now v (W.progress out.old) (W.progress out.new)) }
    ensures refused { IfErr result (λ e. ((W.progress out.new ≡ W.progress out.old) × RefusesTexts texts.entry.problem.now texts.entry.precedence.now schedule.now e) ⊎ IsFailedWrite (W.progress out.old) (W.progress out.new) e) }
{
    let problem = read_problem(alloc, texts.problem, texts.precedence)?;
    let shares = read_shares(alloc, &problem, schedule)?;
    let verdict = verdict_of(alloc, &problem, &shares)?;
    match write_verdict(out, verdict) {
        Ok(()) => Ok(verdict),
        Err(_) => Err(Refused::WriteFailed),
    }
}

/// Writes the same as `run_check`, and behind it the bound at prices of limits.
///
/// # Errors
///
/// As `run_check`; after these the first fault of the prices, and the first price or value that is out of range.
pub fn run_check_and_bound<W: OutBytes>(
    alloc: Global,
    texts: ProblemTexts<'_>,
    schedule: &[u8],
    prices: &[u8],
    out: &mut W,
) -> Result<Verdict, Refused>
    requires { (W.progress out.old).failures < 2 ^ 63 }
    ensures checked { IfOk result (λ v. IsCheckedAndBounded texts.entry.problem.now texts.entry.precedence.now schedule.now prices.now v (W.progress out.old) (W.progress out.new)) }
    ensures refused { IfErr result (λ e. ((W.progress out.new ≡ W.progress out.old) × RefusesBoth texts.entry.problem.now texts.entry.precedence.now schedule.now prices.now e) ⊎ IsFailedWrite (W.progress out.old) (W.progress out.new) e) }
{
    let problem = read_problem(alloc, texts.problem, texts.precedence)?;
    let shares = read_shares(alloc, &problem, schedule)?;
    let verdict = verdict_of(alloc, &problem, &shares)?;
    let bound = bound_of(alloc, &problem, prices)?;
    match write_both(out, verdict, bound) {
        Ok(()) => Ok(verdict),
        Err(_) => Err(Refused::WriteFailed),
    }
}

/// Writes the bound of a problem at prices of limits: no schedule is worth more.
///
/// # Errors
///
/// As `run_check_and_bound`.
pub fn run_bound<W: OutBytes>(
    alloc: Global,
    texts: ProblemTexts<'_>,
    prices: &[u8],
    out: &mut W,
) -> Result<(), Refused>
    requires { (W.progress out.old).failures < 2 ^ 63 }
    ensures bounded { IfOk result (λ _. IsBoundWritten texts.entry.problem.now texts.entry.precedence.now prices.now (W.progress out.old) (W.progress out.new)) }
    ensures refused { IfErr result (λ e. ((W.progress out.new ≡ W.progress out.old) × RefusesBoundOf texts.entry.problem.now texts.entry.precedence.now prices.now e) ⊎ IsFailedWrite (W.progress out.old) (W.progress out.new) e) }
{
    let problem = read_problem(alloc, texts.problem, texts.precedence)?;
    let bound = bound_of(alloc, &problem, prices)?;
    match write_bound(out, bound) {
        Ok(()) => Ok(()),
        Err(_) => Err(Refused::WriteFailed),
    }
}

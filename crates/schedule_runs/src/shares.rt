//! The shares of a schedule that a text lists.
ghost use Rattle.std.specs.Prelude.{◌≡◌, ◌<◌, ◌≤◌, ◌*◌, ◌+◌, ◌^◌, ℕ, pos, IfOk, IfErr, IfSome, IfNone, length, get_or};
ghost use Rattle.schedule_model.specs.Schedule.{whole_block};
ghost use Rattle.schedule_runs.specs.Refusals.{RefusesListed, RefusesSchedule, RefusesSums, StaysWhole};
ghost use Rattle.schedule_runs.specs.SharesRead.{AreListed, AreSums, IsLawfulShare, IsListedShare, IsShareOf, SpellsShares, place_of, share_in};

use crate::refused::Refused;
use schedule_texts::parse_shares;
use scheduling::Problem;
use std::alloc::Global;

/// A share of a block, in millionths, that is mined in a period and sent to a destination.
#[derive(Clone, Copy, Debug, PartialEq, Eq)]
pub struct Share {
    pub block: u32,
    pub period: u32,
    pub destination: u32,
    pub amount: u32,
}

/// A whole block, in millionths.
const WHOLE: u32 = 1_000_000;

/// Returns a number, if it is one from 0 on below an end.
fn below(number: i64, end: u32) -> Option<u32>
    ensures some { IfSome result (λ n. (number ≡ pos n) × (n < end)) }
    ensures none { IfNone result ((n : ℕ) → n < end → number ≡ pos n → ⊥) }
{
    if number >= 0 && number < i64::from(end) {
        Some(number as u32)
    } else {
        None
    }
}

/// Returns a share as it is listed, if it is one of a block of the problem.
fn lawful_share(problem: &Problem, numbers: &[i64], j: usize) -> Option<Share>
    requires { 4 * j + 3 < length numbers.now }
    ensures listed { IfSome result (IsListedShare numbers.now j) }
    ensures lawful { IfSome result (IsShareOf problem.now) }
    ensures none { IfNone result (IsLawfulShare problem.now numbers.now j → ⊥) }
{
    let block = below(numbers[4 * j], problem.blocks())?;
    let period = below(numbers[4 * j + 1], problem.periods())?;
    let destination = below(numbers[4 * j + 2], problem.destinations())?;
    let amount = below(numbers[4 * j + 3], WHOLE + 1)?;
    Some(Share {
        block,
        period,
        destination,
        amount,
    })
}

/// Returns the shares that are listed.
fn listed_shares(alloc: Global, problem: &Problem, numbers: &[i64]) -> Result<Vec<Share>, Refused>
    requires { (count : ℕ) × (length numbers.now ≡ count * 4) }
    ensures listed { IfOk result (λ v. AreListed problem.now numbers.now v.items) }
    ensures refused { IfErr result (RefusesListed problem.now numbers.now) }
{
    let mut listed = Vec::new(alloc);
    for j in 0..numbers.len() / 4 {
        match lawful_share(problem, numbers, j) {
            Some(share) => listed.push(share)?,
            None => return Err(Refused::NoShare(j as u64)),
        }
    }
    Ok(listed)
}

/// Returns where a share stands in the list of all shares.
fn place_of(problem: &Problem, share: Share) -> usize
    requires { IsShareOf problem.now share }
    ensures place { result ≡ place_of problem.now share }
    ensures inside { result < problem.now.periods * problem.now.blocks * problem.now.destinations }
{
    problem.law();
    let node = share.period as usize * problem.blocks() as usize + share.block as usize;
    node * problem.destinations() as usize + share.destination as usize
}

/// Adds a share to those before it.
fn add_share(
    problem: &Problem,
    listed: &[Share],
    j: usize,
    shares: &mut [u32],
) -> Result<(), Refused>
    requires inside { j < length listed.now }
    requires lawful { IsShareOf problem.now (share_in listed.now j) }
    requires before { AreSums problem.now listed.now j shares.old }
    ensures sums { IfOk result (λ _. AreSums problem.now listed.now (j + 1) shares.new) }
    ensures whole { IfOk result (λ _. StaysWhole problem.now listed.now j) }
    ensures refused { IfErr result (λ e. (e ≡ Refused.ShareAbove j) × (StaysWhole problem.now listed.now j → ⊥)) }
{
    let share = listed[j];
    let place = place_of(problem, share);
    let sum = shares[place] + share.amount;
    if sum > WHOLE {
        return Err(Refused::ShareAbove(j as u64));
    }
    shares[place] = sum;
    Ok(())
}

/// Returns all shares: at each place the sum of those that are listed there.
fn sums_of(alloc: Global, problem: &Problem, listed: &[Share]) -> Result<Vec<u32>, Refused>
    requires { (j : ℕ) → j < length listed.now → IsShareOf problem.now (share_in listed.now j) }
    ensures sums { IfOk result (λ v. AreSums problem.now listed.now (length listed.now) v.items) }
    ensures refused { IfErr result (RefusesSums problem.now listed.now) }
{
    problem.law();
    let nodes = problem.periods() as usize * problem.blocks() as usize;
    let mut shares = vec![in alloc; 0; nodes * problem.destinations() as usize]?;
    for j in 0..listed.len() {
        add_share(problem, listed, j, &mut shares)?;
    }
    Ok(shares)
}

/// Returns the shares of a problem's blocks that a text spells.
///
/// # Errors
///
/// The first fault of the text, the first share that is not of a block of the problem, the first with which more than a whole block is at one
/// place, or lack of memory.
pub(crate) fn read_shares(
    alloc: Global,
    problem: &Problem,
    text: &[u8],
) -> Result<Vec<u32>, Refused>
    ensures spelled { IfOk result (λ v. SpellsShares text.now problem.now v.items) }
    ensures refused { IfErr result (RefusesSchedule problem.now text.now) }
{
    let (blocks, periods) = (problem.blocks(), problem.periods());
    let numbers = match parse_shares(alloc, blocks, periods, problem.destinations(), text) {
        Ok(numbers) => numbers,
        Err(fault) => return Err(Refused::Schedule(fault)),
    };
    let listed = listed_shares(alloc, problem, &numbers)?;
    sums_of(alloc, problem, &listed)
}

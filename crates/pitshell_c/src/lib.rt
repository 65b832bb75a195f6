//! What C calls: each export tests what it needs, and answers 0 or the number of a refusal (docs/FORMATS.md). `include/pitshell.h`
//! says the same for who writes C.
#![tactic(auto)]

ghost use Rattle.std.specs.Prelude.{◌≡◌, ◌≢◌, ◌↔◌, ◌<◌, ◌+ℤ◌, ◌*ℤ◌, ◌^◌, pos, ℤ, false, IsTrue, List, length};
ghost use Rattle.faults.specs.Words.{number_of};
ghost use Rattle.faults.specs.declared.refusal.Refusal.{Refusal as AnyRefusal};
ghost use Rattle.arrays.specs.Certified.{CertifyMarks, IsRefusedCertified, IsRefusedCheck, MarkCertified};
ghost use Rattle.arrays.specs.Cycles.{EncodeNoCycle, WritesCycle};
ghost use Rattle.arrays.specs.Nested.{MarkShells};
ghost use Rattle.arrays.specs.Halves.{AreHalves};
ghost use Rattle.arrays.specs.Refused.{IsRefusedBy, IsRefusedShells, RefusesRows};
ghost use Rattle.arrays.specs.Solved.{MarkPit};
ghost use Rattle.arrays.specs.Encoded.{priced_rows};

use arrays::{
    ArrayError, Certified, CsrView, DepositArrays, Halves, MineArrays, check_marks, find_cycle,
    have_room, join_halves, mark_certified, mark_pit, mark_shells, split_i128, write_halves,
};
use faults::Refusal;
use std::alloc::Global;

/// What a call found: the worth of the pit in millionths, which is `worth_high` times 2^64 plus `worth_low`; and of a refusal the
/// place of the array of needed blocks where it lies, else 0.
#[repr(C)]
#[derive(Drop)]
pub struct PitshellFound {
    pub worth_high: i64,
    pub worth_low: u64,
    pub place: u32,
}

impl PitshellFound {
    /// What is found where a pit is: its worth.
    fn worth(worth: i128) -> PitshellFound
        ensures worth { pos (2 ^ 64) *ℤ result.worth_high +ℤ pos result.worth_low ≡ worth }
        ensures place { result.place ≡ 0 }
    {
        let Halves { high, low } = split_i128(worth);
        PitshellFound {
            worth_high: high,
            worth_low: low,
            place: 0,
        }
    }

    /// What is found of a refusal: its place.
    fn refused(place: u32) -> PitshellFound
        ensures place { result.place ≡ place }
        ensures worth { (result.worth_high ≡ pos 0) × (result.worth_low ≡ 0) }
    {
        PitshellFound {
            worth_high: 0,
            worth_low: 0,
            place,
        }
    }
}

/// Finds the pit of the mine that the arrays encode. Block u is worth `values[u]` millionths, and needs the blocks `needs[k]` for k
/// from `starts[u]` up to, and without, `starts[u + 1]`. `numbers[u]` is 1 if block u is forced in, 2 if it is barred, otherwise 0;
/// there may be no numbers at all. Of the best sets it is the minimal, or the maximal one. If the result is 0, `marks[u]` is 1 for
/// each block u of the pit, and 0 for all others.
#[unsafe(no_mangle)]
pub extern "C" fn pitshell_solve(
    alloc: Global,
    values: &[i64],
    starts: &[u32],
    needs: &[u32],
    numbers: &[u8],
    greatest: bool,
    marks: &mut [u8],
    found: &mut PitshellFound,
) -> u32
    ensures solved { result ≡ 0 → MarkPit values.now starts.now needs.now numbers.now greatest marks.new (pos (2 ^ 64) *ℤ found.new.worth_high +ℤ pos found.new.worth_low) }
    ensures refused { result ≢ 0 → IsRefusedBy (length values.now) starts.now needs.now numbers.now marks.old result found.new.place }
    ensures kept { result ≢ 0 → marks.new ≡ marks.old }
    ensures no_worth { result ≢ 0 → (found.new.worth_high ≡ pos 0) × (found.new.worth_low ≡ 0) }
    ensures no_place { result ≡ 0 → found.new.place ≡ 0 }
{
    let arrays = MineArrays {
        values,
        rows: CsrView {
            offsets: starts,
            targets: needs,
        },
        numbers,
    };
    match mark_pit(alloc, &arrays, greatest, marks) {
        Ok(worth) => {
            *found = PitshellFound::worth(worth);
            0
        }
        Err(unsound) => {
            *found = PitshellFound::refused(unsound.place);
            unsound.refusal.number()
        }
    }
}

/// Finds the nested pits of the deposit that the arrays encode. Block u yields `revenues[u]` and costs `costs[u]` millionths, and
/// needs blocks as in `pitshell_solve`; at a factor f it is worth f * revenue - 1000 * cost, in billionths. If the result is 0,
/// `firsts[u]` is the number, from 0, of the first factor whose pit holds block u, or the number of factors if none does. The pit
/// of factor k is worth `worths_high[k]` times 2^64 plus `worths_low[k]`.
#[unsafe(no_mangle)]
pub extern "C" fn pitshell_shells(
    alloc: Global,
    revenues: &[i64],
    costs: &[i64],
    starts: &[u32],
    needs: &[u32],
    factors: &[u32],
    firsts: &mut [u32],
    worths_high: &mut [i64],
    worths_low: &mut [u64],
    place: &mut u32,
) -> u32
    ensures solved { result ≡ 0 → (amounts : List ℤ) × AreHalves amounts worths_high.new worths_low.new × MarkShells (priced_rows revenues.now costs.now starts.now needs.now) factors.now firsts.new amounts }
    ensures refused { result ≢ 0 → IsRefusedShells (priced_rows revenues.now costs.now starts.now needs.now) factors.now firsts.old worths_high.old worths_low.old result place.new }
    ensures kept { result ≢ 0 → (firsts.new ≡ firsts.old) × (worths_high.new ≡ worths_high.old) × (worths_low.new ≡ worths_low.old) }
    ensures no_place { result ≡ 0 → place.new ≡ 0 }
{
    *place = 0;
    if !have_room(factors.len(), worths_high, worths_low) {
        return Refusal::CountsDiffer.number();
    }
    let deposit = DepositArrays {
        revenues,
        costs,
        rows: CsrView {
            offsets: starts,
            targets: needs,
        },
    };
    match mark_shells(alloc, &deposit, factors, firsts) {
        Ok(worths) => {
            write_halves(&worths, worths_high, worths_low);
            0
        }
        Err(ArrayError { refusal, place: at }) => {
            *place = at;
            refusal.number()
        }
    }
}

/// The pit of the mine that the arrays encode, as `pitshell_solve` finds the smallest, with the flow that shows it: on the pair of the need
/// at place k flow `flow_high[k]` times 2^64 plus `flow_low[k]` millionths. The blocks of each row rise.
#[unsafe(no_mangle)]
pub extern "C" fn pitshell_certificate(
    alloc: Global,
    values: &[i64],
    starts: &[u32],
    needs: &[u32],
    marks: &mut [u8],
    flow_high: &mut [i64],
    flow_low: &mut [u64],
    found: &mut PitshellFound,
) -> u32
    ensures solved { result ≡ 0 → (amounts : List ℤ) × AreHalves amounts flow_high.new flow_low.new
        × MarkCertified values.now starts.now needs.now marks.new amounts (pos (2 ^ 64) *ℤ found.new.worth_high +ℤ pos found.new.worth_low) }
    ensures refused { result ≢ 0 → IsRefusedCertified (length values.now) starts.now needs.now marks.old flow_high.old flow_low.old result found.new.place }
    ensures kept { result ≢ 0 → (marks.new ≡ marks.old) × (flow_high.new ≡ flow_high.old) × (flow_low.new ≡ flow_low.old) }
    ensures no_worth { result ≢ 0 → (found.new.worth_high ≡ pos 0) × (found.new.worth_low ≡ 0) }
    ensures no_place { result ≡ 0 → found.new.place ≡ 0 }
{
    if !have_room(needs.len(), flow_high, flow_low) {
        *found = PitshellFound::refused(0);
        return Refusal::CountsDiffer.number();
    }
    match mark_certified(
        alloc,
        values,
        &CsrView {
            offsets: starts,
            targets: needs,
        },
        marks,
    ) {
        Ok(Certified { worth, flow }) => {
            write_halves(&flow, flow_high, flow_low);
            *found = PitshellFound::worth(worth);
            0
        }
        Err(ArrayError { refusal, place }) => {
            *found = PitshellFound::refused(place);
            refusal.number()
        }
    }
}

/// Checks whether a flow, from any solver, proves that the marked blocks are the pit of the mine that the arrays encode. Positions,
/// parts and rows are as in `pitshell_certificate`. If the result is 0, `yes` says so.
#[unsafe(no_mangle)]
pub extern "C" fn pitshell_check(
    alloc: Global,
    values: &[i64],
    starts: &[u32],
    needs: &[u32],
    marks: &[u8],
    flow_high: &[i64],
    flow_low: &[u64],
    yes: &mut bool,
    place: &mut u32,
) -> u32
    ensures answered { result ≡ 0 → (amounts : List ℤ) × AreHalves amounts flow_high.now flow_low.now
        × (IsTrue yes.new ↔ CertifyMarks values.now starts.now needs.now marks.now amounts) }
    ensures refused { result ≢ 0 → IsRefusedCheck (length values.now) starts.now needs.now marks.now flow_high.now flow_low.now result place.new }
    ensures no { result ≢ 0 → yes.new ≡ false }
    ensures no_place { result ≡ 0 → place.new ≡ 0 }
{
    *yes = false;
    *place = 0;
    if !have_room(needs.len(), flow_high, flow_low) {
        return Refusal::CountsDiffer.number();
    }
    let Ok(flow) = join_halves(alloc, flow_high, flow_low) else {
        return Refusal::NoMemory.number();
    };
    match check_marks(
        alloc,
        values,
        &CsrView {
            offsets: starts,
            targets: needs,
        },
        marks,
        flow,
    ) {
        Ok(answer) => {
            *yes = answer;
            0
        }
        Err(ArrayError { refusal, place: at }) => {
            *place = at;
            refusal.number()
        }
    }
}

/// Finds a cycle in the rows, for which the other calls refuse them. If the result is 0, `count` is the number of its blocks: each
/// needs the next, and the last needs the first. `cycle` begins with them, as far as there is room. Without a cycle `count` is 0
/// and `cycle` is unchanged.
#[unsafe(no_mangle)]
pub extern "C" fn pitshell_cycle(
    alloc: Global,
    blocks: usize,
    starts: &[u32],
    needs: &[u32],
    cycle: &mut [u32],
    count: &mut usize,
    place: &mut u32,
) -> u32
    ensures none { result ≡ 0 → count.new ≡ 0 → EncodeNoCycle blocks starts.now needs.now }
    ensures unwritten { result ≡ 0 → count.new ≡ 0 → cycle.new ≡ cycle.old }
    ensures some { result ≡ 0 → 0 < count.new → WritesCycle blocks starts.now needs.now cycle.new count.new }
    ensures refused { result ≢ 0 → (refusal : AnyRefusal) × (result ≡ number_of refusal) × RefusesRows blocks starts.now needs.now refusal place.new }
    ensures kept { result ≢ 0 → cycle.new ≡ cycle.old }
    ensures no_blocks { result ≢ 0 → count.new ≡ 0 }
    ensures no_place { result ≡ 0 → place.new ≡ 0 }
{
    *count = 0;
    *place = 0;
    match find_cycle(
        alloc,
        blocks,
        &CsrView {
            offsets: starts,
            targets: needs,
        },
        cycle,
    ) {
        Ok(None) => 0,
        Ok(Some(found)) => {
            *count = found;
            0
        }
        Err(ArrayError { refusal, place: id }) => {
            *place = id;
            refusal.number()
        }
    }
}

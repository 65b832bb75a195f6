//! Finds rows whose differences from block to targets are equal, and writes the differences of these rows once, over the targets.
//! Two guesses are tried for each row: the pattern of the row before, and that of the last row with the same hash. If both fail, its
//! differences are written, and no proof needs that they are new.
ghost use Rattle.std.specs.Prelude.{◌≡◌, ℕ, ◌+◌, ◌-◌, ◌^◌, ◌<◌, ◌≤◌, IsTrue, length, get_or};
ghost use Rattle.csr.specs.Shared.{LeadTo};

/// The number of patterns whose places are kept.
pub(crate) const SLOTS: usize = 1024;

/// A row whose targets are at the places from `begin` to before `end`.
#[derive(Clone, Copy)]
struct Span {
    block: u32,
    begin: usize,
    end: usize,
}

/// Returns whether the differences from `pattern` on lead to the targets of the row.
fn leads_to(numbers: &[u32], pattern: usize, row: Span) -> bool
    requires order { row.begin ≤ row.end }
    requires inside { row.end ≤ length numbers.now }
    requires pattern { pattern ≤ row.begin }
    ensures { IsTrue result → LeadTo numbers.now pattern row.block numbers.now row.begin row.end }
{
    for k in row.begin..row.end {
        let difference = numbers[pattern + (k - row.begin)];
        if row.block.wrapping_add(difference) != numbers[k] {
            return false;
        }
    }
    true
}

/// Writes the differences of the row from `pattern` on, which may reach into the row.
fn write_pattern(numbers: &mut [u32], pattern: usize, row: Span)
    requires order { row.begin ≤ row.end }
    requires inside { row.end ≤ length numbers.old }
    requires pattern { pattern ≤ row.begin }
    ensures leads { LeadTo numbers.new pattern row.block numbers.old row.begin row.end }
    ensures before { (k : ℕ) → k < pattern → get_or numbers.new k 0 ≡ get_or numbers.old k 0 }
    ensures after { (k : ℕ) → row.end ≤ k → get_or numbers.new k 0 ≡ get_or numbers.old k 0 }
{
    for k in row.begin..row.end {
        numbers[pattern + (k - row.begin)] = numbers[k].wrapping_sub(row.block);
    }
}

/// Returns a number below `SLOTS` that depends on the differences of the row.
fn slot_of(numbers: &[u32], row: Span) -> usize
    requires { row.end ≤ length numbers.now }
    ensures { result < 1024 }
{
    let mut hash = 0u32;
    for k in row.begin..row.end {
        let difference = numbers[k].wrapping_sub(row.block);
        hash = (hash ^ difference).wrapping_mul(0x9E37_79B1);
    }
    (hash >> 22) as usize
}

/// Returns the place of a pattern of the row: `guess`, or the place at its slot, if either leads to its targets; otherwise `used`,
/// where it writes the differences.
fn share_row(numbers: &mut [u32], row: Span, used: usize, guess: usize, recent: &mut [u32]) -> usize
    requires order { row.begin ≤ row.end }
    requires inside { row.end ≤ length numbers.old }
    requires used { used ≤ row.begin }
    requires few { used < 2 ^ 32 }
    requires slots { length recent.old ≡ 1024 }
    ensures leads { LeadTo numbers.new result row.block numbers.old row.begin row.end }
    ensures inside { result ≤ used }
    ensures before { (k : ℕ) → k < used → get_or numbers.new k 0 ≡ get_or numbers.old k 0 }
    ensures after { (k : ℕ) → row.end ≤ k → get_or numbers.new k 0 ≡ get_or numbers.old k 0 }
{
    let count = row.end - row.begin;
    if count <= used && guess <= used - count && leads_to(numbers, guess, row) {
        return guess;
    }
    let slot = slot_of(numbers, row);
    let place = recent[slot] as usize;
    if count <= used && place <= used - count && leads_to(numbers, place, row) {
        return place;
    }
    write_pattern(numbers, used, row);
    recent[slot] = used as u32;
    used
}

/// Shares the row of `block`, whose targets are the numbers from `begin` on. Returns the place of its pattern; its differences take
/// the place of the targets if no earlier pattern leads to them, and are removed otherwise.
pub(crate) fn share_last(
    numbers: &mut Vec<u32>,
    block: u32,
    begin: usize,
    guess: usize,
    recent: &mut [u32],
) -> usize
    requires begin { begin ≤ length numbers.old.items }
    requires few { begin < 2 ^ 32 }
    requires slots { length recent.old ≡ 1024 }
    ensures leads { LeadTo numbers.new.items result block numbers.old.items begin (length numbers.old.items) }
    ensures inside { result + (length numbers.old.items - begin) ≤ length numbers.new.items }
    ensures place { result ≤ begin }
    ensures kept { begin ≤ length numbers.new.items }
    ensures upto { length numbers.new.items ≤ length numbers.old.items }
    ensures before { (k : ℕ) → k < begin → get_or numbers.new.items k 0 ≡ get_or numbers.old.items k 0 }
{
    let row = Span {
        block,
        begin,
        end: numbers.len(),
    };
    let place = share_row(numbers, row, begin, guess, recent);
    numbers.truncate(begin.max(place + (row.end - row.begin)));
    place
}

//! The text of a precedence file (`.prec`): for a block a line with its id, how many blocks it needs, and these.
//! Each line is checked in the order of `specs/Prec.antt`; the first fault ends the reading.
//! Blocks seen on a line are marked by its id plus one, so that ids, which rise, need no clearing of the marks; as long as the
//! blocks of a line rise, none can stand twice, and none is marked.
ghost use Rattle.std.specs.Prelude.{◌≡◌, ◌≢◌, ◌==◌, if◌then◌else◌, ◌↔◌, ℕ, List, ◌≤◌, ◌+◌, ◌<◌, ◌^◌, ◌++◌, [], length, map, IfOk, IfErr, Ok, Err};
ghost use Rattle.std.specs.Io.KnownBytes.{Keeps};
ghost use Rattle.std.specs.List.{All};
ghost use Rattle.faults.specs.Refused.{no_memory};
ghost use Rattle.faults.specs.declared.fault.Fault.{Fault as AnyFault};
ghost use Rattle.faults.specs.declared.refusal.Refusal.TheVariants.{OverLimit, WrongFieldCount};
ghost use Rattle.faults.specs.declared.source.Source.TheVariants as sources;
ghost use Rattle.pit_model.specs.Size.{most_pairs};
ghost use Rattle.minelib_reader.specs.Answer.{Gives, Answers, AnswersBy, FailsBy, FailsAt};
ghost use Rattle.minelib_reader.specs.Marks.{AddsFirst, AddsLine, AddsRows, AreMarked, AreRowsSoFar, with_pairs};
ghost use Rattle.minelib_reader.specs.Number.{whole_of};
ghost use Rattle.minelib_reader.specs.Prec.{in_precedence, need_of, needs_from, front_of, needs_line, pairs_from, pairs_of_line, prec_of};
ghost use Rattle.minelib_reader.specs.PrecFault.{IsFirstPrecFault};
ghost use Rattle.minelib_reader.specs.PrecGrammar.{SpellsPrec};
ghost use Rattle.minelib_reader.specs.PrecLimits.{ArePrecedences};
ghost use Rattle.minelib_reader.specs.Text.{Row as AnyRow, row, rows_at, lines_at, fields_of};

use crate::device::InBytes;
use crate::limits::MOST_PAIRS;
use crate::lines::{count_fields, has_fields, next_whole, plain_whole};
use crate::pieces::{read_past, read_piece};
use crate::rows::{Row, TextRows};
use csr::{CsrBuilder, SharedRows};
use faults::{Fault, Refusal, Source};
use std::alloc::{AllocError, Global};

/// The most lines that are numbered, which is more than any file has.
const MOST_LINES: u64 = (1 << 63) - 1;

/// What a line needs to know of the lines before: how many there are, the least id that it may have, and how many pairs they have.
#[derive(Clone, Copy)]
struct Before {
    line: u64,
    from: u32,
    total: u64,
}

/// There are no lines before the first.
const AT_FIRST: Before = Before {
    line: 0,
    from: 0,
    total: 0,
};

/// The front of a line, and the part of it that names the predecessors.
#[derive(Clone, Copy)]
struct PrecFront<'a> {
    id: u32,
    count: u64,
    rest: &'a [u8],
}

fn in_precedence(refusal: Refusal, line: u64) -> Fault
    ensures { result ≡ in_precedence refusal line }
{
    Fault::at_line(Source::Precedence, refusal, line)
}

/// A block, how many blocks there are, and the line that names the predecessors of the block.
#[derive(Clone, Copy)]
struct Block {
    n: u32,
    id: u32,
    line: u64,
}

/// One predecessor of a block, by the whole number of its field; marks show the predecessors that were seen on its line.
#[tactic(auto, unfolding(crate::specs::Prec::need_of))]
fn read_need(block: Block, marks: &[u32], whole: Option<u64>) -> Result<u32, Fault>
    requires sizes { length marks.now ≡ block.n }
    requires known { block.id < block.n }
    ensures gives { (seen field : List ℕ) → whole ≡ whole_of field → AreMarked block.n block.id marks.now seen → Gives (λ p. p) result (need_of block.n block.id block.line seen field) }
    ensures below { IfOk result (λ p. p < block.n) }
{
    let Some(p) = whole else {
        return Err(in_precedence(Refusal::NotWhole, block.line));
    };
    if p >= u64::from(block.n) {
        return Err(in_precedence(Refusal::PredecessorOutOfRange, block.line));
    }
    let p = p as u32;
    if p == block.id {
        return Err(in_precedence(Refusal::NeedsItself, block.line));
    }
    if marks[p as usize] == block.id + 1 {
        return Err(in_precedence(Refusal::PredecessorTwice, block.line));
    }
    Ok(p)
}

/// Adds the pairs of a block as long as its predecessors rise, so that none stands twice and no mark is wanted. Answers what is left
/// of the text, or that memory was refused.
fn push_rising<'a>(block: Block, text: &'a [u8], needs: &mut CsrBuilder) -> Result<&'a [u8], Fault>
    requires known { block.id < block.n }
    requires row { needs.old.blocks ≡ block.id }
    ensures ok { IfOk result (λ rest. AddsFirst block.n block.id (fields_of text.now) (fields_of rest.now) needs.old.pairs needs.new.pairs) }
    ensures err { IfErr result (λ e. e ≡ no_memory) }
    ensures row { needs.new.blocks ≡ block.id }
{
    let mut least = 0u64;
    let mut rest = text;
    while let Some((p, behind)) = plain_whole(rest) {
        if p < least || p >= u64::from(block.n) || p == u64::from(block.id) {
            break;
        }
        needs.push(p as u32)?;
        least = p + 1;
        rest = behind;
    }
    Ok(rest)
}

/// Marks the blocks that a block needs.
fn mark_needs(block: Block, needs: &[u32], marks: &mut Vec<u32>)
    requires sizes { length marks.old.items ≡ block.n }
    requires known { block.id < block.n }
    requires below { All (λ p. p < block.n) needs.now }
    requires old_marks { All (λ m. m ≤ block.id) marks.old.items }
    ensures marked { AreMarked block.n block.id marks.new.items needs.now }
    ensures sizes { length marks.new.items ≡ block.n }
    ensures new_marks { All (λ m. m ≤ block.id + 1) marks.new.items }
{
    for i in 0..needs.len() {
        marks[needs[i] as usize] = block.id + 1;
    }
}

/// Adds the pairs of a block, from left to right, after those of the blocks that are marked. Predecessors that were seen are
/// marked, in any order.
fn push_marked(
    block: Block,
    marks: &mut Vec<u32>,
    text: &[u8],
    needs: &mut CsrBuilder,
) -> Result<(), Fault>
    requires sizes { length marks.old.items ≡ block.n }
    requires known { block.id < block.n }
    requires row { needs.old.blocks ≡ block.id }
    requires old_marks { All (λ m. m ≤ block.id + 1) marks.old.items }
    ensures ok { IfOk result (λ _. (seen : List ℕ) → AreMarked block.n block.id marks.old.items seen
        → (ps : List ℕ) × (needs_from block.n block.id block.line seen (fields_of text.now) ≡ Ok ps) × (needs.new.pairs ≡ needs.old.pairs ++ pairs_of_line block.id ps)) }
    ensures err { IfErr result (λ e. (seen : List ℕ) → AreMarked block.n block.id marks.old.items seen → FailsBy e.refusal e (needs_from block.n block.id block.line seen (fields_of text.now))) }
    ensures sizes { length marks.new.items ≡ block.n }
    ensures new_marks { All (λ m. m ≤ block.id + 1) marks.new.items }
    ensures row { needs.new.blocks ≡ block.id }
{
    let mut rest = text;
    while let Some((whole, behind)) = next_whole(rest) {
        let p = read_need(block, marks, whole)?;
        marks[p as usize] = block.id + 1;
        needs.push(p)?;
        rest = behind;
    }
    Ok(())
}

/// Opens the row of a block and adds its pairs, from left to right; answers how many they are. No mark is wanted as long as predecessors rise; from
/// the first on that does not, those before are marked.
fn read_needs(
    block: Block,
    marks: &mut Vec<u32>,
    text: &[u8],
    needs: &mut CsrBuilder,
) -> Result<u64, Fault>
    requires sizes { length marks.old.items ≡ block.n }
    requires known { block.id < block.n }
    requires few { length needs.old.pairs < 2 ^ 32 }
    requires order { needs.old.blocks ≤ block.id }
    requires old_marks { All (λ m. m ≤ block.id) marks.old.items }
    ensures ok { IfOk result (λ _. (ps : List ℕ) × (needs_from block.n block.id block.line [] (fields_of text.now) ≡ Ok ps) × (needs.new.pairs ≡ needs.old.pairs ++ pairs_of_line block.id ps)) }
    ensures named { IfOk result (λ named. named ≡ length (fields_of text.now)) }
    ensures err { IfErr result (λ e. FailsBy e.refusal e (needs_from block.n block.id block.line [] (fields_of text.now))) }
    ensures sizes { length marks.new.items ≡ block.n }
    ensures new_marks { All (λ m. m ≤ block.id + 1) marks.new.items }
    ensures row { IfOk result (λ _. needs.new.blocks ≡ block.id) }
{
    needs.open_row(block.id)?;
    let before = needs.len();
    let rest = push_rising(block, text, needs)?;
    if has_fields(rest) {
        mark_needs(block, needs.targets_from(before), marks);
        push_marked(block, marks, rest, needs)?;
    }
    Ok((needs.len() - before) as u64)
}

/// The fault of a line with too many predecessors in all, as it says itself.
fn over_limit(line: u64, count: u64, rest: &[u8]) -> Fault
    ensures { result ≡ in_precedence (if length (fields_of rest.now) == count then OverLimit else WrongFieldCount) line }
{
    if count_fields(rest) as u64 != count {
        return in_precedence(Refusal::WrongFieldCount, line);
    }
    in_precedence(Refusal::OverLimit, line)
}

/// The id of a line and how many predecessors it names, checked up to these. Their actual number the caller finds as it reads them.
#[tactic(auto, unfolding(crate::specs::Prec::front_of))]
fn read_front<'a>(n: u32, before: Before, r: Row<'a>) -> Result<PrecFront<'a>, Fault>
    requires few { before.total ≤ most_pairs }
    ensures counted { IfOk result (λ f. length (fields_of f.rest.now) ≡ f.count → front_of n before.from before.total (row r.entry.line (fields_of r.entry.text.now)) ≡ Ok (f.id, f.count, fields_of f.rest.now)) }
    ensures miscounted { IfOk result (λ f. length (fields_of f.rest.now) ≢ f.count → front_of n before.from before.total (row r.entry.line (fields_of r.entry.text.now)) ≡ Err (in_precedence WrongFieldCount r.entry.line)) }
    ensures err { IfErr result (λ e. FailsBy e.refusal e (front_of n before.from before.total (row r.entry.line (fields_of r.entry.text.now)))) }
    ensures known { IfOk result (λ f. f.id < n) }
    ensures rising { IfOk result (λ f. before.from ≤ f.id) }
    ensures few { IfOk result (λ f. before.total + f.count ≤ most_pairs) }
{
    let Some((first, rest)) = next_whole(r.text) else {
        return Err(in_precedence(Refusal::WrongFieldCount, r.line));
    };
    let Some((second, rest)) = next_whole(rest) else {
        return Err(in_precedence(Refusal::WrongFieldCount, r.line));
    };
    let Some(id) = first else {
        return Err(in_precedence(Refusal::NotWhole, r.line));
    };
    if id >= u64::from(n) || id < u64::from(before.from) {
        return Err(in_precedence(Refusal::IdOutOfPlace, r.line));
    }
    let Some(count) = second else {
        return Err(in_precedence(Refusal::NotWhole, r.line));
    };
    if count > MOST_PAIRS - before.total {
        return Err(over_limit(r.line, count, rest));
    }
    let id = id as u32;
    Ok(PrecFront { id, count, rest })
}

/// Adds the pairs of a line, and returns what the next line needs to know of it and of the lines before.
fn read_line(
    n: u32,
    before: Before,
    marks: &mut Vec<u32>,
    r: Row,
    needs: &mut CsrBuilder,
) -> Result<Before, Fault>
    requires sizes { length marks.old.items ≡ n }
    requires few { before.total ≤ most_pairs }
    requires so_far { AreRowsSoFar n before.from before.total needs.old }
    requires old_marks { All (λ m. m ≤ before.from) marks.old.items }
    ensures ok { IfOk result (λ after. AddsLine n before.from before.total (row r.entry.line (fields_of r.entry.text.now)) needs.old.pairs needs.new.pairs after.from after.total) }
    ensures err { IfErr result (λ e. FailsBy e.refusal e (needs_line n before.from before.total (row r.entry.line (fields_of r.entry.text.now)))) }
    ensures few { IfOk result (λ after. after.total ≤ most_pairs) }
    ensures so_far { IfOk result (λ after. AreRowsSoFar n after.from after.total needs.new) }
    ensures sizes { length marks.new.items ≡ n }
    ensures new_marks { IfOk result (λ after. All (λ m. m ≤ after.from) marks.new.items) }
{
    let front = read_front(n, before, r)?;
    let block = Block {
        n,
        id: front.id,
        line: r.line,
    };
    match read_needs(block, marks, front.rest, needs) {
        Ok(named) => {
            if named != front.count {
                return Err(in_precedence(Refusal::WrongFieldCount, r.line));
            }
            Ok(Before {
                line: r.line,
                from: front.id + 1,
                total: before.total + front.count,
            })
        }
        Err(fault) => {
            // A wrong number of fields is the fault that comes first.
            if count_fields(front.rest) as u64 != front.count {
                return Err(in_precedence(Refusal::WrongFieldCount, r.line));
            }
            Err(fault)
        }
    }
}

/// Adds the pairs of some lines, and returns what the next line needs to know of them and of the lines before. It is `NoMemory` too
/// if more bytes came than lines can be numbered.
fn read_lines(
    n: u32,
    before: Before,
    marks: &mut Vec<u32>,
    text: &[u8],
    needs: &mut CsrBuilder,
) -> Result<Before, Fault>
    requires countable { before.line < 2 ^ 63 }
    requires sizes { length marks.old.items ≡ n }
    requires few { before.total ≤ most_pairs }
    requires so_far { AreRowsSoFar n before.from before.total needs.old }
    requires old_marks { All (λ m. m ≤ before.from) marks.old.items }
    ensures ok { IfOk result (λ after. AddsRows n before.from before.total (rows_at before.line text.now) needs.old.pairs needs.new.pairs after.from after.total) }
    ensures err { IfErr result (λ e. (behind : List AnyRow) → FailsBy e.refusal e (with_pairs needs.old.pairs (pairs_from n before.from before.total (rows_at before.line text.now ++ behind)))) }
    ensures counted { IfOk result (λ after. after.line ≡ lines_at before.line text.now) }
    ensures countable { IfOk result (λ after. after.line < 2 ^ 63) }
    ensures few { IfOk result (λ after. after.total ≤ most_pairs) }
    ensures so_far { IfOk result (λ after. AreRowsSoFar n after.from after.total needs.new) }
    ensures sizes { length marks.new.items ≡ n }
    ensures new_marks { IfOk result (λ after. All (λ m. m ≤ after.from) marks.new.items) }
{
    if text.len() as u64 > MOST_LINES - before.line {
        return Err(Fault::from(AllocError));
    }
    let mut rows = TextRows {
        rest: text,
        number: before.line,
    };
    let mut after = before;
    while let Some(row) = rows.next_row() {
        after = read_line(n, after, marks, row, needs)?;
    }
    after.line = rows.number;
    Ok(after)
}

/// The pairs of all lines of a text.
fn parse_lines(alloc: Global, text: &[u8], n: u32) -> Result<SharedRows, Fault>
    ensures pairs { Gives (λ v. v.pairs) result (prec_of n text.now) }
    ensures blocks { IfOk result (λ v. v.blocks ≡ n) }
{
    let mut marks = vec![in alloc; 0u32; n as usize]?;
    let mut needs = CsrBuilder::new(alloc)?;
    read_lines(n, AT_FIRST, &mut marks, text, &mut needs)?;
    Ok(needs.finish(n)?)
}

/// Returns the pairs of all lines that a reader has left, read piece by piece. The counters receive the pairs of each piece. A
/// fault in the text is reported after the whole text is read.
fn read_pieces<R: InBytes>(alloc: Global, reader: &mut R, n: u32) -> Result<SharedRows, Fault>
    requires countable { (R.progress reader.old).failures < 2 ^ 63 }
    ensures exact { Answers (λ v. v.pairs) (prec_of n) sources.Precedence (R.progress reader.old) (R.progress reader.new) (R.IsAtEnd reader.new) result }
    ensures blocks { IfOk result (λ v. v.blocks ≡ n) }
    ensures known { Keeps (R.known_text reader.old) (R.known_text reader.new) }
{
    let counters = reader.counters();
    let mut marks = vec![in alloc; 0u32; n as usize]?;
    let mut needs = CsrBuilder::new(alloc)?;
    let mut piece = Vec::new(alloc);
    let mut kept = Vec::new(alloc);
    let mut before = AT_FIRST;
    loop {
        let ended = read_piece(reader, Source::Precedence, &mut piece, &mut kept)?;
        match read_lines(n, before, &mut marks, &piece, &mut needs) {
            Ok(after) => before = after,
            Err(fault) => {
                if !ended && !matches!(fault.refusal, Refusal::NoMemory) {
                    read_past(reader, Source::Precedence)?;
                }
                return Err(fault);
            }
        }
        counters.pairs_read(before.total);
        if ended {
            return Ok(needs.finish(n)?);
        }
    }
}

/// Each text spells one list of pairs for n blocks or has one first fault, and not both: what is read of it says which.
pub fn prec_law()
    ensures spelled { (n : ℕ) (text : List ℕ) (pairs : List (ℕ × ℕ)) → (prec_of n text ≡ Ok pairs) ↔ SpellsPrec n text pairs }
    ensures faulty { (n : ℕ) (text : List ℕ) (fault : AnyFault) → (prec_of n text ≡ Err fault) ↔ IsFirstPrecFault n text fault }
{}

/// The pairs (u, p) of "u needs p" that a text spells for n blocks, by rows, in order of line and place, else the first fault of
/// the text, or `NoMemory`.
pub fn parse_prec_rows(alloc: Global, text: &[u8], n: u32) -> Result<SharedRows, Fault>
    // Which pairs or which fault it is.
    ensures exact { Gives (λ v. v.pairs) result (prec_of n text.now) }
    // What is read is spelled so, and what is spelled so is read, unless memory runs out.
    ensures spelled { IfOk result (λ v. SpellsPrec n text.now v.pairs) }
    ensures read { (pairs : List (ℕ × ℕ)) → SpellsPrec n text.now pairs → Gives (λ v. v.pairs) result (Ok pairs) }
    ensures first_fault { IfErr result (λ e. FailsAt e.refusal e (IsFirstPrecFault n text.now)) }
    ensures blocks { IfOk result (λ v. v.blocks ≡ n) }
    ensures lawful { IfOk result (λ v. ArePrecedences n v.pairs) }
{
    parse_lines(alloc, text, n)
}

/// Reads the pairs (u, p) of "u needs p" for n blocks, by rows, in order of line and place, from all that the reader has left.
///
/// # Errors
/// The first fault of that text; `ReadFailed` exactly where the reader counted a failure in this call; `NoMemory`.
pub fn read_prec_rows<R: InBytes>(
    alloc: Global,
    reader: &mut R,
    n: u32,
) -> Result<SharedRows, Fault>
    requires countable { (R.progress reader.old).failures < 2 ^ 63 }
    ensures answers { AnswersBy (λ v. v.pairs) (SpellsPrec n) (IsFirstPrecFault n) sources.Precedence (R.progress reader.old) (R.progress reader.new) (R.IsAtEnd reader.new) result }
    ensures blocks { IfOk result (λ v. v.blocks ≡ n) }
    ensures lawful { IfOk result (λ v. ArePrecedences n v.pairs) }
    ensures known { Keeps (R.known_text reader.old) (R.known_text reader.new) }

    // The same by what is read of a text.
    ensures exact { Answers (λ v. v.pairs) (prec_of n) sources.Precedence (R.progress reader.old) (R.progress reader.new) (R.IsAtEnd reader.new) result }
{
    read_pieces(alloc, reader, n)
}

/// Reads the same pairs as a list. It holds rows, targets and list at the same time; [`read_prec_rows`] holds the rows alone.
///
/// # Errors
/// Those of [`read_prec_rows`].
pub fn read_prec<R: InBytes>(
    alloc: Global,
    reader: &mut R,
    n: u32,
) -> Result<Vec<(u32, u32)>, Fault>
    requires countable { (R.progress reader.old).failures < 2 ^ 63 }
    ensures answers { AnswersBy (λ v. v.items) (SpellsPrec n) (IsFirstPrecFault n) sources.Precedence (R.progress reader.old) (R.progress reader.new) (R.IsAtEnd reader.new) result }
    ensures lawful { IfOk result (λ v. ArePrecedences n v.items) }
    ensures known { Keeps (R.known_text reader.old) (R.known_text reader.new) }
    ensures exact { Answers (λ v. v.items) (prec_of n) sources.Precedence (R.progress reader.old) (R.progress reader.new) (R.IsAtEnd reader.new) result }
{
    let needs = read_prec_rows(alloc, reader, n)?;
    Ok(needs.to_rows()?.to_pairs(alloc)?)
}

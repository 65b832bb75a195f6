//! The check of a certificate, from any solver: by the graph, the values and plain sums, one pass over the pairs and one over the
//! blocks once the excesses and the reached blocks are known. It knows nothing of the tree.
ghost use Rattle.std.specs.Prelude.{◌≡◌, ◌<◌, ◌≤◌, ◌↔◌, ◌&&◌, ℕ, IsTrue, length, IfOk, IfErr};
ghost use Rattle.std.specs.List.{All};
ghost use Rattle.faults.specs.Refused.{no_memory};
ghost use Rattle.pit_model.specs.Mine.{arcs, members};
ghost use Rattle.pit_model.specs.Certificate.{IsCertificate};
ghost use Rattle.pit_model.specs.Size.{most_blocks};
ghost use Rattle.pit_model.specs.Pit.{ListsPit};
ghost use Rattle.pit_model.specs.Fixed.{IsFixedCertificate, IsNothingFixed, fixed_of, graph_of_mine};
ghost use Rattle.pit_model.specs.declared.direction.Direction.TheVariants.{Least};
ghost use Rattle.mine_graph.specs.FixedBlocks.{IsFixedOf};
ghost use Rattle.optimality.specs.Check.{amount, has, open_in, AreAscending, BlockAllows, BlocksAllow, IsCandidate, PairAllows, PairsAllow, RowAllows};

use crate::excess::excesses_of;
use crate::pit_with_flow::Certificate;
use crate::reach::reached_of;
use faults::Fault;
use mine_graph::{Fixed, Graph, Instance};
use std::alloc::{AllocError, Global};

/// A mark for each of n blocks: whether it is on the list.
fn marks_of(alloc: Global, n: u32, pit: &[u32]) -> Result<Vec<bool>, AllocError>
    requires below { All (λ u. u < n) pit.now }
    requires rising { AreAscending pit.now }
    ensures count { IfOk result (λ v. length v.items ≡ n) }
    ensures marks { IfOk result (λ v. pit.now ≡ members n (has v.items)) }
{
    let mut marks = vec![in alloc; false; n as usize]?;
    for &u in pit {
        marks[u as usize] = true;
    }
    Ok(marks)
}

/// Whether a pair doesn't lead out of the set, no flow comes in over it, and it has none where not both its blocks are open.
fn pair_allows(from: bool, to: bool, are_open: bool, amount: i128) -> bool
    ensures { IsTrue result ↔ PairAllows from to are_open amount }
{
    (to || !from) && (amount == 0 || (are_open && from == to))
}

/// The same of a pair by its number, with the amount on it.
fn arc_allows(from: bool, to: bool, are_open: bool, flow: &[i128], k: u32) -> bool
    requires { k < length flow.now }
    ensures { IsTrue result ↔ PairAllows from to are_open (amount flow.now k) }
{
    pair_allows(from, to, are_open, flow[k as usize])
}

/// Whether two blocks are open.
fn are_open(fixed: &Fixed, u: u32, p: u32) -> bool
    ensures { result ≡ (open_in fixed.now u && open_in fixed.now p) }
{
    fixed.is_open(u) && fixed.is_open(p)
}

/// Whether no pair of a block leads out of the set, no flow comes in over it, and it has none where not both its blocks are open.
fn row_allows(graph: &Graph, fixed: &Fixed, flow: &[i128], inside: &[bool], u: u32) -> bool
    requires block { u < graph.now.blocks }
    requires counted { length flow.now ≡ length graph.now.pairs }
    requires blocks { length inside.now ≡ graph.now.blocks }
    ensures { IsTrue result ↔ RowAllows graph.now.pairs (open_in fixed.now) flow.now inside.now u (length graph.now.pairs) }
{
    graph.law();
    let arcs = graph.arcs_of(u);
    for k in arcs.start..arcs.end {
        let p = graph.needed(u, k);
        if !arc_allows(
            inside[u as usize],
            inside[p as usize],
            are_open(fixed, u, p),
            flow,
            k,
        ) {
            return false;
        }
    }
    true
}

/// Whether the set is closed, no flow comes into it from outside, and none is where not both blocks are open.
fn pairs_allow(graph: &Graph, fixed: &Fixed, flow: &[i128], inside: &[bool]) -> bool
    requires counted { length flow.now ≡ length graph.now.pairs }
    requires blocks { length inside.now ≡ graph.now.blocks }
    ensures { IsTrue result ↔ PairsAllow graph.now.pairs (open_in fixed.now) flow.now inside.now (length graph.now.pairs) }
{
    graph.law();
    for u in 0..graph.n() {
        if !row_allows(graph, fixed, flow, inside, u) {
            return false;
        }
    }
    true
}

/// Whether a block that must be dug is inside, one that must be left outside, and an open one is reached and has no deficit
/// where it is inside, and has nothing to send where it is outside.
fn block_allows(must_dig: bool, must_leave: bool, inside: bool, reached: bool, excess: i128) -> bool
    ensures { IsTrue result ↔ BlockAllows must_dig must_leave inside reached excess }
{
    if must_dig {
        inside && !must_leave
    } else if must_leave {
        !inside
    } else if inside {
        reached && excess >= 0
    } else {
        excess <= 0
    }
}

/// Whether all blocks meet these conditions.
fn blocks_allow(fixed: &Fixed, excesses: &[i128], inside: &[bool], reached: &[bool]) -> bool
    requires few { length inside.now ≤ most_blocks }
    requires count { length excesses.now ≡ length inside.now }
    requires reached { length reached.now ≡ length inside.now }
    ensures { IsTrue result ↔ BlocksAllow fixed.now excesses.now inside.now reached.now (length inside.now) }
{
    for u in 0..inside.len() {
        let block = u as u32;
        if !block_allows(
            fixed.must_dig(block),
            fixed.must_leave(block),
            inside[u],
            reached[u],
            excesses[u],
        ) {
            return false;
        }
    }
    true
}

/// A mark for each block that is inside and open.
fn open_inside(alloc: Global, fixed: &Fixed, inside: &[bool]) -> Result<Vec<bool>, AllocError>
    requires few { length inside.now ≤ most_blocks }
    ensures count { IfOk result (λ v. length v.items ≡ length inside.now) }
    ensures marks { IfOk result (λ v. (u : ℕ) → u < length inside.now → has v.items u ≡ (has inside.now u && open_in fixed.now u)) }
{
    let n = inside.len() as u32;
    (0..n)
        .map(|u| inside[u as usize] && fixed.is_open(u))
        .collect(alloc)
}

/// Returns whether the blocks and the flow meet the conditions of a certificate of the instance with these blocks fixed. If so, and
/// only then, the flow proves that the blocks are the minimal closed set of maximum value among those that contain each forced
/// block and no barred one. Error: `NoMemory`. Memory is linear in blocks and pairs. Time is linear too, except for binary search
/// of a pair's block or flow in a row. (Picard 1976)
pub fn check(
    alloc: Global,
    mine: &Instance,
    fixed: &Fixed,
    certificate: &Certificate,
) -> Result<bool, Fault>
    requires fixed { IsFixedOf (graph_of_mine mine.now) fixed.now }
    requires candidate { IsCandidate mine.now.blocks (arcs mine.now) certificate.now.pit.items certificate.now.flow.items }
    ensures exact { IfOk result (λ yes. IsTrue yes ↔ IsFixedCertificate mine.now (fixed_of fixed.now.lists) certificate.now.pit.items certificate.now.flow.items) }
    ensures shows_pit { IfOk result (λ yes. IsTrue yes → ListsPit Least mine.now (fixed_of fixed.now.lists) certificate.now.pit.items) }
    ensures none_fixed { IfOk result (λ yes. IsNothingFixed (fixed_of fixed.now.lists) → IsTrue yes ↔ IsCertificate mine.now certificate.now.pit.items certificate.now.flow.items) }
    ensures refused { IfErr result (λ e. e ≡ no_memory) }
{
    mine.law();
    let flow = certificate.flow.as_slice();
    let inside = marks_of(alloc, mine.graph().n(), &certificate.pit)?;
    let open = open_inside(alloc, fixed, &inside)?;
    let excesses = excesses_of(alloc, mine, flow)?;
    let reached = reached_of(alloc, mine, flow, &excesses, &open)?;
    Ok(
        pairs_allow(mine.graph(), fixed, flow, &inside)
            && blocks_allow(fixed, &excesses, &inside, &reached),
    )
}

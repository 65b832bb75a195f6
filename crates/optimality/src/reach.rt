//! The blocks that are reached inside a set by steps of positive residual from its blocks of positive excess. A queue takes in
//! block after block, each once, so time is linear in blocks and pairs, except for binary search in a row for the flow over it.
ghost use Rattle.std.specs.Prelude.{◌≡◌, ◌<◌, ◌≤◌, ◌↔◌, ℕ, pos, int_lt, true, false, IsTrue, length, get_or, IfOk, IfErr};
ghost use Rattle.faults.specs.Refused.{no_memory};
ghost use Rattle.pit_model.specs.Direction.{IsReversed};
ghost use Rattle.pit_model.specs.Graph.{first_of, second_of};
ghost use Rattle.pit_model.specs.Mine.{arcs};
ghost use Rattle.pit_model.specs.Size.{most_blocks};
ghost use Rattle.mine_graph.specs.BreadthFirst.{IsTrail, VisitsExactly, is_visited};
ghost use Rattle.optimality.specs.Check.{amount, has, AreExcesses, AreReached};
ghost use Rattle.optimality.specs.Reaching.{IsVisited, Sends};

use crate::excess::has_flow;
use faults::Fault;
use mine_graph::{BreadthFirst, Graph, Instance};
use std::alloc::Global;
use std::ops::Range;

/// Takes in the block, where it lies inside.
fn visit(search: &mut BreadthFirst, inside: &[bool], block: u32)
    requires below { block < length search.old.marks.items }
    requires same { length inside.now ≡ length search.old.marks.items }
    requires trail { IsTrail search.old }
    ensures { VisitsExactly (IsVisited inside.now (λ x. true) (λ x. block) 0 1) search.old search.new }
{
    if inside[block as usize] {
        search.visit(block);
    }
}

/// Visits the blocks of positive excess.
fn visit_starts(search: &mut BreadthFirst, inside: &[bool], excesses: &[i128])
    requires few { length search.old.marks.items ≤ most_blocks }
    requires count { length excesses.now ≡ length search.old.marks.items }
    requires same { length inside.now ≡ length search.old.marks.items }
    requires trail { IsTrail search.old }
    ensures { VisitsExactly (IsVisited inside.now (λ x. int_lt (pos 0) (get_or excesses.now x (pos 0))) (λ x. x) 0 (length excesses.now)) search.old search.new }
{
    for u in 0..excesses.len() {
        if excesses[u] > 0 {
            visit(search, inside, u as u32);
        }
    }
}

/// Visits the blocks that a block needs by the pairs of its row.
fn visit_needed(
    search: &mut BreadthFirst,
    inside: &[bool],
    graph: &Graph,
    block: u32,
    row: Range<u32>,
)
    requires order { row.start ≤ row.end }
    requires within { row.end ≤ length graph.now.pairs }
    requires own { (k : ℕ) → row.start ≤ k → k < row.end → first_of graph.now.pairs k ≡ block }
    requires blocks { length search.old.marks.items ≡ graph.now.blocks }
    requires same { length inside.now ≡ length search.old.marks.items }
    requires trail { IsTrail search.old }
    ensures { VisitsExactly (IsVisited inside.now (λ x. true) (second_of graph.now.pairs) row.start row.end) search.old search.new }
{
    graph.law();
    for k in row.start..row.end {
        visit(search, inside, graph.needed(block, k));
    }
}

/// Whether flow comes from a block to another over their pair.
fn sends(graph: &Graph, flow: &[i128], from: u32, to: u32) -> bool
    requires from { from < graph.now.blocks }
    requires counted { length flow.now ≡ length graph.now.pairs }
    ensures { IsTrue result ↔ Sends graph.now.pairs flow.now from to }
{
    graph.law();
    match graph.arc_of(from, to) {
        Some(arc) => has_flow(flow, arc),
        None => false,
    }
}

/// A flow on the arcs of a graph.
#[derive(Clone, Copy)]
struct Flows<'a> {
    graph: &'a Graph,
    flow: &'a [i128],
}

/// Visits the blocks whose flow enters a block, among those that need it, which the transposed graph lists.
fn visit_users(
    search: &mut BreadthFirst,
    inside: &[bool],
    users: &Graph,
    flows: Flows<'_>,
    block: u32,
)
    requires reversed { IsReversed flows.graph.now users.now }
    requires block { block < users.now.blocks }
    requires counted { length flows.flow.now ≡ length flows.graph.now.pairs }
    requires blocks { length search.old.marks.items ≡ users.now.blocks }
    requires same { length inside.now ≡ length search.old.marks.items }
    requires trail { IsTrail search.old }
    ensures { VisitsExactly (λ u. Sends flows.entry.graph.now.pairs flows.entry.flow.now u block × (has inside.now u ≡ true)) search.old search.new }
{
    users.law();
    let arcs = users.arcs_of(block);
    for k in arcs.start..arcs.end {
        let user = users.needed(block, k);
        if sends(flows.graph, flows.flow, user, block) {
            visit(search, inside, user);
        }
    }
}

/// A mark for each block: whether it is reached inside the set. Error: `NoMemory`.
pub fn reached_of(
    alloc: Global,
    mine: &Instance,
    flow: &[i128],
    excesses: &[i128],
    inside: &[bool],
) -> Result<Vec<bool>, Fault>
    requires counted { length flow.now ≡ arcs mine.now }
    requires count { length excesses.now ≡ mine.now.blocks }
    requires excesses { AreExcesses mine.now flow.now excesses.now }
    requires inside { length inside.now ≡ mine.now.blocks }
    ensures count { IfOk result (λ v. length v.items ≡ mine.now.blocks) }
    ensures reached { IfOk result (λ v. AreReached mine.now flow.now inside.now v.items) }
    ensures no_memory { IfErr result (λ e. e ≡ no_memory) }
{
    mine.law();
    let graph: &Graph = mine.graph();
    let users = graph.reversed()?;
    let flows = Flows { graph, flow };
    let mut search = BreadthFirst::new(alloc, graph.n())?;
    visit_starts(&mut search, inside, excesses);
    for head in 0..inside.len() {
        if head == search.tail {
            break;
        }
        let block = search.queue[head];
        visit_needed(&mut search, inside, graph, block, graph.arcs_of(block));
        visit_users(&mut search, inside, &users, flows, block);
    }
    Ok(search.marks)
}

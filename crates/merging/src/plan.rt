//! A plan for workers on a shared tree: few mergers that lead from the opening tree to a solved one. One thread solves the mine on
//! its own tree, and then again on the links of the solved tree alone. This takes fewer mergers, which turn far fewer blocks from
//! strong to weak and back. No link joins two branches of the solved tree, so mergers in one branch change nothing in another.
//!
//! A plan is a hint; no proof depends on it. Every proposed arc is decided on the shared tree.
ghost use Rattle.std.specs.Prelude.{◌≡◌, ◌<◌, ◌≤◌, ℕ, length, get_or, IfOk, IfErr};
ghost use Rattle.faults.specs.Refused.{no_memory};
ghost use Rattle.pit_model.specs.Mine.{arcs};

use crate::lowest_label::{merge_by_lowest_label, mergers_by_lowest_label};
use csr::{CsrBuilder, SharedRows};
use faults::Fault;
use mine_graph::{Graph, Instance, acyclic_is_well_founded, marked_numbers};
use norm_tree::BareTree;
use std::alloc::{AllocError, Global};
use std::sync::Arc;

/// A planned merger: its arc, and the branch of the solved tree that contains both blocks of the arc.
#[derive(Clone, Copy)]
pub struct Planned {
    pub arc: u32,
    pub branch: u32,
}

/// Planned mergers in order, and the number of branches of the solved tree.
#[derive(Drop)]
pub struct Plan {
    pub mergers: Vec<Planned>,
    pub branches: u32,
}

/// The arcs along which the solved tree has links, rising; the graph of these alone; and the branch of each block.
#[derive(Drop)]
struct Links {
    arcs: Vec<u32>,
    graph: Arc<Graph>,
    branches: Vec<u32>,
    count: u32,
}

/// Returns whether the tree has a link along the arc.
fn is_linked(tree: &BareTree, arc: u32) -> bool
    requires { arc < arcs tree.now.mine }
{
    tree.law();
    let (from, to) = tree.instance().graph().arc(arc);
    tree.parent(from) == Some(to) || tree.parent(to) == Some(from)
}

/// Returns for each arc whether the tree has a link along it.
fn link_marks(alloc: Global, tree: &BareTree) -> Result<Vec<bool>, AllocError>
    ensures { IfOk result (λ v. length v.items ≡ arcs tree.now.mine) }
{
    (0..tree.instance().graph().arcs())
        .map(|arc| is_linked(tree, arc))
        .collect(alloc)
}

/// Returns the arcs with these numbers, as rows.
fn pairs_at(alloc: Global, graph: &Graph, arcs: &[u32]) -> Result<SharedRows, AllocError>
    requires below { (i : ℕ) → i < length arcs.now → get_or arcs.now i 0 < length graph.now.pairs }
    requires rising { (i j : ℕ) → i < j → j < length arcs.now → get_or arcs.now i 0 < get_or arcs.now j 0 }
    requires few { length arcs.now ≤ length graph.now.pairs }
    ensures rows { IfOk result (λ v. v.blocks ≡ graph.now.blocks) }
    ensures count { IfOk result (λ v. length v.pairs ≡ length arcs.now) }
    ensures each { IfOk result (λ v. (i : ℕ) → i < length arcs.now → get_or v.pairs i (0, 0) ≡ get_or graph.now.pairs (get_or arcs.now i 0) (0, 0)) }
{
    graph.law();
    let mut needs = CsrBuilder::new(alloc)?;
    for i in 0..arcs.len() {
        let (block, needed) = graph.arc(arcs[i]);
        needs.open_row(block)?;
        needs.push(needed)?;
    }
    Ok(needs.finish(graph.n())?)
}

/// Returns the graph of the same blocks with only these arcs.
fn graph_of_arcs(alloc: Global, graph: &Graph, arcs: &[u32]) -> Result<Graph, Fault>
    requires below { (i : ℕ) → i < length arcs.now → get_or arcs.now i 0 < length graph.now.pairs }
    requires rising { (i j : ℕ) → i < j → j < length arcs.now → get_or arcs.now i 0 < get_or arcs.now j 0 }
    requires few { length arcs.now ≤ length graph.now.pairs }
    ensures blocks { IfOk result (λ g. g.blocks ≡ graph.now.blocks) }
    ensures refused { IfErr result (λ e. e ≡ no_memory) }
{
    graph.law();
    acyclic_is_well_founded();
    let needs = pairs_at(alloc, graph, arcs)?;
    let links = Graph::of_rows(alloc, graph.n(), needs)?;
    Ok(links)
}

/// Returns the links of a tree.
fn links_of(alloc: Global, tree: &BareTree) -> Result<Links, Fault>
    ensures blocks { IfOk result (λ l. l.graph.value.blocks ≡ tree.now.mine.blocks) }
    ensures refused { IfErr result (λ e. e ≡ no_memory) }
{
    tree.law();
    let marks = link_marks(alloc, tree)?;
    let arcs = marked_numbers(alloc, &marks)?;
    let graph = graph_of_arcs(alloc, tree.instance().graph(), &arcs)?;
    let components = graph.components()?;
    Ok(Links {
        arcs,
        graph: Arc::new(alloc, graph)?,
        branches: components.labels,
        count: components.count,
    })
}

/// Returns the merger over a link, by the numbers of the whole graph, or `None` if no link has that number.
fn merger_over(graph: &Graph, links: &Links, link: u32) -> Option<Planned> {
    let &arc = links.arcs.get(link as usize)?;
    if arc >= graph.arcs() {
        return None;
    }
    let &branch = links.branches.get(graph.arc(arc).0 as usize)?;
    Some(Planned { arc, branch })
}

/// Returns the mergers over these links.
fn plan_of(alloc: Global, graph: &Graph, links: &Links, order: &[u32]) -> Result<Plan, AllocError> {
    let mergers = order
        .iter()
        .filter_map(|&link| merger_over(graph, links, link))
        .collect(alloc)?;
    Ok(Plan {
        mergers,
        branches: links.count,
    })
}

/// Returns the links of a solved tree of the instance.
fn solved_links(alloc: Global, instance: &Instance) -> Result<Links, Fault>
    ensures blocks { IfOk result (λ l. l.graph.value.blocks ≡ instance.now.blocks) }
    ensures refused { IfErr result (λ e. e ≡ no_memory) }
{
    let mut tree = BareTree::start(alloc, instance)?;
    merge_by_lowest_label(alloc, &mut tree)?;
    links_of(alloc, &tree)
}

/// Solves the instance again with only these links as arcs, and returns the links in the order of mergers.
fn merged_links(alloc: Global, instance: &Instance, links: &Links) -> Result<Vec<u32>, Fault>
    requires { links.now.graph.value.blocks ≡ instance.now.blocks }
    ensures { IfErr result (λ e. e ≡ no_memory) }
{
    let linked = instance.over(alloc, Arc::try_clone(&links.graph)?)?;
    let mut tree = BareTree::start(alloc, &linked)?;
    let order = mergers_by_lowest_label(alloc, &mut tree)?;
    Ok(order)
}

/// Plans few mergers that lead from the opening tree to a solved one, in order.
///
/// # Errors
///
/// If memory runs out.
pub fn plan_mergers(alloc: Global, instance: &Instance) -> Result<Plan, Fault>
    ensures { IfErr result (λ e. e ≡ no_memory) }
{
    let links = solved_links(alloc, instance)?;
    let order = merged_links(alloc, instance, &links)?;
    Ok(plan_of(alloc, instance.graph(), &links, &order)?)
}

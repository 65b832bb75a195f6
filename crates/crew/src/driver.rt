//! What the driver does between sweeps and at the end: it decides the first merger arc, and answers by the tree that is left.
ghost use Rattle.std.specs.Prelude.{◌≡◌, IfOk, IfErr};
ghost use Rattle.faults.specs.Refused.{no_memory};
ghost use Rattle.pit_model.specs.Mine.{arcs};
ghost use Rattle.pit_model.specs.Tree.{is_merger};
ghost use Rattle.pit_model.specs.FirstRun.{IsFirstMerger};
ghost use Rattle.crew.specs.Solved.{EndsBy, DecidesFirst, IsEnded, IsSolvedTogether, RoundEnds};

use faults::Fault;
use merging::Outcome;
use norm_tree::NormTree;
use optimality::of_tree;
use rayon::prelude::*;
use std::alloc::Global;
use std::sync::Wait;
use std::thread::Threads;
use tree_lock::{Entry, Holder, LockId, Verdict};

/// Returns the merger arc with the least number, searched by as many threads as there are processors; None without one.
fn first_merger<R: Threads + Sync>(rt: &R, tree: &NormTree) -> Option<u32>
    ensures { IsFirstMerger tree.now.mine tree.now.tree result }
{
    (0..tree.instance().graph().arcs())
        .into_par_iter()
        .find_first(
            rt,
            |arc: &u32| -> bool
                ensures { result ≡ is_merger tree.entry.now.mine tree.entry.now.tree arc.now }
            { tree.is_merger(*arc) },
        )
}

/// Decides the merger arc with the least number, with an entry under the driver's seat; None if none is left. Error: `NoMemory`,
/// and then nothing changed.
pub fn decide_first<S: LockId, R: Threads + Wait + Sync>(
    rt: &R,
    holder: &mut Holder<S>,
) -> Result<Option<Verdict>, Fault>
    ensures decided { IfOk result (DecidesFirst holder.old holder.new) }
    ensures refused { IfErr result (λ e. e ≡ no_memory) }
{
    holder.law();
    match first_merger(rt, holder.tree()) {
        None => Ok(None),
        Some(arc) => Ok(Some(holder.apply(rt, arc)?)),
    }
}

/// Decides the first merger arc, and returns whether the solve has ended: none was left, or the budget is used up. Otherwise its
/// merger was made. Error: `NoMemory`.
pub fn is_ended<S: LockId, R: Threads + Wait + Sync>(
    rt: &R,
    holder: &mut Holder<S>,
) -> Result<bool, Fault>
    ensures ended { IfOk result (RoundEnds holder.old holder.new) }
    ensures refused { IfErr result (λ e. e ≡ no_memory) }
{
    match decide_first(rt, holder)? {
        None | Some(Verdict::Spent) => Ok(true),
        Some(Verdict::Applied | Verdict::Stale) => Ok(false),
    }
}

/// The certificate of the holder's tree, or that the budget is used up.
fn outcome_of<S: LockId>(alloc: Global, holder: &Holder<S>) -> Result<Outcome, Fault>
    requires { IsEnded holder.now }
    ensures ends { IfOk result (EndsBy holder.now.mine holder.now.budget holder.now.journal) }
    ensures refused { IfErr result (λ e. e ≡ no_memory) }
{
    holder.law();
    if let Some(certificate) = of_tree(alloc, holder.tree())? {
        return Ok(Outcome::Pit(certificate));
    }
    match holder.budget() {
        Some(budget) => Ok(Outcome::Exhausted(budget)),
        None => unreachable!(),
    }
}

/// Returns the outcome of the holder's tree, and its journal. Error: `NoMemory`.
pub fn end_of<S: LockId, R: Wait>(
    rt: &R,
    alloc: Global,
    holder: Holder<S>,
) -> Result<(Outcome, Vec<Entry>), Fault>
    requires ended { IsEnded holder }
    requires known { S.arcs ≡ arcs S.mine }
    ensures solved { IfOk result (λ r. IsSolvedTogether S.mine S.workers S.budget r.0 r.1.items) }
    ensures journal { IfOk result (λ r. r.1.items ≡ holder.journal) }
    ensures refused { IfErr result (λ e. e ≡ no_memory) }
{
    holder.law();
    let outcome = outcome_of(alloc, &holder);
    let (_, journal) = holder.into_parts(rt);
    Ok((outcome?, journal))
}

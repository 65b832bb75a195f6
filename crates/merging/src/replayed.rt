//! Replays a journal on one thread: decides each entry again, in order, and compares the verdicts.
ghost use Rattle.std.specs.Prelude.{◌≡◌, ◌<◌, ◌+◌, ◌^◌, IsTrue, IfOk, IfErr, IfSome, IsSome, IsNone};
ghost use Rattle.faults.specs.Refused.{no_memory};
ghost use Rattle.pit_model.specs.Tree.{is_merger, opening};
ghost use Rattle.pit_model.specs.Journal.{applied_count, count_after, is_applied, lawful_verdict, replay, tree_after, IsLawful};
ghost use Rattle.pit_model.specs.Replay.{DiffersAt};
ghost use Rattle.merging.specs.Replayed.{EndsAt, EndsReplay};

use faults::Fault;
use mine_graph::Instance;
use norm_tree::{NormTree, lawful_verdict};
use pit_model::{Entry, Verdict};
use std::alloc::Global;

/// The result of replaying a journal.
#[derive(Debug, Drop)]
pub enum Replayed {
    /// Each verdict is lawful and no merger arc is left: the pit, rising.
    Pit(Vec<u32>),
    /// The number of the first entry whose verdict is not lawful, counted from 1.
    Differs(u64),
    /// Each verdict is lawful, the budget of this many mergers is used up, and a merger arc is left.
    Exhausted(u64),
    /// Each verdict is lawful, and after this many mergers the budget allows another and a merger arc is left.
    Open(u64),
}

/// Repeats what an entry with its lawful verdict did after `made` mergers, and returns the number of mergers after it.
fn redo(tree: &mut NormTree, made: u64, entry: Entry) -> u64
    requires few { made + 1 < 2 ^ 64 }
    requires merger { IsTrue (is_applied entry.verdict) → IsTrue (is_merger tree.old.mine tree.old.tree entry.arc) }
    ensures mine { tree.new.mine ≡ tree.old.mine }
    ensures after { tree.new.tree ≡ tree_after tree.old.mine tree.old.tree entry }
    ensures counted { result ≡ count_after made entry }
{
    match entry.verdict {
        Verdict::Applied => {
            tree.try_merge(entry.arc);
            tree.instance().counters().merged();
            made + 1
        }
        Verdict::Stale | Verdict::Spent => made,
    }
}

/// Decides an entry again after `made` mergers. Returns the number of mergers after it, or `None` if its verdict is not lawful.
fn decide_again(tree: &mut NormTree, budget: Option<u64>, made: u64, entry: Entry) -> Option<u64>
    requires { made + 1 < 2 ^ 64 }
    ensures mine { tree.new.mine ≡ tree.old.mine }
    ensures lawful { IsSome result → entry.verdict ≡ lawful_verdict tree.old.mine budget tree.old.tree made entry.arc }
    ensures after { IsSome result → tree.new.tree ≡ tree_after tree.old.mine tree.old.tree entry }
    ensures counted { IfSome result (λ n. n ≡ count_after made entry) }
    ensures differs { IsNone result → entry.verdict ≡ lawful_verdict tree.old.mine budget tree.old.tree made entry.arc → ⊥ }
{
    if entry.verdict != lawful_verdict(tree, budget, made, entry.arc) {
        return None;
    }
    Some(redo(tree, made, entry))
}

/// Decides the entries again until one has a verdict that is not lawful. Returns the number of mergers, or the number of that
/// entry, counted from 1.
fn follow(tree: &mut NormTree, budget: Option<u64>, entries: &[Entry]) -> Result<u64, u64>
    requires { tree.old.tree ≡ opening tree.old.mine }
    ensures mine { tree.new.mine ≡ tree.old.mine }
    ensures lawful { IfOk result (λ _. IsLawful tree.old.mine budget entries.now) }
    ensures replayed { IfOk result (λ _. tree.new.tree ≡ replay tree.old.mine entries.now) }
    ensures counted { IfOk result (λ made. made ≡ applied_count entries.now) }
    ensures differs { IfErr result (DiffersAt tree.old.mine budget entries.now) }
{
    let mut made = 0;
    for i in 0..entries.len() {
        match decide_again(tree, budget, made, entries[i]) {
            Some(count) => made = count,
            None => return Err(i as u64 + 1),
        }
    }
    Ok(made)
}

/// Returns the result for a tree after `made` mergers of a budget.
///
/// # Errors
///
/// If memory runs out.
fn end_at(tree: &NormTree, budget: Option<u64>, made: u64) -> Result<Replayed, Fault>
    ensures end { IfOk result (EndsAt tree.now budget made) }
    ensures refused { IfErr result (λ e. e ≡ no_memory) }
{
    tree.law();
    match tree.find_merger() {
        None => Ok(Replayed::Pit(tree.pit()?)),
        Some(_) => match budget {
            Some(budget) if made == budget => Ok(Replayed::Exhausted(budget)),
            _ => Ok(Replayed::Open(made)),
        },
    }
}

/// Replays the journal of a run with a budget on one thread, from the opening tree of the instance. The entries alone determine
/// which of the four results it has.
///
/// # Errors
///
/// If memory runs out.
pub fn replay(
    alloc: Global,
    instance: &Instance,
    budget: Option<u64>,
    entries: &[Entry],
) -> Result<Replayed, Fault>
    ensures ended { IfOk result (EndsReplay instance.now budget entries.now) }
    ensures refused { IfErr result (λ e. e ≡ no_memory) }
{
    let mut tree = NormTree::start(alloc, instance)?;
    match follow(&mut tree, budget, entries) {
        Ok(made) => end_at(&tree, budget, made),
        Err(place) => Ok(Replayed::Differs(place)),
    }
}

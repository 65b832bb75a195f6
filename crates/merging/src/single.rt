//! Solves the whole instance on one thread.
ghost use Rattle.std.specs.Prelude.{◌≡◌, ℕ, false, Some, None, IfOk, IfErr};
ghost use Rattle.faults.specs.Refused.{no_memory};
ghost use Rattle.pit_model.specs.FirstRun.{first_run};
ghost use Rattle.pit_model.specs.Tree.{is_merger};
ghost use Rattle.optimality.specs.Certificate.{IsCertificateOf};
ghost use Rattle.pit_model.specs.declared.direction.Direction.TheVariants.{Least};
ghost use Rattle.pit_model.specs.Pit.{ListsPit, no_blocks_fixed};
ghost use Rattle.merging.specs.Solved.{IsSolvedAlone};

use crate::budget_bound::is_enough;
use crate::closing::merge_remaining;
use crate::first_mergers::make_first_mergers;
use crate::lowest_label::merge_by_lowest_label;
use crate::outcome::Outcome;
use faults::Fault;
use mine_graph::Instance;
use norm_tree::{BareTree, NormTree};
use optimality::{Certificate, of_tree};
use pit_model::budget_suffices;
use std::alloc::Global;

/// Returns a tree with no merger arc left, by mergers in any order.
fn solved_tree(alloc: Global, instance: &Instance) -> Result<NormTree, Fault>
    ensures mine { IfOk result (λ t. t.mine ≡ instance.now) }
    ensures none_left { IfOk result (λ t. (k : ℕ) → is_merger t.mine t.tree k ≡ false) }
    ensures refused { IfErr result (λ e. e ≡ no_memory) }
{
    let mut bare = BareTree::start(alloc, instance)?;
    merge_by_lowest_label(alloc, &mut bare)?;
    merge_remaining(NormTree::from_bare(bare)?)
}

/// Returns the certificate of a tree with no merger arc left.
fn certificate_in(alloc: Global, tree: &NormTree) -> Result<Certificate, Fault>
    requires none_left { (k : ℕ) → is_merger tree.now.mine tree.now.tree k ≡ false }
    ensures answer { IfOk result (IsCertificateOf tree.now.mine) }
    ensures refused { IfErr result (λ e. e ≡ no_memory) }
{
    match of_tree(alloc, tree)? {
        Some(certificate) => Ok(certificate),
        None => unreachable!(),
    }
}

/// Finds the minimal pit with its certificate.
///
/// # Errors
///
/// If memory runs out.
pub(crate) fn solve_certificate(alloc: Global, instance: &Instance) -> Result<Certificate, Fault>
    ensures answer { IfOk result (IsCertificateOf instance.now) }
    ensures refused { IfErr result (λ e. e ≡ no_memory) }
{
    let tree = solved_tree(alloc, instance)?;
    certificate_in(alloc, &tree)
}

/// Finds the minimal pit alone, rising. The flow that proves it optimal stays in the tree.
///
/// # Errors
///
/// If memory runs out.
pub fn solve_pit(alloc: Global, instance: &Instance) -> Result<Vec<u32>, Fault>
    ensures shown { IfOk result (λ pit. ListsPit Least instance.now no_blocks_fixed pit.items) }
    ensures refused { IfErr result (λ e. e ≡ no_memory) }
{
    let tree = solved_tree(alloc, instance)?;
    tree.law();
    tree.pit()
}

/// Solves without a budget, by mergers in any order.
fn solve_freely(alloc: Global, instance: &Instance) -> Result<Outcome, Fault>
    ensures solved { IfOk result (IsSolvedAlone instance.now None) }
    ensures refused { IfErr result (λ e. e ≡ no_memory) }
{
    Ok(Outcome::Pit(solve_certificate(alloc, instance)?))
}

/// Returns the tree after the mergers of the first run, at most `budget` of them.
fn first_tree(alloc: Global, instance: &Instance, budget: u64) -> Result<NormTree, Fault>
    ensures mine { IfOk result (λ t. t.mine ≡ instance.now) }
    ensures run { IfOk result (λ t. t.tree ≡ first_run t.mine budget) }
    ensures refused { IfErr result (λ e. e ≡ no_memory) }
{
    let mut tree = NormTree::start(alloc, instance)?.indexed()?;
    make_first_mergers(&mut tree, budget);
    Ok(tree)
}

/// Returns the outcome for the tree of the first run.
fn answer_of(alloc: Global, tree: &NormTree, budget: u64) -> Result<Outcome, Fault>
    requires run { tree.now.tree ≡ first_run tree.now.mine budget }
    ensures solved { IfOk result (IsSolvedAlone tree.now.mine (Some budget)) }
    ensures refused { IfErr result (λ e. e ≡ no_memory) }
{
    match of_tree(alloc, tree)? {
        Some(certificate) => Ok(Outcome::Pit(certificate)),
        None => Ok(Outcome::Exhausted(budget)),
    }
}

/// Solves by the first run, within the budget.
fn solve_by_first_run(alloc: Global, instance: &Instance, budget: u64) -> Result<Outcome, Fault>
    ensures solved { IfOk result (IsSolvedAlone instance.now (Some budget)) }
    ensures refused { IfErr result (λ e. e ≡ no_memory) }
{
    let tree = first_tree(alloc, instance, budget)?;
    answer_of(alloc, &tree, budget)
}

/// Solves within the budget. If no run uses the budget up, mergers come in any order.
fn solve_within(alloc: Global, instance: &Instance, budget: u64) -> Result<Outcome, Fault>
    ensures solved { IfOk result (IsSolvedAlone instance.now (Some budget)) }
    ensures refused { IfErr result (λ e. e ≡ no_memory) }
{
    instance.law();
    budget_suffices();
    if is_enough(instance, budget) {
        Ok(Outcome::Pit(solve_certificate(alloc, instance)?))
    } else {
        solve_by_first_run(alloc, instance, budget)
    }
}

/// Finds the minimal pit with its certificate on one thread. With a budget the mergers are those of the first run, each over the
/// merger arc with the least number, and the outcome is `Exhausted` if and only if a merger arc is left after `budget` mergers.
///
/// # Errors
///
/// If memory runs out.
pub fn solve_single(
    alloc: Global,
    instance: &Instance,
    budget: Option<u64>,
) -> Result<Outcome, Fault>
    ensures solved { IfOk result (IsSolvedAlone instance.now budget) }
    ensures refused { IfErr result (λ e. e ≡ no_memory) }
{
    match budget {
        None => solve_freely(alloc, instance),
        Some(budget) => solve_within(alloc, instance, budget),
    }
}

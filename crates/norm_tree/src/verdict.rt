//! The lawful verdict on a proposed arc.
ghost use Rattle.std.specs.Prelude.{◌≡◌};
ghost use Rattle.pit_model.specs.Journal.{lawful_verdict};

use crate::tree::NormTree;
use pit_model::Verdict;

/// Returns the lawful verdict on an arc after `made` mergers of a budget, `None` for no limit. `Stale` if the arc is no merger arc,
/// even if the budget is used up.
pub fn lawful_verdict(tree: &NormTree, budget: Option<u64>, made: u64, arc: u32) -> Verdict
    ensures { result ≡ lawful_verdict tree.now.mine budget tree.now.tree made arc }
{
    if !tree.is_merger(arc) {
        return Verdict::Stale;
    }
    match budget {
        Some(budget) if made == budget => Verdict::Spent,
        _ => Verdict::Applied,
    }
}

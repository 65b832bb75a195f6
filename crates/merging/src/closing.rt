//! The closing loop: merges over the first merger arc until none is left. Every solve without a budget ends with it, so the
//! resulting tree has no merger arc, after mergers in any order.
ghost use Rattle.std.specs.Prelude.{◌≡◌, false, ℕ, IfOk, IfErr};
ghost use Rattle.faults.specs.Refused.{no_memory};
ghost use Rattle.pit_model.specs.Tree.{is_merger};

use faults::Fault;
use norm_tree::NormTree;

/// Merges until no merger arc is left. This ends, since each merger lowers the tree's rank.
fn merge_all(tree: &mut NormTree)
    ensures mine { tree.new.mine ≡ tree.old.mine }
    ensures none_left { (k : ℕ) → is_merger tree.new.mine tree.new.tree k ≡ false }
{
    'mergers: while let Some(arc) = tree.find_merger() {
        tree.try_merge(arc);
        tree.instance().counters().closed();
        tree.law();
    }
}

/// Merges until no merger arc is left. Makes an index only if there is a merger arc.
///
/// # Errors
///
/// If memory runs out.
pub fn merge_remaining(tree: NormTree) -> Result<NormTree, Fault>
    ensures mine { IfOk result (λ t. t.mine ≡ tree.mine) }
    ensures none_left { IfOk result (λ t. (k : ℕ) → is_merger t.mine t.tree k ≡ false) }
    ensures refused { IfErr result (λ e. e ≡ no_memory) }
{
    if tree.find_merger().is_none() {
        return Ok(tree);
    }
    let mut tree = tree.indexed()?;
    merge_all(&mut tree);
    Ok(tree)
}

//! The first run: merges over the merger arc with the least number, as often as the budget allows. `lowest_label` merges in another
//! order, for solves without a budget.
ghost use Rattle.std.specs.Prelude.{◌≡◌};
ghost use Rattle.pit_model.specs.Tree.{opening};
ghost use Rattle.pit_model.specs.FirstRun.{first_run};

use norm_tree::NormTree;

/// Makes the mergers of the first run, at most `budget` of them.
pub fn make_first_mergers(tree: &mut NormTree, budget: u64)
    requires { tree.old.tree ≡ opening tree.old.mine }
    ensures mine { tree.new.mine ≡ tree.old.mine }
    ensures run { tree.new.tree ≡ first_run tree.old.mine budget }
{
    'mergers: for _made in 0..budget {
        match tree.find_merger() {
            None => return,
            Some(arc) => {
                tree.try_merge(arc);
                tree.instance().counters().merged();
            }
        }
    }
}

//! The parametric method (Hochbaum 2008): one tree for a mine whose values only increase from solve to solve. Each solve starts
//! from the tree and the labels of the solve before.
ghost use Rattle.std.specs.Prelude.{◌≡◌, ◌<◌, ◌^◌, pos, ◌+ℤ◌, ◌≤ℤ◌, IfOk, IfErr};
ghost use Rattle.faults.specs.Refused.{no_memory};
ghost use Rattle.pit_model.specs.Mine.{value};
ghost use Rattle.pit_model.specs.Limits.{IsInstance};
ghost use Rattle.mine_graph.specs.Raised.{raised_at};
ghost use Rattle.norm_tree.specs.Over.{most_rise};
ghost use Rattle.pit_model.specs.declared.direction.Direction.TheVariants.{Least};
ghost use Rattle.pit_model.specs.Pit.{ListsPit, no_blocks_fixed};

use crate::closing::merge_remaining;
use crate::lowest_label::{LowestLabel, take_turns};
use faults::Fault;
use mine_graph::{Graph, Instance};
use norm_tree::{BareTree, NormTree, RisingTree};
use std::alloc::Global;
use std::marker::Model;
use std::sync::Arc;

/// A mine with the tree of its last solve. Contracts see it as the mine.
#[derive(Drop)]
pub struct ParametricSolver {
    tree: RisingTree,
    order: LowestLabel,
    /// The strong blocks of the solve before, which stay strong as values grow: a guess at those of the next.
    strong: Vec<bool>,
}

impl Model for ParametricSolver {
    ghost use Rattle.std.specs.Prelude.{◌≡◌, length};
    ghost use Rattle.pit_model.specs.Mine.{Instance};

    ghost Value = { Instance };

    ghost view = { λ r. r.tree.mine };

    ghost invariant = { λ r. (r.order.blocks ≡ r.tree.mine.blocks) × (length r.strong.items ≡ r.tree.mine.blocks) };
}

impl ParametricSolver {
    /// Takes a mine, which is not solved yet. Copies its values if another instance shares them.
    ///
    /// # Errors
    ///
    /// If memory runs out.
    pub fn new(alloc: Global, instance: Instance) -> Result<ParametricSolver, Fault>
        ensures mine { IfOk result (λ r. r ≡ instance) }
        ensures refused { IfErr result (λ e. e ≡ no_memory) }
    {
        let strong = vec![in alloc; false; instance.graph().n() as usize]?;
        let tree = BareTree::of(alloc, instance)?;
        let order = LowestLabel::new(alloc, &tree)?;
        let tree = RisingTree::of(tree)?;
        Ok(ParametricSolver {
            tree,
            order,
            strong,
        })
    }

    /// States that the mine is within the limits of an instance.
    pub fn law(&self)
        ensures { IsInstance self.now }
    {
        self.tree.law();
    }

    /// Returns the blocks of the mine and their pairs.
    pub fn graph(&self) -> &Arc<Graph>
        ensures blocks { result.now.value.blocks ≡ self.now.blocks }
        ensures pairs { result.now.value.pairs ≡ self.now.pairs }
    {
        self.tree.graph()
    }

    /// Increases the value of a block, within the limit of a value. Allocates nothing.
    pub fn increase_value(&mut self, block: u32, amount: i128)
        requires below { block < self.old.blocks }
        requires least { pos 0 ≤ℤ amount }
        requires most { amount ≤ℤ pos most_rise }
        requires limit { (value self.old block +ℤ amount) ≤ℤ pos (10 ^ 23) }
        ensures { self.new ≡ raised_at self.old block amount }
    {
        self.tree.increase_value(block, amount);
    }

    /// Solves the mine, and returns it with the blocks of its minimal pit, rising. Later solves skip these blocks, since values
    /// only increase and so the pit only grows.
    ///
    /// # Errors
    ///
    /// If memory runs out.
    pub fn solved(self) -> Result<(ParametricSolver, Vec<u32>), Fault>
        ensures mine { IfOk result (λ r. r.0 ≡ self) }
        ensures shown { IfOk result (λ r. ListsPit Least self no_blocks_fixed r.1.items) }
        ensures refused { IfErr result (λ e. e ≡ no_memory) }
    {
        let ParametricSolver {
            tree,
            mut order,
            strong,
        } = self;
        let mut tree = tree.into_bare();
        order.wait_anew(&tree);
        take_turns(&mut order, &mut tree);
        let solved = merge_remaining(NormTree::from_guess(tree, strong)?)?;
        solved.law();
        let pit = solved.pit()?;
        let (tree, strong) = solved.into_bare();
        let tree = RisingTree::of(tree)?;
        let mine = ParametricSolver {
            tree,
            order,
            strong,
        };
        Ok((mine, pit))
    }
}

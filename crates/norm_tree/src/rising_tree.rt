//! A normalised tree between two solves, while values of its instance increase.
ghost use Rattle.std.specs.Prelude.{◌≡◌, ◌<◌, ◌^◌, pos, ◌+ℤ◌, ◌≤ℤ◌, IfOk, IfErr};
ghost use Rattle.faults.specs.Refused.{no_memory};
ghost use Rattle.pit_model.specs.Mine.{value};
ghost use Rattle.pit_model.specs.Limits.{IsInstance};
ghost use Rattle.mine_graph.specs.Raised.{raised_at};
ghost use Rattle.norm_tree.specs.Over.{most_rise};

use crate::bare::BareTree;
use crate::increase_value::increase_value;
use faults::Fault;
use forest::Forest;
use mine_graph::{Graph, RisingInstance};
use std::marker::Model;
use std::sync::Arc;

/// A bare tree whose instance has values of its own, which may increase.
#[derive(Drop)]
pub struct RisingTree {
    instance: RisingInstance,
    forest: Forest,
    /// As in the bare tree.
    path: Vec<u32>,
    places: usize,
}

impl Model for RisingTree {
    ghost use Rattle.norm_tree.specs.Bare.{Bare, bare_of, BareTreeInvariant};

    ghost Value = { Bare };

    ghost view = { λ t. bare_of t.instance t.forest t.path.items t.places };

    ghost invariant = { λ t. BareTreeInvariant t.instance t.forest t.path.items t.places };
}

impl RisingTree {
    /// Returns the tree, with values of its own. Copies them if another instance shares them.
    ///
    /// # Errors
    ///
    /// If memory runs out.
    pub fn of(tree: BareTree) -> Result<RisingTree, Fault>
        ensures same { IfOk result (λ t. t ≡ tree) }
        ensures no_memory { IfErr result (λ e. e ≡ no_memory) }
    {
        let alloc = tree.alloc();
        let (instance, forest, path, places) = tree.into_parts();
        let instance = RisingInstance::of(alloc, instance)?;
        Ok(RisingTree {
            instance,
            forest,
            path,
            places,
        })
    }

    /// Returns the tree over the current values, for mergers. Allocates nothing.
    pub fn into_bare(self) -> BareTree
        ensures { result ≡ self }
    {
        BareTree::of_parts(
            self.instance.into_instance(),
            self.forest,
            self.path,
            self.places,
        )
    }

    /// States that the instance is within the limits.
    pub fn law(&self)
        ensures { IsInstance self.now.mine }
    {
        self.instance.law();
    }

    /// Returns the graph of the instance.
    pub fn graph(&self) -> &Arc<Graph>
        ensures blocks { result.now.value.blocks ≡ self.now.mine.blocks }
        ensures pairs { result.now.value.pairs ≡ self.now.mine.pairs }
    {
        self.instance.graph()
    }

    /// Increases the value of a block by an amount, within the limit of a value, and normalises the tree again: sends the gain up
    /// the branch as far as residual capacities allow. The branch is cut where some of it stays. Allocates nothing.
    pub fn increase_value(&mut self, block: u32, amount: i128)
        requires below { block < self.old.mine.blocks }
        requires least { pos 0 ≤ℤ amount }
        requires most { amount ≤ℤ pos most_rise }
        requires limit { (value self.old.mine block +ℤ amount) ≤ℤ pos (10 ^ 23) }
        ensures mine { self.new.mine ≡ raised_at self.old.mine block amount }
        ensures path { self.new.path ≡ self.old.path }
    {
        self.instance.law();
        self.forest.law();
        increase_value(&mut self.forest, block, amount);
        self.instance.increase_value(block, amount);
        self.forest.law();
        self.instance.law();
    }
}

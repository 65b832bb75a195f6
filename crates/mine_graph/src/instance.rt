//! A graph with a value for each block.
ghost use Rattle.std.specs.Prelude.{◌≡◌, ◌<◌, ◌≤◌, ℕ, pos, neg_ℤ, ◌≤ℤ◌, ◌^◌, Bool, length, get_or, IfOk};
ghost use Rattle.std.specs.List.{All};
ghost use Rattle.pit_model.specs.Sum.{total};
ghost use Rattle.pit_model.specs.Mine.{members, value, worth};
ghost use Rattle.pit_model.specs.Limits.{IsInstance};

use crate::graph::Graph;
use crate::values::Values;
use counters::Counters;
use std::alloc::{AllocError, Global};
use std::marker::Model;
use std::sync::Arc;

/// An instance of the ultimate pit problem. Values are whole numbers within 10^23 of 0.
#[derive(Drop)]
pub struct Instance {
    graph: Arc<Graph>,
    values: Values,
    counters: Counters,
}

impl Model for Instance {
    ghost use Rattle.std.specs.Prelude.{◌≡◌, length};
    ghost use Rattle.pit_model.specs.Mine.{Instance};

    ghost Value = { Instance };

    ghost view = { λ i. record { blocks = i.graph.value.blocks; values = i.values; pairs = i.graph.value.pairs } };

    ghost invariant = { λ i. length i.values ≡ i.graph.value.blocks };
}

impl Instance {
    /// The instance of these blocks and pairs with these values. It takes no memory.
    pub fn new(graph: Arc<Graph>, values: Vec<i128>) -> Instance
        requires count { length values.items ≡ graph.value.blocks }
        requires low { (u : ℕ) → u < graph.value.blocks → neg_ℤ (pos (10 ^ 23)) ≤ℤ get_or values.items u (pos 0) }
        requires high { (u : ℕ) → u < graph.value.blocks → get_or values.items u (pos 0) ≤ℤ pos (10 ^ 23) }
        ensures blocks { result.blocks ≡ graph.value.blocks }
        ensures pairs { result.pairs ≡ graph.value.pairs }
        ensures values { result.values ≡ values.items }
    {
        Instance::with_counters(graph, values, Counters::none())
    }

    /// The same as `new` gives, over which these counters count.
    pub fn with_counters(graph: Arc<Graph>, values: Vec<i128>, counters: Counters) -> Instance
        requires count { length values.items ≡ graph.value.blocks }
        requires low { (u : ℕ) → u < graph.value.blocks → neg_ℤ (pos (10 ^ 23)) ≤ℤ get_or values.items u (pos 0) }
        requires high { (u : ℕ) → u < graph.value.blocks → get_or values.items u (pos 0) ≤ℤ pos (10 ^ 23) }
        ensures blocks { result.blocks ≡ graph.value.blocks }
        ensures pairs { result.pairs ≡ graph.value.pairs }
        ensures values { result.values ≡ values.items }
    {
        let values = Values::new(values);
        Instance {
            graph,
            values,
            counters,
        }
    }

    /// What counts over the instance. No clause speaks of it.
    pub fn counters(&self) -> &Counters {
        &self.counters
    }

    /// The same instance, whose values `share` and `over` then share.
    pub fn share_values(self, alloc: Global) -> Result<Instance, AllocError>
        ensures { IfOk result (λ other. other ≡ self) }
    {
        let (graph, values, counters) = self.into_parts();
        Ok(Instance {
            graph,
            values: values.into_shared(alloc)?,
            counters,
        })
    }

    /// The graph, the values and the counters.
    pub(crate) fn into_parts(self) -> (Arc<Graph>, Values, Counters)
        ensures blocks { result.0.value.blocks ≡ self.blocks }
        ensures pairs { result.0.value.pairs ≡ self.pairs }
        ensures values { result.1 ≡ self.values }
    {
        (self.graph, self.values, self.counters)
    }

    /// The same instance once more. The graph and the counters are shared, and the values after `share_values`; otherwise they are
    /// copied.
    pub fn share(&self, alloc: Global) -> Result<Instance, AllocError>
        ensures { IfOk result (λ other. other ≡ self.now) }
    {
        self.over(alloc, Arc::try_clone(&self.graph)?)
    }

    /// The instance of other pairs of the same blocks, with the same values, which are shared or copied as by `share`. The counters
    /// are shared.
    pub fn over(&self, alloc: Global, graph: Arc<Graph>) -> Result<Instance, AllocError>
        requires { graph.value.blocks ≡ self.now.blocks }
        ensures blocks { IfOk result (λ other. other.blocks ≡ self.now.blocks) }
        ensures values { IfOk result (λ other. other.values ≡ self.now.values) }
        ensures pairs { IfOk result (λ other. other.pairs ≡ graph.value.pairs) }
    {
        Ok(Instance {
            graph,
            values: self.values.share(alloc)?,
            counters: self.counters.share(),
        })
    }

    /// The value of each block, in a list of its own.
    pub fn values(&self, alloc: Global) -> Result<Vec<i128>, AllocError>
        ensures { IfOk result (λ v. v.items ≡ self.now.values) }
    {
        self.values.to_vec(alloc)
    }

    /// What is true of each instance.
    pub fn law(&self)
        ensures { IsInstance self.now }
    {
        self.graph.law();
        self.values.law();
    }

    /// The blocks and their pairs.
    pub fn graph(&self) -> &Arc<Graph>
        ensures blocks { result.now.value.blocks ≡ self.now.blocks }
        ensures pairs { result.now.value.pairs ≡ self.now.pairs }
    {
        &self.graph
    }

    /// Returns the values alone. The graph is released, and its memory if no one else holds it.
    pub fn into_values(self) -> Values
        ensures { result ≡ self.values }
    {
        self.values
    }

    /// The value of a block.
    pub fn value(&self, u: u32) -> i128
        requires { u < self.now.blocks }
        ensures { result ≡ value self.now u }
    {
        self.values.of(u)
    }

    /// The summed value of a list of blocks, in millionths where the values are: for the members of a set, its worth.
    pub fn worth(&self, blocks: &[u32]) -> i128
        requires few { length blocks.now ≤ self.now.blocks }
        requires below { All (λ u. u < self.now.blocks) blocks.now }
        ensures sum { result ≡ total (length blocks.now) (λ i. value self.now (get_or blocks.now i 0)) }
        ensures set { (set : ℕ → Bool) → blocks.now ≡ members self.now.blocks set → result ≡ worth self.now set }
    {
        self.law();
        self.values.worth(blocks)
    }
}

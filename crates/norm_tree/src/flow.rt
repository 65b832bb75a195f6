//! The flow of a tree by arc: the flow of the link over the arc, or 0 if there is no link.
ghost use Rattle.std.specs.Prelude.{◌≡◌, ◌<◌, IfOk, IfErr, map};
ghost use Rattle.std.specs.List.{range_with_len};
ghost use Rattle.faults.specs.Refused.{no_memory};
ghost use Rattle.pit_model.specs.Mine.{arcs};
ghost use Rattle.pit_model.specs.Tree.{flow};

use crate::bare::BareTree;
use faults::Fault;
use std::alloc::Global;

impl BareTree {
    /// Returns the flow on an arc.
    fn flow_on(&self, arc: u32) -> i128
        requires { arc < arcs self.now.mine }
        ensures { result ≡ flow self.now.tree arc }
    {
        self.law();
        let (from, to) = self.instance().graph().arc(arc);
        if self.parent(from) == Some(to) {
            return self.forest().amount(from);
        }
        if self.parent(to) == Some(from) {
            return self.forest().amount(to);
        }
        0
    }

    /// The flow of each arc in turn.
    fn flows(&self, alloc: Global) -> Result<Vec<i128>, Fault>
        ensures flows { IfOk result (λ v. v.items ≡ map (flow self.now.tree) (range_with_len 0 (arcs self.now.mine))) }
        ensures no_memory { IfErr result (λ e. e ≡ no_memory) }
    {
        let m = self.instance().graph().arcs();
        Ok((0..m).map(|arc| self.flow_on(arc)).collect(alloc)?)
    }

    /// Returns the flow by arc, in millionths, allocated by `alloc`.
    ///
    /// # Errors
    ///
    /// If memory runs out.
    pub(crate) fn flow_in(&self, alloc: Global) -> Result<Vec<i128>, Fault>
        ensures ok { IfOk result (λ v. v.items ≡ self.now.tree.flows) }
        ensures no_memory { IfErr result (λ e. e ≡ no_memory) }
    {
        self.law();
        self.flows(alloc)
    }

    /// Returns the flow by arc, in millionths.
    ///
    /// # Errors
    ///
    /// If memory runs out.
    pub fn flow(&self) -> Result<Vec<i128>, Fault>
        ensures ok { IfOk result (λ v. v.items ≡ self.now.tree.flows) }
        ensures no_memory { IfErr result (λ e. e ≡ no_memory) }
    {
        self.flow_in(self.alloc())
    }
}

//! The strong blocks of a tree, which are the pit where no merger arc is left.
ghost use Rattle.std.specs.Prelude.{◌≡◌, IfOk, IfErr};
ghost use Rattle.faults.specs.Refused.{no_memory};
ghost use Rattle.pit_model.specs.Mine.{members};
ghost use Rattle.pit_model.specs.Tree.{is_strong};

use crate::tree::NormTree;
use faults::Fault;
use std::alloc::Global;

impl NormTree {
    /// Returns the strong blocks, rising, allocated by `alloc`. They are the minimal pit if no merger arc is left.
    ///
    /// # Errors
    ///
    /// If memory runs out.
    pub fn pit_in(&self, alloc: Global) -> Result<Vec<u32>, Fault>
        ensures strong { IfOk result (λ v. v.items ≡ members self.now.mine.blocks (is_strong self.now.mine self.now.tree)) }
        ensures no_memory { IfErr result (λ e. e ≡ no_memory) }
    {
        let n = self.instance().graph().n();
        Ok((0..n).filter(|&u| self.is_strong(u)).collect(alloc)?)
    }

    /// Returns the strong blocks, rising. They are the minimal pit if no merger arc is left.
    ///
    /// # Errors
    ///
    /// If memory runs out.
    pub fn pit(&self) -> Result<Vec<u32>, Fault>
        ensures strong { IfOk result (λ v. v.items ≡ members self.now.mine.blocks (is_strong self.now.mine self.now.tree)) }
        ensures no_memory { IfErr result (λ e. e ≡ no_memory) }
    {
        self.pit_in(self.alloc())
    }
}

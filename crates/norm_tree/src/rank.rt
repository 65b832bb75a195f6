//! The rank of a tree, a potential function that each merger lowers: first the sum of the positive excesses, then the number of
//! weak blocks.
ghost use Rattle.std.specs.Prelude.{◌≡◌, ◌<◌, ◌≤◌, pos, ◌≤ℤ◌};
ghost use Rattle.pit_model.specs.Flow.{excess};
ghost use Rattle.pit_model.specs.Limits.{most_worth};
ghost use Rattle.pit_model.specs.Rank.{positive_excess, positive_part, rank, weak_count};
ghost use Rattle.pit_model.specs.Tree.{flow};

use crate::tree::NormTree;

impl NormTree {
    /// Returns the excess of a block if it is above 0, and otherwise 0.
    fn positive_part(&self, block: u32) -> i128
        requires { block < self.now.mine.blocks }
        ensures part { result ≡ positive_part (excess self.now.mine (flow self.now.tree) block) }
        ensures least { pos 0 ≤ℤ result }
        ensures most { result ≤ℤ pos most_worth }
    {
        self.law();
        self.excess(block).max(0)
    }

    /// Returns the sum of the excesses above 0.
    fn positive_sum(&self) -> i128
        ensures { result ≡ positive_excess self.now.mine self.now.tree }
    {
        self.law();
        let mut sum = 0;
        for block in 0..self.instance().graph().n() {
            sum += self.positive_part(block);
        }
        sum
    }

    /// Returns the number of weak blocks.
    fn weak_blocks(&self) -> u32
        ensures count { pos result ≡ weak_count self.now.mine self.now.tree }
        ensures bound { result ≤ self.now.mine.blocks }
    {
        let mut weak = 0;
        for block in 0..self.instance().graph().n() {
            if !self.is_strong(block) {
                weak += 1;
            }
        }
        weak
    }

    /// Returns P * (n + 1) + w, with P the sum of the positive excesses, n the number of blocks and w the number of weak ones.
    pub fn rank(&self) -> i128
        ensures { result ≡ rank self.now.mine self.now.tree }
    {
        self.law();
        let blocks = i128::from(self.instance().graph().n());
        self.positive_sum() * (blocks + 1) + i128::from(self.weak_blocks())
    }
}

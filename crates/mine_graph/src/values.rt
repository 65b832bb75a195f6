//! The values of blocks by themselves, as they remain of an instance whose graph is released.
ghost use Rattle.std.specs.Prelude.{◌≡◌, ◌<◌, ◌≤◌, ℕ, ℤ, pos, Bool, List, length, get_or, IfOk};
ghost use Rattle.std.specs.List.{All};
ghost use Rattle.pit_model.specs.Sum.{total, when};
ghost use Rattle.pit_model.specs.Mine.{members};
ghost use Rattle.pit_model.specs.Size.{most_blocks};
ghost use Rattle.mine_graph.specs.Invariant.{AreWithinLimits};

use crate::amounts::Amounts;
use std::alloc::{AllocError, Global};
use std::marker::Model;
use std::sync::Arc;

/// The value of each block: whole numbers within 10^23 of 0, in millionths where a model's are.
#[derive(Drop)]
pub struct Values {
    amounts: Amounts,
}

impl Model for Values {
    ghost use Rattle.std.specs.Prelude.{ℤ, List, length};
    ghost use Rattle.mine_graph.specs.Amounts.{held_list};
    ghost use Rattle.mine_graph.specs.Invariant.{AreWithinLimits};

    ghost Value = { List ℤ };

    ghost view = { λ v. held_list v.amounts };

    ghost invariant = { λ v. AreWithinLimits (length (held_list v.amounts)) (held_list v.amounts) };
}

impl Values {
    /// These values, of one holder. It takes no memory.
    pub(crate) fn new(amounts: Vec<i128>) -> Values
        requires { AreWithinLimits (length amounts.items) amounts.items }
        ensures { result ≡ amounts.items }
    {
        Values {
            amounts: Amounts::Own(amounts),
        }
    }

    /// What is true of all values.
    pub(crate) fn law(&self)
        ensures { AreWithinLimits (length self.now) self.now }
    {
        let _ = &self.amounts;
    }

    /// The values as a slice.
    fn as_slice(&self) -> &[i128]
        ensures { result.now ≡ self.now }
    {
        match &self.amounts {
            Amounts::Own(list) => list,
            Amounts::Shared(list) => {
                let list: &Vec<i128> = list;
                list
            }
        }
    }

    /// The same values, which further holders can then share.
    pub(crate) fn into_shared(self, alloc: Global) -> Result<Values, AllocError>
        ensures { IfOk result (λ other. other ≡ self) }
    {
        let amounts = match self.amounts {
            Amounts::Own(list) => Arc::new(alloc, list)?,
            Amounts::Shared(list) => list,
        };
        Ok(Values {
            amounts: Amounts::Shared(amounts),
        })
    }

    /// The same values once more: shared if they can be, and otherwise copied.
    pub(crate) fn share(&self, alloc: Global) -> Result<Values, AllocError>
        ensures { IfOk result (λ other. other ≡ self.now) }
    {
        let amounts = match &self.amounts {
            Amounts::Own(list) => Amounts::Own(Vec::from_slice(alloc, list)?),
            Amounts::Shared(list) => Amounts::Shared(Arc::try_clone(list)?),
        };
        Ok(Values { amounts })
    }

    /// The values in a list of their own.
    pub(crate) fn to_vec(&self, alloc: Global) -> Result<Vec<i128>, AllocError>
        ensures { IfOk result (λ v. v.items ≡ self.now) }
    {
        Vec::from_slice(alloc, self.as_slice())
    }

    /// The values in a list of their own, which is copied if another holder shares it.
    pub(crate) fn into_vec(self, alloc: Global) -> Result<Vec<i128>, AllocError>
        ensures { IfOk result (λ v. v.items ≡ self) }
    {
        match self.amounts {
            Amounts::Own(list) => Ok(list),
            Amounts::Shared(list) => match Arc::try_unwrap(list) {
                Ok(list) => Ok(list),
                Err(list) => Vec::from_slice(alloc, &list),
            },
        }
    }

    /// The value of a block.
    pub fn of(&self, u: u32) -> i128
        requires { u < length self.now }
        ensures { result ≡ get_or self.now u (pos 0) }
    {
        self.as_slice()[u as usize]
    }

    /// The summed value of a list of blocks: for the members of a set, its worth.
    pub fn worth(&self, blocks: &[u32]) -> i128
        requires few { length blocks.now ≤ most_blocks }
        requires below { All (λ u. u < length self.now) blocks.now }
        ensures sum { result ≡ total (length blocks.now) (λ i. get_or self.now (get_or blocks.now i 0) (pos 0)) }
        ensures set { (n : ℕ) (set : ℕ → Bool) → blocks.now ≡ members n set → result ≡ total n (λ u. when (set u) (get_or self.now u (pos 0))) }
    {
        self.law();
        let mut sum = 0;
        for &u in blocks {
            sum += self.of(u);
        }
        sum
    }
}

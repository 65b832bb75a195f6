//! Revenue factors in per mille, rising.
ghost use Rattle.std.specs.Prelude.{◌≡◌, ◌<◌, ℕ, map, length, Some, IfOk, IfErr, IfSome, IfNone};
ghost use Rattle.pit_model.specs.Shells.{AreFactors, factor_of};
ghost use Rattle.nesting.specs.FactorList.{IsFirstItemFault};

use crate::items::check_item;
use faults::Fault;
use std::marker::Model;

/// At most 1,000 revenue factors in per mille, 0 to 100,000, each greater than the one before.
#[derive(Drop)]
pub struct Factors {
    list: Vec<u32>,
}

impl Model for Factors {
    ghost use Rattle.std.specs.Prelude.{List, ℕ};
    ghost use Rattle.pit_model.specs.Shells.{AreFactors};

    ghost Value = { List ℕ };

    ghost view = { λ f. f.list.items };

    ghost invariant = { λ f. AreFactors f.list.items };
}

/// The fault of the first item that breaks a check.
fn first_fault(list: &[u32]) -> Option<Fault>
    ensures some { IfSome result (IsFirstItemFault (map (λ factor. Some factor) list.now)) }
    ensures none { IfNone result (AreFactors list.now) }
{
    let mut before = None;
    for k in 0..list.len() {
        match check_item(k, before, Some(u64::from(list[k]))) {
            Ok(factor) => before = Some(factor),
            Err(fault) => return Some(fault),
        }
    }
    None
}

impl Factors {
    /// Returns the factors of a list. Allocates nothing.
    ///
    /// # Errors
    ///
    /// The first item that is above 100,000 or beyond the thousandth (4), or not greater than the item before (19).
    pub fn new(list: Vec<u32>) -> Result<Factors, Fault>
        ensures list { IfOk result (λ f. f ≡ list.items) }
        ensures refused { IfErr result (IsFirstItemFault (map (λ factor. Some factor) list.items)) }
    {
        match first_fault(&list) {
            Some(fault) => Err(fault),
            None => Ok(Factors { list }),
        }
    }

    /// Returns the factors of a list whose items were checked by `check_item`.
    pub fn from_checked(list: Vec<u32>) -> Factors
        requires { AreFactors list.items }
        ensures { result ≡ list.items }
    {
        Factors { list }
    }

    /// States the invariant: the factors rise and are within the limits.
    pub fn law(&self)
        ensures { AreFactors self.now }
    {
        let _ = &self.list;
    }

    /// Returns the number of factors.
    pub fn len(&self) -> usize
        ensures { result ≡ length self.now }
    {
        self.list.len()
    }

    /// Returns factor number `k`, counted from 0, in per mille.
    pub fn get(&self, k: usize) -> u32
        requires { k < length self.now }
        ensures { result ≡ factor_of self.now k }
    {
        self.list[k]
    }
}

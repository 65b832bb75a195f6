//! Price factors from a text of whole numbers between commas.
ghost use Rattle.std.specs.Prelude.{IfOk, IfErr};
ghost use Rattle.minelib_reader.specs.Answer.{FailsAt};
ghost use Rattle.nesting.specs.FactorList.{IsFirstItemFault};
ghost use Rattle.pit_model.specs.Shells.{AreFactors};
ghost use Rattle.shells.specs.FactorText.{item_numbers, SpellsFactors};

use crate::items::next_item;
use faults::Fault;
use minelib_reader::whole_number;
use nesting::{Factors, check_item};
use std::alloc::Global;

/// The numbers of the items of a text.
fn read_items(alloc: Global, text: &[u8]) -> Result<Vec<u32>, Fault>
    ensures spelled { IfOk result (λ v. SpellsFactors text.now v.items) }
    ensures lawful { IfOk result (λ v. AreFactors v.items) }
    ensures refused { IfErr result (λ e. FailsAt e.refusal e (IsFirstItemFault (item_numbers text.now))) }
{
    let mut list = Vec::new(alloc);
    let mut before = None;
    let mut rest = Some(text);
    while let Some(left) = rest {
        let (item, behind) = next_item(left);
        let factor = check_item(list.len(), before, whole_number(item))?;
        list.push(factor)?;
        before = Some(factor);
        rest = behind;
    }
    Ok(list)
}

/// Read from a text.
pub trait FromText: Sized {
    /// Returns what a text spells. Of factors: whole numbers between commas, without blanks. The empty text has one item, which is
    /// not a whole number.
    ///
    /// # Errors
    ///
    /// By the first item that is not a whole number of 1 to 10 digits (5), above 100,000 or the one too many (4), or not greater
    /// than the one before (19); and if memory runs out (1).
    fn read(alloc: Global, text: &str) -> Result<Self, Fault>;
}

impl FromText for Factors {
    fn read(alloc: Global, text: &str) -> Result<Factors, Fault>
        ensures spelled { IfOk result (SpellsFactors text.now) }
        ensures refused { IfErr result (λ e. FailsAt e.refusal e (IsFirstItemFault (item_numbers text.now))) }
    {
        let list = read_items(alloc, text.as_bytes())?;
        Ok(Factors::from_checked(list))
    }
}

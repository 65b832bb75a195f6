//! What the holder decides of an ask, and how it stands in a word of the board.
//! `serve` writes the word of a verdict, `ask` reads it.
ghost use Rattle.std.specs.Prelude.{◌≡◌};
ghost use Rattle.pit_model.specs.declared.journal.Verdict.{Verdict as AnyVerdict};
ghost use Rattle.proposals.specs.Ledger.{code};

use pit_model::Verdict;

/// The arc that was asked, with what was decided of it.
#[derive(Clone, Copy, Debug, PartialEq, Eq)]
pub struct Reply {
    pub arc: u32,
    pub verdict: Verdict,
}

/// What stands in the word of an answered ask.
pub(crate) fn word_of(verdict: Verdict) -> u64
    ensures { result ≡ code verdict }
{
    match verdict {
        Verdict::Applied => 1,
        Verdict::Stale => 2,
        Verdict::Spent => 3,
    }
}

pub(crate) fn verdict_of(word: u64) -> Verdict
    ensures { (v : AnyVerdict) → word ≡ code v → result ≡ v }
{
    match word {
        1 => Verdict::Applied,
        2 => Verdict::Stale,
        _ => Verdict::Spent,
    }
}

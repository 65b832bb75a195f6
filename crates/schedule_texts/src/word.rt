//! The words that lines begin with.
ghost use Rattle.std.specs.Prelude.{◌≡◌};
ghost use Rattle.schedule_texts.specs.Words.{text_of};

/// A word that a line begins with.
#[derive(Clone, Copy, Debug, PartialEq, Eq)]
pub enum Word {
    Problem,
    Schedule,
    Prices,
    Blocks,
    Periods,
    Destinations,
    Columns,
    Limits,
    Values,
    Uses,
    Shares,
    Discounts,
    Capacities,
    Value,
    Use,
    Amounts,
    Share,
    Price,
}

impl Word {
    /// Returns the text of the word.
    #[tactic(auto, unfolding(crate::specs::Words::text_of))]
    pub(crate) fn text(self) -> &'static [u8]
        ensures { result.now ≡ text_of self }
    {
        match self {
            Word::Problem => b"PROBLEM",
            Word::Schedule => b"SCHEDULE",
            Word::Prices => b"PRICES",
            Word::Blocks => b"BLOCKS",
            Word::Periods => b"PERIODS",
            Word::Destinations => b"DESTINATIONS",
            Word::Columns => b"COLUMNS",
            Word::Limits => b"LIMITS",
            Word::Values => b"VALUES",
            Word::Uses => b"USES",
            Word::Shares => b"SHARES",
            Word::Discounts => b"DISCOUNTS",
            Word::Capacities => b"CAPACITIES",
            Word::Value => b"VALUE",
            Word::Use => b"USE",
            Word::Amounts => b"AMOUNTS",
            Word::Share => b"SHARE",
            Word::Price => b"PRICE",
        }
    }
}

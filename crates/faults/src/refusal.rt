//! What can be wrong, with the number and the words under which it is reported.
ghost use Rattle.std.specs.Prelude.{◌≡◌, ◌≤◌, length};
ghost use Rattle.faults.specs.Words.{number_of, words_of};

/// What was wrong, in the order of the numbers under which it is reported, from 1 to 22.
#[derive(Debug, Drop)]
pub enum Refusal {
    NoMemory,
    ReadFailed,
    WrongHeader,
    OverLimit,
    NotWhole,
    NotDecimal,
    IdOutOfPlace,
    PredecessorOutOfRange,
    NeedsItself,
    PredecessorTwice,
    WrongFieldCount,
    EndsEarly,
    AfterEnd,
    /// The blocks of a cycle: each needs the next, and the last needs the first.
    Cycle(Vec<u32>),
    /// The least block with a negative number in a chosen column.
    NegativeColumn(u32),
    NoSuchColumn(u32),
    CountsDiffer,
    WriteFailed,
    FactorsNotRising,
    /// How many mergers the budget allowed.
    Exhausted(u64),
    /// The least barred block that a forced one needs, directly or through others.
    FixedClash(u32),
    NoSeat,
}

impl Refusal {
    /// The number of the refusal, from 1 to 22.
    pub fn number(&self) -> u32
        ensures { result ≡ number_of self.now }
    {
        match self {
            Refusal::NoMemory => 1,
            Refusal::ReadFailed => 2,
            Refusal::WrongHeader => 3,
            Refusal::OverLimit => 4,
            Refusal::NotWhole => 5,
            Refusal::NotDecimal => 6,
            Refusal::IdOutOfPlace => 7,
            Refusal::PredecessorOutOfRange => 8,
            Refusal::NeedsItself => 9,
            Refusal::PredecessorTwice => 10,
            Refusal::WrongFieldCount => 11,
            Refusal::EndsEarly => 12,
            Refusal::AfterEnd => 13,
            Refusal::Cycle(_) => 14,
            Refusal::NegativeColumn(_) => 15,
            Refusal::NoSuchColumn(_) => 16,
            Refusal::CountsDiffer => 17,
            Refusal::WriteFailed => 18,
            Refusal::FactorsNotRising => 19,
            Refusal::Exhausted(_) => 20,
            Refusal::FixedClash(_) => 21,
            Refusal::NoSeat => 22,
        }
    }

    /// The words of the refusal, up to what differs from fault to fault: a block, a column or a count, which stands behind them.
    pub fn words(&self) -> &'static str
        ensures text { result.now ≡ words_of self.now }
        ensures short { length result.now ≤ 40 }
    {
        match self {
            Refusal::NoMemory => "no memory",
            Refusal::ReadFailed => "read failed",
            Refusal::WrongHeader => "wrong header",
            Refusal::OverLimit => "over the limit",
            Refusal::NotWhole => "not a whole number",
            Refusal::NotDecimal => "not a decimal",
            Refusal::IdOutOfPlace => "id out of place",
            Refusal::PredecessorOutOfRange => "predecessor out of range",
            Refusal::NeedsItself => "block needs itself",
            Refusal::PredecessorTwice => "predecessor named twice",
            Refusal::WrongFieldCount => "wrong number of fields",
            Refusal::EndsEarly => "ends early",
            Refusal::AfterEnd => "line after the end",
            Refusal::Cycle(_) => "cycle",
            Refusal::NegativeColumn(_) => "negative value at block ",
            Refusal::NoSuchColumn(_) => "no column ",
            Refusal::CountsDiffer => "counts differ",
            Refusal::WriteFailed => "write failed",
            Refusal::FactorsNotRising => "factors not rising",
            Refusal::Exhausted(_) => "exhausted after ",
            Refusal::FixedClash(_) => "fixed blocks clash at block ",
            Refusal::NoSeat => "no seat",
        }
    }
}

//! The limits of a scheduling problem.
ghost use Rattle.std.specs.Prelude.{◌≡◌};
ghost use Rattle.schedule_runs.specs.Limited.{fewest, greatest};

/// What a problem counts, and two products of these counts.
#[derive(Clone, Copy, Debug, PartialEq, Eq, Drop)]
pub enum Quantity {
    Blocks,
    Periods,
    Destinations,
    Columns,
    Limits,
    /// Lines of `VALUE` and of `USE`.
    Terms,
    /// Blocks times periods.
    Nodes,
    /// Limits times periods.
    Capacities,
}

impl Quantity {
    /// All quantities, in the order in which they are checked.
    pub const ALL: [Quantity; 8] = [
        Quantity::Blocks,
        Quantity::Periods,
        Quantity::Destinations,
        Quantity::Columns,
        Quantity::Limits,
        Quantity::Terms,
        Quantity::Nodes,
        Quantity::Capacities,
    ];

    /// Returns the least lawful number.
    pub fn fewest(self) -> u128
        ensures { result ≡ fewest self }
    {
        match self {
            Quantity::Periods | Quantity::Destinations => 1,
            Quantity::Blocks
            | Quantity::Columns
            | Quantity::Limits
            | Quantity::Terms
            | Quantity::Nodes
            | Quantity::Capacities => 0,
        }
    }

    /// Returns the greatest lawful number.
    pub fn greatest(self) -> u128
        ensures { result ≡ greatest self }
    {
        match self {
            Quantity::Blocks | Quantity::Nodes => 4_194_304,
            Quantity::Periods | Quantity::Limits | Quantity::Capacities => 65_536,
            Quantity::Destinations => 64,
            Quantity::Columns | Quantity::Terms => 1024,
        }
    }
}

/// A section of a problem's text.
#[derive(Clone, Copy, Debug, PartialEq, Eq, Drop)]
pub enum Section {
    Discounts,
    Capacities,
    Values,
    Uses,
    Amounts,
}

impl Section {
    /// All sections, in the order of the text.
    pub const ALL: [Section; 5] = [
        Section::Discounts,
        Section::Capacities,
        Section::Values,
        Section::Uses,
        Section::Amounts,
    ];
}

/// The first limit that a problem breaks.
#[derive(Clone, Copy, Debug, PartialEq, Eq, Drop)]
pub enum BrokenLimit {
    /// This quantity has this number, which is too low or too high.
    Count(Quantity, u128),
    /// A number of a section is out of range. Numbers count from 0, line by line.
    Number(Section, u64),
    /// The number of pairs of nodes is too high: periods times the sum of arcs and blocks.
    Pairs(u128),
}

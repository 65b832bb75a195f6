//! Which board and seats belong together: a type without bytes names them, so no call compares anything.
use std::marker::Brand;

/// Names one board, and how many arcs there are to ask for: only lesser numbers are. A caller that has an unnamed board picks
/// them, as its `ghosts-F-B-BoardId`.
pub trait BoardId {
    ghost use Rattle.std.specs.Prelude.{ℕ};
    ghost use Rattle.atomic_table.specs.Seated.{TableId};

    ghost board: { TableId };

    ghost arcs: { ℕ };
}

impl BoardId for Brand {
    ghost use Rattle.proposals.specs.BoardIds.{no_table};

    ghost board = { no_table };

    ghost arcs = { 0 };
}

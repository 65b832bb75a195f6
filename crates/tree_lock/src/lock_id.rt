//! Which instance, which list of mergers, which budget and which board a lock works on: a type without bytes names them, so no
//! call compares anything.
use proposals::BoardId;
use std::marker::Brand;
use versions::ListId;

/// Names a budget and the number of workers at the board, beside the board of a `BoardId` and the instance and the list of
/// mergers of an `ListId`. A caller that has them picks them, as its `ghosts-F`.
pub trait LockId: BoardId + ListId {
    ghost use Rattle.std.specs.Prelude.{ℕ, Option};

    ghost budget: { Option ℕ };

    ghost workers: { ℕ };
}

impl LockId for Brand {
    ghost use Rattle.std.specs.Prelude.{None};

    ghost budget = { None };

    ghost workers = { 0 };
}

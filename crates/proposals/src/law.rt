//! The law of the board: the rule that every step keeps is the table of `specs/Law.antt`.
//! It stands between any two steps, for each worker, over all that the seats know.
ghost use Rattle.std.specs.Prelude.{ℕ};
ghost use Rattle.atomic_table.specs.Table.{State};
ghost use Rattle.proposals.specs.declared.seat_state.SeatState.{SeatState as Known};
ghost use Rattle.proposals.specs.Ledger.{Boarded};
ghost use Rattle.proposals.specs.Law.{LedgerStands};

/// Wherever the rule of the board holds, each worker's word says how what was asked, answered, collected and claimed stand to each other.
pub fn ledger_law()
    ensures { (workers : ℕ) (board : State (Unit {0}) Known) → Boarded workers board → LedgerStands board }
{}

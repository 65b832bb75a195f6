//! The rule of the board, and what the seat that makes a step learns from each kind of step. The rule and the steps are defined in
//! `specs/Ledger.antt`; `proofs/` shows that each step keeps the rule.
use crate::seat_state::SeatState;
use atomic_table::{Join, Play, Split, TableRule};

/// The rule of the board: the ledger of each worker stands to its word as the table of `specs/Law.antt` says.
pub struct Asks;

impl TableRule<(), SeatState, u64> for Asks {
    ghost use Rattle.proposals.specs.Ledger.{Boarded, opener};

    ghost holds = { Boarded };

    ghost first = { opener };
}

pub(crate) struct Ask;

impl Play<(), SeatState> for Ask {
    ghost use Rattle.proposals.specs.Ledger.{Asked};

    ghost then = { Asked };
}

pub(crate) struct Withdraw;

impl Play<(), SeatState> for Withdraw {
    ghost use Rattle.proposals.specs.Ledger.{Withdrew};

    ghost then = { Withdrew };
}

pub(crate) struct Collect;

impl Play<(), SeatState> for Collect {
    ghost use Rattle.proposals.specs.Ledger.{Collected};

    ghost then = { Collected };
}

/// The holder looks for an ask in a worker's word.
pub(crate) struct Look;

impl Play<(), SeatState> for Look {
    ghost use Rattle.proposals.specs.Ledger.{Looked};

    ghost then = { Looked };
}

pub(crate) struct Claim;

impl Play<(), SeatState> for Claim {
    ghost use Rattle.proposals.specs.Ledger.{Claimed};

    ghost then = { Claimed };
}

pub(crate) struct Answer;

impl Play<(), SeatState> for Answer {
    ghost use Rattle.proposals.specs.Ledger.{Answered};

    ghost then = { Answered };
}

pub(crate) struct Unclaim;

impl Play<(), SeatState> for Unclaim {
    ghost use Rattle.proposals.specs.Ledger.{Unclaimed};

    ghost then = { Unclaimed };
}

pub(crate) struct Agree;

impl Play<(), SeatState> for Agree {
    ghost use Rattle.proposals.specs.Ledger.{Agreed};

    ghost then = { Agreed };
}

pub(crate) struct JoinBoard;

impl Play<(), SeatState> for JoinBoard {
    ghost use Rattle.proposals.specs.Ledger.{sat};

    ghost then = { sat };
}

/// The holder's seat gives the next worker its seat.
pub(crate) struct SplitWorkerSeat;

impl Split<SeatState> for SplitWorkerSeat {
    ghost use Rattle.proposals.specs.Ledger.{dealing, dealt_to};

    ghost left = { dealing };

    ghost right = { dealt_to };
}

/// A worker's seat takes the holder's in, and gives it back.
pub(crate) struct JoinSeats;

impl Join<SeatState> for JoinSeats {
    ghost use Rattle.proposals.specs.Ledger.{meeting, empty_seat};

    ghost both = { meeting };

    ghost spent = { empty_seat };
}

impl Split<SeatState> for JoinSeats {
    ghost use Rattle.proposals.specs.Ledger.{worker_part, holder_part};

    ghost left = { worker_part };

    ghost right = { holder_part };
}

//! A worker's calls: it asks for an arc, collects the reply, or takes the ask back.
//! Each makes at most one step, and tries it once.
ghost use Rattle.std.specs.Prelude.{◌≡◌, ◌<◌, ℕ, MatchBool, MatchOption};
ghost use Rattle.proposals.specs.Ledger.{HasNoOpenAsk, IsOpen, asking, withdrawn, collecting};

use crate::board::{ASKED, Board};
use crate::board_id::BoardId;
use crate::seats::WorkerSeat;
use crate::steps::{Ask, Collect, Withdraw};
use crate::verdict::{Reply, verdict_of};

impl<B: BoardId> Board<B> {
    /// Asks for an arc. False exactly where the seat has an ask open; then no step is made.
    pub fn ask(&self, seat: &mut WorkerSeat<B>, arc: u32) -> bool
        requires { arc < B.arcs }
        ensures { MatchBool result (HasNoOpenAsk seat.old × (seat.new ≡ asking seat.old arc)) ((HasNoOpenAsk seat.old → ⊥) × (seat.new ≡ seat.old)) }
    {
        match seat.ask {
            Some(_) => return false,
            None => {}
        }
        let cell = seat.cell as usize;
        self.cells
            .shared
            .store::<Ask>(&mut seat.seat, cell, ASKED + arc as u64);
        seat.ask = Some(arc);
        true
    }

    /// Collects the reply to the open ask. None where no ask is open, and then no step is made, or where it was not answered at the step.
    pub fn collect(&self, seat: &mut WorkerSeat<B>) -> Option<Reply>
        ensures { MatchOption result (seat.new ≡ seat.old) (λ reply. IsOpen seat.old reply.arc × (seat.new ≡ collecting seat.old reply)) }
    {
        let arc = match seat.ask {
            Some(arc) => arc,
            None => return None,
        };
        let cell = seat.cell as usize;
        let found = self.cells.shared.load::<Collect>(&mut seat.seat, cell);
        if found >= 4 {
            return None;
        }
        seat.ask = None;
        Some(Reply {
            arc,
            verdict: verdict_of(found),
        })
    }

    /// Takes the open ask back, and is true exactly where it did.
    /// False where none is open, and where it was claimed or answered: then it stays open until it is collected.
    pub fn withdraw(&self, seat: &mut WorkerSeat<B>) -> bool
        ensures { MatchBool result ((a : ℕ) × IsOpen seat.old a × (seat.new ≡ withdrawn seat.old)) (seat.new ≡ seat.old) }
    {
        let arc = match seat.ask {
            Some(arc) => arc,
            None => return false,
        };
        let cell = seat.cell as usize;
        let asked = ASKED + arc as u64;
        let found = self
            .cells
            .shared
            .compare_exchange::<Withdraw>(&mut seat.seat, cell, asked, 0);
        if found != asked {
            return false;
        }
        seat.ask = None;
        true
    }
}

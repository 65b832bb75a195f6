//! The holder's calls: it claims a worker's ask, and answers it or gives it back.
//! None of them has a loop, and none asks for memory.
ghost use Rattle.std.specs.Prelude.{◌≡◌, ℕ, ◌-◌, ◌<◌, ◌≤◌, Some, None, [], ◌∷◌, ◌++◌, length, MatchOption};
ghost use Rattle.proposals.specs.Ledger.{reply, claimed_from, claiming, answering, unclaiming};

use crate::board::{ASKED, Board};
use crate::board_id::BoardId;
use crate::seats::HolderSeat;
use crate::steps::{Answer, Claim, Look, Unclaim};
use crate::verdict::word_of;
use pit_model::Verdict;

impl<B: BoardId> Board<B> {
    /// Reads the word of a worker, to see whether an ask stands there. The seat keeps in which cell it looked.
    fn look(&self, holder: &mut HolderSeat<B>, worker: u32) -> u64
        requires { (0 < worker) × (worker ≤ length holder.old.served) }
        ensures looked { holder.new.looks ≡ holder.old.looks ++ (worker - 1) ∷ [] }
        ensures served { holder.new.served ≡ holder.old.served }
    {
        self.cells
            .shared
            .load::<Look>(&mut holder.seat, worker as usize - 1)
    }

    /// Looks for an ask of a worker, claims it, and answers its arc, which is one that may be asked for. None where no ask stood,
    /// or where it was withdrawn between the two steps.
    pub fn claim_ask(&self, holder: &mut HolderSeat<B>, worker: u32) -> Option<u32>
        requires { (0 < worker) × (worker ≤ length holder.old.served) }
        ensures looked { holder.new.looks ≡ holder.old.looks ++ (worker - 1) ∷ [] }
        ensures claimed { MatchOption result (holder.new.served ≡ holder.old.served) (λ a. (a < B.arcs) × (claimed_from holder.old.served (worker - 1) ≡ None) × (holder.new.served ≡ claiming holder.old.served (worker - 1) a)) }
    {
        let word = self.look(holder, worker);
        if word < ASKED || word >= ASKED + u64::from(self.arcs) {
            return None;
        }
        let cell = worker as usize - 1;
        let found = self
            .cells
            .shared
            .compare_exchange::<Claim>(&mut holder.seat, cell, word, word + ASKED);
        if found != word {
            return None;
        }
        let arc = (word - ASKED) as u32;
        holder.claimed[cell] = arc;
        Some(arc)
    }

    /// Answers the ask that is claimed from a worker.
    pub fn answer(&self, holder: &mut HolderSeat<B>, worker: u32, verdict: Verdict)
        requires worker { (0 < worker) × (worker ≤ length holder.old.served) }
        requires claimed { (a : ℕ) × (claimed_from holder.old.served (worker - 1) ≡ Some a) }
        ensures answered { (a : ℕ) → claimed_from holder.old.served (worker - 1) ≡ Some a → holder.new.served ≡ answering holder.old.served (worker - 1) (reply a verdict) }
        ensures looks { holder.new.looks ≡ holder.old.looks }
    {
        let cell = worker as usize - 1;
        self.cells
            .shared
            .store::<Answer>(&mut holder.seat, cell, word_of(verdict));
    }

    /// Gives the ask that is claimed from a worker back as it stood.
    pub fn unclaim(&self, holder: &mut HolderSeat<B>, worker: u32)
        requires worker { (0 < worker) × (worker ≤ length holder.old.served) }
        requires claimed { (a : ℕ) × (claimed_from holder.old.served (worker - 1) ≡ Some a) }
        ensures unclaimed { holder.new.served ≡ unclaiming holder.old.served (worker - 1) }
        ensures looks { holder.new.looks ≡ holder.old.looks }
    {
        let cell = worker as usize - 1;
        let arc = holder.claimed[cell];
        self.cells
            .shared
            .store::<Unclaim>(&mut holder.seat, cell, ASKED + u64::from(arc));
    }
}

//! The two seats of a worker: the one at the board, where it asks, and the one from which it reads versions. Nobody asks at the
//! board but through them, so a worker asks only for what a version showed.
ghost use Rattle.std.specs.Prelude.{◌≡◌, ◌<◌, [], Some, IsTrue, MatchBool, MatchOption};
ghost use Rattle.pit_model.specs.Mine.{arcs};
ghost use Rattle.proposals.specs.Ledger.{HasNoOpenAsk, asking};
ghost use Rattle.crew.specs.Working.{seated, LooksFor, HasSeen, Collects, TakesBack, IsSynchronised};

use proposals::{Board, Reply, WorkerSeat};
use std::marker::Model;
use tree_lock::{Holder, LockId, LookSeat};

/// A worker's seat at the board, and its seat to look from, which is absent while it is lent, and never between calls. To a contract
/// it is what the two know. Each arc that the worker asked for was a merger arc of a version.
#[derive(Drop)]
pub struct WorkerSeats<S: LockId> {
    asks: WorkerSeat<S>,
    looks: Option<LookSeat<S>>,
}

impl<S: LockId> Model for WorkerSeats<S> {
    ghost use Rattle.crew.specs.Working.{Seated, seated, AsksWhatItSaw};

    ghost Value = { Seated };

    ghost view = { λ s. seated s.asks s.looks };

    ghost invariant = { λ s. AsksWhatItSaw S.mine (seated s.asks s.looks) };
}

impl<S: LockId> WorkerSeats<S> {
    /// Returns the two seats of a worker that has asked for nothing.
    pub fn new(asks: WorkerSeat<S>, looks: LookSeat<S>) -> WorkerSeats<S>
        requires { asks.asked ≡ [] }
        ensures { result ≡ seated asks (Some looks) }
    {
        WorkerSeats {
            asks,
            looks: Some(looks),
        }
    }

    /// Returns whether the published version shows the arc as a merger arc; no if there is no version. The version is left before
    /// an ask, so that the publisher waits for one test at most.
    pub fn sees_merger(&mut self, arc: u32) -> bool
        ensures shown { LooksFor S.mine arc self.old.looks self.new.looks result }
        ensures asks { self.new.asks ≡ self.old.asks }
        ensures seen { IsTrue result → HasSeen S.mine arc self.new.looks }
        ensures inside { IsTrue result → arc < arcs S.mine }
    {
        let Some(seat) = self.looks.take() else {
            return false;
        };
        match seat.look() {
            Ok(version) => {
                let is_merger = version.is_merger(arc);
                self.looks = Some(version.leave());
                is_merger
            }
            Err(seat) => {
                self.looks = Some(seat);
                false
            }
        }
    }

    /// Asks for an arc that the worker saw as a merger arc. False exactly if it has an ask open, and then it makes no step.
    pub fn ask(&mut self, board: &Board<S>, arc: u32) -> bool
        requires inside { arc < S.arcs }
        requires seen { HasSeen S.mine arc self.old.looks }
        ensures { MatchBool result (HasNoOpenAsk self.old.asks × (self.new ≡ seated (asking self.old.asks arc) self.old.looks)) ((HasNoOpenAsk self.old.asks → ⊥) × (self.new ≡ self.old)) }
    {
        let _ = &self.looks;
        board.ask(&mut self.asks, arc)
    }

    /// Collects the reply to the open ask; None if no ask is open, or if it was not answered yet.
    pub fn collect(&mut self, board: &Board<S>) -> Option<Reply>
        ensures { MatchOption result (self.new ≡ self.old) (λ reply. Collects self.old self.new reply) }
    {
        let _ = &self.looks;
        board.collect(&mut self.asks)
    }

    /// Takes back an ask that no one answered, or collects the reply. No ask is open then, unless it is claimed.
    pub fn take_back(&mut self, board: &Board<S>)
        ensures { TakesBack self.old self.new }
    {
        let _ = &self.looks;
        if !board.withdraw(&mut self.asks) {
            board.collect(&mut self.asks);
        }
    }

    /// Synchronises the seats with the holder's after a sweep. What the worker asked and collected then agrees with the entries under
    /// its seat, and it knows all mergers that were made.
    pub fn synchronise(&mut self, board: &Board<S>, holder: &mut Holder<S>)
        ensures same { holder.new ≡ holder.old }
        ensures asks { self.new.asks ≡ self.old.asks }
        ensures met { IsSynchronised S.mine holder.old.journal self.new }
    {
        holder.settle(board, &mut self.asks);
        match &mut self.looks {
            Some(seat) => {
                holder.tell(seat);
            }
            None => {}
        }
    }
}

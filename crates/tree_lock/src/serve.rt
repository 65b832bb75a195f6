//! The pass of the holder over the board: each ask that stands there is decided, with an entry under its worker's seat,
//! and answered (flat combining: Hendler, Incze, Shavit and Tzafrir 2010).
ghost use Rattle.std.specs.Prelude.{◌≡◌, ℕ, ◌-◌, ◌<◌, ◌≤◌, IfOk, IfErr};
ghost use Rattle.faults.specs.Refused.{no_memory};
ghost use Rattle.tree_lock.specs.HolderState.{with_look};
ghost use Rattle.tree_lock.specs.Served.{LooksAtFirst, Serves, ServesOne};

use crate::holder::Holder;
use crate::lock_id::LockId;
use faults::Fault;
use proposals::Board;
use std::sync::Wait;

impl<S: LockId> Holder<S> {
    /// Reads the word of one worker, and returns whether an ask of it was served.
    fn serve_one<R: Wait>(&mut self, rt: &R, board: &Board<S>, worker: u32) -> Result<bool, Fault>
        requires { (0 < worker) × (worker ≤ S.workers) }
        ensures served { IfOk result (ServesOne worker self.old self.new) }
        ensures refused { IfErr result (λ e. (e ≡ no_memory) × (self.new ≡ with_look self.old (worker - 1))) }
    {
        let Some(arc) = board.claim_ask(&mut self.seat, worker) else {
            return Ok(false);
        };
        match self.published_journal.decide(rt, worker, arc) {
            Ok(verdict) => {
                board.answer(&mut self.seat, worker, verdict);
                Ok(true)
            }
            Err(error) => {
                board.unclaim(&mut self.seat, worker);
                Err(error)
            }
        }
    }

    /// One pass over the board, in increasing order of workers. It reads the word of each worker once; each ask that it finds there
    /// is decided and answered, with an entry under its worker's seat, at most one for each worker. An applied merger is published
    /// before its answer. It returns how many asks were answered. An arc that the instance does not have is stale. It waits for
    /// readers that have not left an old version.
    ///
    /// Errors: `NoMemory` if memory for an entry or its merger was refused. All is then as after the asks answered before it, its
    /// ask stays open, and the pass ends: the words of that worker and of those before it were read.
    pub fn serve<R: Wait>(&mut self, rt: &R, board: &Board<S>) -> Result<u32, Fault>
        ensures served { IfOk result (Serves self.old self.new) }
        ensures looked { IfOk result (λ _. LooksAtFirst S.workers self.old self.new) }
        ensures refused { IfErr result (λ e. (e ≡ no_memory) × ((count : ℕ) × Serves self.old self.new count)) }
        ensures stopped { IfErr result (λ _. (last : ℕ) × (0 < last) × (last ≤ S.workers) × LooksAtFirst last self.old self.new) }
    {
        let workers = board.workers(&self.seat);
        let mut count = 0;
        let mut worker = 0;
        while worker < workers {
            worker += 1;
            if self.serve_one(rt, board, worker)? {
                count += 1;
            }
        }
        Ok(count)
    }
}

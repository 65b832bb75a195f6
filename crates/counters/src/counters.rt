//! Counters for observers of a run. They travel with the mine, and no answer depends on them: no clause can say what an atomic word
//! holds, and none here tries to.

use crate::phase::Phase;
use crate::stats::Stats;
use std::alloc::{AllocError, Global};
use std::sync::atomic::AtomicU64;
use std::sync::atomic::Ordering::{Relaxed, SeqCst};
use std::sync::{Arc, Wait};
use std::time::Duration;

/// The words under counters.
#[derive(Drop)]
struct Words {
    phase: AtomicU64,
    bytes: AtomicU64,
    blocks: AtomicU64,
    pairs: AtomicU64,
    mergers: AtomicU64,
    closing: AtomicU64,
    planned: AtomicU64,
    relabels: AtomicU64,
    sweeps: AtomicU64,
    asks: AtomicU64,
    stale: AtomicU64,
    factor: AtomicU64,
    factors: AtomicU64,
}

/// They count what a run does; `none` count nothing.
#[derive(Drop)]
pub struct Counters {
    words: Option<Arc<Words>>,
}

impl Words {
    /// Nothing is counted yet.
    fn new() -> Words {
        Words {
            phase: AtomicU64::new(0),
            bytes: AtomicU64::new(0),
            blocks: AtomicU64::new(0),
            pairs: AtomicU64::new(0),
            mergers: AtomicU64::new(0),
            closing: AtomicU64::new(0),
            planned: AtomicU64::new(0),
            relabels: AtomicU64::new(0),
            sweeps: AtomicU64::new(0),
            asks: AtomicU64::new(0),
            stale: AtomicU64::new(0),
            factor: AtomicU64::new(0),
            factors: AtomicU64::new(0),
        }
    }

    /// What is counted now.
    fn counted(&self) -> Stats {
        Stats {
            bytes: self.bytes.load(Relaxed),
            blocks: self.blocks.load(Relaxed),
            pairs: self.pairs.load(Relaxed),
            mergers: self.mergers.load(Relaxed),
            closing: self.closing.load(Relaxed),
            planned: self.planned.load(Relaxed),
            relabels: self.relabels.load(Relaxed),
            sweeps: self.sweeps.load(Relaxed),
            asks: self.asks.load(Relaxed),
            stale: self.stale.load(Relaxed),
            factor: self.factor.load(Relaxed),
            factors: self.factors.load(Relaxed),
        }
    }
}

impl Counters {
    /// Counts nothing.
    pub fn none() -> Counters {
        Counters { words: None }
    }

    /// Counts from 0.
    pub fn new(alloc: Global) -> Result<Counters, AllocError> {
        Ok(Counters {
            words: Some(Arc::new(alloc, Words::new())?),
        })
    }

    /// The same counters once more; one of none where it can have no further owner.
    pub fn share(&self) -> Counters {
        match &self.words {
            None => Counters::none(),
            Some(words) => Counters {
                words: Arc::try_clone(words).ok(),
            },
        }
    }

    /// The run enters this phase. Observers that wait for another phase wake.
    pub fn enter(&self, phase: Phase) {
        if let Some(words) = &self.words {
            words.phase.store(u64::from(phase.place()), SeqCst);
            words.phase.wake_all();
        }
    }

    /// Adds bytes of an input that were read.
    pub fn read(&self, bytes: u64) {
        if let Some(words) = &self.words {
            words.bytes.fetch_add(bytes, Relaxed);
        }
    }

    /// Adds blocks of the model that were read.
    pub fn blocks_read(&self, blocks: u64) {
        if let Some(words) = &self.words {
            words.blocks.store(blocks, Relaxed);
        }
    }

    /// Adds pairs that were read.
    pub fn pairs_read(&self, pairs: u64) {
        if let Some(words) = &self.words {
            words.pairs.store(pairs, Relaxed);
        }
    }

    /// Counts a merger: of the plan while the run makes one, otherwise of the run.
    pub fn merged(&self) {
        if let Some(words) = &self.words {
            let is_plan = words.phase.load(Relaxed) == u64::from(Phase::Planning.place());
            let mergers = if is_plan {
                &words.planned
            } else {
                &words.mergers
            };
            mergers.fetch_add(1, Relaxed);
        }
    }

    /// Adds blocks that got the next label.
    pub fn relabelled(&self, blocks: u64) {
        if let Some(words) = &self.words {
            words.relabels.fetch_add(blocks, Relaxed);
        }
    }

    /// The closing loop made a merger.
    pub fn closed(&self) {
        if let Some(words) = &self.words {
            words.closing.fetch_add(1, Relaxed);
        }
    }

    /// The workers ended a sweep.
    pub fn swept(&self) {
        if let Some(words) = &self.words {
            words.sweeps.fetch_add(1, Relaxed);
        }
    }

    /// An arc that a worker asked for was decided; whether it was no merger arc any more.
    pub fn decided(&self, is_stale: bool) {
        if let Some(words) = &self.words {
            words.asks.fetch_add(1, Relaxed);
            words.stale.fetch_add(u64::from(is_stale), Relaxed);
        }
    }

    /// Sets the price factor that is solved now, from 1, and the number of factors.
    pub fn at_factor(&self, factor: u64, factors: u64) {
        if let Some(words) = &self.words {
            words.factor.store(factor, Relaxed);
            words.factors.store(factors, Relaxed);
        }
    }

    /// The phase that the run is at; of `none` that it has ended.
    pub fn phase(&self) -> Phase {
        let Some(words) = &self.words else {
            return Phase::Ended;
        };
        let place = words.phase.load(SeqCst);
        Phase::ALL
            .into_iter()
            .find(|phase| u64::from(phase.place()) == place)
            .unwrap_or(Phase::Ended)
    }

    /// What is counted now; None of `none`.
    pub fn stats(&self) -> Option<Stats> {
        self.words.as_ref().map(|words| words.counted())
    }

    /// Sleeps while the run is at this phase, so long at most. It may also return for no reason.
    pub fn wait_at<R: Wait>(&self, rt: &R, phase: Phase, most: Duration) {
        if let Some(words) = &self.words {
            words.phase.park_timeout(rt, phase.place(), most);
        }
    }
}

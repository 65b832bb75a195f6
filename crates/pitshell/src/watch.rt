//! Reports on a run while it goes on. A thread of its own sleeps on the counters of the run, and wakes at each change of phase,
//! which it times. It writes a line to standard error as often as the user asked.

use counters::{Counters, Phase, Stats};
use std::alloc::{AllocError, AllocGlobal, Global};
use std::sync::Wait;
use std::time::{Clock, Duration};

/// The most seconds that an observer sleeps if no lines are asked for.
const LONGEST_SLEEP: u64 = 3600;

/// How long a run was at each phase.
#[derive(Clone, Copy)]
pub struct Times {
    pub opening: Duration,
    pub reading: Duration,
    pub planning: Duration,
    pub solving: Duration,
    pub writing: Duration,
}

impl Times {
    /// No time has passed.
    pub fn none() -> Times {
        Times {
            opening: Duration::ZERO,
            reading: Duration::ZERO,
            planning: Duration::ZERO,
            solving: Duration::ZERO,
            writing: Duration::ZERO,
        }
    }

    /// Adds a time at a phase.
    fn add(&mut self, phase: Phase, time: Duration) {
        let sum = match phase {
            Phase::Opening => &mut self.opening,
            Phase::Reading => &mut self.reading,
            Phase::Planning => &mut self.planning,
            Phase::Solving => &mut self.solving,
            Phase::Writing => &mut self.writing,
            Phase::Ended => return,
        };
        *sum = sum.saturating_add(time);
    }
}

/// When the watcher looked last, by the system's clock; when it looks next at the latest; how often that is; and whether it then
/// writes a line.
#[derive(Clone, Copy)]
struct Watcher {
    looked: Duration,
    due: Duration,
    every: Duration,
    tells: bool,
    times: Times,
}

impl Watcher {
    /// The first line is due after the time that lies between two.
    fn begin<R: Clock>(rt: &R, every: Option<Duration>) -> Watcher {
        let now = rt.monotonic().unwrap_or(Duration::ZERO);
        let tells = every.is_some();
        let every = every.unwrap_or(Duration::from_secs(LONGEST_SLEEP));
        Watcher {
            looked: now,
            due: now.saturating_add(every),
            every,
            tells,
            times: Times::none(),
        }
    }

    /// Adds the time since the last look to a phase, and answers whether a line is due.
    fn look<R: Clock>(&mut self, rt: &R, phase: Phase) -> bool {
        let now = rt.monotonic().unwrap_or(self.looked);
        self.times.add(phase, now.saturating_sub(self.looked));
        self.looked = now;
        if now < self.due {
            return false;
        }
        self.due = now.saturating_add(self.every);
        self.tells
    }

    /// How long it may sleep.
    fn time_left(&self) -> Duration {
        self.due.saturating_sub(self.looked)
    }
}

/// The line on a run that is at this phase.
fn line_of(alloc: Global, phase: Phase, counted: &Stats) -> Result<String, AllocError> {
    let Stats {
        factor,
        factors,
        ..
    } = *counted;
    match phase {
        Phase::Opening => String::from_str(alloc, "pitshell: opening\n"),
        Phase::Reading => format!(in alloc;
            "pitshell: reading, {} bytes, {} blocks, {} pairs\n",
            counted.bytes, counted.blocks, counted.pairs
        ),
        Phase::Planning => format!(in alloc; "pitshell: planning, {} mergers\n", counted.planned),
        Phase::Solving if factors > 0 => format!(in alloc;
            "pitshell: solving factor {factor} of {factors}, {} mergers\n",
            counted.mergers
        ),
        Phase::Solving => format!(in alloc; "pitshell: solving, {} mergers\n", counted.mergers),
        Phase::Writing | Phase::Ended => String::from_str(alloc, "pitshell: writing\n"),
    }
}

/// Writes a line at once. Where memory or standard error refuses it, it is left out.
fn tell<R: AllocGlobal + Eprint>(rt: &R, phase: Phase, counted: &Stats) {
    if let Ok(line) = line_of(rt.alloc(), phase, counted) {
        let _ = rt.eprint(line);
    }
}

/// Watches a run until it has ended, and answers how long it was at each phase.
pub fn watch<R: AllocGlobal + Wait + Clock + Eprint>(
    rt: &R,
    counters: &Counters,
    every: Option<Duration>,
) -> Times {
    let mut watcher = Watcher::begin(rt, every);
    for _look in rt.forever() {
        let phase = counters.phase();
        if phase == Phase::Ended {
            break;
        }
        counters.wait_at(rt, phase, watcher.time_left());
        if watcher.look(rt, phase) {
            if let Some(counted) = counters.stats() {
                tell(rt, phase, &counted);
            }
        }
    }
    watcher.times
}

//! Workers at one tree: that two of them work at once, and that their asks make the mergers and not the driver. Which worker does
//! what differs from run to run.
use crate::mines::{ores_below_waste, pairs_of_blocks};
use crate::outcomes::{Counts, Crew, counts, mergers_in, pit_in};
use crew::{Entry, Gate, OpenGate, solve_shared};
use faults::Fault;
use std::alloc::Global;
use std::sync::Wait;
use std::sync::atomic::{AtomicBool, AtomicU32, Ordering};
use std::test::*;
use std::thread;
use std::thread::Threads;

/// Holds each of two workers back at its first ask until both have asked, and then the first until the second was served.
#[derive(Drop)]
struct Meeting {
    asked: [AtomicBool; 2],
    served: AtomicBool,
    is_over: AtomicBool,
}

impl Meeting {
    fn new() -> Meeting {
        Meeting {
            asked: [AtomicBool::new(false), AtomicBool::new(false)],
            served: AtomicBool::new(false),
            is_over: AtomicBool::new(false),
        }
    }

    /// Waits a million turns at most.
    fn wait_for(&self, flag: &AtomicBool) {
        for _turn in 0..1_000_000 {
            if flag.load(Ordering::SeqCst) {
                return;
            }
            thread::yield_now();
        }
        self.is_over.store(true, Ordering::SeqCst);
    }
}

impl Gate for Meeting {
    fn asked(&self, worker: u32) {
        let first = worker == 1;
        self.asked[usize::from(!first)].store(true, Ordering::SeqCst);
        self.wait_for(&self.asked[usize::from(first)]);
        if first {
            self.wait_for(&self.served);
        }
    }

    fn served(&self, worker: u32) {
        if worker == 2 {
            self.served.store(true, Ordering::SeqCst);
        }
    }
}

/// Whether the journal has an entry for each of the two arcs, both mergers, the first under seat 1 and the last under seat 2: the
/// second worker's pass answered both, in their order.
fn is_of_both(journal: &[Entry]) -> bool {
    match journal {
        [first, last] => {
            let arcs = (first.arc == 0 && last.arc == 1) || (first.arc == 1 && last.arc == 0);
            arcs && first.seat == 1 && last.seat == 2 && mergers_in(journal) == 2
        }
        _ => false,
    }
}

/// Whether a solve by two workers at a gate digs all four blocks, and its journal is of both.
fn is_dug_by_both<R: Threads + Wait + Sync>(
    rt: &R,
    alloc: Global,
    gate: &Meeting,
) -> Result<bool, Fault> {
    let mine = pairs_of_blocks(alloc, 2)?;
    let (outcome, journal) = solve_shared(rt, alloc, &mine, 2, None, 1, gate)?;
    Ok(pit_in(&outcome) == Some([0, 1, 2, 3].as_slice()) && is_of_both(&journal))
}

#[test]
fn two_workers_work_at_once(rt: HostRuntime) -> Result<(), Fail> {
    let gate = Meeting::new();
    let dug = is_dug_by_both(&rt, rt.alloc(), &gate)?;
    assert!(rt;
        !gate.is_over.load(Ordering::SeqCst),
        "both asked before either was served"
    );
    assert!(rt; dug);
    Ok(())
}

/// As many workers as there may be.
const MOST_WORKERS: u32 = 64;

/// Holds each worker back at its first ask until all have asked.
#[derive(Drop)]
struct Muster {
    asked: AtomicU32,
}

impl Gate for Muster {
    fn asked(&self, _worker: u32) {
        self.asked.fetch_add(1, Ordering::SeqCst);
        for _turn in 0..1_000_000 {
            if self.asked.load(Ordering::SeqCst) >= MOST_WORKERS {
                return;
            }
            thread::yield_now();
        }
    }

    fn served(&self, _worker: u32) {}
}

/// Whether the journal has one merger under the seat of each worker, and nothing else.
fn is_of_each(journal: &[Entry]) -> bool {
    let each = (1..=MOST_WORKERS).all(|seat| {
        journal.iter().filter(|entry| entry.seat == seat).count() == 1
    });
    let most = MOST_WORKERS as usize;
    each && journal.len() == most && mergers_in(journal) == most
}

/// Whether of a solve by as many workers as there may be each makes one merger.
fn is_dug_by_each<R: Threads + Wait + Sync>(rt: &R, alloc: Global) -> Result<bool, Fault> {
    let mine = pairs_of_blocks(alloc, MOST_WORKERS)?;
    let gate = Muster {
        asked: AtomicU32::new(0),
    };
    let (_, journal) = solve_shared(rt, alloc, &mine, MOST_WORKERS, None, 1, &gate)?;
    Ok(is_of_each(&journal))
}

/// Each worker draws one arc and is held back with it until the others have drawn theirs: so each looks, asks and is served.
#[test]
fn each_of_64_workers_makes_a_merger(rt: HostRuntime) -> Result<(), Fail> {
    assert!(rt; is_dug_by_each(&rt, rt.alloc())?);
    Ok(())
}

/// What the journal counts of a solve of this many pairs of blocks.
fn counts_of_pairs<R: Threads + Wait + Sync>(
    rt: &R,
    alloc: Global,
    copies: u32,
    crew: Crew,
) -> Result<Counts, Fault> {
    let mine = pairs_of_blocks(alloc, copies)?;
    counts(rt, alloc, &mine, crew, &OpenGate)
}

/// What the journal counts of a solve of this many ores below waste.
fn counts_of_ores<R: Threads + Wait + Sync>(
    rt: &R,
    alloc: Global,
    copies: u32,
    crew: Crew,
) -> Result<Counts, Fault> {
    let mine = ores_below_waste(alloc, copies)?;
    counts(rt, alloc, &mine, crew, &OpenGate)
}

/// A crew without a budget.
fn crew_of(workers: u32, chunk: u32) -> Crew {
    Crew {
        workers,
        chunk,
        budget: None,
    }
}

/// A thousand copies are a merger each: the asks of workers make all of them, at any chunk, and the driver none.
#[test]
fn asks_of_workers_make_the_mergers(rt: HostRuntime) -> Result<(), Fail> {
    for (workers, chunk) in [(2, 1), (3, 7), (3, 600), (3, 5000)] {
        let counted = counts_of_pairs(&rt, rt.alloc(), 1000, crew_of(workers, chunk))?;
        assert_eq!(rt; counted, (1000, 1000, 0), "chunks of {chunk}");
    }
    Ok(())
}

/// Each copy is two mergers; the second is no merger before the first. Three copies have no plan: the first sweep makes one of
/// each, the driver one more, and a second sweep the two that are left. A hundred have one, by which the workers make all of them
/// in one sweep, and ask for nothing else.
#[test]
fn a_plan_leads_the_workers(rt: HostRuntime) -> Result<(), Fail> {
    for chunk in 1..4 {
        let by_two = counts_of_ores(&rt, rt.alloc(), 3, crew_of(2, chunk))?;
        let planned = counts_of_ores(&rt, rt.alloc(), 100, crew_of(chunk, 7))?;
        assert_eq!(rt; (by_two, planned), ((6, 6, 1), (200, 200, 0)));
    }
    Ok(())
}

//! Asks that another merger made stale, or for which no budget is left: what is answered, and whether the worker goes on.
use crate::mines::{EIGHT_OVER_ONE, FOUR_PAIRS, ONE_WASTE_FOR_TWO, SmallMine, spelled};
use crate::outcomes::{Counts, Crew, counts};
use crew::Gate;
use faults::Fault;
use std::alloc::Global;
use std::sync::Wait;
use std::sync::atomic::{AtomicBool, AtomicU32, Ordering};
use std::test::*;
use std::thread;
use std::thread::Threads;

/// Holds this many workers back, each at its ask, until all have asked.
#[derive(Drop)]
struct AllAsked {
    workers: u32,
    count: AtomicU32,
    is_over: AtomicBool,
}

impl AllAsked {
    fn of(workers: u32) -> AllAsked {
        AllAsked {
            workers,
            count: AtomicU32::new(0),
            is_over: AtomicBool::new(false),
        }
    }
}

impl Gate for AllAsked {
    fn asked(&self, _worker: u32) {
        self.count.fetch_add(1, Ordering::SeqCst);
        for _turn in 0..1_000_000 {
            if self.count.load(Ordering::SeqCst) >= self.workers {
                return;
            }
            thread::yield_now();
        }
        self.is_over.store(true, Ordering::SeqCst);
    }

    fn served(&self, _worker: u32) {}
}

/// What the journal of a solve counts in which all workers ask before any is served; None where they did not in time.
fn counts_of_all_at_once<R: Threads + Wait + Sync>(
    rt: &R,
    alloc: Global,
    mine: SmallMine,
    crew: Crew,
) -> Result<Option<Counts>, Fault> {
    let gate = AllAsked::of(crew.workers);
    let mine = spelled(alloc, mine)?;
    let counted = counts(rt, alloc, &mine, crew, &gate)?;
    if gate.is_over.load(Ordering::SeqCst) {
        return Ok(None);
    }
    Ok(Some(counted))
}

/// The journal has an entry for each worker. One of them is a merger, and the driver's is not: so seven are stale.
#[test]
fn one_of_eight_asks_at_once_is_applied(rt: HostRuntime) -> Result<(), Fail> {
    let crew = Crew {
        workers: 8,
        chunk: 1,
        budget: None,
    };
    let counted = counts_of_all_at_once(&rt, rt.alloc(), EIGHT_OVER_ONE, crew)?;
    assert_eq!(rt; counted, Some((8, 1, 0)));
    Ok(())
}

/// Both workers ask at once, one ask is stale, and each worker goes on to the second arc of its chunk: the driver has none left.
#[test]
fn a_stale_ask_does_not_end_a_chunk(rt: HostRuntime) -> Result<(), Fail> {
    let crew = Crew {
        workers: 2,
        chunk: 2,
        budget: None,
    };
    let counted = counts_of_all_at_once(&rt, rt.alloc(), ONE_WASTE_FOR_TWO, crew)?;
    assert_eq!(rt; counted, Some((4, 3, 0)));
    Ok(())
}

/// Both workers ask at once, and the budget is one merger. The other ask is spent and ends its worker's chunk; the worker with the
/// merger goes on, to one spent ask; and the driver's is spent.
#[test]
fn a_spent_ask_ends_a_chunk(rt: HostRuntime) -> Result<(), Fail> {
    let crew = Crew {
        workers: 2,
        chunk: 2,
        budget: Some(1),
    };
    let counted = counts_of_all_at_once(&rt, rt.alloc(), FOUR_PAIRS, crew)?;
    assert_eq!(rt; counted, Some((4, 1, 1)));
    Ok(())
}

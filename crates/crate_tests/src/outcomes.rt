//! What a solve by workers decided, as a test asks for it.
use crew::{Entry, Gate, Verdict, solve_shared};
use faults::Fault;
use merging::Outcome;
use mine_graph::Instance;
use std::alloc::Global;
use std::sync::Wait;
use std::thread::Threads;

/// Workers that draw `chunk` arcs at a time each, within a budget of mergers.
#[derive(Clone, Copy)]
pub struct Crew {
    pub workers: u32,
    pub chunk: u32,
    pub budget: Option<u64>,
}

/// How many entries a journal has, how many of them are mergers, and how many the driver's.
pub type Counts = (usize, usize, usize);

/// The blocks of the pit; None where the budget was used up.
pub fn pit_in(outcome: &Outcome) -> Option<&[u32]> {
    match outcome {
        Outcome::Pit(certificate) => Some(certificate.pit.as_slice()),
        Outcome::Exhausted(_) => None,
    }
}

/// How many of the entries are mergers.
pub fn mergers_in(journal: &[Entry]) -> usize {
    journal
        .iter()
        .filter(|entry| entry.verdict == Verdict::Applied)
        .count()
}

/// How many of the entries are the driver's.
fn of_driver(journal: &[Entry]) -> usize {
    journal.iter().filter(|entry| entry.seat == 0).count()
}

/// What the journal of a solve by a crew counts.
pub fn counts<G: Gate + Sync, R: Threads + Wait + Sync>(
    rt: &R,
    alloc: Global,
    mine: &Instance,
    crew: Crew,
    gate: &G,
) -> Result<Counts, Fault> {
    let (_, journal) = solve_shared(rt, alloc, mine, crew.workers, crew.budget, crew.chunk, gate)?;
    Ok((journal.len(), mergers_in(&journal), of_driver(&journal)))
}

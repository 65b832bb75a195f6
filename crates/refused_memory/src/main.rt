//! Runs what needs no memory once it is prepared. Then it decides arcs at a tree under its lock, by the driver and by asks of
//! workers. If memory is refused it checks that all is unchanged, and goes on. `tests/test_refused_memory.py` runs it with each
//! request for memory refused in turn, and with all from one on.
#![tactic(auto)]

mod applying;
mod mine;
mod prepared;
mod serving;
mod solving;
mod trace;
mod trial;
mod witness;

use applying::Applying;
use faults::Fault;
use mine::mine;
use prepared::run_prepared;
use serving::Serving;
use solving::solved;
use std::alloc::AllocGlobal;
use std::process::ExitCode;
use std::sync::Wait;
use tree_lock::Entry;
use trial::{WitnessedTrial, try_with};
use witness::Seen;

/// What was seen in a trial.
fn tried<T: WitnessedTrial, R: AllocGlobal + Wait>(rt: &R, trial: &T) -> Result<Seen, Fault> {
    let mine = mine(rt.alloc())?;
    try_with(rt, rt.alloc(), &mine, trial)
}

/// Writes a line on what runs without memory. It answers whether all was as it must be.
fn told_prepared(rt: &HostRuntime, failed: Option<&'static str>) -> bool {
    let written = match failed {
        None => println!(rt; "prepared: all held"),
        Some(failed) => println!(rt; "prepared: not so: {failed}"),
    };
    written.is_ok() && failed.is_none()
}

/// Writes a line on what was seen. It answers whether all was as it must be.
fn told(rt: &HostRuntime, name: &str, seen: Seen) -> bool {
    let refused = seen.refused;
    let written = match seen.failed {
        None => println!(rt; "{name}: {refused} refused, all held"),
        Some(failed) => println!(rt; "{name}: {refused} refused, not so: {failed}"),
    };
    written.is_ok() && seen.failed.is_none()
}

/// Writes a line on each entry of the journal. It answers whether it could.
fn told_of(rt: &HostRuntime, journal: &[Entry]) -> bool {
    for entry in journal {
        if println!(rt; "solve: {} {} {:?}", entry.seat, entry.arc, entry.verdict).is_err() {
            return false;
        }
    }
    true
}

fn main(rt: HostRuntime) -> ExitCode {
    let Ok(failed) = run_prepared(rt.alloc()) else {
        return ExitCode::FAILURE;
    };
    if !told_prepared(&rt, failed) {
        return ExitCode::from(2);
    }
    let (Ok(applied), Ok(served)) = (tried(&rt, &Applying), tried(&rt, &Serving)) else {
        return ExitCode::FAILURE;
    };
    if !told(&rt, "apply", applied) || !told(&rt, "serve", served) {
        return ExitCode::from(2);
    }
    let Ok(journal) = solved(&rt) else {
        return ExitCode::FAILURE;
    };
    if told_of(&rt, &journal) {
        ExitCode::SUCCESS
    } else {
        ExitCode::FAILURE
    }
}

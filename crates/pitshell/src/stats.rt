//! The file of what a run did and how long it took. It is made before the inputs are opened, may be none of them, and takes its
//! name with the other outputs.

use crate::output::Output;
use crate::watch::Times;
use commands::{MineNames, ShellsOptions, SolveOptions};
use counters::Stats;
use faults::Fault;
use std::alloc::AllocError;
use std::fs;
use std::fs::Metadata;
use std::io::Write;
use std::os::unix::fs::MetadataExt;

/// Whether a name leads to this file.
fn leads_to(rt: &HostRuntime, found: &Metadata, name: Option<&str>) -> bool {
    let Some(name) = name else {
        return false;
    };
    match fs::metadata(rt, name) {
        Ok(other) => found.dev() == other.dev() && found.ino() == other.ino(),
        Err(_) => false,
    }
}

/// Makes the file, if one is wanted. Errors: it cannot be made or is one of the inputs (18); lack of memory (1).
pub fn make_stats(
    rt: &HostRuntime,
    path: Option<&str>,
    inputs: &[Option<&str>],
) -> Result<Option<Output>, Fault> {
    let Some(path) = path else {
        return Ok(None);
    };
    if let Ok(found) = fs::metadata(rt, path) {
        if inputs.iter().any(|name| leads_to(rt, &found, *name)) {
            return Err(Fault::write_failed());
        }
    }
    Ok(Some(Output::create(rt, path, &[])?))
}

/// The inputs of a solve.
pub fn solve_inputs<'a>(options: &SolveOptions<'a>) -> [Option<&'a str>; 3] {
    let MineNames { model, prec, fixed } = options.mine;
    [Some(model), Some(prec), fixed]
}

/// The inputs of shells.
pub fn shells_inputs<'a>(options: &ShellsOptions<'a>) -> [Option<&'a str>; 3] {
    [Some(options.blocks), Some(options.prec), None]
}

/// Returns the most memory that the program had, in kilobytes as the system reports it; 0 if it does not.
fn peak(rt: &HostRuntime) -> u64 {
    let Ok(text) = fs::read_to_string(rt, "/proc/self/status") else {
        return 0;
    };
    text.lines()
        .find(|line| line.starts_with("VmHWM:"))
        .and_then(|line| line.split_whitespace().nth(1))
        .and_then(|word| word.parse::<u64>().ok())
        .unwrap_or(0)
}

/// The text of the file. Times are in seconds with three decimals.
fn text_of(rt: &HostRuntime, times: &Times, counted: &Stats) -> Result<String, AllocError> {
    let mut text = String::from_str(rt.alloc(), "PITSTATS 1\n")?;
    for (name, time) in [
        ("OPENING", times.opening),
        ("READING", times.reading),
        ("PLANNING", times.planning),
        ("SOLVING", times.solving),
        ("WRITING", times.writing),
    ] {
        writeln!(
            text,
            "{name}: {}.{:03}",
            time.as_secs(),
            time.subsec_millis()
        )?;
    }
    for (name, count) in [
        ("BYTES", counted.bytes),
        ("BLOCKS", counted.blocks),
        ("PAIRS", counted.pairs),
        ("MERGERS", counted.mergers),
        ("CLOSING", counted.closing),
        ("PLANNED", counted.planned),
        ("RELABELS", counted.relabels),
        ("SWEEPS", counted.sweeps),
        ("ASKS", counted.asks),
        ("STALE", counted.stale),
        ("PEAK", peak(rt)),
    ] {
        writeln!(text, "{name}: {count}")?;
    }
    Ok(text)
}

/// Writes the text of the file and flushes it to disk.
pub fn write_stats(
    rt: &HostRuntime,
    output: &mut Output,
    times: &Times,
    counted: &Stats,
) -> Result<(), Fault> {
    let text = text_of(rt, times, counted)?;
    match output.write_all(text.as_bytes()) {
        Ok(()) => output.sync(),
        Err(_) => Err(Fault::write_failed()),
    }
}

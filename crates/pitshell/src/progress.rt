//! Runs a subcommand over the files of the system. With `--progress` or `--stats` it also writes progress lines while the run goes
//! on, or a file of statistics. The answer, the other files and the exit status are the same without them, unless the file of
//! statistics cannot be made or kept.

use crate::options::{Options, WatchOptions};
use crate::output::Output;
use crate::stats::{make_stats, shells_inputs, solve_inputs};
use crate::system_files::SystemFiles;
use crate::watch::{Times, watch};
use commands::{check_call, replay_call, shells_call, solve_call};
use counters::{Counters, Phase};
use faults::Fault;
use minelib_reader::StreamWriter;
use std::alloc::AllocGlobal;
use std::sync::Wait;
use std::thread::Threads;
use std::time::{Clock, Duration};
use std::{io, thread};

/// Runs the subcommand over the files of the system and returns the exit status.
pub fn call<R: AllocGlobal + Threads + Wait + Sync>(
    rt: &HostRuntime,
    threads: &R,
    options: &Options<'_>,
    files: &mut SystemFiles<'_>,
) -> u8 {
    let alloc = rt.alloc();
    let mut out = StreamWriter::new(io::writer(rt));
    let stderr = rt.stderr();
    let mut err = StreamWriter::new(io::writer(&stderr));
    match options {
        Options::Solve(settings) => solve_call(threads, files, settings, &mut out, &mut err),
        Options::Shells(settings) => shells_call(threads, files, settings, &mut out, &mut err),
        Options::Check(settings) => check_call(alloc, files, settings, &mut out, &mut err),
        Options::Replay(settings) => replay_call(alloc, files, settings, &mut out, &mut err),
    }
}

/// The call beside a thread that watches it, and how long it was at each phase: no time where the thread could not be started.
fn timed_call<R: AllocGlobal + Threads + Wait + Clock + Eprint + Sync>(
    rt: &HostRuntime,
    threads: &R,
    options: &Options<'_>,
    every: Option<Duration>,
    files: &mut SystemFiles<'_>,
) -> (u8, Times) {
    let counters = files.counters.share();
    let watched = &counters;
    thread::scope(thread::scope_env(), threads, |scope| {
        let watcher = scope.spawn(move || watch(threads, watched, every));
        let status = call(rt, threads, options, files);
        watched.enter(Phase::Ended);
        match watcher {
            Ok(watcher) => (status, watcher.join(threads)),
            Err(_) => (status, Times::none()),
        }
    })
}

/// The file of what the run did, where one is wanted.
fn stats_of(
    rt: &HostRuntime,
    options: &Options<'_>,
    path: Option<&str>,
) -> Result<Option<Output>, Fault> {
    match options {
        Options::Solve(settings) => make_stats(rt, path, &solve_inputs(settings)),
        Options::Shells(settings) => make_stats(rt, path, &shells_inputs(settings)),
        Options::Check(_) | Options::Replay(_) => Ok(None),
    }
}

/// Whether a call with this exit status keeps its outputs: it was done, or used up its budget.
pub fn keeps_outputs(status: u8) -> bool {
    status == 0 || status == 3
}

/// Runs the subcommand with progress lines or a file of statistics, and returns the exit status.
///
/// # Errors
///
/// If memory runs out, an output cannot be renamed, or the file of statistics cannot be made or written.
pub fn call_with_progress<R: AllocGlobal + Threads + Wait + Clock + Eprint + Sync>(
    rt: &HostRuntime,
    threads: &R,
    options: &Options<'_>,
    settings: &WatchOptions<'_>,
) -> Result<u8, Fault> {
    let counters = Counters::new(rt.alloc())?;
    let mut files = SystemFiles::new(rt, counters, stats_of(rt, options, settings.stats)?);
    let every = settings.every.map(Duration::from_secs);
    let (status, times) = timed_call(rt, threads, options, every, &mut files);
    files.end(keeps_outputs(status), &times)?;
    Ok(status)
}

//! `pitshell`: the ultimate pit of a mine, from files to standard output.
//! The crate `commands` does the work over any file system; `main` hands it the files of the system and gives the exit status.
#![tactic(auto)]

mod options;
mod output;
mod progress;
mod stats;
mod streams;
mod system_files;
mod watch;

use clap::error::ErrorKind;
use command_line::command;
use commands::{Status, report_fault};
use counters::Counters;
use faults::Fault;
use minelib_reader::StreamWriter;
use options::{Options, WatchOptions};
use progress::{call, call_with_progress, keeps_outputs};
use std::alloc::AllocError;
use std::process::ExitCode;
use std::{env, io};
use streams::StandIns;
use system_files::SystemFiles;
use watch::Times;

/// Reports how a run ended: writes a fault to standard error and returns the exit status.
fn ended(rt: &HostRuntime, outcome: Result<Status, Fault>) -> ExitCode {
    ExitCode::from(report_fault(&mut StreamWriter::new(io::writer(&rt.stderr())), &outcome))
}

/// Prints what `clap` reports: help, the version, or what is wrong with the command line. Lack of memory is a fault here too.
fn explain(rt: &HostRuntime, error: &clap::Error) -> ExitCode {
    if error.kind() == ErrorKind::OutOfMemory {
        return ended(rt, Err(Fault::from(AllocError)));
    }
    let _ = error.print(rt);
    ExitCode::from(error.exit_code() as u8)
}

/// Prints what does not go together on the command line.
fn not_understood(rt: &HostRuntime, line: &str) -> ExitCode {
    let _ = rt.eprintln(line);
    ExitCode::from(2)
}

/// Why the command line gave no words.
enum NoWords {
    NoMemory,
    /// An argument is no text in UTF-8.
    NotText,
}

/// Returns the words of the command line. The system reports an argument that is no text as invalid data.
fn words_of(rt: &HostRuntime) -> Result<Vec<String>, NoWords> {
    match env::args(rt) {
        Ok(words) => words.collect(rt.alloc()).map_err(|_| NoWords::NoMemory),
        Err(error) if error.kind() == io::ErrorKind::InvalidData => Err(NoWords::NotText),
        Err(_) => Err(NoWords::NoMemory),
    }
}

/// Returns the exit status of a call, or that of a fault, which goes to standard error.
fn exit_with(rt: &HostRuntime, called: Result<u8, Fault>) -> ExitCode {
    match called {
        Ok(status) => ExitCode::from(status),
        Err(fault) => ended(rt, Err(fault)),
    }
}

fn main(rt: HostRuntime) -> ExitCode {
    let _stand_ins = StandIns::new(&rt);
    let words = match words_of(&rt) {
        Ok(words) => words,
        Err(NoWords::NotText) => return not_understood(&rt, "pitshell: an argument is not UTF-8"),
        Err(NoWords::NoMemory) => return ended(&rt, Err(Fault::from(AllocError))),
    };
    let command = match command(rt.alloc()) {
        Ok(command) => command,
        Err(error) => return ended(&rt, Err(Fault::from(error))),
    };
    let matches = match command.try_get_matches_from(&words) {
        Ok(matches) => matches,
        Err(error) => return explain(&rt, &error),
    };
    let options = match Options::of(&matches) {
        Some(Ok(options)) => options,
        Some(Err(line)) => return not_understood(&rt, line),
        None => return ExitCode::from(2),
    };
    let watch = WatchOptions::of(&matches);
    if !watch.is_nothing() {
        return exit_with(&rt, call_with_progress(&rt, &rt, &options, &watch));
    }
    let mut files = SystemFiles::new(&rt, Counters::none(), None);
    let status = call(&rt, &rt, &options, &mut files);
    let kept = files.end(keeps_outputs(status), &Times::none());
    exit_with(&rt, kept.map(|()| status))
}

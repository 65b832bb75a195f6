//! `pitschedule`: checks production schedules, and bounds what any schedule is worth.
//! The crate `schedule_runs` does the work over the bytes of the files; `main` reads them and gives the exit status.
#![tactic(auto)]

mod messages;
mod options;

use clap::error::ErrorKind;
use command_line::schedule_command;
use faults::{Fault, Refusal, Source};
use messages::print_refusal;
use minelib_reader::{FileReader, StreamWriter, read_all};
use options::{Options, ProblemNames};
use schedule_runs::{
    ProblemTexts, Refused, Verdict, exit_status, run_bound, run_check, run_check_and_bound,
};
use std::fs::File;
use std::process::ExitCode;
use std::{env, io};

/// The exit status of a wrong command line.
const WRONG_COMMAND: u8 = 2;

/// Returns the bytes of a file.
fn read_file(rt: &HostRuntime, path: &str) -> Result<Vec<u8>, Fault> {
    match File::open(rt, path) {
        Ok(file) => read_all(rt.alloc(), &mut FileReader::new(file), Source::None),
        Err(_) => Err(Fault::at_line(Source::None, Refusal::ReadFailed, 0)),
    }
}

/// The bytes of the files of a problem.
#[derive(Drop)]
struct ProblemFiles {
    problem: Vec<u8>,
    precedence: Vec<u8>,
}

impl ProblemFiles {
    /// Returns the texts of a problem.
    fn texts(&self) -> ProblemTexts<'_> {
        ProblemTexts {
            problem: &self.problem,
            precedence: &self.precedence,
        }
    }
}

/// Reads the files of a problem.
fn read_problem_files(rt: &HostRuntime, names: ProblemNames<'_>) -> Result<ProblemFiles, Refused> {
    let problem = match read_file(rt, names.problem) {
        Ok(bytes) => bytes,
        Err(fault) => return Err(Refused::Problem(fault)),
    };
    match read_file(rt, names.prec) {
        Ok(precedence) => Ok(ProblemFiles {
            problem,
            precedence,
        }),
        Err(fault) => Err(Refused::Precedence(fault)),
    }
}

/// Reads the file of a schedule.
fn read_schedule(rt: &HostRuntime, path: &str) -> Result<Vec<u8>, Refused> {
    match read_file(rt, path) {
        Ok(bytes) => Ok(bytes),
        Err(fault) => Err(Refused::Schedule(fault)),
    }
}

/// Reads the file of prices.
fn read_prices(rt: &HostRuntime, path: &str) -> Result<Vec<u8>, Refused> {
    match read_file(rt, path) {
        Ok(bytes) => Ok(bytes),
        Err(fault) => Err(Refused::Prices(fault)),
    }
}

/// Runs `check`.
fn check(
    rt: &HostRuntime,
    names: ProblemNames<'_>,
    schedule: &str,
    prices: Option<&str>,
) -> Result<Verdict, Refused> {
    let files = read_problem_files(rt, names)?;
    let schedule = read_schedule(rt, schedule)?;
    let mut out = StreamWriter::new(io::writer(rt));
    match prices {
        None => run_check(rt.alloc(), files.texts(), &schedule, &mut out),
        Some(path) => {
            let prices = read_prices(rt, path)?;
            run_check_and_bound(rt.alloc(), files.texts(), &schedule, &prices, &mut out)
        }
    }
}

/// Runs `bound`.
fn bound(rt: &HostRuntime, names: ProblemNames<'_>, prices: &str) -> Result<(), Refused> {
    let files = read_problem_files(rt, names)?;
    let prices = read_prices(rt, prices)?;
    let mut out = StreamWriter::new(io::writer(rt));
    run_bound(rt.alloc(), files.texts(), &prices, &mut out)
}

/// Runs a subcommand. Returns the verdict of `check`, and None of `bound`.
fn run(rt: &HostRuntime, options: Options<'_>) -> Result<Option<Verdict>, Refused> {
    match options {
        Options::Check(names, schedule, prices) => Ok(Some(check(rt, names, schedule, prices)?)),
        Options::Bound(names, prices) => {
            bound(rt, names, prices)?;
            Ok(None)
        }
    }
}

/// Reports how a run ended: prints a refusal to standard error and returns the exit status.
fn ended(rt: &HostRuntime, outcome: &Result<Option<Verdict>, Refused>) -> ExitCode {
    if let Err(refused) = outcome {
        print_refusal(rt, refused);
    }
    ExitCode::from(exit_status(outcome))
}

/// Runs the subcommand of a command line that `clap` has read.
fn run_options(rt: &HostRuntime, options: Option<Options<'_>>) -> ExitCode {
    match options {
        Some(options) => ended(rt, &run(rt, options)),
        None => ExitCode::from(WRONG_COMMAND),
    }
}

/// Prints help, the version, or the fault of the command line. Lack of memory is a refusal here too.
fn explain(rt: &HostRuntime, error: &clap::Error) -> ExitCode {
    if error.kind() == ErrorKind::OutOfMemory {
        return ended(rt, &Err(Refused::NoMemory));
    }
    let _ = error.print(rt);
    ExitCode::from(error.exit_code() as u8)
}

fn main(rt: HostRuntime) -> ExitCode {
    let words = match env::args(&rt) {
        Ok(words) => words,
        Err(error) if error.kind() == io::ErrorKind::InvalidData => {
            let _ = rt.eprintln("pitschedule: an argument is not UTF-8");
            return ExitCode::from(WRONG_COMMAND);
        }
        Err(_) => return ended(&rt, &Err(Refused::NoMemory)),
    };
    let (Ok(words), Ok(command)) = (words.collect(rt.alloc()), schedule_command(rt.alloc())) else {
        return ended(&rt, &Err(Refused::NoMemory));
    };
    let words: Vec<String> = words;
    match command.try_get_matches_from(&words) {
        Ok(matches) => run_options(&rt, Options::of(&matches)),
        Err(error) => explain(&rt, &error),
    }
}

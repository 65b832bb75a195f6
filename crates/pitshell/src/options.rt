//! What the command line asks for, as types of the program's own.

use clap::ArgMatches;
use commands::{
    CheckOptions, MineNames, ReplayOptions, ShellsOptions, SolveOptions, SolveSettings, mode_fault,
    parse_mode, parse_pit, pit_fault,
};
use solver::Mode;

/// One subcommand with its options.
#[derive(Clone, Copy)]
pub enum Options<'a> {
    Solve(SolveOptions<'a>),
    Shells(ShellsOptions<'a>),
    Check(CheckOptions<'a>),
    Replay(ReplayOptions<'a>),
}

/// What is reported of a run besides its answer.
#[derive(Clone, Copy)]
pub struct WatchOptions<'a> {
    /// The seconds after which a line is printed, each time.
    pub every: Option<u64>,
    /// The file of what the run did.
    pub stats: Option<&'a str>,
}

impl<'a> WatchOptions<'a> {
    /// What the command line asks for: of `solve` and of `shells` alone.
    pub fn of(matches: &ArgMatches<'a>) -> WatchOptions<'a> {
        match matches.subcommand() {
            Some(("solve" | "shells", found)) => WatchOptions {
                every: found.get_one::<u64>("progress"),
                stats: found.get_str("stats"),
            },
            _ => WatchOptions {
                every: None,
                stats: None,
            },
        }
    }

    /// Returns whether nothing is reported.
    pub fn is_nothing(&self) -> bool {
        self.every.is_none() && self.stats.is_none()
    }
}

/// The files of the mine of a subcommand. None where the parse has let through that one is missing.
fn mine_in<'a>(found: &ArgMatches<'a>) -> Option<MineNames<'a>> {
    Some(MineNames {
        model: found.get_str("model")?,
        prec: found.get_str("prec")?,
        fixed: found.get_str("fixed"),
    })
}

/// The mode of a subcommand, or what is wrong with it or with a journal beside it. None where the parse has let through what
/// it refuses.
fn mode_in(found: &ArgMatches<'_>, journal: bool) -> Option<Result<Mode, &'static str>> {
    let word = found.get_str("mode")?;
    let workers = u32::try_from(found.get_one::<u64>("workers")?).ok()?;
    let budget = found.get_one::<u64>("budget");
    match mode_fault(word, budget.is_some(), journal) {
        Some(line) => Some(Err(line)),
        None => Some(Ok(parse_mode(word, workers, budget))),
    }
}

/// What a subcommand is asked for, or what is wrong with it: of the mode first, then of the pit or of a certificate or a journal
/// beside it. None where the parse has let through what it refuses.
fn settings_in(
    found: &ArgMatches<'_>,
    certificate: bool,
    journal: bool,
) -> Option<Result<SolveSettings, &'static str>> {
    let word = found.get_str("pit")?;
    match mode_in(found, journal)? {
        Err(line) => Some(Err(line)),
        Ok(mode) => match pit_fault(word, certificate, journal) {
            Some(line) => Some(Err(line)),
            None => Some(Ok(SolveSettings {
                mode,
                pit: parse_pit(word),
            })),
        },
    }
}

/// The options of `solve`.
fn solve_of<'a>(found: &ArgMatches<'a>) -> Option<Result<Options<'a>, &'static str>> {
    let certificate = found.get_str("certificate");
    let journal = found.get_str("journal");
    match settings_in(found, certificate.is_some(), journal.is_some())? {
        Err(line) => Some(Err(line)),
        Ok(settings) => Some(Ok(Options::Solve(SolveOptions {
            mine: mine_in(found)?,
            certificate,
            journal,
            settings,
        }))),
    }
}

/// The options of `shells`.
fn shells_of<'a>(found: &ArgMatches<'a>) -> Option<Result<Options<'a>, &'static str>> {
    match settings_in(found, false, false)? {
        Err(line) => Some(Err(line)),
        Ok(settings) => Some(Ok(Options::Shells(ShellsOptions {
            blocks: found.get_str("blocks")?,
            prec: found.get_str("prec")?,
            revenue: u32::try_from(found.get_one::<u64>("revenue")?).ok()?,
            cost: u32::try_from(found.get_one::<u64>("cost")?).ok()?,
            factors: found.get_str("factors")?,
            settings,
        }))),
    }
}

impl<'a> Options<'a> {
    /// The subcommand with its options, or the line that says what does not go together. None where no subcommand was given or a
    /// file's name is missing, which the parse has refused before.
    pub fn of(matches: &ArgMatches<'a>) -> Option<Result<Options<'a>, &'static str>> {
        let (name, found) = matches.subcommand()?;
        match name {
            "solve" => solve_of(found),
            "shells" => shells_of(found),
            "check" => Some(Ok(Options::Check(CheckOptions {
                mine: mine_in(found)?,
                certificate: found.get_str("certificate")?,
            }))),
            "replay" => Some(Ok(Options::Replay(ReplayOptions {
                mine: mine_in(found)?,
                journal: found.get_str("journal")?,
            }))),
            _ => None,
        }
    }
}

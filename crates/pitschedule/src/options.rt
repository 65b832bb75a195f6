//! What the command line asks for.

use clap::ArgMatches;

/// The names of the files of a problem.
#[derive(Clone, Copy)]
pub struct ProblemNames<'a> {
    pub problem: &'a str,
    pub prec: &'a str,
}

/// One subcommand with its files.
#[derive(Clone, Copy)]
pub enum Options<'a> {
    Check(ProblemNames<'a>, &'a str, Option<&'a str>),
    Bound(ProblemNames<'a>, &'a str),
}

/// The files of a problem. None if the parse has let through that one is missing.
fn names_in<'a>(found: &ArgMatches<'a>) -> Option<ProblemNames<'a>> {
    Some(ProblemNames {
        problem: found.get_str("problem")?,
        prec: found.get_str("prec")?,
    })
}

impl<'a> Options<'a> {
    /// What the command line asks for. None if the parse has let through what it refuses.
    pub fn of(matches: &ArgMatches<'a>) -> Option<Options<'a>> {
        match matches.subcommand() {
            Some(("check", found)) => Some(Options::Check(
                names_in(found)?,
                found.get_str("schedule")?,
                found.get_str("prices"),
            )),
            Some(("bound", found)) => {
                Some(Options::Bound(names_in(found)?, found.get_str("prices")?))
            }
            _ => None,
        }
    }
}

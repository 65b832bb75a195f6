//! The command line of `pitschedule` for `clap`: its subcommands, their options and the help.

ghost use Rattle.std.specs.Prelude.{◌≡◌, ◌∷◌, [], ◌++◌, codes, IfOk};
ghost use Rattle.command_line.specs.Options.{needed, subcommands_in, AddsOptions, HasOptions, IsOption};
ghost use Rattle.command_line.specs.ScheduleOptions.{bound_options, problem_options, schedule_options};

use crate::{file, option, prec_file};
use clap::{Arg, Command};
use std::alloc::{AllocError, Global};

const STATUSES: &str = "Exit status:\n  \
0  the answer was written, or help was printed\n  \
1  a fault, which is printed to standard error\n  \
2  the command line is wrong\n  \
4  the shares are no schedule of the problem";

const PRICES: &str = "Prices of the limits in each period, for the bound";

/// Returns `--problem`.
fn problem_file<'a>(alloc: Global) -> Arg<'a>
    ensures { IsOption (needed (codes "problem")) result }
{
    file(
        alloc,
        "problem",
        "Scheduling problem: amounts, terms, discount factors and capacities",
    )
}

/// Adds the files of a problem, in reading order. The help shows them first.
fn with_problem<'a>(alloc: Global, command: Command<'a>) -> Result<Command<'a>, AllocError>
    ensures { IfOk result (AddsOptions problem_options command.entry) }
{
    command
        .arg(problem_file(alloc).display_order(0))?
        .arg(prec_file(alloc).display_order(1))
}

/// Returns `--schedule`.
fn schedule_file<'a>(alloc: Global) -> Arg<'a>
    ensures { IsOption (needed (codes "schedule")) result }
{
    file(
        alloc,
        "schedule",
        "Schedule: shares of blocks by period and destination",
    )
}

/// Returns `check`.
fn check_command<'a>(alloc: Global) -> Result<Command<'a>, AllocError>
    ensures { IfOk result (HasOptions (codes "check") schedule_options) }
{
    let check = Command::new(alloc, "check")
        .about("Check a schedule against each limit; print its value, and the bound at prices")
        .after_help(STATUSES);
    with_problem(alloc, check)?
        .arg(schedule_file(alloc).display_order(2))?
        .arg(option(alloc, "prices", "FILE", PRICES).display_order(3))
}

/// Returns `bound`.
fn bound_command<'a>(alloc: Global) -> Result<Command<'a>, AllocError>
    ensures { IfOk result (HasOptions (codes "bound") bound_options) }
{
    let bound = Command::new(alloc, "bound")
        .about("Print what no schedule is worth more than, at prices of limits")
        .after_help(STATUSES);
    with_problem(alloc, bound)?.arg(file(alloc, "prices", PRICES).display_order(2))
}

/// Adds the subcommands.
fn with_subcommands<'a>(alloc: Global, command: Command<'a>) -> Result<Command<'a>, AllocError>
    ensures { IfOk result (λ made. subcommands_in made ≡ subcommands_in command.entry ++ (codes "check", schedule_options) ∷ (codes "bound", bound_options) ∷ []) }
{
    command
        .subcommand(check_command(alloc)?)?
        .subcommand(bound_command(alloc)?)
}

/// Returns `pitschedule` with its subcommands. Its version is the release.
///
/// # Errors
///
/// If memory runs out.
pub fn schedule_command<'a>(alloc: Global) -> Result<Command<'a>, AllocError>
    ensures { IfOk result (λ made. subcommands_in made ≡ (codes "check", schedule_options) ∷ (codes "bound", bound_options) ∷ []) }
{
    let command = Command::new(alloc, "pitschedule")
        .version("0.2.0")
        .about(
            "Check open-pit production schedules, and bound what any schedule is worth, with proofs",
        )
        .after_help(STATUSES)
        .subcommand_required(true)
        .arg_required_else_help(false);
    with_subcommands(alloc, command)
}

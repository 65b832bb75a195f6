//! The command lines of `pitshell` and `pitschedule` for `clap`: subcommands, their options and the help. `tools/make_docs.py` makes the
//! man pages, the completions and the table of options of `pitshell` from that help.
#![tactic(auto)]

mod schedules;

ghost use Rattle.std.specs.Prelude.{◌≡◌, ◌∷◌, [], ◌++◌, codes, IfOk};
ghost use Rattle.command_line.specs.Options.{budget_option, settings_options, blocks_options, check_options, column_option, column_options, mine_options, needed, offered, output_options, progress_option, replay_options, shells_options, solve_options, standing, subcommands_in, watch_options, workers_option, AddsOptions, HasOptions, IsOption};

use clap::{Arg, ArgAction, Command, value_parser};
pub use schedules::schedule_command;
use std::alloc::{AllocError, Global};

const STATUSES: &str = "Exit status:\n  \
0  the answer was written, or help was printed\n  \
1  a fault, which is printed to standard error\n  \
2  the command line is wrong\n  \
3  the budget is used up\n  \
4  the answer is no";

/// Returns an option that takes one value, which the help calls `value`.
fn option<'a>(alloc: Global, name: &'a str, value: &'a str, help: &'a str) -> Arg<'a>
    ensures { IsOption (offered name.now) result }
{
    Arg::new(alloc, name)
        .long(name)
        .value_name(value)
        .help(help)
        .action(ArgAction::Set)
}

/// Returns a required option that takes the name of a file.
fn file<'a>(alloc: Global, name: &'a str, help: &'a str) -> Arg<'a>
    ensures { IsOption (needed name.now) result }
{
    option(alloc, name, "FILE", help).required(true)
}

/// Returns `--model`.
fn model_file<'a>(alloc: Global) -> Arg<'a>
    ensures { IsOption (needed (codes "model")) result }
{
    file(
        alloc,
        "model",
        "Optimisation model (.upit): the value of each block",
    )
}

/// Returns `--prec`.
fn prec_file<'a>(alloc: Global) -> Arg<'a>
    ensures { IsOption (needed (codes "prec")) result }
{
    file(
        alloc,
        "prec",
        "Precedences (.prec): the predecessors of each block",
    )
}

/// Returns `--fixed`.
fn fixed_file<'a>(alloc: Global) -> Arg<'a>
    ensures { IsOption (offered (codes "fixed")) result }
{
    option(
        alloc,
        "fixed",
        "FILE",
        "Fixed blocks (.fixed): the forced and the barred blocks",
    )
}

/// Adds the files of a mine, in reading order. The help shows them first.
fn with_mine<'a>(alloc: Global, command: Command<'a>) -> Result<Command<'a>, AllocError>
    ensures { IfOk result (AddsOptions mine_options command.entry) }
{
    command
        .arg(model_file(alloc).display_order(0))?
        .arg(prec_file(alloc).display_order(1))?
        .arg(fixed_file(alloc).display_order(2))
}

/// Returns `check`.
fn check_command<'a>(alloc: Global) -> Result<Command<'a>, AllocError>
    ensures { IfOk result (HasOptions (codes "check") check_options) }
{
    let check = Command::new(alloc, "check")
        .about("Check that a certificate proves a pit optimal; print yes or no")
        .after_help(STATUSES);
    with_mine(alloc, check)?.arg(file(
        alloc,
        "certificate",
        "Certificate to check, as written by solve --certificate",
    ))
}

/// Returns `replay`.
fn replay_command<'a>(alloc: Global) -> Result<Command<'a>, AllocError>
    ensures { IfOk result (HasOptions (codes "replay") replay_options) }
{
    let replay = Command::new(alloc, "replay")
        .about("Replay a journal of mode shared on one thread; print its ultimate pit")
        .after_help(STATUSES);
    with_mine(alloc, replay)?.arg(file(
        alloc,
        "journal",
        "Journal to replay, as written by solve --journal",
    ))
}

/// Returns a required option that takes the number of an attribute column.
fn attribute<'a>(alloc: Global, name: &'a str, help: &'a str) -> Arg<'a>
    ensures { IsOption (column_option name.now) result }
{
    option(alloc, name, "COLUMN", help)
        .value_parser(value_parser!(u64).range(0..=63))
        .required(true)
}

/// Returns `--factors`.
fn factors_list<'a>(alloc: Global) -> Arg<'a>
    ensures { IsOption (needed (codes "factors")) result }
{
    option(
        alloc,
        "factors",
        "LIST",
        "Revenue factors in per mille, rising, separated by commas (0 to 100000)",
    )
    .required(true)
    .allow_negative_numbers(true)
}

/// Adds the files of `shells`.
fn with_blocks<'a>(alloc: Global, command: Command<'a>) -> Result<Command<'a>, AllocError>
    ensures { IfOk result (AddsOptions blocks_options command.entry) }
{
    command
        .arg(file(
            alloc,
            "blocks",
            "Block model (.blocks): coordinates and attributes of each block",
        ))?
        .arg(prec_file(alloc))
}

/// Adds the columns of revenue and cost.
fn with_columns<'a>(alloc: Global, command: Command<'a>) -> Result<Command<'a>, AllocError>
    ensures { IfOk result (AddsOptions column_options command.entry) }
{
    command
        .arg(attribute(
            alloc,
            "revenue",
            "Attribute column of the revenue of each block (0 to 63)",
        ))?
        .arg(attribute(
            alloc,
            "cost",
            "Attribute column of the cost of each block (0 to 63)",
        ))
}

/// Returns `shells`.
fn shells_command<'a>(alloc: Global) -> Result<Command<'a>, AllocError>
    ensures { IfOk result (HasOptions (codes "shells") shells_options) }
{
    let shells = Command::new(alloc, "shells")
        .about("Print nested pit shells: the ultimate pit at each revenue factor")
        .after_help(STATUSES);
    let shells = with_columns(alloc, with_blocks(alloc, shells)?)?.arg(factors_list(alloc))?;
    with_watch(alloc, with_settings(alloc, shells, 5)?)
}

/// Returns `--mode`.
fn mode_word<'a>(alloc: Global) -> Arg<'a>
    ensures { IsOption (standing (codes "mode") (codes "single")) result }
{
    option(
        alloc,
        "mode",
        "MODE",
        "single, parts or shared: on one thread, by connected components, or by workers",
    )
    .default_value("single")
}

/// Returns `--workers`.
fn workers_number<'a>(alloc: Global) -> Arg<'a>
    ensures { IsOption workers_option result }
{
    option(
        alloc,
        "workers",
        "NUMBER",
        "Number of workers in mode shared (1 to 64)",
    )
    .value_parser(value_parser!(u64).range(1..=64))
    .default_value("4")
}

/// Returns `--budget`.
fn budget_number<'a>(alloc: Global) -> Arg<'a>
    ensures { IsOption budget_option result }
{
    option(
        alloc,
        "budget",
        "MERGERS",
        "Stop after MERGERS mergers; not in mode parts",
    )
    .value_parser(value_parser!(u64))
}

/// Returns `--pit`.
fn pit_word<'a>(alloc: Global) -> Arg<'a>
    ensures { IsOption (standing (codes "pit") (codes "least")) result }
{
    option(
        alloc,
        "pit",
        "PIT",
        "least or greatest: which of the pits of equal value",
    )
    .default_value("least")
}

/// Adds `--mode`, `--workers`, `--budget` and `--pit`, at places of the help from `place` on. `commands` checks the words of mode and
/// pit.
fn with_settings<'a>(
    alloc: Global,
    command: Command<'a>,
    place: usize,
) -> Result<Command<'a>, AllocError>
    ensures { IfOk result (AddsOptions settings_options command.entry) }
{
    command
        .arg(mode_word(alloc).display_order(place))?
        .arg(workers_number(alloc).display_order(place.saturating_add(1)))?
        .arg(budget_number(alloc).display_order(place.saturating_add(2)))?
        .arg(pit_word(alloc).display_order(place.saturating_add(3)))
}

/// Returns `--progress`.
fn progress_seconds<'a>(alloc: Global) -> Arg<'a>
    ensures { IsOption progress_option result }
{
    option(
        alloc,
        "progress",
        "SECONDS",
        "Print a progress line to standard error every SECONDS seconds (1 to 86400)",
    )
    .value_parser(value_parser!(u64).range(1..=86_400))
}

/// Returns an option that takes the name of an output file.
fn output<'a>(alloc: Global, name: &'a str, help: &'a str) -> Arg<'a>
    ensures { IsOption (offered name.now) result }
{
    option(alloc, name, "FILE", help)
}

/// Adds `--progress` and `--stats`. The help shows them last.
fn with_watch<'a>(alloc: Global, command: Command<'a>) -> Result<Command<'a>, AllocError>
    ensures { IfOk result (AddsOptions watch_options command.entry) }
{
    command.arg(progress_seconds(alloc))?.arg(output(
        alloc,
        "stats",
        "Write counts and times of the run to FILE",
    ))
}

/// Adds `--certificate` and `--journal`.
fn with_outputs<'a>(alloc: Global, command: Command<'a>) -> Result<Command<'a>, AllocError>
    ensures { IfOk result (AddsOptions output_options command.entry) }
{
    command
        .arg(output(
            alloc,
            "certificate",
            "Write a certificate that proves the pit optimal to FILE",
        ))?
        .arg(output(
            alloc,
            "journal",
            "Write the decisions of the workers to FILE; requires --mode shared",
        ))
}

/// Returns `solve`. `--model` is added after `--mode`: if two names are equally close to a mistyped one, `clap` suggests the last.
fn solve_command<'a>(alloc: Global) -> Result<Command<'a>, AllocError>
    ensures { IfOk result (HasOptions (codes "solve") solve_options) }
{
    let solve = Command::new(alloc, "solve")
        .about("Print the ultimate pit: the closed set of maximal value")
        .after_help(STATUSES);
    let solve = with_mine(alloc, with_settings(alloc, solve, 3)?)?;
    with_watch(alloc, with_outputs(alloc, solve)?)
}

/// Adds the subcommands that solve.
fn with_solves<'a>(alloc: Global, command: Command<'a>) -> Result<Command<'a>, AllocError>
    ensures { IfOk result (λ made. subcommands_in made ≡ subcommands_in command.entry ++ (codes "solve", solve_options) ∷ (codes "shells", shells_options) ∷ []) }
{
    command
        .subcommand(solve_command(alloc)?)?
        .subcommand(shells_command(alloc)?)
}

/// Adds the subcommands that check the outputs of a solve.
fn with_judges<'a>(alloc: Global, command: Command<'a>) -> Result<Command<'a>, AllocError>
    ensures { IfOk result (λ made. subcommands_in made ≡ subcommands_in command.entry ++ (codes "check", check_options) ∷ (codes "replay", replay_options) ∷ []) }
{
    command
        .subcommand(check_command(alloc)?)?
        .subcommand(replay_command(alloc)?)
}

/// Returns `pitshell` with its subcommands. Its version is the release.
///
/// # Errors
///
/// If memory runs out.
pub fn command<'a>(alloc: Global) -> Result<Command<'a>, AllocError>
    ensures { IfOk result (λ made. subcommands_in made ≡ (codes "solve", solve_options) ∷ (codes "shells", shells_options) ∷ (codes "check", check_options) ∷ (codes "replay", replay_options) ∷ []) }
{
    let command = Command::new(alloc, "pitshell")
        .version("0.2.0")
        .about("Find the ultimate pit of a mine with a proved solver")
        .after_help(STATUSES)
        .subcommand_required(true)
        .arg_required_else_help(false);
    with_judges(alloc, with_solves(alloc, command)?)
}

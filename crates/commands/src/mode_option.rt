//! Parses the word of `--mode`.
ghost use Rattle.std.specs.Prelude.{◌≡◌};
ghost use Rattle.std.specs.Option.{option_map};
ghost use Rattle.commands.specs.Modes.{mode_fault_of, mode_named};

use solver::Mode;

/// The number of arcs that a worker takes at a time.
const CHUNK: u32 = 4096;

/// Returns the first line, without its LF, that says what is wrong with the word of a mode, given whether there is a budget and
/// whether a journal is wanted. `None` if nothing is wrong.
pub fn mode_fault(mode: &str, budget: bool, journal: bool) -> Option<&'static str>
    ensures { option_map (λ line. line.now) result ≡ mode_fault_of mode.now budget journal }
{
    if mode != "single" && mode != "parts" && mode != "shared" {
        return Some("pitshell: mode is single, parts or shared");
    }
    if mode == "parts" && budget {
        return Some("pitshell: parts takes no budget");
    }
    if journal && mode != "shared" {
        return Some("pitshell: journal needs shared");
    }
    None
}

/// Returns the mode of a right word, with the number of workers and the budget if the mode has them.
pub fn parse_mode(word: &str, workers: u32, budget: Option<u64>) -> Mode
    ensures { result ≡ mode_named word.now workers budget }
{
    if word == "parts" {
        return Mode::Parts;
    }
    if word == "shared" {
        return Mode::Shared {
            workers,
            budget,
            chunk: CHUNK,
        };
    }
    Mode::Single { budget }
}

//! Parses the word of `--pit`.
ghost use Rattle.std.specs.Prelude.{◌≡◌};
ghost use Rattle.std.specs.Option.{option_map};
ghost use Rattle.commands.specs.Pits.{pit_fault_of, pit_named};

use pit_model::Direction;

/// Returns the first line, without its LF, that says what is wrong with the word of a pit, given whether a certificate and whether
/// a journal is wanted. `None` if nothing is wrong.
pub fn pit_fault(pit: &str, certificate: bool, journal: bool) -> Option<&'static str>
    ensures { option_map (λ line. line.now) result ≡ pit_fault_of pit.now certificate journal }
{
    if pit != "least" && pit != "greatest" {
        return Some("pitshell: pit is least or greatest");
    }
    if pit == "greatest" && (certificate || journal) {
        return Some("pitshell: greatest takes no certificate or journal");
    }
    None
}

/// Returns the direction of a right word.
pub fn parse_pit(word: &str) -> Direction
    ensures { result ≡ pit_named word.now }
{
    if word == "greatest" {
        Direction::Greatest
    } else {
        Direction::Least
    }
}

//! The exit status of a command.
ghost use Rattle.std.specs.Prelude.{◌≡◌};
ghost use Rattle.schedule_runs.specs.Status.{exit_status};

use crate::refused::Refused;
use crate::verdict::Verdict;

/// Returns the exit status of `check` with its verdict, or of `bound`, which has none: 0 if the answer was written, 4 if the shares are no
/// schedule, and 1 after a refusal. (2 is that of a wrong command line.)
pub fn exit_status(outcome: &Result<Option<Verdict>, Refused>) -> u8
    ensures { result ≡ exit_status outcome.now }
{
    match outcome {
        Ok(None) => 0,
        Ok(Some(Verdict::Schedule(_, _))) => 0,
        Ok(Some(_)) => 4,
        Err(_) => 1,
    }
}

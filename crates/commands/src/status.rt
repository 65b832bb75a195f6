//! How a command ended, and its exit status.
ghost use Rattle.std.specs.Prelude.{◌≡◌};
ghost use Rattle.commands.specs.Exit.{status_of};

use faults::{Fault, Refusal};

/// How a run without a fault ended.
#[derive(Clone, Copy, Debug, PartialEq, Eq)]
pub enum Status {
    /// The answer was written.
    Done,
    /// The answer is no.
    No,
}

/// Returns the exit status: 0 if done, 4 if the answer is no, 3 if the budget is used up, and 1 for any other fault. (2 is that of
/// a wrong command line.)
pub fn exit_code(outcome: &Result<Status, Fault>) -> u8
    ensures { result ≡ status_of outcome.now }
{
    match outcome {
        Ok(Status::Done) => 0,
        Ok(Status::No) => 4,
        Err(fault) => match &fault.refusal {
            Refusal::Exhausted(_) => 3,
            _ => 1,
        },
    }
}

//! How a command ends: the fault on standard error, and the exit status.
ghost use Rattle.std.specs.Prelude.{◌≡◌, ◌<◌, ◌^◌};
ghost use Rattle.commands.specs.Exit.{status_of};
ghost use Rattle.commands.specs.Ended.{Tells};

use crate::status::{Status, exit_code};
use faults::Fault;
use minelib_reader::OutBytes;
use report::write_fault;

/// Writes the text of a fault to `err`, if there is one, and returns the exit status.
pub fn report_fault<E: OutBytes>(err: &mut E, outcome: &Result<Status, Fault>) -> u8
    requires countable { (E.progress err.old).failures < 2 ^ 63 }
    ensures status { result ≡ status_of outcome.now }
    ensures tells { Tells outcome.now (E.progress err.old) (E.progress err.new) }
{
    if let Err(fault) = outcome {
        let _ = write_fault(err, fault);
    }
    exit_code(outcome)
}

//! The text of a yes or a no, as one line.
ghost use Rattle.std.specs.Prelude.{◌≡◌, ◌<◌, ◌^◌, IfErr};
ghost use Rattle.minelib_reader.specs.Device.{Writes};
ghost use Rattle.faults.specs.Refused.{write_failed};
ghost use Rattle.report.specs.AnswerText.{answer_text};

use faults::Fault;
use minelib_reader::{OutBytes, write_all};

fn word_of(answer: bool) -> &'static [u8]
    ensures { result.now ≡ answer_text answer }
{
    if answer { b"yes\n" } else { b"no\n" }
}

/// Writes `yes` or `no` as a line. Refused where a write failed: a beginning of the text was written then. It takes no
/// memory.
pub fn write_answer<W: OutBytes>(writer: &mut W, answer: bool) -> Result<(), Fault>
    requires { (W.progress writer.old).failures < 2 ^ 63 }
    ensures text { Writes (W.progress writer.old) (W.progress writer.new) (answer_text answer) result }
    ensures refused { IfErr result (λ fault. fault ≡ write_failed) }
{
    match write_all(writer, word_of(answer)) {
        Ok(()) => Ok(()),
        Err(_) => Err(Fault::write_failed()),
    }
}

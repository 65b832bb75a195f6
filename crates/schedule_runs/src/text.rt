//! The texts of verdicts and bounds.
ghost use Rattle.std.specs.Prelude.{◌≡◌, ◌<◌, ◌≤◌, ◌^◌, ◌++◌, [], IfErr, length};
ghost use Rattle.faults.specs.Refused.{write_failed};
ghost use Rattle.minelib_reader.specs.Device.{Writes};
ghost use Rattle.report.specs.Puts.{IsReady, Puts};
ghost use Rattle.schedule_runs.specs.Verdicts.{bound_text, verdict_text, whole_line};

use crate::verdict::Verdict;
use faults::Fault;
use minelib_reader::OutBytes;
use report::{Out, end_line, finish, put, put_millionths, put_number};

/// Returns the line that says whether each block is mined whole.
fn whole_line(whole: bool) -> &'static [u8]
    ensures line { result.now ≡ whole_line whole }
    ensures short { length result.now ≤ 65536 }
{
    if whole {
        b"WHOLE BLOCKS: yes\n"
    } else {
        b"WHOLE BLOCKS: no\n"
    }
}

/// Writes that shares are a schedule, its value, and whether each block is mined whole.
#[tactic(auto, unfolding(crate::specs::Verdicts::verdict_text))]
fn put_schedule<W: OutBytes>(writer: &mut W, out: &mut Out, value: i128, whole: bool)
    requires { IsReady (W.progress writer.old) out.old }
    ensures puts { Puts (W.progress writer.old) out.old (W.progress writer.new) out.new (verdict_text (Verdict.Schedule value whole)) }
    ensures ready { IsReady (W.progress writer.new) out.new }
{
    put(writer, out, b"SCHEDULE\nVALUE: ");
    put_millionths(writer, out, value);
    end_line(writer, out);
    put(writer, out, whole_line(whole));
}

/// Writes which block is mined more than once.
#[tactic(auto, unfolding(crate::specs::Verdicts::verdict_text))]
fn put_mined_twice<W: OutBytes>(writer: &mut W, out: &mut Out, block: u32, period: u32)
    requires { IsReady (W.progress writer.old) out.old }
    ensures puts { Puts (W.progress writer.old) out.old (W.progress writer.new) out.new (verdict_text (Verdict.MinedTwice block period)) }
    ensures ready { IsReady (W.progress writer.new) out.new }
{
    put(writer, out, b"NO SCHEDULE\nblock ");
    put_number(writer, out, block);
    put(writer, out, b" more than once by the end of period ");
    put_number(writer, out, period);
    end_line(writer, out);
}

/// Writes which block is mined before one that it needs.
#[tactic(auto, unfolding(crate::specs::Verdicts::verdict_text))]
fn put_before_needed<W: OutBytes>(
    writer: &mut W,
    out: &mut Out,
    block: u32,
    needed: u32,
    period: u32,
)
    requires { IsReady (W.progress writer.old) out.old }
    ensures puts { Puts (W.progress writer.old) out.old (W.progress writer.new) out.new (verdict_text (Verdict.BeforeNeeded block needed period)) }
    ensures ready { IsReady (W.progress writer.new) out.new }
{
    put(writer, out, b"NO SCHEDULE\nblock ");
    put_number(writer, out, block);
    put(writer, out, b" before block ");
    put_number(writer, out, needed);
    put(writer, out, b" in period ");
    put_number(writer, out, period);
    end_line(writer, out);
}

/// The use of a limit in a period, and its capacity, in millionths.
#[derive(Clone, Copy)]
struct Excess {
    limit: u32,
    period: u32,
    used: i128,
    most: i128,
}

/// Writes which limit is exceeded.
#[tactic(auto, unfolding(crate::specs::Verdicts::verdict_text))]
fn put_over_limit<W: OutBytes>(writer: &mut W, out: &mut Out, excess: Excess)
    requires { IsReady (W.progress writer.old) out.old }
    ensures puts { Puts (W.progress writer.old) out.old (W.progress writer.new) out.new (verdict_text (Verdict.OverLimit excess.limit excess.period excess.used excess.most)) }
    ensures ready { IsReady (W.progress writer.new) out.new }
{
    put(writer, out, b"NO SCHEDULE\nlimit ");
    put_number(writer, out, excess.limit);
    put(writer, out, b" in period ");
    put_number(writer, out, excess.period);
    put(writer, out, b": ");
    put_millionths(writer, out, excess.used);
    put(writer, out, b" of ");
    put_millionths(writer, out, excess.most);
    end_line(writer, out);
}

/// Writes a verdict.
pub(crate) fn put_verdict<W: OutBytes>(writer: &mut W, out: &mut Out, verdict: Verdict)
    requires { IsReady (W.progress writer.old) out.old }
    ensures puts { Puts (W.progress writer.old) out.old (W.progress writer.new) out.new (verdict_text verdict) }
    ensures ready { IsReady (W.progress writer.new) out.new }
{
    match verdict {
        Verdict::Schedule(value, whole) => put_schedule(writer, out, value, whole),
        Verdict::MinedTwice(block, period) => put_mined_twice(writer, out, block, period),
        Verdict::BeforeNeeded(block, needed, period) => {
            put_before_needed(writer, out, block, needed, period)
        }
        Verdict::OverLimit(limit, period, used, most) => {
            let excess = Excess {
                limit,
                period,
                used,
                most,
            };
            put_over_limit(writer, out, excess)
        }
    }
}

/// Writes a bound.
#[tactic(auto, unfolding(crate::specs::Verdicts::bound_text))]
pub(crate) fn put_bound<W: OutBytes>(writer: &mut W, out: &mut Out, bound: i128)
    requires { IsReady (W.progress writer.old) out.old }
    ensures puts { Puts (W.progress writer.old) out.old (W.progress writer.new) out.new (bound_text bound) }
    ensures ready { IsReady (W.progress writer.new) out.new }
{
    put(writer, out, b"BOUND: ");
    put_millionths(writer, out, bound);
    end_line(writer, out);
}

/// Writes the text of a verdict.
pub(crate) fn write_verdict<W: OutBytes>(writer: &mut W, verdict: Verdict) -> Result<(), Fault>
    requires { (W.progress writer.old).failures < 2 ^ 63 }
    ensures text { Writes (W.progress writer.old) (W.progress writer.new) (verdict_text verdict) result }
    ensures refused { IfErr result (λ fault. fault ≡ write_failed) }
{
    let mut out = Out::new();
    put_verdict(writer, &mut out, verdict);
    finish(writer, &mut out)
}

/// Writes the text of a bound.
pub(crate) fn write_bound<W: OutBytes>(writer: &mut W, bound: i128) -> Result<(), Fault>
    requires { (W.progress writer.old).failures < 2 ^ 63 }
    ensures text { Writes (W.progress writer.old) (W.progress writer.new) (bound_text bound) result }
    ensures refused { IfErr result (λ fault. fault ≡ write_failed) }
{
    let mut out = Out::new();
    put_bound(writer, &mut out, bound);
    finish(writer, &mut out)
}

/// Writes the text of a verdict, and that of a bound.
pub(crate) fn write_both<W: OutBytes>(
    writer: &mut W,
    verdict: Verdict,
    bound: i128,
) -> Result<(), Fault>
    requires { (W.progress writer.old).failures < 2 ^ 63 }
    ensures text { Writes (W.progress writer.old) (W.progress writer.new) (verdict_text verdict ++ bound_text bound) result }
    ensures refused { IfErr result (λ fault. fault ≡ write_failed) }
{
    let mut out = Out::new();
    put_verdict(writer, &mut out, verdict);
    put_bound(writer, &mut out, bound);
    finish(writer, &mut out)
}

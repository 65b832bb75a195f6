//! A text that is read piece by piece, each of whole lines, so that no more of it is held at once than a piece and a line.
ghost use Rattle.std.specs.Prelude.{◌≡◌, ◌<◌, ◌^◌, ℕ, List, ◌++◌, IfOk, IfErr, IfSome, MatchResult};
ghost use Rattle.std.specs.Io.KnownBytes.{Keeps};
ghost use Rattle.minelib_reader.specs.Answer.{IsRead, Refuses};
ghost use Rattle.minelib_reader.specs.Device.{Progress};
ghost use Rattle.minelib_reader.specs.Pieces.{EndsLine, IsPiece};

use crate::device::{DeviceFailed, InBytes};
use crate::input::CHUNK;
use faults::{Fault, Refusal, Source};
use memchr::memrchr;
use std::mem;

/// The lines that end in a text, and what stands behind them; None where no line ends.
fn ended_lines(text: &[u8]) -> Option<(&[u8], &[u8])>
    ensures parts { IfSome result (λ p. text.now ≡ p.0.now ++ p.1.now) }
    ensures ends { IfSome result (λ p. EndsLine p.0.now) }
{
    let at = memrchr(b'\n', text)?;
    Some((&text[..at + 1], &text[at + 1..]))
}

/// Reads on until a line ends or the text does, and answers whether the text did. The piece is what was kept of a line and all
/// that was read up to the last line's end, or up to the text's; what stands behind it is kept. Refused by `NoMemory`, and by
/// `ReadFailed` with that source and no line.
pub(crate) fn read_piece<R: InBytes>(
    reader: &mut R,
    source: Source,
    piece: &mut Vec<u8>,
    kept: &mut Vec<u8>,
) -> Result<bool, Fault>
    requires countable { (R.progress reader.old).failures < 2 ^ 63 }
    ensures piece { IfOk result (IsPiece (R.progress reader.old) (R.progress reader.new) (R.IsAtEnd reader.new) kept.old.items piece.new.items kept.new.items) }
    ensures refused { IfErr result (λ e. Refuses e.refusal source e (R.progress reader.old) (R.progress reader.new) ⊥) }
    ensures known { Keeps (R.known_text reader.old) (R.known_text reader.new) }
{
    mem::swap(piece, kept);
    kept.clear();
    let mut chunk = [0u8; CHUNK];
    loop {
        match reader.read(&mut chunk) {
            Ok(0) => return Ok(true),
            Ok(n) => match ended_lines(&chunk[..n]) {
                None => piece.extend_from_slice(&chunk[..n])?,
                Some((lines, begun)) => {
                    piece.extend_from_slice(lines)?;
                    kept.extend_from_slice(begun)?;
                    return Ok(false);
                }
            },
            Err(DeviceFailed) => return Err(Fault::at_line(source, Refusal::ReadFailed, 0)),
        }
    }
}

/// Reads all that is left, and keeps none of it. Refused by `ReadFailed` with that source and no line.
pub(crate) fn read_past<R: InBytes>(reader: &mut R, source: Source) -> Result<(), Fault>
    requires countable { (R.progress reader.old).failures < 2 ^ 63 }
    ensures text { MatchResult result
        (λ _. (text : List ℕ) × IsRead (R.progress reader.old) (R.progress reader.new) (R.IsAtEnd reader.new) text)
        (λ e. Refuses e.refusal source e (R.progress reader.old) (R.progress reader.new) ⊥) }
    ensures known { Keeps (R.known_text reader.old) (R.known_text reader.new) }
{
    let mut chunk = [0u8; CHUNK];
    loop {
        match reader.read(&mut chunk) {
            Ok(0) => return Ok(()),
            Ok(_) => {}
            Err(DeviceFailed) => return Err(Fault::at_line(source, Refusal::ReadFailed, 0)),
        }
    }
}

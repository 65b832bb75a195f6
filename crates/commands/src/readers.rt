//! Readers of a mine's files, each at the beginning of its file.
ghost use Rattle.std.specs.Prelude.{◌≡◌, is_some};
ghost use Rattle.commands.specs.Solve.{MayRead};
ghost use Rattle.commands.specs.Opened.{known_if_any, IsFromFront, IsFromFrontIfAny};

use crate::mine::MineFiles;
use counters::Counters;
use minelib_reader::{FileReader, InBytes, InputStream};

/// The readers of a mine's files.
pub(crate) type MineReaders<M, P, X> = MineFiles<FileReader<M>, FileReader<P>, FileReader<X>>;

/// Returns a reader of the file of fixed blocks, if there is one.
fn reader_of<X: InputStream + Drop>(fixed: Option<X>, counters: &Counters) -> Option<FileReader<X>>
    ensures front { IsFromFrontIfAny (⟦<FileReader<X> as InBytes>⟧.progress) (⟦<FileReader<X> as InBytes>⟧.known_text) (known_if_any X.remaining fixed) result }
    ensures named { is_some result ≡ is_some fixed }
{
    match fixed {
        None => None,
        Some(stream) => Some(FileReader::with_counters(stream, counters.share())),
    }
}

/// Returns readers of a mine's files, with shared counters.
pub(crate) fn readers_of<M: InputStream + Drop, P: InputStream + Drop, X: InputStream + Drop>(
    mine: MineFiles<M, P, X>,
    counters: &Counters,
) -> MineReaders<M, P, X>
    ensures model { IsFromFront (⟦<FileReader<M> as InBytes>⟧.progress) (⟦<FileReader<M> as InBytes>⟧.known_text) (M.remaining mine.model) result.model }
    ensures prec { IsFromFront (⟦<FileReader<P> as InBytes>⟧.progress) (⟦<FileReader<P> as InBytes>⟧.known_text) (P.remaining mine.prec) result.prec }
    ensures fixed { IsFromFrontIfAny (⟦<FileReader<X> as InBytes>⟧.progress) (⟦<FileReader<X> as InBytes>⟧.known_text) (known_if_any X.remaining mine.fixed) result.fixed }
    ensures named { is_some result.fixed ≡ is_some mine.fixed }
    ensures may_read { MayRead (⟦<FileReader<M> as InBytes>⟧.progress) (⟦<FileReader<P> as InBytes>⟧.progress) (⟦<FileReader<X> as InBytes>⟧.progress) result }
{
    let MineFiles { model, prec, fixed } = mine;
    MineFiles {
        model: FileReader::with_counters(model, counters.share()),
        prec: FileReader::with_counters(prec, counters.share()),
        fixed: reader_of(fixed, counters),
    }
}

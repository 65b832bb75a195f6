//! Writers of the journal and the certificate, each at the beginning of its output.
ghost use Rattle.std.specs.Prelude.{◌≡◌, is_some};
ghost use Rattle.commands.specs.Opened.{known_if_any};
ghost use Rattle.commands.specs.Solved.{IsNew};

use minelib_reader::{OutBytes, StreamWriter};
use std::io::Write;

/// Returns a writer of an output, if there is one.
pub(crate) fn writer_of<S: Write + Drop>(output: Option<S>) -> Option<StreamWriter<S>>
    ensures { IsNew (⟦<StreamWriter<S> as OutBytes>⟧) (is_some output) (known_if_any S.contents output) result }
{
    match output {
        None => None,
        Some(stream) => Some(StreamWriter::new(stream)),
    }
}

/// Returns the output of a writer, if there is one.
pub(crate) fn output_of<S: Write + Drop>(writer: Option<StreamWriter<S>>) -> Option<S>
    ensures named { is_some result ≡ is_some writer }
    ensures known { known_if_any S.contents result ≡ known_if_any (⟦<StreamWriter<S> as OutBytes>⟧.known_content) writer }
{
    match writer {
        None => None,
        Some(writer) => Some(writer.into_stream()),
    }
}

//! `solve` over files in memory.
ghost use Rattle.std.specs.Prelude.{◌≡◌};
ghost use Rattle.memory_files.specs.SolvedFiles.{SolvesFiles};

use crate::files::MemoryFiles;
use commands::{SolveOptions, solve_call};
use minelib_reader::MemoryWriter;
use std::alloc::AllocGlobal;
use std::sync::Wait;
use std::thread::Threads;

/// How a command ended, and what it wrote to standard output and to standard error.
#[derive(Debug, Drop)]
pub struct Ending {
    pub status: u8,
    pub out: Vec<u8>,
    pub err: Vec<u8>,
}

/// Solves the mine that the files of the names spell, with room for a given number of bytes on standard output and on standard
/// error. If the exit status is 0, exactly the text of its pit was written, in every mode.
pub fn solve_in_memory<R: AllocGlobal + Threads + Wait + Sync>(
    rt: &R,
    files: &mut MemoryFiles<'_>,
    options: &SolveOptions<'_>,
    room: usize,
) -> Ending
    ensures { result.status ≡ 0 → SolvesFiles options.now.settings.pit files.old.files.now options.now.mine result.out.items }
{
    let mut out = MemoryWriter::new(rt.alloc(), room);
    let mut err = MemoryWriter::new(rt.alloc(), room);
    let status = solve_call(rt, files, options, &mut out, &mut err);
    Ending {
        status,
        out: out.text,
        err: err.text,
    }
}

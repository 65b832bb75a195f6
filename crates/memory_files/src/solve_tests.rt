//! A solve over files in memory, whose outputs `check` and `replay` then read, and a run over readers and writers in memory.

use crate::files::{MemoryFile, MemoryFiles, MemoryOutput};
use commands::{
    CheckOptions, MineNames, ReplayOptions, SolveOptions, SolveSettings, check_call, replay_call,
    run_solve, solve_call,
};
use faults::Refusal;
use minelib_reader::{MemoryReader, MemoryWriter};
use pit_model::Direction;
use solver::Mode;
use std::alloc::Global;
use std::process::Abort;
use std::sync::Wait;
use std::test::*;
use std::thread::Threads;

/// Ore worth 5 below waste that costs 3.
const MODEL: &str = "NAME: t\nTYPE: UPIT\nNBLOCKS: 2\nOBJECTIVE_FUNCTION:\n0 -3\n1 5\n";

const PREC: &str = "1 1 0\n";

const PIT: &str = "PIT\nBLOCKS: 2\nIN: 2\nWORTH: 2.000000\n0\n1\n";

const MINE: MineNames<'static> = MineNames {
    model: "mine.upit",
    prec: "mine.prec",
    fixed: None,
};

/// A solve by one worker, with a certificate and a journal.
const OPTIONS: SolveOptions<'static> = SolveOptions {
    mine: MINE,
    certificate: Some("mine.cert"),
    journal: Some("mine.journal"),
    settings: SolveSettings {
        mode: Mode::Shared {
            workers: 1,
            budget: None,
            chunk: 4096,
        },
        pit: Direction::Least,
    },
};

/// A file of these bytes.
fn file<'a>(name: &'a str, text: &'a [u8]) -> MemoryFile<'a> {
    MemoryFile { name, text }
}

/// The bytes that an output was kept with.
fn kept(output: &MemoryOutput) -> &[u8] {
    match &output.text {
        Some(text) => text.as_slice(),
        None => b"not kept",
    }
}

/// What `check` and `replay` write of a certificate and a journal of the mine, one after the other.
fn verified(alloc: Global, certificate: &[u8], journal: &[u8]) -> Result<Vec<u8>, Fail> {
    let listed = [
        file("mine.upit", MODEL.as_bytes()),
        file("mine.prec", PREC.as_bytes()),
        file("mine.cert", certificate),
        file("mine.journal", journal),
    ];
    let mut files = MemoryFiles::new(alloc, &listed);
    let mut out = MemoryWriter::new(alloc, 1000);
    let mut err = MemoryWriter::new(alloc, 1000);
    let check = CheckOptions {
        mine: MINE,
        certificate: "mine.cert",
    };
    check_call(alloc, &mut files, &check, &mut out, &mut err);
    let replay = ReplayOptions {
        mine: MINE,
        journal: "mine.journal",
    };
    replay_call(alloc, &mut files, &replay, &mut out, &mut err);
    Ok(out.text)
}

/// Solves the mine, has its outputs checked and replayed, and compares all with what is expected.
fn expect_verified<R: Abort + AllocGlobal + Threads + Wait + Sync>(rt: &R) -> Result<(), Fail> {
    let alloc = rt.alloc();
    let listed = [
        file("mine.upit", MODEL.as_bytes()),
        file("mine.prec", PREC.as_bytes()),
    ];
    let mut files = MemoryFiles::new(alloc, &listed);
    let mut out = MemoryWriter::new(alloc, 1000);
    let mut err = MemoryWriter::new(alloc, 1000);
    let status = solve_call(rt, &mut files, &OPTIONS, &mut out, &mut err);
    assert_eq!(rt; status, 0);
    assert_eq!(rt; out.text.as_slice(), PIT.as_bytes());
    assert_eq!(rt; files.journal.name.as_slice(), "mine.journal".as_bytes());
    let read = verified(alloc, kept(&files.certificate), kept(&files.journal))?;
    let expected = format!(in alloc; "yes\n{PIT}")?;
    assert_eq!(rt; read.as_slice(), expected.as_bytes());
    Ok(())
}

#[test]
fn outputs_of_a_solve_are_checked_and_replayed(rt: HostRuntime) -> Result<(), Fail> {
    expect_verified(&rt)
}

/// Solves the mine into a writer that takes seven bytes, and compares what it took.
fn expect_cut<R: Abort + AllocGlobal + Threads + Wait + Sync>(rt: &R) -> Result<(), Fail> {
    let alloc = rt.alloc();
    let mut out = MemoryWriter::new(alloc, 7);
    let outcome = run_solve(
        rt,
        alloc,
        &mut MemoryReader::new(MODEL.as_bytes()),
        &mut MemoryReader::new(PREC.as_bytes()),
        &mut None::<MemoryReader<'static>>,
        &mut None::<MemoryWriter>,
        &mut None::<MemoryWriter>,
        &mut out,
        Mode::Single { budget: None },
        Direction::Least,
    );
    assert!(rt; matches!(&outcome, Err(fault) if matches!(fault.refusal, Refusal::WriteFailed)));
    assert_eq!(rt; out.text.as_slice(), "PIT\nBLO".as_bytes());
    Ok(())
}

#[test]
fn a_writer_of_seven_bytes_takes_a_beginning(rt: HostRuntime) -> Result<(), Fail> {
    expect_cut(&rt)
}

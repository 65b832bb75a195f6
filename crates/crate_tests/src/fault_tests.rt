//! What `Display` prints of a fault: the words of its text, without the number.
use faults::{Fault, Refusal, Source};
use std::alloc::Global;
use std::test::*;

/// Whether a refusal in a line of an input is shown by these words.
fn is_shown(
    alloc: Global,
    source: Source,
    refusal: Refusal,
    line: u64,
    words: &str,
) -> Result<bool, Fail> {
    let fault = Fault::at_line(source, refusal, line);
    let shown = format!(in alloc; "{fault}")?;
    Ok(shown.as_str() == words)
}

/// Whether what a refusal carries is shown behind its words.
fn shows_what_it_carries(alloc: Global) -> Result<bool, Fail> {
    let cycle = Refusal::Cycle(vec![in alloc; 0, 1, 2]?);
    Ok(
        is_shown(
            alloc,
            Source::Precedence,
            cycle,
            0,
            "cycle 0 1 2 in precedence",
        )? && is_shown(
            alloc,
            Source::Blocks,
            Refusal::NegativeColumn(7),
            0,
            "negative value at block 7 in blocks",
        )? && is_shown(
            alloc,
            Source::Blocks,
            Refusal::NoSuchColumn(4),
            0,
            "no column 4 in blocks",
        )? && is_shown(
            alloc,
            Source::Fixed,
            Refusal::FixedClash(6),
            0,
            "fixed blocks clash at block 6 in fixed",
        )? && is_shown(
            alloc,
            Source::None,
            Refusal::Exhausted(5),
            0,
            "exhausted after 5 mergers",
        )?,
    )
}

/// Whether the place of a refusal is shown where it has one.
fn shows_its_place(alloc: Global) -> Result<bool, Fail> {
    Ok(
        is_shown(alloc, Source::None, Refusal::NoMemory, 0, "no memory")?
            && is_shown(
                alloc,
                Source::Model,
                Refusal::WrongHeader,
                3,
                "wrong header in model line 3",
            )?
            && is_shown(
                alloc,
                Source::Factors,
                Refusal::FactorsNotRising,
                2,
                "factors not rising in factors item 2",
            )?,
    )
}

#[test]
fn faults_are_shown_by_their_words(rt: HostRuntime) -> Result<(), Fail> {
    assert!(rt; shows_what_it_carries(rt.alloc())?);
    assert!(rt; shows_its_place(rt.alloc())?);
    Ok(())
}

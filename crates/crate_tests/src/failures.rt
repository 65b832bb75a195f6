//! What a test saw, each thing with its name, so that a test that fails says which of them does not hold.
use faults::Fault;
use std::test::Fail;

/// The name of what does not hold; None where all does.
pub type Failed = Option<&'static str>;

/// The name of the first thing that does not hold; None where all do.
pub fn first_failure(seen: &[(&'static str, bool)]) -> Failed {
    for (name, holds) in seen {
        if !*holds {
            return Some(*name);
        }
    }
    None
}

/// Ends a test: it fails with the name of what does not hold, or with the refusal.
pub fn pass_or_name(seen: Result<Failed, Fault>) -> Result<(), Fail> {
    match seen? {
        Some(name) => Err(name)?,
        None => Ok(()),
    }
}

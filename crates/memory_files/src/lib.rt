//! A file system in memory, over which the commands of the program are proved and tested: what each name leads to is known, and so
//! is what each output was kept with.
#![tactic(auto)]

mod files;
mod solve;
#[cfg(test)]
mod solve_tests;
mod stream;

pub use files::{MemoryFile, MemoryFiles, MemoryOutput};
pub use solve::{Ending, solve_in_memory};
pub use stream::MemoryStream;

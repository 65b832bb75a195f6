//! The texts of scheduling problems, of schedules and of prices: lines of a word and numbers, section by section.
#![tactic(auto)]

mod laws;
mod problem;
mod schedule;
mod section;
mod word;

pub use laws::{texts_at_fault, texts_of_two_blocks};
pub use problem::{Counts, Lists, parse_problem};
pub use schedule::{parse_prices, parse_shares};
pub use section::Columns;
pub use word::Word;

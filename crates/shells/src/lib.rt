//! Nested pits of a mine by price factor, in the mode that is asked for, with factors and columns read from text and tables.
#![tactic(auto)]

mod by_mode;
mod columns;
mod factors;
mod items;

pub use by_mode::shells;
pub use columns::FromTable;
pub use factors::FromText;
pub use nesting::{Columns, Factors};
pub use pit_model::{Direction, Shell, ShellList};

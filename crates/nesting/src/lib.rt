//! Nested pit shells of a mine by revenue factor, with any solver of instances. Each shell is found on the blocks that the shell
//! before leaves, and joined with that shell.
#![tactic(auto)]

mod columns;
mod factors;
mod growing;
mod items;
mod nested;
mod outermost;
mod parametric_shells;
mod plan;
mod sequential;
mod whole;

pub use columns::Columns;
pub use factors::Factors;
pub use items::check_item;
pub use nested::{shells_by_last, shells_by_rests};
pub use plan::ShellPlan;
pub use sequential::shells_sequential;

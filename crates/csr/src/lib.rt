//! Compressed sparse rows: the arcs of a graph grouped by block, as an array of offsets and an array of targets.
#![tactic(auto)]

mod builder;
mod rows;
mod shared;
mod sharing;
mod sort;
mod topological_order;
mod transpose;
mod view;

pub use builder::CsrBuilder;
pub use rows::Csr;
pub use shared::{SharedRow, SharedRows};
pub use sort::sort_rows;
pub use topological_order::{first_left, in_degrees_left};
pub use transpose::transposed_rows;
pub use view::{CsrView, rows_rise};

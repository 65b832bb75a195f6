//! Blocks, the pairs of a block with a block that it needs, and their values.
#![tactic(auto)]

mod amounts;
mod breadth_first;
mod components;
mod cycle;
mod fixed;
mod graph;
mod instance;
mod no_cycle;
mod numbers;
mod part;
mod parts;
mod rising;
mod row_samples;
mod values;

pub use breadth_first::BreadthFirst;
pub use components::Components;
pub use cycle::acyclic_is_well_founded;
pub use fixed::Fixed;
pub use graph::Graph;
pub use instance::Instance;
pub use numbers::{all_numbers, marked_numbers};
pub use part::Part;
pub use rising::RisingInstance;
pub use values::Values;

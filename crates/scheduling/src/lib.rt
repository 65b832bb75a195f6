//! Scheduling problems in memory: the Lagrangian bound at prices of limits, and the check of a schedule.
#![tactic(auto)]

mod bound_error;
mod capacities;
mod check;
mod expanded;
mod gains;
mod limits;
mod moved;
mod nodes;
mod order;
mod pairs;
mod parts;
mod problem;
mod product;
mod schedule_error;
mod weights;
mod whole;

pub use bound_error::BoundError;
pub use capacities::price_of_capacities;
pub use check::check_schedule;
pub use expanded::node_graph;
pub use gains::best_gains;
pub use limits::check_prices;
pub use nodes::{UNIT, node_values};
pub use parts::{Numbers, Sizes};
pub use problem::Problem;
pub use schedule_error::ScheduleError;
pub use whole::are_blocks_whole;

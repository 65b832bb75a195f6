//! Solves an instance with a tree that no other thread shares: on one thread, or by connected components on several threads. Merges
//! until no merger arc is left, and returns the certificate of the tree or the pit alone, or reports that the budget of mergers is
//! used up.
#![tactic(auto)]

mod budget_bound;
mod closing;
mod first_mergers;
mod label_buckets;
mod labels;
mod levels;
mod lift;
mod lowest_label;
mod outcome;
mod parametric;
mod parts;
mod plan;
mod reduced_mine;
mod replayed;
mod single;
mod solved_part;
mod union_find;

pub use lowest_label::merge_by_lowest_label;
pub use outcome::Outcome;
pub use parametric::ParametricSolver;
pub use parts::{pit_by_parts, solve_parts};
pub use plan::{Plan, Planned, plan_mergers};
pub use reduced_mine::{ReducedMine, join_pit};
pub use replayed::{Replayed, replay};
pub use single::{solve_pit, solve_single};

//! The production scheduling problem of an open pit: definitions in `specs/`, and the laws over them.
//! Each law is a function with an empty body whose contract is the law.
#![tactic(auto)]

ghost use Rattle.schedule_model.specs.Bound.{BoundIsOne, ScheduleIsBounded};
ghost use Rattle.schedule_model.specs.ExampleSchedules.{SchedulesOfTwoBlocks};
ghost use Rattle.schedule_model.specs.WholeBlocks.{WholeBlocksKeepOrder};

mod term;

pub use term::{Effect, Term};

/// For prices that are not negative, no schedule is worth more than the Lagrangian bound at these prices. Its shares may have any common
/// denominator.
pub fn schedule_is_bounded()
    ensures { ScheduleIsBounded }
{}

/// A problem has one Lagrangian bound at given prices.
pub fn bound_is_one()
    ensures { BoundIsOne }
{}

/// A schedule of whole blocks keeps strict precedence: each block is mined in one period at most, and not before a block that it needs.
pub fn whole_blocks_keep_order()
    ensures { WholeBlocksKeepOrder }
{}

/// What the definitions say of schedules of two blocks in two periods.
pub fn schedules_of_two_blocks()
    ensures { SchedulesOfTwoBlocks }
{}

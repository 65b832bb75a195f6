//! Why shares are no schedule.
use std::alloc::{AllocError, AllocFailed};

/// Why shares are no schedule.
#[derive(Clone, Copy, Debug, PartialEq, Eq, Drop)]
pub enum ScheduleError {
    /// Memory ran out.
    NoMemory,
    /// There is not a share for each block in each period to each destination.
    WrongCount,
    /// The share at this place is more than a whole block.
    ShareAbove(u32),
    /// More than a whole block is mined by the end of a period: block, period.
    MinedTwice(u32, u32),
    /// By the end of a period more of a block is mined than of one that it needs: block, needed block, period.
    BeforeNeeded(u32, u32, u32),
    /// A limit is exceeded in a period: limit, period, and what is used, in units of 10^-12.
    OverLimit(u32, u32, i128),
}

impl From<AllocError> for ScheduleError {
    ghost use Rattle.std.specs.Prelude.{◌≡◌};
    ghost use Rattle.scheduling.specs.declared.schedule_error.ScheduleError.TheVariants.{NoMemory};

    ghost from_gives = { λ _ e. e ≡ NoMemory };

    fn from(_e: AllocError) -> ScheduleError {
        ScheduleError::NoMemory
    }
}

impl<T: Drop> From<AllocFailed<T>> for ScheduleError {
    ghost use Rattle.std.specs.Prelude.{◌≡◌};
    ghost use Rattle.scheduling.specs.declared.schedule_error.ScheduleError.TheVariants.{NoMemory};

    ghost from_gives = { λ _ e. e ≡ NoMemory };

    fn from(_e: AllocFailed<T>) -> ScheduleError {
        ScheduleError::NoMemory
    }
}

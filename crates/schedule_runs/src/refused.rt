//! Why a command gives no verdict.

use crate::broken_limit::BrokenLimit;
use faults::Fault;
use std::alloc::{AllocError, AllocFailed};

/// Why a command gives no verdict.
#[derive(Debug, Drop)]
pub enum Refused {
    /// Memory ran out.
    NoMemory,
    /// The text of the problem has this fault.
    Problem(Fault),
    /// The text of the precedence has this fault, or its arcs have a cycle.
    Precedence(Fault),
    /// The problem breaks this limit.
    Beyond(BrokenLimit),
    /// The text of the schedule has this fault.
    Schedule(Fault),
    /// The first share that names no block, period or destination of the problem, or is more than a block; shares count from 0.
    NoShare(u64),
    /// The first share with which more than a whole block is sent to one destination in one period.
    ShareAbove(u64),
    /// The text of the prices has this fault.
    Prices(Fault),
    /// The first price that is negative or above 10^9; prices count from 0, limit by limit.
    PriceOutOfRange(u32),
    /// The first node of the time-expanded instance whose value is beyond 10^23 millionths.
    ValueBeyond(u32),
    /// A write failed.
    WriteFailed,
}

impl From<AllocError> for Refused {
    ghost use Rattle.std.specs.Prelude.{◌≡◌};
    ghost use Rattle.schedule_runs.specs.declared.refused.Refused.TheVariants.{NoMemory};

    ghost from_gives = { λ _ e. e ≡ NoMemory };

    fn from(_e: AllocError) -> Refused {
        Refused::NoMemory
    }
}

impl<T: Drop> From<AllocFailed<T>> for Refused {
    ghost use Rattle.std.specs.Prelude.{◌≡◌};
    ghost use Rattle.schedule_runs.specs.declared.refused.Refused.TheVariants.{NoMemory};

    ghost from_gives = { λ _ e. e ≡ NoMemory };

    fn from(_e: AllocFailed<T>) -> Refused {
        Refused::NoMemory
    }
}

//! Why there is no bound.
use std::alloc::{AllocError, AllocFailed};

/// Why no bound is found.
#[derive(Clone, Copy, Debug, PartialEq, Eq, Drop)]
pub enum BoundError {
    /// Memory ran out.
    NoMemory,
    /// There is not a price for each limit in each period.
    PriceCount,
    /// The price at this place is negative or above 10^9.
    PriceOutOfRange(u32),
    /// The value of this node of the time-expanded instance is beyond 10^23 millionths.
    ValueBeyond(u32),
}

impl From<AllocError> for BoundError {
    ghost use Rattle.std.specs.Prelude.{◌≡◌};
    ghost use Rattle.scheduling.specs.declared.bound_error.BoundError.TheVariants.{NoMemory};

    ghost from_gives = { λ _ e. e ≡ NoMemory };

    fn from(_e: AllocError) -> BoundError {
        BoundError::NoMemory
    }
}

impl<T: Drop> From<AllocFailed<T>> for BoundError {
    ghost use Rattle.std.specs.Prelude.{◌≡◌};
    ghost use Rattle.scheduling.specs.declared.bound_error.BoundError.TheVariants.{NoMemory};

    ghost from_gives = { λ _ e. e ≡ NoMemory };

    fn from(_e: AllocFailed<T>) -> BoundError {
        BoundError::NoMemory
    }
}

//! Why arrays encode no mine.

use faults::Refusal;
use std::alloc::{AllocError, AllocFailed};

/// A refusal, and the place of the array of needed blocks where it lies; 0 where none applies.
#[derive(Debug, Drop)]
pub struct ArrayError {
    pub refusal: Refusal,
    pub place: u32,
}

impl From<AllocError> for ArrayError {
    ghost use Rattle.std.specs.Prelude.{◌≡◌};
    ghost use Rattle.faults.specs.declared.refusal.Refusal.TheVariants.{NoMemory};

    ghost from_gives = { λ _ e. (e.refusal ≡ NoMemory) × (e.place ≡ 0) };

    fn from(_e: AllocError) -> ArrayError {
        ArrayError {
            refusal: Refusal::NoMemory,
            place: 0,
        }
    }
}

impl<T: Drop> From<AllocFailed<T>> for ArrayError {
    ghost use Rattle.std.specs.Prelude.{◌≡◌};
    ghost use Rattle.faults.specs.declared.refusal.Refusal.TheVariants.{NoMemory};

    ghost from_gives = { λ _ e. (e.refusal ≡ NoMemory) × (e.place ≡ 0) };

    fn from(_e: AllocFailed<T>) -> ArrayError {
        ArrayError {
            refusal: Refusal::NoMemory,
            place: 0,
        }
    }
}

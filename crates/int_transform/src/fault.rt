//! Why steps give points no images: a coordinate too large, or out of memory.

ghost use Rattle.std.specs.Prelude.{◌≡◌};

use std::alloc::AllocFailed;

/// Why points have no images.
#[derive(Clone, Copy, Debug, PartialEq, Eq)]
pub enum StepFault {
    /// A coordinate after some step is past 2^53 - 1 in size.
    TooLarge,
    NoMemory,
}

impl<T: Drop> From<AllocFailed<T>> for StepFault {
    ghost use Rattle.int_transform.specs.declared.fault.StepFault.TheVariants.{NoMemory};

    ghost from_gives = { λ _ fault. fault ≡ NoMemory };

    fn from(_refused: AllocFailed<T>) -> StepFault {
        StepFault::NoMemory
    }
}

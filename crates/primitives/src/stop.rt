//! Why arguments make no shape: a fault of theirs, or out of memory.

ghost use Rattle.std.specs.Prelude.{◌≡◌};

use int_transform::StepFault;
use std::alloc::{AllocError, AllocFailed};
use text_place::FaultKind;

/// Why arguments give no shape, or a shape no planes.
#[derive(Clone, Copy, Debug, PartialEq, Eq)]
pub enum ShapeStop {
    Kind(FaultKind),
    NoMemory,
}

impl From<StepFault> for ShapeStop {
    ghost use Rattle.primitives.specs.Stops.{shape_stop_of};

    ghost from_gives = { λ fault stop. stop ≡ shape_stop_of fault };

    fn from(fault: StepFault) -> ShapeStop {
        match fault {
            StepFault::TooLarge => ShapeStop::Kind(FaultKind::TooLarge),
            StepFault::NoMemory => ShapeStop::NoMemory,
        }
    }
}

impl<T: Drop> From<AllocFailed<T>> for ShapeStop {
    ghost use Rattle.primitives.specs.declared.stop.ShapeStop.TheVariants.{NoMemory};

    ghost from_gives = { λ _ stop. stop ≡ NoMemory };

    fn from(_refused: AllocFailed<T>) -> ShapeStop {
        ShapeStop::NoMemory
    }
}

impl From<AllocError> for ShapeStop {
    ghost use Rattle.primitives.specs.declared.stop.ShapeStop.TheVariants.{NoMemory};

    ghost from_gives = { λ _ stop. stop ≡ NoMemory };

    fn from(_refused: AllocError) -> ShapeStop {
        ShapeStop::NoMemory
    }
}

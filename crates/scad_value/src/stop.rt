//! Why an operator gives no value: a fault, or out of memory.

use std::alloc::{AllocError, AllocFailed};
use text_place::{FaultKind, NoMemory};

/// Why an operator gives no value.
#[derive(Clone, Copy)]
pub enum ValueStop {
    /// TypeMismatch, ZeroDivisor, NotWhole, TooLarge or LongList.
    Kind(FaultKind),
    NoMemory,
}

impl From<NoMemory> for ValueStop {
    ghost use Rattle.std.specs.Prelude.{◌≡◌};
    ghost use Rattle.scad_value.specs.declared.stop.ValueStop.TheVariants.{NoMemory};

    ghost from_gives = { λ _ stop. stop ≡ NoMemory };

    fn from(_refused: NoMemory) -> ValueStop {
        ValueStop::NoMemory
    }
}

impl From<AllocError> for ValueStop {
    ghost use Rattle.std.specs.Prelude.{◌≡◌};
    ghost use Rattle.scad_value.specs.declared.stop.ValueStop.TheVariants.{NoMemory};

    ghost from_gives = { λ _ stop. stop ≡ NoMemory };

    fn from(_refused: AllocError) -> ValueStop {
        ValueStop::NoMemory
    }
}

impl<T: Drop> From<AllocFailed<T>> for ValueStop {
    ghost use Rattle.std.specs.Prelude.{◌≡◌};
    ghost use Rattle.scad_value.specs.declared.stop.ValueStop.TheVariants.{NoMemory};

    ghost from_gives = { λ _ stop. stop ≡ NoMemory };

    fn from(_refused: AllocFailed<T>) -> ValueStop {
        ValueStop::NoMemory
    }
}

impl From<FaultKind> for ValueStop {
    ghost use Rattle.std.specs.Prelude.{◌≡◌};
    ghost use Rattle.scad_value.specs.declared.stop.ValueStop.TheVariants.{Kind};

    ghost from_gives = { λ kind stop. stop ≡ Kind kind };

    fn from(kind: FaultKind) -> ValueStop {
        ValueStop::Kind(kind)
    }
}

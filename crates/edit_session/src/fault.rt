//! Why a session refuses a command, and what a command that is accepted asks for.

ghost use Rattle.std.specs.Prelude.{◌≡◌};

use plain_text::NoMemory;
use std::alloc::{AllocError, AllocFailed};

/// Why a session refuses a command.
#[derive(Clone, Copy, PartialEq, Eq)]
pub enum SessionFault {
    /// A line number past the lines.
    NoSuchLine,
    /// 4,096 lines.
    TooManyLines,
    /// 16 shows were answered with a text.
    TooManyShows,
    /// 16 exports were answered.
    TooManyExports,
    /// A line that is no command.
    BadCommand,
    /// Memory ran out.
    NoMemory,
}

/// What a command that is not refused asks.
#[derive(Clone, Copy, PartialEq, Eq)]
pub enum Asked {
    /// A done edit: the number of lines afterwards.
    Lines(u32),
    /// The lines are to be shown.
    Show,
    /// The source is to be exported.
    Export,
}

impl From<AllocError> for SessionFault {
    ghost use Rattle.edit_session.specs.declared.fault.SessionFault.TheVariants.{NoMemory};

    ghost from_gives = { λ _ fault. fault ≡ NoMemory };

    fn from(_refused: AllocError) -> SessionFault {
        SessionFault::NoMemory
    }
}

impl<T: Drop> From<AllocFailed<T>> for SessionFault {
    ghost use Rattle.edit_session.specs.declared.fault.SessionFault.TheVariants.{NoMemory};

    ghost from_gives = { λ _ fault. fault ≡ NoMemory };

    fn from(_refused: AllocFailed<T>) -> SessionFault {
        SessionFault::NoMemory
    }
}

impl From<NoMemory> for SessionFault {
    ghost use Rattle.edit_session.specs.declared.fault.SessionFault.TheVariants as faults;

    ghost from_gives = { λ _ fault. fault ≡ faults.NoMemory };

    fn from(_refused: NoMemory) -> SessionFault {
        SessionFault::NoMemory
    }
}

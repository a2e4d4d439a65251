//! Why a case has no answer.

use plain_text::NoMemory;
use std::alloc::{AllocError, AllocFailed};

#[derive(Clone, Copy, PartialEq, Eq)]
pub enum CaseStop {
    /// It is in no form that the program reads.
    Unread,
    /// Memory ran out.
    NoMemory,
}

impl From<AllocError> for CaseStop {
    fn from(_refused: AllocError) -> CaseStop {
        CaseStop::NoMemory
    }
}

impl<T: Drop> From<AllocFailed<T>> for CaseStop {
    fn from(_refused: AllocFailed<T>) -> CaseStop {
        CaseStop::NoMemory
    }
}

impl From<NoMemory> for CaseStop {
    fn from(_refused: NoMemory) -> CaseStop {
        CaseStop::NoMemory
    }
}

// Why a call has no answer.
use maple_base::NoMemory;
use std::alloc::{AllocError, AllocFailed};
use std::num::TryFromIntError;

/// Why a call has no answer.
#[derive(Clone, Copy, Debug, PartialEq, Eq)]
pub enum CaseStop {
    /// A word of the call is none that is wanted there.
    Unread,
    /// Memory ran out.
    NoMemory,
}

impl From<AllocError> for CaseStop {
    fn from(_error: AllocError) -> CaseStop {
        CaseStop::NoMemory
    }
}

impl From<NoMemory> for CaseStop {
    fn from(_error: NoMemory) -> CaseStop {
        CaseStop::NoMemory
    }
}

impl From<TryFromIntError> for CaseStop {
    fn from(_error: TryFromIntError) -> CaseStop {
        CaseStop::Unread
    }
}

impl<T: Drop> From<AllocFailed<T>> for CaseStop {
    fn from(_error: AllocFailed<T>) -> CaseStop {
        CaseStop::NoMemory
    }
}

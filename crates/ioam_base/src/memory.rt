//! The one refusal for want of memory.
use std::alloc::{AllocError, AllocFailed};

/// No memory could be had. Whoever answers it has left what was lent as it was, unless its own
/// documentation says otherwise.
#[derive(Clone, Copy, Debug, PartialEq, Eq)]
pub struct NoMemory;

impl From<AllocError> for NoMemory {
    fn from(_error: AllocError) -> NoMemory {
        NoMemory
    }
}

impl<T: Drop> From<AllocFailed<T>> for NoMemory {
    fn from(_error: AllocFailed<T>) -> NoMemory {
        NoMemory
    }
}

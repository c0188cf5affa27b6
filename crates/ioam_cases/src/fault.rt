//! Why a case isn't played to its end.
use ioam_base::memory::NoMemory;
use std::alloc::{AllocError, AllocFailed};

/// What is wrong with a line of a case file, or that there is no memory.
#[derive(Clone, Copy)]
pub(crate) enum Fault {
    Line(&'static str),
    NoMemory,
}

impl From<NoMemory> for Fault {
    fn from(_error: NoMemory) -> Fault {
        Fault::NoMemory
    }
}

impl From<AllocError> for Fault {
    fn from(_error: AllocError) -> Fault {
        Fault::NoMemory
    }
}

impl<T: Drop> From<AllocFailed<T>> for Fault {
    fn from(_error: AllocFailed<T>) -> Fault {
        Fault::NoMemory
    }
}

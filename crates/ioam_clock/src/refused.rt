//! Why a line wasn't read.
use crate::fault::ReadWhy;

// Why a line wasn't read.
#[derive(Clone, Copy)]
pub(crate) enum Refused {
    Because(ReadWhy),
    NoMemory,
}

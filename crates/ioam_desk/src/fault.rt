//! Why a call on a desk failed.
use ioam_base::memory::NoMemory;
use thiserror::Error;

/// Why a call of a desk gave no answer.
#[derive(Clone, Copy, Debug, PartialEq, Eq, Error)]
pub enum DeskFault {
    /// The outside failed, or the name is missing. The desk's count of such faults rose.
    #[error("the outside failed")]
    Failed,
    /// No memory could be had. The desk is as it was.
    #[error("no memory")]
    NoMemory,
}

impl From<NoMemory> for DeskFault {
    ghost use Rattle.std.specs.Prelude.{◌≡◌};
    ghost use Rattle.ioam_desk.specs.declared.fault.DeskFault.TheVariants as fault;

    ghost from_gives = { λ _ made. made ≡ fault.NoMemory };

    fn from(_error: NoMemory) -> DeskFault {
        DeskFault::NoMemory
    }
}

/// Why a file could not be read whole.
#[derive(Clone, Copy, Debug, PartialEq, Eq, Error)]
pub enum WholeFault {
    /// An opening or a read failed.
    #[error("the outside failed")]
    Failed,
    /// The file holds more than `limit` octets.
    #[error("more than {limit} octets")]
    TooLong { limit: usize },
    /// No memory could be had.
    #[error("no memory")]
    NoMemory,
}

/// Why octets could not all be written: exactly the first `written` of them were.
#[derive(Clone, Copy, Debug, PartialEq, Eq, Error)]
pub enum WriteAll {
    /// A write failed.
    #[error("the outside failed after {written} octets")]
    Failed { written: usize },
    /// No memory could be had.
    #[error("no memory after {written} octets")]
    NoMemory { written: usize },
}

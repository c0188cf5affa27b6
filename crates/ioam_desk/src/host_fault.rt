//! Why a call on a real file failed.
use std::{fmt, io};
use thiserror::Error;

/// Why a call on a real file failed.
#[derive(Clone, Copy, Debug, Error)]
pub enum Reason {
    /// What the system said.
    #[error("{0}")]
    System(#[from] io::Error),
    /// The name is to be written, and the file is open to be read.
    #[error("is an input of this run")]
    IsInput,
    /// The name is to be written, and the file is open to be written.
    #[error("is an output of this run already")]
    IsOutput,
    /// A write took nothing.
    #[error("takes no more octets")]
    TakesNone,
}

/// A call on a real file that failed: the file's name as it was given, and why. It is printed as
/// `NAME: REASON`.
#[derive(Clone, Copy, Debug)]
pub struct Fault<'a> {
    pub name: &'a str,
    pub reason: Reason,
}

impl fmt::Display for Fault<'_> {
    fn fmt<W: fmt::Write>(&self, f: &mut fmt::Formatter<W>) -> fmt::Result {
        write!(f, "{}: {}", self.name, self.reason)
    }
}

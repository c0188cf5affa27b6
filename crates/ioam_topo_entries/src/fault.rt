//! What is wrong in a domain file.
use crate::words::{Field, Table};
use ioam_topo_values::Why;

/// Why a domain file is refused, with the place.
#[derive(Debug, Drop)]
pub struct DomainFault {
    /// The table.
    pub table: Table,
    /// The entry, counted from 1; 0 for the table as a whole and for the top table.
    pub place: u32,
    /// The key.
    pub field: Field,
    /// What is wrong there.
    pub why: Why,
}

/// Why no domain was read.
#[derive(Debug, Drop)]
pub enum DomainRefused {
    /// The file has faults, and this is the first.
    Fault(DomainFault),
    /// No memory could be had.
    NoMemory,
}

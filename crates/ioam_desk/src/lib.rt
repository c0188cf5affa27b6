//! The outside: files that are read to their end and files that are written, as a trait, with a
//! desk in memory, one that never fails, and the one over real files.
#![tactic(auto)]

mod calls;
mod desk;
mod fault;
mod file_system;
mod host_desk;
mod host_fault;
mod host_side;
mod intake;
mod memory_desk;
mod piece;
mod room;
mod store;
mod sure_desk;
mod whole;

pub use desk::Desk;
pub use fault::{DeskFault, WholeFault, WriteAll};
pub use file_system::{FileSystem, Identity, MachineFiles};
pub use host_desk::HostDesk;
pub use host_fault::{Fault, Reason};
pub use intake::{Intake, read_into};
pub use memory_desk::MemoryDesk;
pub use piece::new_piece;
pub use sure_desk::SureDesk;
pub use whole::{read_whole, write_all};
// How many octets a read asks for.
pub use ioam_base::fed::PIECE;

//! IOAM direct export data (RFC 9326 section 3), and the records that nodes export.
#![tactic(auto)]

mod direct;
mod export;
mod exporting;
pub mod extension;
pub mod fields;
mod head;
mod layout;
mod numbers;
mod putting;
mod reader;
mod reading;
mod record_ref;
mod records;
mod room;
mod step;
mod visit;

pub use direct::{Direct, DirectFault};
pub use export::{Export, ExportFault};
pub use exporting::{export_of, put_export};
pub use layout::{MOST_RECORD, MOST_RECORDS, element_in};
pub use numbers::{has_flow, has_seq, u32_where};
pub use putting::put;
pub use reader::{ExportReader, Shown, Step};
pub use reading::read;
pub use record_ref::RecordRef;
pub use records::Records;
pub use room::ExportRoom;
pub use step::is_filled;
pub use visit::{visit_at, visit_octets, visit_where};

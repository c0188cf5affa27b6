//! Classic capture files (pcap, version 2.4): their head and their records, read in any pieces and
//! written; the packets and the faults of captures in either form; and the choice of the next packet
//! among several captures.
#![tactic(auto)]

mod capture;
mod entry;
mod form;
mod head;
mod numbers;
mod picking;
mod put;
mod reader;

pub use capture::{CapFault, CapLook, CapStep, MOST_PACKET, Packet};
pub use form::{ETHERNET, Order, RAW, link_type};
pub use ioam_ip::Layer as Link;
pub use numbers::number_at;
pub use picking::pick;
pub use put::{put_head, put_record};
pub use reader::CaptureReader;

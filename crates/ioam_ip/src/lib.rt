//! IPv6 packets, header chains and the options of their options headers (RFC 8200 sections 3 and 4).
#![tactic(auto)]

mod answer;
mod chain;
mod checks;
mod codec;
mod extents;
mod finds;
mod frame;
mod headers;
mod items;
mod layer;
mod layout;
mod next;
pub mod next_header;
pub mod option_type;
mod packet;
mod scan;
mod steps;
mod walks;

pub use answer::Walk;
pub use chain::Head;
pub use checks::{check_options, options};
pub use codec::{class_of, header, put_header};
pub use finds::{heads, hop_header, target_header};
pub use frame::{Framed, packet_in_layer, packet_of};
pub use headers::Heads;
pub use items::{Opt, Options};
pub use layer::Layer;
pub use layout::{Layout, LayoutFault, MOST_OCTETS, gap_before, padded, size_with};
pub use next::{OptionSpot, next_option};
pub use packet::{HEADER_OCTETS, HOP_LIMIT, Header, NEXT_HEADER};
pub use walks::walk;

//! IOAM trace types and the elements that nodes record (RFC 9197 section 4.4).
#![tactic(auto)]

pub mod bit;
mod buffer;
mod cursor;
mod exported;
mod held;
mod kind;
mod namespace;
pub mod option_type;
mod reading;
mod recording;
mod size;
mod units;
mod view;
mod writer;

pub use buffer::ElementBuf;
pub use cursor::Cursor;
pub use exported::{MOST_EXPORTED, put_exported};
pub use held::Fields;
pub use kind::TraceType;
pub use namespace::Namespace;
pub use option_type::OptionType;
pub use reading::fields;
pub use recording::element;
pub use size::split;
pub use view::View;
pub use writer::{element_words, narrow_face, narrow_id, put_element};

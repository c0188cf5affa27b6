//! Parts: what a collector holds, as a file that is written, read in pieces, and joined with others.
#![tactic(auto)]

mod ahead;
mod fault;
mod head;
mod laws;
mod progress;
mod putting;
mod reader;
mod reading;
mod records;
mod taking;

pub use fault::PartFault;
pub use head::{HEAD_SIZE, head_of};
pub use laws::{
    items_tell_their_records, joined_parts_are_of_all, joining_parts_is_a_union,
    parts_have_one_spelling,
};
pub use putting::put_part;
pub use reader::{PartReader, PartRefused};
pub use reading::read_part;
pub use records::PartRecords;

//! How far the reading of a part has come.
use crate::fault::PartFault;
use ioam_collect::{Collector, Ranking};

/// How far the reading of a part has come.
#[derive(Drop)]
pub(crate) struct Progress {
    /// The last record that was taken.
    pub(crate) order: Ranking,
    /// What was taken.
    pub(crate) collector: Collector,
    /// How many records were taken.
    pub(crate) given: u32,
    /// The place behind the last of these, from the end of the head on.
    pub(crate) end: u64,
    /// One of them was more than the collector may hold; it takes no more then.
    pub(crate) full: bool,
    /// The fault that was found, and its place.
    pub(crate) fault: Option<(u64, PartFault)>,
}

//! What the octets of a record show of it.
ghost use Rattle.std.specs.Prelude.{◌^◌, ◌<◌};

use crate::export::ExportFault;
use ioam_data::Namespace;

/// What the first octets of a record show of its size.
#[derive(Clone, Copy)]
pub(crate) enum Sizing {
    Sized { front: usize, size: usize },
    Cut,
    Bad(ExportFault),
}

/// What stands in front of an element, and the sizes of this front and of the whole record.
#[derive(Clone, Copy)]
pub(crate) struct RecordHead {
    pub namespace: Namespace,
    pub flags: u8,
    pub ext: u8,
    pub kind: u32,
    pub visit: Option<(u64, u32)>,
    pub flow: Option<u32>,
    pub seq: Option<u32>,
    pub front: usize,
    pub size: usize,
    pub ghost kind_below: { kind < 2 ^ 24 },
}

/// What octets where a record is due show of it.
#[derive(Clone, Copy)]
pub(crate) enum RecordStep {
    Whole(RecordHead),
    Cut,
    Bad(ExportFault),
}

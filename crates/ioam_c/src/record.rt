//! Export records.
ghost use Rattle.std.specs.Prelude.{◌≡◌, ◌<◌, ◌^◌};
ghost use Rattle.ioam_dex.specs.Record.{record_of};
ghost use Rattle.ioam_c.specs.Part.{first, flag, second};
ghost use Rattle.ioam_c.specs.Record.{ReadsRecord, record_in};

use crate::part::{flag, number};
use crate::status::{OK, RECORD};
use ioam_dex::{Export, export_of};

/// An export record. Its numbers that need not be there have a flag that is 1 if they are; if the flag is 0 they are 0.
#[repr(C)]
#[derive(Clone, Copy, Debug)]
pub struct IoamRecord {
    /// The offset of the element, which ends the record.
    pub element: usize,
    /// The octets of the element: one of the type, NodeLen being the words of the type's fields.
    pub element_length: usize,
    /// The time at the node, in nanoseconds, of a record of version 2.
    pub time: u64,
    /// The interface by which the packet came, of a record of version 2.
    pub ingress: u32,
    /// IOAM-Trace-Type of the element, 24 bits.
    pub kind: u32,
    /// Flow ID, extension flag 0x80.
    pub flow: u32,
    /// Sequence Number, extension flag 0x40.
    pub seq: u32,
    /// Namespace-ID.
    pub namespace: u16,
    /// Flags of the option.
    pub flags: u8,
    /// Extension-Flags of the option.
    pub extensions: u8,
    pub has_visit: u8,
    pub has_flow: u8,
    pub has_seq: u8,
}

/// Reads an export record. `OK`: the octets are one record, whole and with nothing after it, and `record` is what it says. `RECORD`: they
/// are none, and `record` stays.
#[unsafe(no_mangle)]
pub extern "C" fn ioam_record_read(octets: &[u8], into: &mut IoamRecord) -> u32
    ensures { ReadsRecord octets.now into.old into.new result }
{
    match export_of(octets) {
        Some(export) => {
            *into = record_in(octets.len(), &export);
            OK
        }
        None => RECORD,
    }
}

// The time and the interface of a visit, or zeros, and whether it is there.
fn visit(field: Option<(u64, u32)>) -> (u8, u64, u32)
    ensures there { result.0 ≡ flag field }
    ensures time { result.1 ≡ first field }
    ensures ingress { result.2 ≡ second field }
{
    match field {
        Some((time, ingress)) => (1, time, ingress),
        None => (0, 0, 0),
    }
}

// The contents of a record of `size` octets as C sees them.
fn record_in(size: usize, export: &Export<'_>) -> IoamRecord
    ensures { result ≡ record_in size (record_of export.now) }
{
    let (has_visit, time, ingress) = visit(export.visit);
    let element_length = export.element.len();
    IoamRecord {
        element: size.saturating_sub(element_length),
        element_length,
        time,
        ingress,
        kind: export.kind,
        flow: number(export.flow),
        seq: number(export.seq),
        namespace: export.namespace.0,
        flags: export.flags,
        extensions: export.ext,
        has_visit,
        has_flow: flag(export.flow),
        has_seq: flag(export.seq),
    }
}

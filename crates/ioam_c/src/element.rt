//! An element of a trace, field by field.
ghost use Rattle.std.specs.Prelude.{◌≡◌, ◌+◌, ◌<◌, ◌^◌, length};
ghost use Rattle.ioam_data.specs.Elements.{IsElement};
ghost use Rattle.ioam_data.specs.View.{snapshot_data};
ghost use Rattle.ioam_c.specs.Part.{first, flag, second};
ghost use Rattle.ioam_data.specs.Fields.{held};
ghost use Rattle.ioam_c.specs.Element.{opaque_of, schema_of, shown, shown_by};

use crate::part::{flag, number, wide_flag, wide_number};
use ioam_data::{Fields, fields};
use ioam_trace::TraceHead;

/// An element: what a node recorded (RFC 9197 section 4.4.2). Each field has a flag that is 1 if the trace type has the field's bit; if
/// the flag is 0 the field is 0. A field whose bits are all 1 was not known to the node. Offsets count octets of the trace.
#[repr(C)]
#[derive(Clone, Copy, Debug)]
pub struct IoamElement {
    /// The offset of the element's first octet.
    pub offset: usize,
    /// The element's octets.
    pub length: usize,
    /// The offset of the words after the fields up to NodeLen, which undefined bits ask for.
    pub fill: usize,
    /// The octets of these words.
    pub fill_length: usize,
    /// The offset of the opaque data of the snapshot.
    pub opaque: usize,
    /// The octets of the opaque data.
    pub opaque_length: usize,
    /// Bit 8: the node id, 56 bits.
    pub wide_node_id: u64,
    /// Bit 10: namespace data, 64 bits.
    pub wide_data: u64,
    /// Bit 0: the node id, 24 bits.
    pub node_id: u32,
    /// Bit 2: the seconds of the timestamp.
    pub seconds: u32,
    /// Bit 3: the fraction of the timestamp.
    pub fraction: u32,
    /// Bit 4: the transit delay in nanoseconds.
    pub delay: u32,
    /// Bit 5: namespace data, 32 bits.
    pub short_data: u32,
    /// Bit 6: the queue depth.
    pub queue: u32,
    /// Bit 7: the checksum complement.
    pub checksum: u32,
    /// Bit 9: the ingress interface, 32 bits.
    pub wide_ingress: u32,
    /// Bit 9: the egress interface, 32 bits.
    pub wide_egress: u32,
    /// Bit 11: the buffer occupancy.
    pub buffer: u32,
    /// Bit 22: the schema of the snapshot, 24 bits.
    pub schema: u32,
    /// Bit 1: the ingress interface, 16 bits.
    pub ingress: u16,
    /// Bit 1: the egress interface, 16 bits.
    pub egress: u16,
    /// Bit 0: the hop limit.
    pub hop_limit: u8,
    /// Bit 8: the hop limit.
    pub wide_hop_limit: u8,
    pub has_hop_node: u8,
    pub has_interfaces: u8,
    pub has_seconds: u8,
    pub has_fraction: u8,
    pub has_delay: u8,
    pub has_short_data: u8,
    pub has_queue: u8,
    pub has_checksum: u8,
    pub has_wide_hop_node: u8,
    pub has_wide_interfaces: u8,
    pub has_wide_data: u8,
    pub has_buffer: u8,
    pub has_snapshot: u8,
}

// A hop limit and a node id of 24 bits, or zeros, and whether they are there.
fn hop_node(field: Option<(u8, u32)>) -> (u8, u8, u32)
    ensures there { result.0 ≡ flag field }
    ensures hop_limit { result.1 ≡ first field }
    ensures id { result.2 ≡ second field }
{
    match field {
        Some((hop_limit, id)) => (1, hop_limit, id),
        None => (0, 0, 0),
    }
}

// A hop limit and a node id of 56 bits, likewise.
fn wide_hop_node(field: Option<(u8, u64)>) -> (u8, u8, u64)
    ensures there { result.0 ≡ flag field }
    ensures hop_limit { result.1 ≡ first field }
    ensures id { result.2 ≡ second field }
{
    match field {
        Some((hop_limit, id)) => (1, hop_limit, id),
        None => (0, 0, 0),
    }
}

// Two interfaces of 16 bits, likewise.
fn interfaces(field: Option<(u16, u16)>) -> (u8, u16, u16)
    ensures there { result.0 ≡ flag field }
    ensures ingress { result.1 ≡ first field }
    ensures egress { result.2 ≡ second field }
{
    match field {
        Some((ingress, egress)) => (1, ingress, egress),
        None => (0, 0, 0),
    }
}

// Two interfaces of 32 bits, likewise.
fn wide_interfaces(field: Option<(u32, u32)>) -> (u8, u32, u32)
    ensures there { result.0 ≡ flag field }
    ensures ingress { result.1 ≡ first field }
    ensures egress { result.2 ≡ second field }
{
    match field {
        Some((ingress, egress)) => (1, ingress, egress),
        None => (0, 0, 0),
    }
}

// The schema of a snapshot and the octets of its data, or zeros, and whether it is there.
fn snapshot(field: Option<(u32, &[u8])>) -> (u8, u32, usize)
    ensures there { result.0 ≡ flag (snapshot_data field.entry) }
    ensures schema { result.1 ≡ schema_of (snapshot_data field.entry) }
    ensures size { result.2 ≡ length (opaque_of (snapshot_data field.entry)) }
{
    match field {
        Some((schema, opaque)) => (1, schema, opaque.len()),
        None => (0, 0, 0),
    }
}

// The element at an offset of its trace, field by field.
pub(crate) fn shown(head: &TraceHead, offset: usize, octets: &[u8]) -> IoamElement
    requires whole { IsElement head.now.kind head.now.node_len octets.now }
    requires short { offset + length octets.now < 2 ^ 63 }
    ensures { result ≡ shown head.now.kind head.now.node_len offset octets.now }
{
    let fields = fields(head.kind, head.node_len, octets);
    shown_fields(head.node_len, offset, octets.len(), &fields)
}

// The same by its fields.
fn shown_fields(node_len: u8, offset: usize, size: usize, fields: &Fields<'_>) -> IoamElement
    requires { offset + size < 2 ^ 63 }
    ensures { result ≡ shown_by node_len offset size (held fields.now) }
{
    let (has_hop_node, hop_limit, node_id) = hop_node(fields.hop_node);
    let (has_interfaces, ingress, egress) = interfaces(fields.faces);
    let (has_wide_hop_node, wide_hop_limit, wide_node_id) = wide_hop_node(fields.wide_hop_node);
    let (has_wide_interfaces, wide_ingress, wide_egress) = wide_interfaces(fields.wide_faces);
    let (has_snapshot, schema, opaque_length) = snapshot(fields.snapshot);
    let fill_length = fields.fill.len();
    IoamElement {
        offset,
        length: size,
        fill: offset + (4 * usize::from(node_len)).saturating_sub(fill_length),
        fill_length,
        opaque: offset + size.saturating_sub(opaque_length),
        opaque_length,
        wide_node_id,
        wide_data: wide_number(fields.wide),
        node_id,
        seconds: number(fields.seconds),
        fraction: number(fields.fraction),
        delay: number(fields.delay),
        short_data: number(fields.short),
        queue: number(fields.queue),
        checksum: number(fields.check),
        wide_ingress,
        wide_egress,
        buffer: number(fields.buffer),
        schema,
        ingress,
        egress,
        hop_limit,
        wide_hop_limit,
        has_hop_node,
        has_interfaces,
        has_seconds: flag(fields.seconds),
        has_fraction: flag(fields.fraction),
        has_delay: flag(fields.delay),
        has_short_data: flag(fields.short),
        has_queue: flag(fields.queue),
        has_checksum: flag(fields.check),
        has_wide_hop_node,
        has_wide_interfaces,
        has_wide_data: wide_flag(fields.wide),
        has_buffer: flag(fields.buffer),
        has_snapshot,
    }
}

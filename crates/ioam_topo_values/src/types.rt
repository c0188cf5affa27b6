//! Values that are types of options.
ghost use Rattle.std.specs.Prelude.{◌≡◌};
ghost use Rattle.toml.specs.Data.{get_member};
ghost use Rattle.toml.specs.View.{view, table_view};
ghost use Rattle.ioam_topo_values.specs.Reads.{maybe};
ghost use Rattle.ioam_topo_values.specs.Types.{trace_type, direct_type, edge_type};
ghost use Rattle.ioam_topo.specs.Types.{is_direct_type, is_edge_type};

use crate::finding::find;
use crate::numbers::number_of;
use crate::why::Why;
use ioam_data::{TraceType, bit};
use toml::{Table, Value};

// The greatest number of 24 bits.
const MOST_TYPE: u64 = (1 << 24) - 1;

// A value that is to be a type that entry nodes write.
fn trace_type_of(value: &Value) -> Result<TraceType, Why>
    ensures { result ≡ trace_type (view value.now) }
{
    let kind = TraceType::new(number_of(0, MOST_TYPE, value)? as u32);
    if kind.is_entry_type() {
        Ok(kind)
    } else {
        Err(Why::Range)
    }
}

// Whether direct exports may ask for a type.
fn is_direct_type(kind: TraceType) -> bool
    ensures { result ≡ is_direct_type kind }
{
    kind.is_entry_type()
        && !kind.has(bit::CHECKSUM)
        && (kind.has(bit::HOP_NODE) || kind.has(bit::WIDE_HOP_NODE))
}

// A value that is to be a type of direct exports.
fn direct_type_of(value: &Value) -> Result<TraceType, Why>
    ensures { result ≡ direct_type (view value.now) }
{
    let kind = TraceType::new(number_of(0, MOST_TYPE, value)? as u32);
    if is_direct_type(kind) {
        Ok(kind)
    } else {
        Err(Why::Range)
    }
}

// Whether an edge-to-edge option may have a type.
fn is_edge_type(kind: u16) -> bool
    ensures { result ≡ is_edge_type kind }
{
    kind % 0x1000 == 0 && kind / 0x4000 != 3
}

// A value that is to be a type of an edge-to-edge option.
fn edge_type_of(value: &Value) -> Result<u16, Why>
    ensures { result ≡ edge_type (view value.now) }
{
    match number_of(1, 65535, value) {
        Ok(bits) if is_edge_type(bits as u16) => Ok(bits as u16),
        Ok(_) => Err(Why::Range),
        Err(why) => Err(why),
    }
}

/// The IOAM-Trace-Type at a key that may be absent, a number below 2^24 of which bit 0 is the most
/// significant: only bits 0 to 11 and 22, and one of them at least (RFC 9197 section 4.4.1). Kind
/// where it is no whole number, else Range.
pub fn maybe_trace_type(entry: &Table, key: &str) -> Result<Option<TraceType>, Why>
    ensures { result ≡ maybe trace_type (get_member key.now (table_view entry.now)) }
{
    match find(entry, key) {
        Some(value) => Ok(Some(trace_type_of(value)?)),
        None => Ok(None),
    }
}

/// The IOAM-Trace-Type of direct exports at a key that may be absent: only bits 0 to 6, 8 to 11
/// and 22, with bit 0 or bit 8, the hop limits by which exports are put in order (RFC 9326 section
/// 3.2). Kind where it is no whole number, else Range.
pub fn maybe_direct_type(entry: &Table, key: &str) -> Result<Option<TraceType>, Why>
    ensures { result ≡ maybe direct_type (get_member key.now (table_view entry.now)) }
{
    match find(entry, key) {
        Some(value) => Ok(Some(direct_type_of(value)?)),
        None => Ok(None),
    }
}

/// The IOAM-E2E-Type at a key that may be absent: not 0, only the bits 0x8000, 0x4000, 0x2000 and
/// 0x1000, and not both of the first two, the sequence numbers of 64 and of 32 bits (RFC 9197
/// section 4.6). Kind where it is no whole number, else Range.
pub fn maybe_edge_type(entry: &Table, key: &str) -> Result<Option<u16>, Why>
    ensures { result ≡ maybe edge_type (get_member key.now (table_view entry.now)) }
{
    match find(entry, key) {
        Some(value) => Ok(Some(edge_type_of(value)?)),
        None => Ok(None),
    }
}

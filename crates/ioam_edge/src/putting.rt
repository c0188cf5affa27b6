//! Edge-to-edge data as octets.
ghost use Rattle.std.specs.Prelude.{◌≡◌, ◌+◌, ◌%◌, ◌++◌, OnOk, is_ok, length, if◌then◌else◌};
ghost use Rattle.ioam_edge.specs.Edge.{HasItsFields, edge_octets, fields_size};

use crate::edge::Edge;
use ioam_base::buffer::Buffer;
use ioam_base::memory::NoMemory;
use ioam_base::text::append;

/// Appends the octets behind the IOAM-Option-Type of an edge-to-edge option. Each field is there
/// exactly where the type asks for it, and the type asks for no other. Without memory `out` is as
/// before.
pub fn put(edge: &Edge, out: &mut Vec<u8>) -> Result<(), NoMemory>
    requires fields { HasItsFields edge.now }
    requires known { edge.now.kind % 4096 ≡ 0 }
    ensures octets { out.new.items ≡ (if is_ok result then out.old.items ++ edge_octets edge.now else out.old.items) }
    // Four octets, and those of the fields that the type asks for.
    ensures size { OnOk result (length out.new.items ≡ length out.old.items + (4 + fields_size edge.now.kind)) }
{
    let mut buffer = Buffer::new();
    buffer.two(edge.namespace.0);
    buffer.two(edge.kind);
    buffer.eight_if(edge.seq64);
    buffer.four_if(edge.seq32);
    buffer.four_if(edge.seconds);
    buffer.four_if(edge.fraction);
    append(out, buffer.octets())
}

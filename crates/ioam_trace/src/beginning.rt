//! A trace as its entry node begins it.
ghost use Rattle.std.specs.Prelude.{◌≡◌, ℕ, ◌+◌, ◌*◌, ◌<◌, ◌≤◌, [], ◌++◌, length, true, replicate, OnOk, OnErr, is_ok, if◌then◌else◌};
ghost use Rattle.ioam_data.specs.Kind.{is_entry_type};
ghost use Rattle.ioam_trace.specs.Data.{head_octets, trace_data};

use crate::head::{HEAD_OCTETS, TraceHead};
use ioam_base::memory::NoMemory;
use ioam_base::octets::put_at;
use ioam_base::text::append;
use ioam_data::{Namespace, TraceType};

// Appends a header and so many words of zero, or nothing.
fn put_empty(head: &TraceHead, words: u8, out: &mut Vec<u8>) -> Result<(), NoMemory>
    requires { words ≤ 61 }
    ensures { out.new.items ≡ (if is_ok result
        then out.old.items ++ (head_octets head.now ++ replicate (4 * words) 0)
        else out.old.items) }
{
    // a header and 61 words, the most that a capacity may be
    let mut octets = [0; 252];
    put_at(&mut octets, 0, head.in_octets().octets());
    append(out, &octets[..HEAD_OCTETS + 4 * usize::from(words)])
}

/// Appends the octets of an empty pre-allocated trace, those behind the IOAM-Option-Type: a header
/// with NodeLen of the type, and `capacity` free words of zero. The type has only bits 0 to 11 and
/// 22, and one of them at least. Without memory nothing is appended.
pub fn put_trace(
    namespace: Namespace,
    kind: TraceType,
    capacity: u8,
    out: &mut Vec<u8>,
) -> Result<(), NoMemory>
    requires entry { is_entry_type kind ≡ true }
    requires some { 1 ≤ capacity }
    requires below { capacity ≤ 61 }
    ensures ok { OnOk result (out.new.items ≡ out.old.items ++ trace_data namespace.0 kind capacity []) }
    ensures err { OnErr result (out.new.items ≡ out.old.items) }
    // A header of 8 octets, and 4 for each free word.
    ensures size { OnOk result (length out.new.items ≡ length out.old.items + (8 + 4 * capacity)) }
{
    let head = TraceHead {
        namespace,
        node_len: kind.words(),
        flags: 0,
        remaining: capacity,
        kind,
        reserved: 0,
    };
    put_empty(&head, capacity, out)
}

//! Where elements stand among the used words of a trace.
ghost use Rattle.std.specs.Prelude.{◌≡◌, ℕ, ◌+◌, ◌*◌, ◌<◌, ◌≤◌, length, MatchOption};
ghost use Rattle.ioam_data.specs.Elements.{size_at, Stands};
ghost use Rattle.ioam_trace.specs.Area.{Stops};

use ioam_data::{TraceType, split};

// The size of the element at a place, if one begins there.
pub(crate) fn size_at(kind: TraceType, node_len: u8, used: &[u8], at: usize) -> Option<usize>
    requires { at ≤ length used.now }
    ensures { MatchOption result (¬ Stands kind node_len used.now at)
        (λ size. Stands kind node_len used.now at × (size ≡ size_at kind node_len used.now at)) }
{
    split(kind, node_len, &used[at..])
}

// The place at which no further element begins.
pub(crate) fn end_of(kind: TraceType, node_len: u8, used: &[u8]) -> usize
    ensures stops { Stops kind node_len used.now result }
    ensures inside { result ≤ length used.now }
{
    let mut at = 0;
    'elements: while let Some(size) = size_at(kind, node_len, used, at) {
        at += size;
    }
    at
}

//! The elements of a trace, one after the other.
ghost use Rattle.std.specs.Prelude.{◌≡◌, false};
ghost use Rattle.ioam_data.specs.Kind.{has};
ghost use Rattle.ioam_trace.specs.Area.{EndsWith};

use crate::area::size_at;
use ioam_data::TraceType;

/// The elements of a trace in visit order, the oldest first, each as its octets. It takes no memory: sizes
/// of elements with a snapshot are known only from the front, so each turn looks for the last that is left.
#[derive(Clone, Copy, Debug)]
pub struct Elements<'a> {
    kind: TraceType,
    node_len: u8,
    used: &'a [u8],
}

impl<'a> Elements<'a> {
    ghost use Rattle.std.specs.Prelude.{◌≡◌, All};
    ghost use Rattle.ioam_data.specs.Elements.{IsElement};
    ghost use Rattle.ioam_trace.specs.Left.{left};
    ghost use Rattle.ioam_trace.specs.Area.{elements_of};

    pub(crate) fn new(kind: TraceType, node_len: u8, used: &'a [u8]) -> Elements<'a>
        ensures value { left result ≡ elements_of kind node_len used.now }
        ensures whole { All (IsElement kind node_len) (left result) }
    {
        Elements {
            kind,
            node_len,
            used,
        }
    }
}

// The place and the size of the last of the elements that stand from the start on, where each may have
// another size.
fn last_by_walk(kind: TraceType, node_len: u8, used: &[u8]) -> Option<(usize, usize)>
    ensures { EndsWith kind node_len used.now result }
{
    let mut last = None;
    let mut at = 0;
    'elements: while let Some(size) = size_at(kind, node_len, used, at) {
        last = Some((at, size));
        at += size;
    }
    last
}

// The same where none has a snapshot: all have one size.
fn last_of_equal(kind: TraceType, node_len: u8, used: &[u8]) -> Option<(usize, usize)>
    requires { has kind 22 ≡ false }
    ensures { EndsWith kind node_len used.now result }
{
    let size = 4 * usize::from(node_len);
    if kind.words() > node_len || size == 0 || used.len() < size {
        return None;
    }
    Some((used.len() - used.len() % size - size, size))
}

// The place and the size of the last of the elements that stand from the start on.
fn last_element(kind: TraceType, node_len: u8, used: &[u8]) -> Option<(usize, usize)>
    ensures { EndsWith kind node_len used.now result }
{
    if kind.has_snapshot() {
        last_by_walk(kind, node_len, used)
    } else {
        last_of_equal(kind, node_len, used)
    }
}

impl<'a> Iterator for Elements<'a> {
    ghost use Rattle.std.specs.Iterator.{YieldsFirstBy, item_count};
    ghost use Rattle.ioam_trace.specs.Left.{left};

    type Item = &'a [u8];

    ghost next_gives = { YieldsFirstBy (λ element. element.now) left };

    ghost remaining = { item_count left };

    fn next(&mut self) -> Option<&'a [u8]> {
        let (at, size) = last_element(self.kind, self.node_len, self.used)?;
        let element = &self.used[at..at + size];
        self.used = &self.used[..at];
        Some(element)
    }
}

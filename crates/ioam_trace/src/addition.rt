//! The addition of a node's data to a trace, in place.
ghost use Rattle.std.specs.Prelude.{◌≡◌, ◌≤◌, length, ◌↔◌, IsTrue};
ghost use Rattle.std.specs.Bool.{OnTrue};
ghost use Rattle.ioam_base.specs.Octets.{u16_at};
ghost use Rattle.ioam_data.specs.Kind.{words};
ghost use Rattle.ioam_data.specs.View.{seen};
ghost use Rattle.ioam_trace.specs.Head.{node_len_of, kind_of};
ghost use Rattle.ioam_trace.specs.Filled.{answer_of, filled};
ghost use Rattle.ioam_trace.specs.Filling.{Filling, IsSuited, AddsElement};

use crate::head::{HEAD_OCTETS, TRACE_TYPE};
use crate::lengths::Lengths;
use ioam_data::{TraceType, View, element_words, put_element};

/// What a node did to a trace.
#[derive(Clone, Copy, Debug, PartialEq, Eq)]
pub enum Filled {
    /// It added its element.
    Added {
        /// The 4-octet words of the element, those of the snapshot included.
        words: u8,
    },
    /// The element did not fit: Overflow is set now, and nothing else changed.
    Overflowed,
    /// Overflow was set; nothing changed.
    AlreadyOver,
    /// The octets are no trace to which a node adds an element; nothing changed.
    Unsuited,
}

// Whether nodes add elements to the octets, which have these lengths and this type.
fn is_suited(octets: &[u8], lengths: Lengths, kind: TraceType) -> bool
    requires begins { 8 ≤ length octets.now }
    requires lengths { lengths.0 ≡ u16_at octets.now 2 }
    requires kind { kind ≡ kind_of octets.now }
    ensures suited { IsTrue result ↔ IsSuited octets.now }
    ensures room { OnTrue result (words kind ≤ node_len_of octets.now) }
{
    octets.len() % 4 == 0 && lengths.used() <= octets.len() && kind.can_add(lengths.node_len())
}

// Fills the octets, by the rules alone.
fn fill_octets(octets: &mut [u8], view: &View<'_>) -> Filled
    ensures { Filling octets.old (seen view.now) octets.new result }
{
    if octets.len() < HEAD_OCTETS {
        return Filled::Unsuited;
    }
    let lengths = Lengths::read(octets);
    if lengths.is_over() {
        return Filled::AlreadyOver;
    }
    let kind = TraceType::at(octets, TRACE_TYPE);
    if !is_suited(octets, lengths, kind) {
        return Filled::Unsuited;
    }
    let words = element_words(kind, lengths.node_len(), view);
    match lengths.less(words) {
        None => {
            lengths.with_overflow().put(octets);
            Filled::Overflowed
        }
        Some(less) => {
            less.put(octets);
            put_element(octets, less.used(), kind, lengths.node_len(), view);
            Filled::Added { words }
        }
    }
}

/// Adds in place the data of a node to the octets of a pre-allocated trace, those behind the
/// IOAM-Option-Type. It takes no memory. The tests come in this order: fewer than 8 octets give
/// Unsuited; a set Overflow flag gives AlreadyOver; octets that are not whole words, a RemainingLen
/// above the words behind the header, and a type or NodeLen under which nodes add nothing give
/// Unsuited; an element longer than RemainingLen gives Overflowed, and only the flag changes. Else
/// RemainingLen falls by the element's words, and the element stands in the last of the free words.
pub fn fill(octets: &mut [u8], view: &View<'_>) -> Filled
    ensures filling { Filling octets.old (seen view.now) octets.new result }
    // What is answered and what is left depend on the octets and the view alone.
    ensures answer { result ≡ answer_of octets.old (seen view.now) }
    ensures octets { octets.new ≡ filled octets.old (seen view.now) }
    // A trace that an entry node began holds one element more, or Overflow.
    ensures adds { AddsElement octets.old (seen view.now) octets.new }
{
    fill_octets(octets, view)
}

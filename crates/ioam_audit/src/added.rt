//! Whether an element was added to the octets of a trace, or Overflow set (RFC 9197 section 4.4.1).
ghost use Rattle.std.specs.Prelude.{◌≡◌, ◌<◌, ◌≤◌, ◌+◌, ◌-◌, ◌*◌, ◌⊎◌, ◌↔◌, true, IsTrue, length, slice_range};
ghost use Rattle.ioam_base.specs.Octets.{u16_at, written};
ghost use Rattle.ioam_data.specs.Elements.{IsElement};
ghost use Rattle.ioam_data.specs.Fields.{fields_of};
ghost use Rattle.ioam_data.specs.Kind.{has, undefined};
ghost use Rattle.ioam_trace.specs.Filling.{IsOpen, with_lengths, IsSuitedBy};
ghost use Rattle.ioam_trace.specs.Head.{kind_of, node_len_of, remaining_of};
ghost use Rattle.ioam_audit.specs.Becomes.{may_add};
ghost use Rattle.ioam_audit.specs.Decided.{AddsSo, OverflowsSo};
ghost use Rattle.ioam_audit.specs.Lawful.{IsLawful};

use crate::lawful::is_lawful;
use crate::parts::{has_word, is_same, is_same_but};
use crate::sight::Sight;
use ioam_data::{TraceType, fields, split};
use ioam_trace::{HEAD_OCTETS, Lengths, TRACE_TYPE};

// Whether octets are one element, whole, with lawful fields.
fn is_lawful_element(sight: Sight, kind: TraceType, node_len: u8, element: &[u8]) -> bool
    ensures { IsTrue result ↔ (IsElement kind node_len element.now
        × IsLawful sight.hops sight.id sight.inward (fields_of kind node_len element.now)) }
{
    split(kind, node_len, element) == Some(element.len())
        && is_lawful(sight, &fields(kind, node_len, element))
}

// Whether between the places of these numbers of free words such an element stands, and nothing else changed.
fn is_between(sight: Sight, old: &[u8], new: &[u8], before: u8, after: u8) -> bool
    requires same { length new.now ≡ length old.now }
    requires order { after ≤ before }
    requires before { before ≡ remaining_of old.now }
    requires space { 8 + 4 * before ≤ length old.now }
    ensures { IsTrue result
        ↔ ((new.now ≡ written (with_lengths old.now (u16_at old.now 2 - (before - after))) (8 + 4 * after) (slice_range new.now (8 + 4 * after) (8 + 4 * before)))
        × IsElement (kind_of old.now) (node_len_of old.now) (slice_range new.now (8 + 4 * after) (8 + 4 * before))
        × IsLawful sight.hops sight.id sight.inward (fields_of (kind_of old.now) (node_len_of old.now) (slice_range new.now (8 + 4 * after) (8 + 4 * before)))) }
{
    let lengths = Lengths::read(old);
    let Some(word) = lengths.less(before - after) else {
        return false;
    };
    let start = HEAD_OCTETS + 4 * usize::from(after);
    let end = HEAD_OCTETS + 4 * usize::from(before);
    let kind = TraceType::at(old, TRACE_TYPE);
    is_same_but(old, new, word.0, start, end)
        && is_lawful_element(sight, kind, lengths.node_len(), &new[start..end])
}

/// Whether an element that the node may write was added, and nothing else changed.
pub(crate) fn is_added(sight: Sight, old: &[u8], new: &[u8]) -> bool
    requires same { length new.now ≡ length old.now }
    requires is_open { IsOpen old.now }
    requires fit { IsSuitedBy may_add old.now }
    ensures { IsTrue result ↔ AddsSo sight.hops sight.id sight.inward old.now new.now }
{
    let before = Lengths::read(old).remaining();
    let after = Lengths::read(new).remaining();
    if before < after {
        return false;
    }
    is_between(sight, old, new, before, after)
}

// Whether an element may be too long.
fn may_overflow(octets: &[u8]) -> bool
    requires { 8 ≤ length octets.now }
    ensures { IsTrue result ↔ ((has (kind_of octets.now) 22 ≡ true) ⊎ (remaining_of octets.now < node_len_of octets.now)) }
{
    let lengths = Lengths::read(octets);
    TraceType::at(octets, TRACE_TYPE).has_snapshot() || lengths.remaining() < lengths.node_len()
}

/// Whether Overflow was set where an element may have been too long, and nothing else changed.
pub(crate) fn is_overflow(old: &[u8], new: &[u8]) -> bool
    requires same { length new.now ≡ length old.now }
    requires is_open { IsOpen old.now }
    ensures { IsTrue result ↔ OverflowsSo old.now new.now }
{
    may_overflow(old) && has_word(old, new, Lengths::read(old).with_overflow().0)
}

/// Whether all stayed, as it may where bits of the type are undefined.
pub(crate) fn is_refused(old: &[u8], new: &[u8]) -> bool
    requires { 8 ≤ length old.now }
    ensures { IsTrue result ↔ ((0 < undefined (kind_of old.now)) × (new.now ≡ old.now)) }
{
    TraceType::at(old, TRACE_TYPE).undefined() > 0 && is_same(new, old)
}

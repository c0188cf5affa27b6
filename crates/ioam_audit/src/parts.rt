//! Octets that are compared part by part.
ghost use Rattle.std.specs.Prelude.{◌≡◌, ◌<◌, ◌≤◌, ◌↔◌, IsTrue, length, slice_range};
ghost use Rattle.ioam_base.specs.Octets.{written};
ghost use Rattle.ioam_trace.specs.Filling.{with_lengths};
ghost use Rattle.ioam_audit.specs.Parts.{AreAlike};

use ioam_trace::{Lengths, TRACE_TYPE};

/// Whether octets are the same.
pub(crate) fn is_same(one: &[u8], other: &[u8]) -> bool
    ensures { IsTrue result ↔ (one.now ≡ other.now) }
{
    one == other
}

// Whether they are so, part by part.
fn is_alike(old: &[u8], new: &[u8], word: u16, start: usize, end: usize) -> bool
    requires same { length new.now ≡ length old.now }
    requires start { 8 ≤ start }
    requires order { start ≤ end }
    requires end { end ≤ length old.now }
    ensures { IsTrue result ↔ AreAlike old.now new.now word start end }
{
    is_same(&new[..2], &old[..2])
        && Lengths::read(new).0 == word
        && is_same(&new[TRACE_TYPE..start], &old[TRACE_TYPE..start])
        && is_same(&new[end..], &old[end..])
}

/// Whether the new octets of a trace are the old ones with this word of NodeLen, Flags and RemainingLen, but for what
/// stands between two places behind the header.
pub(crate) fn is_same_but(old: &[u8], new: &[u8], word: u16, start: usize, end: usize) -> bool
    requires same { length new.now ≡ length old.now }
    requires start { 8 ≤ start }
    requires order { start ≤ end }
    requires end { end ≤ length old.now }
    ensures { IsTrue result ↔ (new.now ≡ written (with_lengths old.now word) start (slice_range new.now start end)) }
{
    is_alike(old, new, word, start, end)
}

/// Whether they are the old ones with this word.
pub(crate) fn has_word(old: &[u8], new: &[u8], word: u16) -> bool
    requires same { length new.now ≡ length old.now }
    requires begins { 8 ≤ length old.now }
    ensures { IsTrue result ↔ (new.now ≡ with_lengths old.now word) }
{
    is_same_but(old, new, word, old.len(), old.len())
}

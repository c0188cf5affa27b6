//! The length word of a trace: NodeLen 5 bits, Flags 4, RemainingLen 7 (RFC 9197 section 4.4.1).
ghost use Rattle.std.specs.Prelude.{◌≡◌, ◌+◌, ◌-◌, ◌*◌, ◌/◌, ◌%◌, ◌<◌, ◌≤◌, ◌↔◌, IsTrue, MatchOption, length};
ghost use Rattle.ioam_base.specs.Octets.{u16_at};
ghost use Rattle.ioam_trace.specs.Filling.{with_lengths};

use crate::head::HEAD_OCTETS;
use ioam_base::octets::{put_u16_at, u16_at};

// Where the word stands in a header.
const PLACE: usize = 2;

// What NodeLen and the flags count in.
const NODE_LEN: u16 = 1 << 11;

const FLAGS: u16 = 1 << 7;

// Overflow, the most significant flag.
const OVERFLOW: u8 = 8;

// Whether Overflow is among four flags.
pub(crate) fn has_overflow(flags: u8) -> bool
    requires { flags < 16 }
    ensures { IsTrue result ↔ (flags / 8 ≡ 1) }
{
    flags / OVERFLOW == 1
}

/// The length word of a trace: NodeLen, the flags and RemainingLen.
#[derive(Clone, Copy, Debug)]
pub struct Lengths(pub u16);

impl Lengths {
    /// The word of these numbers: NodeLen below 32, the flags below 16, RemainingLen below 128.
    pub fn new(node_len: u8, flags: u8, remaining: u8) -> Lengths
        requires node_len { node_len < 32 }
        requires flags { flags < 16 }
        requires remaining { remaining < 128 }
        ensures { result.0 ≡ node_len * 2048 + flags * 128 + remaining }
    {
        Lengths(u16::from(node_len) * NODE_LEN + u16::from(flags) * FLAGS + u16::from(remaining))
    }

    /// The word of the header that the octets begin with.
    pub fn read(octets: &[u8]) -> Lengths
        requires { 8 ≤ length octets.now }
        ensures { result.0 ≡ u16_at octets.now 2 }
    {
        Lengths(u16_at(octets, PLACE))
    }

    // Writes the word over that of a header.
    pub(crate) fn put(self, octets: &mut [u8])
        requires { 8 ≤ length octets.old }
        ensures value { octets.new ≡ with_lengths octets.old self.0 }
        ensures size { length octets.new ≡ length octets.old }
    {
        put_u16_at(octets, PLACE, self.0);
    }

    /// NodeLen: the words that a node adds, the snapshot not counted.
    pub fn node_len(self) -> u8
        ensures value { result ≡ self.0 / 2048 }
        ensures below { result < 32 }
    {
        (self.0 / NODE_LEN) as u8
    }

    // The four flags.
    pub(crate) fn flags(self) -> u8
        ensures value { result ≡ self.0 / 128 % 16 }
        ensures below { result < 16 }
    {
        (self.0 / FLAGS % 16) as u8
    }

    /// Whether Overflow is set.
    pub fn is_over(self) -> bool
        ensures { IsTrue result ↔ (self.0 / 1024 % 2 ≡ 1) }
    {
        has_overflow(self.flags())
    }

    /// RemainingLen: the free words.
    pub fn remaining(self) -> u8
        ensures value { result ≡ self.0 % 128 }
        ensures below { result < 128 }
    {
        (self.0 % FLAGS) as u8
    }

    /// The place behind the header and the free words.
    pub fn used(self) -> usize
        ensures { result ≡ 8 + 4 * (self.0 % 128) }
    {
        HEAD_OCTETS + 4 * usize::from(self.remaining())
    }

    /// The word with Overflow, which is clear.
    pub fn with_overflow(self) -> Lengths
        requires { self.0 / 1024 % 2 ≡ 0 }
        ensures { result.0 ≡ self.0 + 1024 }
    {
        Lengths(self.0 + u16::from(OVERFLOW) * FLAGS)
    }

    /// The word with RemainingLen less by so many words, where it has them.
    pub fn less(self, words: u8) -> Option<Lengths>
        ensures { MatchOption result (self.0 % 128 < words)
            (λ less. (words ≤ self.0 % 128) × (less.0 ≡ self.0 - words) × (less.0 % 128 ≡ self.0 % 128 - words)) }
    {
        if self.remaining() < words {
            return None;
        }
        Some(Lengths(self.0 - u16::from(words)))
    }
}

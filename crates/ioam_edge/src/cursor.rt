//! Octets that are read from the front.
ghost use Rattle.std.specs.Prelude.{◌≡◌, ◌+◌, ◌≤◌, ◌++◌, length, drop, is_some, if◌then◌else◌};
ghost use Rattle.ioam_base.specs.Words.{two_octets, four_octets, four_octets_if, eight_octets, eight_octets_if};

use ioam_base::octets::{u16_at, u32_at, u64_at};

/// Octets that are read from the front.
#[derive(Clone, Copy)]
pub(crate) struct Cursor<'a> {
    pub rest: &'a [u8],
}

impl<'a> Cursor<'a> {
    /// The number of 16 bits in front.
    pub(crate) fn two(&mut self) -> u16
        requires { 2 ≤ length self.old.rest.now }
        ensures value { self.old.rest.now ≡ two_octets result ++ self.new.rest.now }
        ensures size { length self.new.rest.now + 2 ≡ length self.old.rest.now }
    {
        let number = u16_in_front(self.rest);
        self.rest = &self.rest[2..];
        number
    }

    /// The number of 32 bits in front, where it is asked for.
    pub(crate) fn four_if(&mut self, asked: bool) -> Option<u32>
        requires { (if asked then 4 else 0) ≤ length self.old.rest.now }
        ensures there { is_some result ≡ asked }
        ensures value { self.old.rest.now ≡ four_octets_if result ++ self.new.rest.now }
        ensures size { length self.new.rest.now + (if asked then 4 else 0) ≡ length self.old.rest.now }
    {
        if !asked {
            return None;
        }
        let number = u32_in_front(self.rest);
        self.rest = &self.rest[4..];
        Some(number)
    }

    /// The number of 64 bits in front, where it is asked for.
    pub(crate) fn eight_if(&mut self, asked: bool) -> Option<u64>
        requires { (if asked then 8 else 0) ≤ length self.old.rest.now }
        ensures there { is_some result ≡ asked }
        ensures value { self.old.rest.now ≡ eight_octets_if result ++ self.new.rest.now }
        ensures size { length self.new.rest.now + (if asked then 8 else 0) ≡ length self.old.rest.now }
    {
        if !asked {
            return None;
        }
        let number = u64_in_front(self.rest);
        self.rest = &self.rest[8..];
        Some(number)
    }
}

// The number of 16 bits in front.
fn u16_in_front(octets: &[u8]) -> u16
    requires { 2 ≤ length octets.now }
    ensures { octets.now ≡ two_octets result ++ drop 2 octets.now }
{
    u16_at(octets, 0)
}

// The number of 32 bits in front.
fn u32_in_front(octets: &[u8]) -> u32
    requires { 4 ≤ length octets.now }
    ensures { octets.now ≡ four_octets result ++ drop 4 octets.now }
{
    u32_at(octets, 0)
}

// The number of 64 bits in front.
fn u64_in_front(octets: &[u8]) -> u64
    requires { 8 ≤ length octets.now }
    ensures { octets.now ≡ eight_octets result ++ drop 8 octets.now }
{
    u64_at(octets, 0)
}

//! Where a header may stand, and where the next one does (RFC 8200 section 4).
ghost use Rattle.std.specs.Prelude.{◌≡◌, ◌+◌, ◌<◌, ◌≤◌, ◌==◌, ◌||◌, ◌⊎◌, IsTrue, false, length, slice_index, MatchOption};
ghost use Rattle.ioam_ip.specs.Chain.{head_at, said_size};
ghost use Rattle.ioam_ip.specs.ChainOptions.{octets_of};
ghost use Rattle.ioam_leaks.specs.Spots.{IsPassed, spot_of};

use ioam_base::octets::u16_at;
use ioam_ip::next_header::{DESTINATION, FRAGMENT, HOP_BY_HOP, IPV6, ROUTING};
use ioam_ip::{HEADER_OCTETS, NEXT_HEADER, check_options};

// The octets of a Fragment header (RFC 8200 section 4.5).
const FRAGMENT_OCTETS: usize = 8;

/// Where a header may stand.
#[derive(Clone, Copy)]
pub(crate) struct Spot {
    /// The value that names the header.
    pub(crate) value: u8,
    /// The offset of its first octet in the packet.
    pub(crate) at: usize,
    /// Whether it follows an IPv6 header directly.
    pub(crate) behind_ip: bool,
}

impl Spot {
    /// Whether it is an options header: Hop-by-Hop or Destination Options.
    pub(crate) fn holds_options(self) -> bool
        ensures { result ≡ ((self.value == 0) || (self.value == 60)) }
    {
        self.value == HOP_BY_HOP || self.value == DESTINATION
    }

    /// The octets that the packet has of an options header.
    pub(crate) fn octets(self, packet: &[u8]) -> &[u8]
        requires options { IsTrue ((self.value == 0) || (self.value == 60)) }
        requires within { self.at ≤ length packet.now }
        ensures { result.now ≡ octets_of packet.now (head_at packet.now (spot_of self)) }
    {
        match ext_end(packet, self.at) {
            Some(end) => &packet[self.at..end],
            None => &packet[self.at..],
        }
    }

    /// The spot after the header, if the chain goes on after it.
    pub(crate) fn next(self, packet: &[u8]) -> Option<Spot>
        requires { self.at ≤ length packet.now }
        ensures { IsPassed packet.now self result }
    {
        match self.value {
            HOP_BY_HOP => self.after_hop_by_hop(packet),
            DESTINATION => self.after_options(packet),
            ROUTING => self.after_routing(packet),
            FRAGMENT => self.after_fragment(packet),
            IPV6 => self.after_ipv6(packet),
            _ => None,
        }
    }

    // Hop-by-Hop Options follow an IPv6 header directly (RFC 8200 section 4.3).
    fn after_hop_by_hop(self, packet: &[u8]) -> Option<Spot>
        requires value { self.value ≡ 0 }
        requires within { self.at ≤ length packet.now }
        ensures { IsPassed packet.now self result }
    {
        if !self.behind_ip {
            return None;
        }
        self.after_options(packet)
    }

    // After options that fill their header.
    fn after_options(self, packet: &[u8]) -> Option<Spot>
        requires value { (self.value ≡ 60) ⊎ ((self.value ≡ 0) × IsTrue self.behind_ip) }
        requires within { self.at ≤ length packet.now }
        ensures { IsPassed packet.now self result }
    {
        let Some(end) = ext_end(packet, self.at) else {
            return None;
        };
        match check_options(&packet[self.at..end]) {
            Ok(()) => Some(after(packet, self.at, end)),
            Err(_) => None,
        }
    }

    fn after_routing(self, packet: &[u8]) -> Option<Spot>
        requires value { self.value ≡ 43 }
        requires within { self.at ≤ length packet.now }
        ensures { IsPassed packet.now self result }
    {
        match ext_end(packet, self.at) {
            Some(end) => Some(after(packet, self.at, end)),
            None => None,
        }
    }

    fn after_fragment(self, packet: &[u8]) -> Option<Spot>
        requires value { self.value ≡ 44 }
        requires within { self.at ≤ length packet.now }
        ensures { IsPassed packet.now self result }
    {
        if packet.len() - self.at < FRAGMENT_OCTETS {
            return None;
        }
        if u16_at(packet, self.at + 2) / 8 != 0 {
            return None;
        }
        Some(after(packet, self.at, self.at + FRAGMENT_OCTETS))
    }

    fn after_ipv6(self, packet: &[u8]) -> Option<Spot>
        requires value { self.value ≡ 41 }
        requires within { self.at ≤ length packet.now }
        ensures { IsPassed packet.now self result }
    {
        if packet.len() - self.at < HEADER_OCTETS || packet[self.at] / 16 != 6 {
            return None;
        }
        Some(Spot {
            value: packet[self.at + NEXT_HEADER],
            at: self.at + HEADER_OCTETS,
            behind_ip: true,
        })
    }
}

// Where an extension header ends that states its own length (Hdr Ext Len), if its octets are there.
fn ext_end(packet: &[u8], at: usize) -> Option<usize>
    requires { at ≤ length packet.now }
    ensures { MatchOption result (length packet.now < at + said_size packet.now at)
        (λ end. (end ≡ at + said_size packet.now at) × (end ≤ length packet.now)) }
{
    if packet.len() - at < 2 {
        return None;
    }
    let size = (usize::from(packet[at + 1]) + 1) * 8;
    if packet.len() - at < size {
        return None;
    }
    Some(at + size)
}

// The spot after an extension header, whose first octet names the next header.
fn after(packet: &[u8], at: usize, end: usize) -> Spot
    requires { at < length packet.now }
    ensures value { result.value ≡ slice_index packet.now at }
    ensures at { result.at ≡ end }
    ensures behind_ip { result.behind_ip ≡ false }
{
    Spot {
        value: packet[at],
        at: end,
        behind_ip: false,
    }
}

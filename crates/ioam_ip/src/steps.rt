//! One step along the chain of a packet (RFC 8200 section 4).
ghost use Rattle.std.specs.Prelude.{◌≡◌, ◌⊎◌, IsTrue, ◌+◌, ◌<◌, ◌≤◌, length, slice_index, false};
ghost use Rattle.ioam_ip.specs.Chain.{kind_of};
ghost use Rattle.ioam_ip.specs.Steps.{Steps, OptionsAt};

use crate::chain::{HeadSpot, Kind, kind_of};
use crate::extents::{fragment_offset, said_end};
use crate::packet::{HEADER_OCTETS, NEXT_HEADER};
use crate::scan::{Findings, Scan, look_through};

/// What stands at a spot.
#[derive(Clone, Copy)]
pub(crate) enum HeadStep {
    /// A whole header that may stand there: the spot behind it, and what its options have.
    On { next: HeadSpot, found: Findings },
    /// The end of the chain.
    Ends,
    /// A header that breaks the chain.
    Breaks,
}

// What a header without options has.
const NOTHING: Findings = Findings {
    ioam: false,
    limit: None,
};

/// Looks at the header at a spot.
pub(crate) fn step_at(packet: &[u8], spot: HeadSpot) -> HeadStep
    requires { spot.at ≤ length packet.now }
    ensures { Steps packet.now spot result }
{
    match kind_of(spot.value) {
        Kind::HopByHop => at_hop_by_hop(packet, spot),
        Kind::Destination => on_options(packet, spot),
        Kind::Routing => at_routing(packet, spot),
        Kind::Fragment => at_fragment(packet, spot),
        Kind::Nested => at_nested(packet, spot),
        Kind::Upper => HeadStep::Ends,
    }
}

// Where the options header at a place ends and what its options have, if it is whole and they fill
// it.
fn options_at(packet: &[u8], at: usize) -> Option<(usize, Findings)>
    requires { at ≤ length packet.now }
    ensures { OptionsAt packet.now at result }
{
    let Some(end) = said_end(packet, at) else {
        return None;
    };
    match look_through(&packet[at..end]) {
        Scan::Fills(found) => Some((end, found)),
        Scan::Unfit(_) => None,
    }
}

fn at_hop_by_hop(packet: &[u8], spot: HeadSpot) -> HeadStep
    requires kind { kind_of spot.value ≡ Kind.HopByHop }
    requires within { spot.at ≤ length packet.now }
    ensures { Steps packet.now spot result }
{
    if !spot.behind_ip {
        return HeadStep::Breaks;
    }
    on_options(packet, spot)
}

// The step where nothing but whole options that fill their header is asked for.
fn on_options(packet: &[u8], spot: HeadSpot) -> HeadStep
    requires kind { (kind_of spot.value ≡ Kind.Destination) ⊎ ((kind_of spot.value ≡ Kind.HopByHop) × IsTrue spot.behind_ip) }
    requires within { spot.at ≤ length packet.now }
    ensures { Steps packet.now spot result }
{
    match options_at(packet, spot.at) {
        Some((end, found)) => HeadStep::On {
            next: behind(packet, spot.at, end),
            found,
        },
        None => HeadStep::Breaks,
    }
}

fn at_routing(packet: &[u8], spot: HeadSpot) -> HeadStep
    requires kind { kind_of spot.value ≡ Kind.Routing }
    requires within { spot.at ≤ length packet.now }
    ensures { Steps packet.now spot result }
{
    match said_end(packet, spot.at) {
        Some(end) => HeadStep::On {
            next: behind(packet, spot.at, end),
            found: NOTHING,
        },
        None => HeadStep::Breaks,
    }
}

fn at_fragment(packet: &[u8], spot: HeadSpot) -> HeadStep
    requires kind { kind_of spot.value ≡ Kind.Fragment }
    requires within { spot.at ≤ length packet.now }
    ensures { Steps packet.now spot result }
{
    if packet.len() - spot.at < 8 {
        return HeadStep::Breaks;
    }
    if fragment_offset(packet, spot.at) != 0 {
        return HeadStep::Ends;
    }
    HeadStep::On {
        next: behind(packet, spot.at, spot.at + 8),
        found: NOTHING,
    }
}

fn at_nested(packet: &[u8], spot: HeadSpot) -> HeadStep
    requires kind { kind_of spot.value ≡ Kind.Nested }
    requires within { spot.at ≤ length packet.now }
    ensures { Steps packet.now spot result }
{
    if packet.len() - spot.at < HEADER_OCTETS || packet[spot.at] / 16 != 6 {
        return HeadStep::Breaks;
    }
    let next = HeadSpot {
        value: packet[spot.at + NEXT_HEADER],
        at: spot.at + HEADER_OCTETS,
        behind_ip: true,
    };
    HeadStep::On {
        next,
        found: NOTHING,
    }
}

// The spot behind an extension header, whose first octet is the next header value.
fn behind(packet: &[u8], at: usize, end: usize) -> HeadSpot
    requires { at < length packet.now }
    ensures value { result.value ≡ slice_index packet.now at }
    ensures at { result.at ≡ end }
    ensures behind_ip { result.behind_ip ≡ false }
{
    HeadSpot {
        value: packet[at],
        at: end,
        behind_ip: false,
    }
}

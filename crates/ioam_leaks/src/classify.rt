//! What a packet shows of IOAM.
ghost use Rattle.std.specs.Prelude.{◌≡◌, ◌↔◌, ◌<◌, ◌≤◌, ◌^◌, IsTrue, length};
ghost use Rattle.ioam_ip.specs.Chain.{EndsWith, IsSound};
ghost use Rattle.ioam_ip.specs.ChainOptions.{CarriesIoam};
ghost use Rattle.ioam_ip.specs.Clean.{IsClean};
ghost use Rattle.ioam_ip.specs.Packet.{IsPacket};
ghost use Rattle.ioam_ip.specs.Walks.{Tells};
ghost use Rattle.ioam_leaks.specs.Finding.{Carries, HasFinding, IsLeak, OnlyFinding, QuotesAt};

use crate::finding::{Finding, Hidden, Leak};
use crate::option::Part;
use crate::spot::Spot;
use crate::walk::shows;
use ioam_ip::next_header::{FRAGMENT, IPV6};
use ioam_ip::{HEADER_OCTETS, NEXT_HEADER, Walk, walk};

// Encapsulating Security Payload (RFC 4303 section 2).
const ESP: u8 = 50;

// Authentication Header (RFC 4302 section 2).
const AH: u8 = 51;

// ICMPv6 (RFC 4443 section 1).
const ICMPV6: u8 = 58;

// The first type of an ICMPv6 message that isn't an error (RFC 4443 section 2.1).
const FIRST_INFORMATIONAL: u8 = 128;

// The octets of an ICMPv6 error before the packet that it quotes (RFC 4443 section 3).
const ERROR_OCTETS: usize = 8;

/// What a packet shows of IOAM. Takes no memory.
///
/// A packet whose chain is whole carries IOAM exactly if it has an IOAM option, as [`walk`] finds it.
pub fn find_leak(packet: &[u8]) -> Finding
    requires { IsPacket packet.now }
    ensures finding { HasFinding packet.now result }
    // It has no other.
    ensures only { OnlyFinding packet.now result }
    // Of a whole chain it carries what a boundary looks for.
    ensures carries { IsSound packet.now → Carries packet.now ↔ CarriesIoam packet.now }
    // What may leave a domain and leaks is what quotes.
    ensures quotes { (IsClean packet.now × IsLeak result) ↔ (result ≡ Finding.Leaks Leak.Quotes) }
{
    by_walk(packet, walk(packet))
}

// What a packet shows, by the walk along its chain.
fn by_walk(packet: &[u8], walk: Walk) -> Finding
    requires packet { IsPacket packet.now }
    requires tells { Tells packet.now walk }
    ensures { HasFinding packet.now result }
{
    match walk {
        Walk::Whole { ioam: true, .. } => Finding::Leaks(Leak::Carries),
        Walk::Whole {
            ioam: false,
            upper,
            at,
            ..
        } => after_chain(packet, upper, at as usize),
        Walk::Bad { .. } => before_break(packet),
    }
}

// What a packet shows whose chain is whole and has no IOAM option.
fn after_chain(packet: &[u8], upper: u8, at: usize) -> Finding
    requires ends { EndsWith packet.now upper at }
    requires clean { CarriesIoam packet.now → ⊥ }
    requires short { at < 2 ^ 32 }
    ensures { HasFinding packet.now result }
{
    match upper {
        ICMPV6 if quotes(packet, at) => Finding::Leaks(Leak::Quotes),
        ESP => Finding::Hides(Hidden::Esp),
        AH => Finding::Hides(Hidden::Ah),
        FRAGMENT => Finding::Hides(Hidden::Fragment),
        _ => Finding::Clean,
    }
}

// Whether an ICMPv6 error at `at` quotes an IOAM option.
fn quotes(packet: &[u8], at: usize) -> bool
    requires { at < 2 ^ 32 }
    ensures { IsTrue result ↔ QuotesAt packet.now at }
{
    if packet.len() < at + ERROR_OCTETS || packet[at] >= FIRST_INFORMATIONAL {
        return false;
    }
    let quoted = Spot {
        value: IPV6,
        at: at + ERROR_OCTETS,
        behind_ip: false,
    };
    shows(packet, quoted, Part::Begun)
}

// What a packet shows whose chain a header breaks.
fn before_break(packet: &[u8]) -> Finding
    requires header { 40 ≤ length packet.now }
    requires broken { IsSound packet.now → ⊥ }
    ensures { HasFinding packet.now result }
{
    let first = Spot {
        value: packet[NEXT_HEADER],
        at: HEADER_OCTETS,
        behind_ip: true,
    };
    if shows(packet, first, Part::Whole) {
        Finding::Leaks(Leak::Carries)
    } else {
        Finding::Hides(Hidden::Chain)
    }
}

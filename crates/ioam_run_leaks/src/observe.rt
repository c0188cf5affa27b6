//! What a record of a capture shows.
ghost use Rattle.std.specs.Prelude.{◌≡◌, ◌≤◌, length};
ghost use Rattle.ioam_pcap.specs.Entries.{most};
ghost use Rattle.ioam_run_stream.specs.Reader.{taken_of};
ghost use Rattle.ioam_run_leaks.specs.Observation.{IsSound, Observation, Shows, observation_of};

use ioam_ip::Framed;
use ioam_leaks::{Finding, find_leak};
use ioam_pcap::{Link, Packet};
use ioam_run_stream::framed;

/// Why a record wasn't looked into.
#[derive(Clone, Copy)]
pub enum Unseen {
    /// It holds no IPv6.
    NotIpv6,
    /// Fewer octets were captured than the frame had.
    Cut,
    /// It is shorter than the IPv6 header, or than the header states.
    Length,
}

/// What a record shows: its packet, and what was found in it; or why it wasn't looked into.
#[derive(Clone, Copy)]
pub enum Observed<'a> {
    /// A packet, without what follows it in the frame.
    Seen { packet: &'a [u8], finding: Finding },
    /// No whole packet.
    Missed(Unseen),
}

/// What a record of a capture shows, whose octets begin at `link`.
pub fn observe<'a>(link: Link, captured: &Packet<'a>) -> Observed<'a>
    requires { length captured.now.octets.now ≤ most }
    ensures shows { Shows (taken_of link captured.now) (observation_of result) }
    // It shows nothing else.
    ensures only { (other : Observation) → Shows (taken_of link captured.now) other → observation_of result ≡ other }
    ensures sound { IsSound (observation_of result) }
{
    match framed(link, captured) {
        Framed::Packet(packet) => Observed::Seen {
            packet,
            finding: find_leak(packet),
        },
        Framed::NotIpv6 => Observed::Missed(Unseen::NotIpv6),
        Framed::Cut => Observed::Missed(Unseen::Cut),
        Framed::Length => Observed::Missed(Unseen::Length),
    }
}

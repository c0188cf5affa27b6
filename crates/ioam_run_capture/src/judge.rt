//! What becomes of a captured frame at the boundary of a domain.
ghost use Rattle.std.specs.Prelude.{◌≡◌, ◌≤◌, length};
ghost use Rattle.ioam_run_stream.specs.Reader.{taken_of};
ghost use Rattle.ioam_ip.specs.Packet.{IsPacket};
ghost use Rattle.ioam_run_capture.specs.Verdict.{Verdict, HasVerdict, PacketVerdict};
ghost use Rattle.ioam_run_capture.specs.Judgement.{verdict_of, IsWithin};

use ioam_ip::{Walk, walk};
use ioam_node::{Reason, packet_or_reason};
use ioam_pcap::{Link, Packet};
use ioam_run_stream::framed;

/// A frame's packet that is kept, or the first reason why the frame is dropped.
#[derive(Clone, Copy)]
pub enum Judgement<'a> {
    /// The packet, without what follows it in the frame.
    Kept(&'a [u8]),
    /// Why it is dropped.
    Dropped(Reason),
}

/// What becomes of a record of a capture, whose octets begin at this layer.
pub fn judge<'a>(link: Link, captured: &Packet<'a>) -> Judgement<'a>
    ensures verdict { HasVerdict (taken_of link captured.now) (verdict_of result) }
    // It has no other.
    ensures only { (verdict : Verdict) → HasVerdict (taken_of link captured.now) verdict → verdict_of result ≡ verdict }
    ensures within { IsWithin (verdict_of result) captured.now.octets.now }
{
    match packet_or_reason(framed(link, captured)) {
        Ok(packet) => judge_packet(packet),
        Err(reason) => Judgement::Dropped(reason),
    }
}

// What becomes of a packet: it is kept where its chain is whole and has no IOAM option.
fn judge_packet(octets: &[u8]) -> Judgement<'_>
    requires { IsPacket octets.now }
    ensures verdict { PacketVerdict octets.now (verdict_of result) }
    ensures within { IsWithin (verdict_of result) octets.now }
{
    match walk(octets) {
        Walk::Whole { ioam: false, .. } => Judgement::Kept(octets),
        Walk::Whole { ioam: true, .. } => Judgement::Dropped(Reason::IoamIn),
        Walk::Bad { .. } => Judgement::Dropped(Reason::Chain),
    }
}

//! The packet of a record of a capture.
ghost use Rattle.std.specs.Prelude.{◌≡◌};
ghost use Rattle.ioam_capture.specs.Reader.{taken_of};
ghost use Rattle.ioam_ip.specs.Framed.{framing};
ghost use Rattle.ioam_ip.specs.Framing.{IfHolds};
ghost use Rattle.ioam_ip.specs.Packet.{IsPacket};
ghost use Rattle.ioam_run_stream.specs.Frame.{taken_framing};

use ioam_ip::{Framed, packet_in_layer};
use ioam_pcap::{Link, Packet};

/// What a record of a capture gives, whose octets begin at this layer.
pub fn framed<'a>(link: Link, captured: &Packet<'a>) -> Framed<'a>
    ensures framing { framing result ≡ taken_framing (taken_of link captured.now) }
    ensures packet { IfHolds (framing result) IsPacket }
{
    packet_in_layer(link, captured.is_cut(), captured.octets)
}

//! The packet that a captured frame holds.
ghost use Rattle.std.specs.Prelude.{◌≡◌, ◌≤◌, IsTrue, length};
ghost use Rattle.ioam_ip.specs.Framing.{announces_ipv6, framing_of, framed, IfHolds};
ghost use Rattle.ioam_ip.specs.Framed.{framing};
ghost use Rattle.ioam_ip.specs.Layer.{layer_of, link_header};
ghost use Rattle.ioam_ip.specs.Packet.{IsPacket};

use crate::layer::Layer;
use crate::packet::HEADER_OCTETS;
use ioam_base::octets::u16_at;

/// The Ethertype of IPv6 (RFC 2464 section 3).
const ETHERTYPE_IPV6: u16 = 0x86DD;

/// What a frame gives.
#[derive(Clone, Copy, Debug, PartialEq, Eq)]
pub enum Framed<'a> {
    /// A packet of 40 octets and its payload length; what follows it in the frame is padding.
    Packet(&'a [u8]),
    /// No link header with the Ethertype of IPv6 where there should be one, or no version 6 after it.
    NotIpv6,
    /// Fewer octets were captured than the frame had.
    Cut,
    /// Fewer octets than the header, or than the header and its payload length.
    Length,
}

/// The packet of a frame that begins with an Ethernet header if `ethernet`, else with an IP header:
/// `packet_in_layer` of that layer.
pub fn packet_of(ethernet: bool, cut: bool, frame: &[u8]) -> Framed<'_>
    ensures framing { framing result ≡ framing_of (layer_of ethernet) cut frame.now }
    ensures packet { IfHolds (framing result) IsPacket }
{
    packet_in_layer(Layer::of(ethernet), cut, frame)
}

/// The packet of a frame (RFC 8200 section 3), or the first reason why it gives none: it isn't
/// IPv6, it was cut when it was captured, or it is shorter than its header says. The frame begins at
/// `layer`; `cut` says that fewer octets were captured than it had.
pub fn packet_in_layer(layer: Layer, cut: bool, frame: &[u8]) -> Framed<'_>
    ensures framing { framing result ≡ framing_of layer cut frame.now }
    ensures packet { IfHolds (framing result) IsPacket }
{
    if !announces_ipv6(layer, frame) {
        return Framed::NotIpv6;
    }
    let (size, _) = layer.link_header();
    packet_in(cut, &frame[size..])
}

// Whether the frame has the whole link header, and its Ethertype, if it has one, is that of IPv6.
fn announces_ipv6(layer: Layer, frame: &[u8]) -> bool
    ensures answer { result ≡ announces_ipv6 layer frame.now }
    ensures header_there { IsTrue result → (link_header layer).0 ≤ length frame.now }
{
    let (size, ethertype_at) = layer.link_header();
    if frame.len() < size {
        return false;
    }
    match ethertype_at {
        Some(at) => u16_at(frame, at) == ETHERTYPE_IPV6,
        None => true,
    }
}

// The packet that the octets begin with.
fn packet_in(cut: bool, octets: &[u8]) -> Framed<'_>
    ensures framing { framing result ≡ framed cut octets.now }
    ensures packet { IfHolds (framing result) IsPacket }
{
    if octets.is_empty() || octets[0] / 16 != 6 {
        return Framed::NotIpv6;
    }
    if cut {
        return Framed::Cut;
    }
    if octets.len() < HEADER_OCTETS {
        return Framed::Length;
    }
    let whole = HEADER_OCTETS + u16_at(octets, 4) as usize;
    if octets.len() < whole {
        return Framed::Length;
    }
    Framed::Packet(&octets[..whole])
}

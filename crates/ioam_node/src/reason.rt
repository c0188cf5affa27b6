//! Why a packet is dropped.
ghost use Rattle.std.specs.Prelude.{◌≡◌, IfOk, IfErr, Some};
ghost use Rattle.ioam_ip.specs.Framed.{framing};
ghost use Rattle.ioam_ip.specs.Framing.{Holds};
ghost use Rattle.ioam_node.specs.Admission.{reason_of};

use ioam_ip::Framed;

/// Why a packet is dropped, in the order in which the reasons are looked for.
#[derive(Clone, Copy, Debug, PartialEq, Eq)]
pub enum Reason {
    /// The frame holds no IPv6: its Ethernet header is shorter than 14 octets or has another Ethertype
    /// than 0x86DD, nothing is behind it, or the version isn't 6.
    NotIpv6,
    /// Fewer octets were captured than the frame had.
    Cut,
    /// The frame is shorter than the IPv6 header, or than the header says.
    Length,
    /// The header chain isn't whole (RFC 8200 section 4).
    Chain,
    /// The packet arrives with an IOAM option on its chain (RFC 9486 section 3).
    IoamIn,
    /// The packet is for an address of a node of the domain.
    Local,
    /// The hop limit that would be lowered is 0 or 1 (RFC 8200 section 3).
    HopLimit,
    /// The node has no route for the target.
    NoRoute,
    /// The packet may not be enclosed once more: its Tunnel Encapsulation Limit is 0 (RFC 2473
    /// section 4.1.1).
    EncapLimit,
    /// The packet is longer than the link's packets may be.
    TooBig,
    /// The packet is enclosed and would leave the domain at another node than its exit: IOAM data
    /// doesn't leave its domain (RFC 9197 section 3).
    IoamOut,
}

/// The packet that a frame gave, or why the frame is dropped that gave none: `NotIpv6`, `Cut`, `Length`.
pub fn packet_or_reason(framed: Framed<'_>) -> Result<&[u8], Reason>
    ensures packet { IfOk result (λ packet. framing framed.entry ≡ Holds packet.now) }
    ensures reason { IfErr result (λ reason. reason_of (framing framed.entry) ≡ Some reason) }
{
    match framed {
        Framed::Packet(packet) => Ok(packet),
        Framed::NotIpv6 => Err(Reason::NotIpv6),
        Framed::Cut => Err(Reason::Cut),
        Framed::Length => Err(Reason::Length),
    }
}

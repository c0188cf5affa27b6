//! Whether a packet's header chain is whole.
ghost use Rattle.std.specs.Prelude.{◌≡◌, false};
ghost use Rattle.ioam_ip.specs.Framing.{framing_of};
ghost use Rattle.ioam_ip.specs.Packet.{IsPacket};
ghost use Rattle.ioam_ip.specs.declared.layer.Layer.TheVariants as Layer;
ghost use Rattle.ioam_c.specs.Packet.{OverPacket, Checks};

use crate::status::{CHAIN, LENGTH, NOT_IPV6, OK};
use ioam_ip::{Framed, Walk, packet_of, walk};

/// Whether the header chain of the packet that the octets begin with is whole (RFC 8200 section 4). `OK`: it is, and `at` becomes the
/// offset at which it ends. `CHAIN`: the first header that breaks it is at the offset `at`. `NOT_IPV6` or `LENGTH`: the octets begin
/// with no packet, and `at` stays. What follows the packet is padding.
#[unsafe(no_mangle)]
pub extern "C" fn ioam_check(octets: &[u8], at: &mut usize) -> u32
    ensures { OverPacket (framing_of Layer.Raw false octets.now) (λ packet. Checks packet at.new result) (λ status. (result ≡ status) × (at.new ≡ at.old)) }
{
    match packet_of(false, false, octets) {
        Framed::Packet(packet) => check_chain(packet, at),
        Framed::NotIpv6 => NOT_IPV6,
        Framed::Cut | Framed::Length => LENGTH,
    }
}

// Whether the header chain of a packet is whole.
fn check_chain(packet: &[u8], at: &mut usize) -> u32
    requires { IsPacket packet.now }
    ensures { Checks packet.now at.new result }
{
    match walk(packet) {
        Walk::Whole { at: end, .. } => {
            *at = end as usize;
            OK
        }
        Walk::Bad { at: broken } => {
            *at = broken as usize;
            CHAIN
        }
    }
}

//! The IOAM options of a packet, one call for each.
ghost use Rattle.std.specs.Prelude.{◌≡◌, ◌+◌, ◌<◌, ◌≤◌, ◌^◌, ◌&&◌, false, nat_le, length, option_map};
ghost use Rattle.std.specs.List.{find};
ghost use Rattle.ioam_ip.specs.Chain.{IsSound};
ghost use Rattle.ioam_ip.specs.ChainOptions.{HeadFits};
ghost use Rattle.ioam_ip.specs.Findings.{is_ioam_type};
ghost use Rattle.ioam_ip.specs.Framing.{framing_of};
ghost use Rattle.ioam_ip.specs.Packet.{IsPacket};
ghost use Rattle.ioam_ip.specs.Rewriting.{options_in};
ghost use Rattle.ioam_ip.specs.Spot.{spot_end, item_in};
ghost use Rattle.ioam_ip.specs.declared.layer.Layer.TheVariants as Layer;
ghost use Rattle.ioam_c.specs.Packet.{OverPacket};
ghost use Rattle.ioam_c.specs.Next.{AreIoam, Finds, GivesNext, at_least, before_data, described, ioam_among, ioam_in, ioam_of, namespace_of, option_type_of, placed, there_if};

use crate::status::{CHAIN, END, LENGTH, NOT_IPV6, OK};
use ioam_base::octets::u16_at;
use ioam_ip::option_type::is_ioam_type;
use ioam_ip::{Framed, Head, OptionSpot, Walk, heads, next_option, packet_of, walk};

/// An IOAM option of a packet (RFC 9486 section 3). Offsets count octets from the packet's first.
#[repr(C)]
#[derive(Clone, Copy, Debug)]
pub struct IoamOption {
    /// The offset of the options header.
    pub header: usize,
    /// The offset of the option's type octet.
    pub offset: usize,
    /// The offset of the data after the IOAM-Option-Type.
    pub data_offset: usize,
    /// The octets of that data.
    pub data_length: usize,
    /// The option's type: 0x11, or 0x31 if its data may change on the way.
    pub kind: u8,
    /// 1 if the option's data has an IOAM-Option-Type.
    pub has_option_type: u8,
    /// The IOAM-Option-Type (RFC 9197 section 7.1, RFC 9326 section 3).
    pub option_type: u8,
    /// 1 if the option's data has a Namespace-ID.
    pub has_namespace: u8,
    /// The Namespace-ID (RFC 9197 section 4.3).
    pub namespace: u16,
}

/// Gives the first IOAM option at or after the offset `cursor` of the packet that the octets begin with, in the Hop-by-Hop and
/// Destination Options headers of its chain, nested packets included. `OK`: `option` is that option, and `cursor` becomes the offset
/// after it. `END`: there is none. `CHAIN`: a header breaks the header chain. `NOT_IPV6` or `LENGTH`: the octets begin with no packet.
/// `cursor` and `option` stay unless the answer is `OK`.
#[unsafe(no_mangle)]
pub extern "C" fn ioam_next_option(
    octets: &[u8],
    cursor: &mut usize,
    option: &mut IoamOption,
) -> u32
    ensures { OverPacket (framing_of Layer.Raw false octets.now)
        (λ packet. GivesNext packet cursor.old option.old cursor.new option.new result)
        (λ status. (result ≡ status) × ((cursor.new ≡ cursor.old) × (option.new ≡ option.old))) }
{
    match packet_of(false, false, octets) {
        Framed::Packet(packet) => give_next(packet, cursor, option),
        Framed::NotIpv6 => NOT_IPV6,
        Framed::Cut | Framed::Length => LENGTH,
    }
}

// Gives the first IOAM option of a packet at or after an offset.
fn give_next(packet: &[u8], cursor: &mut usize, option: &mut IoamOption) -> u32
    requires { IsPacket packet.now }
    ensures { GivesNext packet.now cursor.old option.old cursor.new option.new result }
{
    match walk(packet) {
        Walk::Whole { .. } => give_found(find_option(packet, *cursor), cursor, option),
        Walk::Bad { .. } => CHAIN,
    }
}

// Gives what was found, if anything was.
fn give_found(
    found: Option<(IoamOption, usize)>,
    cursor: &mut usize,
    option: &mut IoamOption,
) -> u32
    ensures { Finds found cursor.old option.old cursor.new option.new result }
{
    match found {
        Some((first, end)) => {
            *option = first;
            *cursor = end;
            OK
        }
        None => END,
    }
}

// Finds the first IOAM option of a packet at or after an offset, and the offset after it.
fn find_option(packet: &[u8], from: usize) -> Option<(IoamOption, usize)>
    requires packet { IsPacket packet.now }
    requires sound { IsSound packet.now }
    ensures found { result ≡ option_map described (find (at_least from) (ioam_of packet.now)) }
    // These are the options that the packet's chain gives.
    ensures are { AreIoam packet.now (ioam_of packet.now) }
{
    for head in heads(packet) {
        match find_in(packet, &head, from) {
            Some(first) => return Some(first),
            None => {}
        }
    }
    None
}

// Finds the first of those of a header of the packet.
fn find_in(packet: &[u8], head: &Head, from: usize) -> Option<(IoamOption, usize)>
    requires { HeadFits packet.now head.now }
    ensures { result ≡ option_map described (find (at_least from) (ioam_in packet.now head.now)) }
{
    // A header ends within the packet, whose length is below 2^63.
    let _most = packet.len();
    if head.is_options() {
        find_among(
            &packet[head.range.start..head.range.end],
            head.range.start,
            from,
        )
    } else {
        None
    }
}

// Finds the first of those of an options header that starts at an offset of the packet.
fn find_among(head: &[u8], start: usize, from: usize) -> Option<(IoamOption, usize)>
    requires { start + length head.now < 2 ^ 63 }
    ensures { result ≡ option_map described (find (at_least from) (ioam_among start (options_in head.now))) }
{
    let mut at = 2;
    'options: while let Some(spot) = next_option(head, at) {
        if is_wanted(spot.kind, start + spot.at, from) {
            return Some(describe(head, start, spot));
        }
        at = spot.at + 2 + spot.size;
    }
    None
}

// Whether an option at an offset of the packet is an IOAM option at or after another.
fn is_wanted(kind: u8, at: usize, from: usize) -> bool
    ensures { result ≡ (is_ioam_type kind && nat_le from at) }
{
    is_ioam_type(kind) && from <= at
}

// Describes an option of a header that starts at an offset of the packet.
fn describe(head: &[u8], start: usize, spot: OptionSpot) -> (IoamOption, usize)
    requires within { spot_end spot ≤ length head.now }
    requires short { start + length head.now < 2 ^ 63 }
    ensures { result ≡ described (placed start (item_in head.now spot)) }
{
    let body = &head[spot.at + 2..spot.at + 2 + spot.size];
    let before = before_data(body.len());
    let (has_option_type, option_type) = option_type_of(body);
    let (has_namespace, namespace) = namespace_of(body);
    let at = start + spot.at;
    let option = IoamOption {
        header: start,
        offset: at,
        data_offset: at + 2 + before,
        data_length: body.len() - before,
        kind: spot.kind,
        has_option_type,
        option_type,
        has_namespace,
        namespace,
    };
    (option, at + 2 + body.len())
}

// How many octets of an option's data precede what its IOAM-Option-Type names.
fn before_data(size: usize) -> usize
    ensures value { result ≡ before_data size }
    ensures within { result ≤ size }
{
    if size <= 2 { size } else { 2 }
}

// Whether an option's data has an IOAM-Option-Type, and that type.
fn option_type_of(body: &[u8]) -> (u8, u8)
    ensures there { result.0 ≡ there_if (length body.now) 2 }
    ensures value { result.1 ≡ option_type_of body.now }
{
    if body.len() >= 2 {
        (1, body[1])
    } else {
        (0, 0)
    }
}

// Whether it has a Namespace-ID, and that.
fn namespace_of(body: &[u8]) -> (u8, u16)
    ensures there { result.0 ≡ there_if (length body.now) 4 }
    ensures value { result.1 ≡ namespace_of body.now }
{
    if body.len() >= 4 {
        (1, u16_at(body, 2))
    } else {
        (0, 0)
    }
}

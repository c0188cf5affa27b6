//! How many IOAM options a packet has.
ghost use Rattle.std.specs.Prelude.{◌≡◌, length, filter};
ghost use Rattle.ioam_ip.specs.Chain.{IsSound};
ghost use Rattle.ioam_ip.specs.ChainOptions.{HeadFits};
ghost use Rattle.ioam_ip.specs.Findings.{is_ioam};
ghost use Rattle.ioam_ip.specs.Options.{IsFilled};
ghost use Rattle.ioam_ip.specs.OptionsLeft.{options_from};
ghost use Rattle.ioam_ip.specs.Packet.{IsPacket};
ghost use Rattle.ioam_report_options.specs.OptionsText.{ioam_in, ioam_of, AreIoam};

use ioam_ip::option_type::is_ioam_type;
use ioam_ip::{Head, heads, options};

// How many IOAM options an options header has.
fn count_among(head: &[u8]) -> usize
    requires { IsFilled head.now }
    ensures { result ≡ length (filter is_ioam (options_from (length head.now) head.now 2)) }
{
    // An option has an octet or more, so the count is no greater than this.
    let _most = head.len();
    let mut count = 0;
    for option in options(head) {
        if is_ioam_type(option.kind) {
            count += 1;
        }
    }
    count
}

// How many a header of the packet has.
fn count_in(packet: &[u8], head: &Head) -> usize
    requires { HeadFits packet.now head.now }
    ensures { result ≡ length (ioam_in packet.now head.now) }
{
    if head.is_options() {
        count_among(&packet[head.range.start..head.range.end])
    } else {
        0
    }
}

/// How many IOAM options (type 0x11 or 0x31, RFC 9486 section 3) stand in the Hop-by-Hop and
/// Destination Options headers on the chain of a packet whose walk is whole, nested IPv6 headers
/// included.
pub fn count_options(packet: &[u8]) -> usize
    requires packet { IsPacket packet.now }
    requires sound { IsSound packet.now }
    ensures count { result ≡ length (ioam_of packet.now) }
    // These are the options that its chain gives.
    ensures are { AreIoam packet.now (ioam_of packet.now) }
{
    let mut count = 0;
    for head in heads(packet) {
        count += count_in(packet, &head);
    }
    count
}

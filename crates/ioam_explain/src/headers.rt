//! The rules about the IPv6 header and the presence and length of the Hop-by-Hop Options header.
ghost use Rattle.std.specs.Prelude.{◌≡◌, ◌+◌, ◌*◌, ◌/◌, ◌%◌, ◌<◌, ◌≤◌, ◌^◌, length, slice_index};
ghost use Rattle.ioam_base.specs.Octets.{u16_at};
ghost use Rattle.ioam_ip.specs.Hop.{has_hop};
ghost use Rattle.ioam_explain.specs.Headers.{flow_label, header_rules, hop_octets, limit_rule, lower_limit, presence_rules, traffic_class};
ghost use Rattle.ioam_explain.specs.Rows.{first_broken};
ghost use Rattle.ioam_explain.specs.declared.reason.Value.TheVariants.{Number};

use crate::reason::{Reason, Rule, Value};
use crate::rows::{differing, first_broken, number, row};
use ioam_base::octets::u16_at;
use ioam_ip::next_header::HOP_BY_HOP;
use ioam_ip::{HEADER_OCTETS, HOP_LIMIT, NEXT_HEADER};

// The octet of Payload Length.
const PAYLOAD_LENGTH: usize = 4;

// Whether a Hop-by-Hop Options header follows the IPv6 header.
fn has_hop(packet: &[u8]) -> bool
    requires { 40 ≤ length packet.now }
    ensures { result ≡ has_hop packet.now }
{
    packet[NEXT_HEADER] == HOP_BY_HOP
}

/// The octets of the Hop-by-Hop Options header, 0 if it isn't there or passes the packet.
#[tactic(auto, unfolding(crate::specs::Headers::hop_octets))]
pub(crate) fn hop_octets(packet: &[u8]) -> usize
    requires { 40 ≤ length packet.now }
    ensures value { result ≡ hop_octets packet.now }
    ensures most { result ≤ 2048 }
    ensures within { 40 + result ≤ length packet.now }
    ensures whole { 0 < result → 8 ≤ result }
{
    if !has_hop(packet) || packet.len() < HEADER_OCTETS + 8 {
        return 0;
    }
    let size = (usize::from(packet[HEADER_OCTETS + 1]) + 1) * 8;
    if HEADER_OCTETS + size <= packet.len() {
        size
    } else {
        0
    }
}

// What Payload Length says.
fn payload_length(packet: &[u8]) -> Value
    requires { 40 ≤ length packet.now }
    ensures { result ≡ Number (u16_at packet.now 4) }
{
    Value::Number(u64::from(u16_at(packet, PAYLOAD_LENGTH)))
}

// The traffic class.
fn traffic_class(packet: &[u8]) -> u64
    requires { 40 ≤ length packet.now }
    ensures { result ≡ traffic_class packet.now }
{
    u64::from(u16_at(packet, 0)) / 16 % 256
}

// The flow label.
fn flow_label(packet: &[u8]) -> u64
    requires { 40 ≤ length packet.now }
    ensures { result ≡ flow_label packet.now }
{
    u64::from(packet[1]) % 16 * 65_536 + u64::from(u16_at(packet, 2))
}

// The hop limit that a router sends a packet on with.
#[tactic(auto, unfolding(crate::specs::Headers::lower_limit))]
fn lower_limit(limit: u8) -> Value
    ensures { result ≡ lower_limit limit }
{
    if limit < 2 {
        Value::Nothing
    } else {
        Value::Number(u64::from(limit) - 1)
    }
}

/// The first rule that is broken about the presence and the length of the Hop-by-Hop Options header, and the packet's length.
#[tactic(auto, unfolding(crate::specs::Headers::presence_rules))]
pub(crate) fn presence_rules(before: &[u8], after: &[u8]) -> Option<Reason>
    requires before { 40 ≤ length before.now }
    requires after { 40 ≤ length after.now }
    ensures { result ≡ first_broken (presence_rules before.now after.now) }
{
    let found = hop_octets(after) as u64;
    let wanted = hop_octets(before) as u64;
    let inserted = !has_hop(before) && has_hop(after);
    let removed = has_hop(before) && !has_hop(after);
    let resized = after.len() != before.len();
    first_broken(&[
        row(
            inserted,
            Rule::HeaderInserted,
            0,
            NEXT_HEADER,
            Value::Number(found),
            Value::Nothing,
        ),
        row(
            removed,
            Rule::HeaderRemoved,
            0,
            NEXT_HEADER,
            Value::Nothing,
            Value::Number(wanted),
        ),
        number(Rule::HeaderLength, 0, HEADER_OCTETS + 1, found, wanted),
        row(
            resized,
            Rule::PayloadLength,
            0,
            PAYLOAD_LENGTH,
            payload_length(after),
            payload_length(before),
        ),
    ])
}

// A hop limit that isn't one less.
fn hop_limit(found: u8, limit: u8) -> Option<Reason>
    ensures { result ≡ limit_rule found limit }
{
    row(
        limit < 2 || u16::from(found) + 1 != u16::from(limit),
        Rule::HopLimit,
        0,
        HOP_LIMIT,
        Value::Number(u64::from(found)),
        lower_limit(limit),
    )
}

/// The first rule that is broken about the IPv6 header.
#[tactic(auto, unfolding(crate::specs::Headers::header_rules))]
pub(crate) fn header_rules(before: &[u8], after: &[u8]) -> Option<Reason>
    requires before { 40 ≤ length before.now }
    requires after { 40 ≤ length after.now }
    ensures { result ≡ first_broken (header_rules before.now after.now) }
{
    let found = u64::from(after[NEXT_HEADER]);
    let wanted = u64::from(before[NEXT_HEADER]);
    first_broken(&[
        number(
            Rule::TrafficClass,
            0,
            0,
            traffic_class(after),
            traffic_class(before),
        ),
        number(Rule::FlowLabel, 0, 1, flow_label(after), flow_label(before)),
        number(Rule::NextHeader, 0, NEXT_HEADER, found, wanted),
        hop_limit(after[HOP_LIMIT], before[HOP_LIMIT]),
        differing(Rule::Source, 0, 8, &after[8..24], &before[8..24]),
        differing(Rule::Destination, 0, 24, &after[24..40], &before[24..40]),
    ])
}

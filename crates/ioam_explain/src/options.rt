//! The rules about the options of the Hop-by-Hop Options header (RFC 8200 section 4.2).
ghost use Rattle.std.specs.Prelude.{◌≡◌, ℕ, ◌+◌, ◌<◌, ◌≤◌, ◌^◌, length, slice_range};
ghost use Rattle.ioam_ip.specs.Rewriting.{options_in};
ghost use Rattle.ioam_ip.specs.Spot.{item_in, spot_end};
ghost use Rattle.ioam_node_visit.specs.Step.{knows};
ghost use Rattle.ioam_explain.specs.Options.{data_rule, data_rules, front_rules, is_trace, item_rules, items_rules, options_rules, trace_count, upper_rule};
ghost use Rattle.ioam_explain.specs.Rows.{first_broken};

use crate::headers::hop_octets;
use crate::reason::{Reason, Rule};
use crate::rows::{differing, first_broken, number, octet};
use crate::trace::body_rules;
use ioam_audit::Sight;
use ioam_base::octets::u16_at;
use ioam_data::Namespace;
use ioam_data::option_type::{IN_FRONT, holds_trace};
use ioam_ip::option_type::IOAM_CHANGING;
use ioam_ip::{HEADER_OCTETS, OptionSpot, next_option};
use ioam_topo::{Domain, NodeId};
use ioam_trace::HEAD_OCTETS;

/// The node that sent a packet on.
#[derive(Clone, Copy)]
pub(crate) struct AuditedNode<'a> {
    /// Its domain.
    pub domain: &'a Domain,
    /// Its index there.
    pub node: NodeId,
    /// What an element that it added must say.
    pub sight: Sight,
}

// Whether an option is a trace.
fn is_trace(kind: u8, body: &[u8]) -> bool
    ensures { result ≡ is_trace kind body.now }
{
    kind == IOAM_CHANGING && body.len() >= IN_FRONT + HEAD_OCTETS && holds_trace(body)
}

// The traces that an option counts for.
fn trace_count(kind: u8, body: &[u8]) -> usize
    ensures value { result ≡ trace_count kind body.now }
    ensures most { result ≤ 1 }
{
    if is_trace(kind, body) { 1 } else { 0 }
}

// The rule about the data of an option that is no trace.
fn data_rule(kind: u8) -> Rule
    ensures { result ≡ data_rule kind }
{
    if kind / 32 % 2 == 1 {
        Rule::OptionChanged
    } else {
        Rule::OptionData
    }
}

// The first rule that is broken about the data of an option, after `traces` traces.
#[tactic(auto, unfolding(crate::specs::Trace::body_rules), using(crate::proofs::FirstLaws::only))]
fn data_rules(
    audited: &AuditedNode<'_>,
    traces: usize,
    at: usize,
    kind: u8,
    old: &[u8],
    new: &[u8],
) -> Option<Reason>
    requires at { at < 2 ^ 30 }
    requires traces { traces < 2 ^ 30 }
    requires same { length new.now ≡ length old.now }
    ensures { result ≡ first_broken (data_rules (knows audited.now.domain.now audited.now.node.0) audited.now.sight.hops audited.now.sight.id audited.now.sight.inward
        traces at kind old.now new.now) }
{
    if !is_trace(kind, old) {
        return differing(data_rule(kind), 0, at + 2, new, old);
    }
    let namespace = Namespace(u16_at(old, IN_FRONT));
    let knows = audited.domain.knows(audited.node, namespace);
    body_rules(audited.sight, knows, traces + 1, at + 2, old, new)
}

// The first rule that is broken about the padding before an option, and its type and length.
#[tactic(auto, unfolding(crate::specs::Options::front_rules))]
fn front_rules(from: usize, old: &[u8], spot: OptionSpot, new: &[u8]) -> Option<Reason>
    requires order { from ≤ spot.at }
    requires within { spot_end spot ≤ length old.now }
    requires short { length old.now < 2 ^ 20 }
    requires same { length new.now ≡ length old.now }
    ensures { result ≡ first_broken (front_rules from old.now (item_in old.now spot) new.now) }
{
    let at = HEADER_OCTETS + spot.at;
    let size = u64::from(new[spot.at + 1]);
    first_broken(&[
        differing(
            Rule::Padding,
            0,
            HEADER_OCTETS + from,
            &new[from..spot.at],
            &old[from..spot.at],
        ),
        octet(Rule::OptionType, 0, at, new[spot.at], spot.kind),
        number(Rule::OptionLength, 0, at + 1, size, spot.size as u64),
    ])
}

// The first rule that is broken about an option and the padding before it.
#[tactic(auto, unfolding(crate::specs::Options::item_rules), using(crate::proofs::FirstLaws::found, crate::proofs::FirstLaws::passed))]
fn item_rules(
    audited: &AuditedNode<'_>,
    traces: usize,
    from: usize,
    old: &[u8],
    spot: OptionSpot,
    new: &[u8],
) -> Option<Reason>
    requires traces { traces < 2 ^ 30 }
    requires order { from ≤ spot.at }
    requires within { spot_end spot ≤ length old.now }
    requires short { length old.now < 2 ^ 20 }
    requires same { length new.now ≡ length old.now }
    ensures { result ≡ first_broken (item_rules (knows audited.now.domain.now audited.now.node.0) audited.now.sight.hops audited.now.sight.id audited.now.sight.inward
        traces from old.now (item_in old.now spot) new.now) }
{
    if let Some(reason) = front_rules(from, old, spot, new) {
        return Some(reason);
    }
    let start = spot.at + 2;
    let end = start + spot.size;
    data_rules(
        audited,
        traces,
        HEADER_OCTETS + spot.at,
        spot.kind,
        &old[start..end],
        &new[start..end],
    )
}

// The first rule that is broken about the options of a header, and the padding around them.
#[tactic(auto, using(crate::proofs::OptionsLaws::at_passed))]
fn items_rules(audited: &AuditedNode<'_>, old: &[u8], new: &[u8]) -> Option<Reason>
    requires long { 2 ≤ length old.now }
    requires short { length old.now < 2 ^ 20 }
    requires same { length new.now ≡ length old.now }
    ensures { result ≡ first_broken (items_rules (knows audited.now.domain.now audited.now.node.0) audited.now.sight.hops audited.now.sight.id audited.now.sight.inward
        0 2 old.now (options_in old.now) new.now) }
{
    let mut from = 2;
    let mut traces = 0;
    'options: while let Some(spot) = next_option(old, from) {
        if let Some(reason) = item_rules(audited, traces, from, old, spot, new) {
            return Some(reason);
        }
        let start = spot.at + 2;
        from = start + spot.size;
        traces += trace_count(spot.kind, &old[start..from]);
    }
    let at = HEADER_OCTETS + from;
    differing(Rule::Padding, 0, at, &new[from..], &old[from..])
}

// Next Header of the Hop-by-Hop Options header.
#[tactic(auto, unfolding(crate::specs::Options::upper_rule))]
fn upper_rule(before: &[u8], after: &[u8]) -> Option<Reason>
    requires before { 41 ≤ length before.now }
    requires same { length after.now ≡ length before.now }
    ensures { result ≡ upper_rule before.now after.now }
{
    let found = u64::from(after[HEADER_OCTETS]);
    let wanted = u64::from(before[HEADER_OCTETS]);
    number(Rule::NextHeader, 0, HEADER_OCTETS, found, wanted)
}

/// The first rule that is broken about the Hop-by-Hop Options header, if there is one.
#[tactic(auto, unfolding(crate::specs::Options::options_rules), using(crate::proofs::FirstLaws::found_one, crate::proofs::FirstLaws::passed_one))]
pub(crate) fn options_rules(
    audited: &AuditedNode<'_>,
    before: &[u8],
    after: &[u8],
) -> Option<Reason>
    requires before { 40 ≤ length before.now }
    requires same { length after.now ≡ length before.now }
    ensures { result ≡ first_broken (options_rules (knows audited.now.domain.now audited.now.node.0) audited.now.sight.hops audited.now.sight.id audited.now.sight.inward
        before.now after.now) }
{
    let octets = hop_octets(before);
    if octets == 0 {
        return None;
    }
    if let Some(reason) = upper_rule(before, after) {
        return Some(reason);
    }
    let end = HEADER_OCTETS + octets;
    items_rules(
        audited,
        &before[HEADER_OCTETS..end],
        &after[HEADER_OCTETS..end],
    )
}

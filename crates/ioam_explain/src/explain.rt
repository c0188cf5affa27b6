//! Why a router may not have sent a packet on as another.
ghost use Rattle.std.specs.Prelude.{◌≡◌, ◌<◌, ◌≤◌, IfSome, MatchOption, length, slice_get, slice_index};
ghost use Rattle.ioam_audit.specs.Sent.{IsSentAs, end_of};
ghost use Rattle.ioam_ip.specs.Chain.{IsSound};
ghost use Rattle.ioam_ip.specs.Packet.{IsPacket};
ghost use Rattle.ioam_node_visit.specs.Seeing.{id_of};
ghost use Rattle.ioam_topo.specs.Domain.{links, nodes};
ghost use Rattle.ioam_explain.specs.Rows.{first_broken};
ghost use Rattle.ioam_explain.specs.Why.{or_other, payload_rule, rules};

use crate::headers::{header_rules, hop_octets, presence_rules};
use crate::options::{AuditedNode, options_rules};
use crate::reason::{Reason, Rule, Value};
use crate::rows::differing;
use ioam_audit::{Sight, legal};
use ioam_ip::{HEADER_OCTETS, HOP_LIMIT};
use ioam_topo::{Domain, LinkId, NodeId};

// The rule about all octets after the headers.
#[tactic(auto, unfolding(crate::specs::Why::payload_rule))]
fn payload_rule(before: &[u8], after: &[u8]) -> Option<Reason>
    requires before { 40 ≤ length before.now }
    requires same { length after.now ≡ length before.now }
    ensures { result ≡ payload_rule before.now after.now }
{
    let end = HEADER_OCTETS + hop_octets(before);
    differing(Rule::Payload, 0, end, &after[end..], &before[end..])
}

// The node that sent a packet on, which came to it by a link.
fn audited_node<'a>(domain: &'a Domain, node: NodeId, link: LinkId, after: &[u8]) -> AuditedNode<'a>
    requires node { node.0 < length (nodes domain.now) }
    requires link { link.0 < length (links domain.now) }
    requires after { 40 ≤ length after.now }
    ensures domain { result.domain.now ≡ domain.now }
    ensures node { result.node.0 ≡ node.0 }
    ensures hops { result.sight.hops ≡ slice_index after.now 7 }
    ensures id { result.sight.id ≡ id_of (slice_get (nodes domain.now) node.0) }
    ensures inward { result.sight.inward ≡ end_of (slice_get (links domain.now) link.0) }
{
    let id = domain.node(node).id;
    AuditedNode {
        domain,
        node,
        sight: Sight::new(after[HOP_LIMIT], id, domain.link(link).in_id),
    }
}

// The first rule that is broken.
#[tactic(auto, unfolding(crate::specs::Why::rules), using(crate::proofs::FirstLaws::found, crate::proofs::FirstLaws::passed, crate::proofs::FirstLaws::only, crate::proofs::PresenceLaws::same_long))]
fn broken(
    domain: &Domain,
    node: NodeId,
    link: LinkId,
    before: &[u8],
    after: &[u8],
) -> Option<Reason>
    requires node { node.0 < length (nodes domain.now) }
    requires link { link.0 < length (links domain.now) }
    requires before { 40 ≤ length before.now }
    requires after { 40 ≤ length after.now }
    ensures { result ≡ first_broken (rules domain.now node.0 (end_of (slice_get (links domain.now) link.0)) before.now after.now) }
{
    if let Some(reason) = presence_rules(before, after) {
        return Some(reason);
    }
    if let Some(reason) = header_rules(before, after) {
        return Some(reason);
    }
    let audited = audited_node(domain, node, link, after);
    if let Some(reason) = options_rules(&audited, before, after) {
        return Some(reason);
    }
    payload_rule(before, after)
}

// The reason of a packet that isn't legal.
fn or_other(reason: Option<Reason>) -> Reason
    ensures { result ≡ or_other reason }
{
    match reason {
        Some(reason) => reason,
        None => Reason {
            rule: Rule::Other,
            trace: 0,
            at: 0,
            found: Value::Nothing,
            wanted: Value::Nothing,
        },
    }
}

/// Why a node of a domain, which `before` reached by this link, may not have sent it on as `after`: the first rule of
/// the list that `after` breaks, in the order of the packet. None exactly if `after` is legal, as [`legal`] says. A
/// packet that breaks no rule, and isn't legal, gets [`Rule::Other`]. Takes no memory.
pub fn why(
    domain: &Domain,
    node: NodeId,
    link: LinkId,
    before: &[u8],
    after: &[u8],
) -> Option<Reason>
    requires node { node.0 < length (nodes domain.now) }
    requires link { link.0 < length (links domain.now) }
    requires packet { IsPacket before.now }
    requires sound { IsSound before.now }
    requires after { IsPacket after.now }
    // A packet has a reason exactly if it isn't legal.
    ensures legal { MatchOption result (IsSentAs domain.now node.0 (end_of (slice_get (links domain.now) link.0)) before.now after.now)
        (λ reason. ¬ IsSentAs domain.now node.0 (end_of (slice_get (links domain.now) link.0)) before.now after.now) }
    // It is the first rule that is broken.
    ensures first { IfSome result (λ reason. reason ≡ or_other (first_broken (rules domain.now node.0 (end_of (slice_get (links domain.now) link.0)) before.now after.now))) }
{
    if legal(domain, node, link, before, after) {
        return None;
    }
    Some(or_other(broken(domain, node, link, before, after)))
}

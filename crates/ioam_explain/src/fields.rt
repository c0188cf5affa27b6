//! The rules about the element that a node adds to a trace, field by field (RFC 9197 section 4.4.2).
ghost use Rattle.std.specs.Prelude.{◌≡◌, ℕ, ◌+◌, ◌*◌, ◌-◌, ◌<◌, ◌≤◌, ◌^◌, length, Some};
ghost use Rattle.ioam_data.specs.Fields.{fields_of, held};
ghost use Rattle.ioam_data.specs.Kind.{where_has, words};
ghost use Rattle.ioam_data.specs.Table.{rows, words_by};
ghost use Rattle.ioam_data.specs.Written.{narrow_face, narrow_id};
ghost use Rattle.ioam_explain.specs.Fields.{HasRoom, allows, delay_rule, element_rules, field_rules, hop_rule, id_rule, ingress_rule, interface_rule, ones_rule, or_absent, or_dash, snapshot_rule, wide_egress_rule, wide_ingress_rule, wide_wanted};
ghost use Rattle.ioam_explain.specs.Rows.{first_broken};

use crate::reason::{Reason, Rule, Value};
use crate::rows::{differing, first_broken, number, row};
use ioam_audit::Sight;
use ioam_data::{Fields, TraceType, bit, fields, narrow_face, narrow_id};

// A field of all ones in 16 bits, and in 32.
const ONES: u64 = 0xFFFF;

const WIDE_ONES: u64 = 0xFFFF_FFFF;

// The longest delay that is written.
const LONGEST: u32 = 1 << 31;

// The most octets that NodeLen counts.
const MOST: usize = 4 * 31;

// A number of a field of which all ones are `ones`.
fn or_dash(ones: u64, number: u64) -> Value
    ensures { result ≡ or_dash ones number }
{
    if number == ones {
        Value::Ones
    } else {
        Value::Number(number)
    }
}

// The number or all ones.
fn or_absent(ones: u64, number: u64) -> Value
    ensures { result ≡ or_absent ones number }
{
    if number == ones {
        Value::Ones
    } else {
        Value::OrOnes(number)
    }
}

// Whether a value allows a number.
fn allows(ones: u64, wanted: Value, found: u64) -> bool
    ensures { result ≡ allows ones wanted found }
{
    match wanted {
        Value::Number(number) => found == number,
        Value::Octet(octet) => found == u64::from(octet),
        Value::OrOnes(number) => found == number || found == ones,
        Value::Ones | Value::Nothing => found == ones,
    }
}

// The interface inward in 16 bits.
fn narrow(inward: u32) -> u64
    ensures value { result ≡ narrow_face (Some inward) }
{
    u64::from(narrow_face(Some(inward)))
}

// What bit 9 may have for the interface inward, by what bit 1 has.
fn wide_wanted(inward: u32, faces: Option<(u16, u16)>) -> Value
    ensures { result ≡ wide_wanted inward faces }
{
    let Some((face, _)) = faces else {
        return or_absent(WIDE_ONES, u64::from(inward));
    };
    if narrow(inward) == ONES {
        or_absent(WIDE_ONES, u64::from(inward))
    } else if u64::from(face) == narrow(inward) {
        Value::Number(u64::from(inward))
    } else {
        Value::Ones
    }
}

// Hop_Lim and the id of bit 0, as bit 8 has them.
fn widened(hop_node: Option<(u8, u32)>) -> Option<(u8, u64)>
    ensures { result ≡ hop_node }
{
    match hop_node {
        Some((hops, id)) => Some((hops, u64::from(id))),
        None => None,
    }
}

// Bits 0 and 8: the hop limit.
fn hop_rule(
    trace: usize,
    at: usize,
    rule: Rule,
    hops: u8,
    found: Option<(u8, u64)>,
) -> Option<Reason>
    ensures { result ≡ hop_rule trace at rule hops found }
{
    match found {
        Some((found, _)) => number(rule, trace, at, u64::from(found), u64::from(hops)),
        None => None,
    }
}

// Bits 0 and 8: the node's id.
fn id_rule(trace: usize, at: usize, rule: Rule, id: u64, found: Option<(u8, u64)>) -> Option<Reason>
    requires { at < 2 ^ 62 }
    ensures { result ≡ id_rule trace at rule id found }
{
    match found {
        Some((_, found)) => number(rule, trace, at + 1, found, id),
        None => None,
    }
}

// An interface that a value allows.
fn interface_rule(
    trace: usize,
    at: usize,
    rule: Rule,
    ones: u64,
    wanted: Value,
    found: u64,
) -> Option<Reason>
    ensures { result ≡ interface_rule trace at rule ones wanted found }
{
    row(
        !allows(ones, wanted, found),
        rule,
        trace,
        at,
        or_dash(ones, found),
        wanted,
    )
}

// Bit 1: the interface by which the packet came.
fn ingress_rule(trace: usize, at: usize, inward: u32, faces: Option<(u16, u16)>) -> Option<Reason>
    ensures { result ≡ ingress_rule trace at inward faces }
{
    let Some((face, _)) = faces else {
        return None;
    };
    let wanted = or_absent(ONES, narrow(inward));
    interface_rule(trace, at, Rule::IngressIfId, ONES, wanted, u64::from(face))
}

// Bit 4: the transit delay.
fn delay_rule(trace: usize, at: usize, delay: Option<u32>) -> Option<Reason>
    ensures { result ≡ delay_rule trace at delay }
{
    let Some(delay) = delay else {
        return None;
    };
    row(
        delay > LONGEST && delay != u32::MAX,
        Rule::TransitDelay,
        trace,
        at,
        Value::Number(u64::from(delay)),
        Value::Number(u64::from(LONGEST)),
    )
}

// Bit 9: the interface by which the packet came.
fn wide_ingress_rule(
    trace: usize,
    at: usize,
    inward: u32,
    faces: Option<(u16, u16)>,
    wide: Option<(u32, u32)>,
) -> Option<Reason>
    ensures { result ≡ wide_ingress_rule trace at inward faces wide }
{
    let Some((face, _)) = wide else {
        return None;
    };
    let wanted = wide_wanted(inward, faces);
    interface_rule(
        trace,
        at,
        Rule::IngressIfIdWide,
        WIDE_ONES,
        wanted,
        u64::from(face),
    )
}

// Bit 9: the interface by which it left, as bit 1 has it.
fn wide_egress_rule(
    trace: usize,
    at: usize,
    faces: Option<(u16, u16)>,
    wide: Option<(u32, u32)>,
) -> Option<Reason>
    requires { at < 2 ^ 62 }
    ensures { result ≡ wide_egress_rule trace at faces wide }
{
    let (Some((_, face)), Some((_, wide))) = (faces, wide) else {
        return None;
    };
    row(
        narrow(wide) != u64::from(face),
        Rule::EgressIfIdWide,
        trace,
        at + 4,
        or_dash(WIDE_ONES, u64::from(wide)),
        or_dash(ONES, u64::from(face)),
    )
}

// The words of a field, if a type has its bit.
fn part(kind: TraceType, bit: u8, words: usize) -> usize
    requires { bit < 24 }
    ensures value { result ≡ where_has kind bit words }
    ensures most { result ≤ words }
{
    if kind.has(bit) { words } else { 0 }
}

// The words of an element before the fields of some bits.
#[derive(Clone, Copy)]
struct Before {
    bit_1: usize,
    bit_4: usize,
    bit_8: usize,
    bit_9: usize,
}

// The words before the fields of bits 1, 4, 8 and 9.
#[tactic(auto, unfolding(ioam_data::specs::Table::table))]
fn words_before(kind: TraceType) -> Before
    ensures bit_1 { result.bit_1 ≡ words_by (rows 0 1) kind }
    ensures bit_4 { result.bit_4 ≡ words_by (rows 0 4) kind }
    ensures bit_8 { result.bit_8 ≡ words_by (rows 0 8) kind }
    ensures bit_9 { result.bit_9 ≡ words_by (rows 0 9) kind }
    ensures order { (result.bit_1 ≤ 10) × (result.bit_4 ≤ 10) × (result.bit_8 ≤ 10) × (result.bit_9 ≤ 10) }
{
    let bit_1 = part(kind, bit::HOP_NODE, 1);
    let bits_1_to_3 = part(kind, bit::INTERFACES, 1)
        + part(kind, bit::SECONDS, 1)
        + part(kind, bit::FRACTION, 1);
    let bits_4_to_7 = part(kind, bit::DELAY, 1)
        + part(kind, bit::SHORT_DATA, 1)
        + part(kind, bit::QUEUE, 1)
        + part(kind, bit::CHECKSUM, 1);
    let bit_8 = bit_1 + bits_1_to_3 + bits_4_to_7;
    Before {
        bit_1,
        bit_4: bit_1 + bits_1_to_3,
        bit_8,
        bit_9: bit_8 + part(kind, bit::WIDE_HOP_NODE, 2),
    }
}

// The words up to NodeLen after the fields are all ones.
#[tactic(auto, using(crate::proofs::ElementLaws::all_ones))]
fn ones_rule(trace: usize, at: usize, fill: &[u8]) -> Option<Reason>
    requires at { at < 2 ^ 62 }
    requires most { length fill.now ≤ 124 }
    ensures { result ≡ ones_rule trace at fill.now }
{
    let ones = [0xFF; MOST];
    differing(Rule::UndefinedBits, trace, at, fill, &ones[..fill.len()])
}

// The first rule that is broken about the fields of an element, which begins at octet `at`.
#[tactic(auto, unfolding(crate::specs::Fields::field_rules))]
fn field_rules(
    sight: Sight,
    trace: usize,
    at: usize,
    kind: TraceType,
    fields: &Fields<'_>,
) -> Option<Reason>
    requires at { at < 2 ^ 60 }
    requires most { length fields.now.fill.now ≤ 124 }
    ensures { result ≡ first_broken (field_rules sight.hops sight.id sight.inward trace at kind (held fields.now)) }
{
    let before = words_before(kind);
    let (inward, faces, wide) = (sight.inward, fields.faces, fields.wide_faces);
    let hop_node = widened(fields.hop_node);
    let wide_hop_node = fields.wide_hop_node;
    let id = u64::from(narrow_id(sight.id));
    let bit_8 = at + 4 * before.bit_8;
    let bit_9 = at + 4 * before.bit_9;
    let fill = at + 4 * usize::from(kind.words());
    first_broken(&[
        hop_rule(trace, at, Rule::HopLim, sight.hops, hop_node),
        id_rule(trace, at, Rule::NodeId, id, hop_node),
        ingress_rule(trace, at + 4 * before.bit_1, inward, faces),
        delay_rule(trace, at + 4 * before.bit_4, fields.delay),
        hop_rule(trace, bit_8, Rule::HopLimWide, sight.hops, wide_hop_node),
        id_rule(trace, bit_8, Rule::NodeIdWide, sight.id, wide_hop_node),
        wide_ingress_rule(trace, bit_9, inward, faces, wide),
        wide_egress_rule(trace, bit_9, faces, wide),
        ones_rule(trace, fill, fields.fill),
    ])
}

// Bit 22: Length counts the words of the snapshot's data.
fn snapshot_rule(
    trace: usize,
    at: usize,
    kind: TraceType,
    node_len: u8,
    element: &[u8],
) -> Option<Reason>
    requires at { at < 2 ^ 60 }
    requires node_len { node_len < 32 }
    requires size { HasRoom kind node_len (length element.now) }
    ensures { result ≡ snapshot_rule trace at kind node_len element.now }
{
    if !kind.has_snapshot() {
        return None;
    }
    let start = 4 * usize::from(node_len);
    let wanted = element.len() / 4 - usize::from(node_len) - 1;
    number(
        Rule::SnapshotLength,
        trace,
        at + start,
        u64::from(element[start]),
        wanted as u64,
    )
}

/// The first rule that is broken about an element, which begins at octet `at`.
#[tactic(auto, using(crate::proofs::FirstLaws::found_one, crate::proofs::FirstLaws::passed_one, crate::proofs::ElementLaws::no_words, crate::proofs::ElementLaws::some_words, crate::proofs::ElementLaws::is_element, crate::proofs::ElementLaws::fill_long))]
pub(crate) fn element_rules(
    sight: Sight,
    trace: usize,
    at: usize,
    kind: TraceType,
    node_len: u8,
    element: &[u8],
) -> Option<Reason>
    requires at { at < 2 ^ 60 }
    requires node_len { node_len < 32 }
    requires room { words kind ≤ node_len }
    requires size { HasRoom kind node_len (length element.now) }
    ensures { result ≡ first_broken (element_rules sight.hops sight.id sight.inward trace at kind node_len element.now) }
{
    if element.is_empty() {
        return None;
    }
    if let Some(reason) = snapshot_rule(trace, at, kind, node_len, element) {
        return Some(reason);
    }
    field_rules(sight, trace, at, kind, &fields(kind, node_len, element))
}

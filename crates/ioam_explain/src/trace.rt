//! The rules about a pre-allocated trace (RFC 9197 section 4.4.1).
ghost use Rattle.std.specs.Prelude.{◌≡◌, ℕ, ◌+◌, ◌-◌, ◌*◌, ◌<◌, ◌≤◌, ◌^◌, ◌++◌, length, drop, true, None};
ghost use Rattle.ioam_base.specs.Octets.{u16_at};
ghost use Rattle.ioam_data.specs.Kind.{undefined, where_has, words};
ghost use Rattle.ioam_trace.specs.Head.{kind_of, node_len_of, overflow_of, remaining_of};
ghost use Rattle.ioam_explain.specs.Rows.{first_broken};
ghost use Rattle.ioam_explain.specs.Trace.{added_rules, falls, fits, front_rules, head_rules, left_by, least, open_rules, other_flags, overflow_rules, room_rules, rules_by, same_rules, suits, words_rules};
ghost use Rattle.ioam_explain.specs.declared.reason.Value.TheVariants.{Number};

use crate::common::common;
use crate::fields::element_rules;
use crate::reason::{Reason, Rule, Value};
use crate::rows::{differing, first_broken, number, octet, row};
use ioam_audit::Sight;
use ioam_data::TraceType;
use ioam_data::option_type::IN_FRONT;
use ioam_trace::{HEAD_OCTETS, Lengths, TRACE_TYPE};

// Whether NodeLen suits a type.
fn suits(kind: TraceType, node_len: u8) -> bool
    ensures { result ≡ suits kind node_len }
{
    if kind.undefined() == 0 {
        node_len == kind.words()
    } else {
        kind.words() <= node_len
    }
}

// The rule by which a trace must be left as it is, if there is one.
#[tactic(auto, unfolding(crate::specs::Trace::left_by))]
fn left_by(knows: bool, old: &[u8]) -> Option<Rule>
    requires { 8 ≤ length old.now }
    ensures { result ≡ left_by knows old.now }
{
    let lengths = Lengths::read(old);
    let kind = TraceType::at(old, TRACE_TYPE);
    if !knows {
        Some(Rule::LeftNamespace)
    } else if lengths.is_over() {
        Some(Rule::LeftOverflow)
    } else if old.len() % 4 != 0 {
        Some(Rule::LeftPartWord)
    } else if old.len() < lengths.used() {
        Some(Rule::LeftRemainingLen)
    } else if !suits(kind, lengths.node_len()) {
        Some(Rule::LeftNodeLen)
    } else if kind.bits() / 2 == 0 {
        Some(Rule::LeftNoField)
    } else {
        None
    }
}

// The flags but Overflow.
fn other_flags(octets: &[u8]) -> u64
    requires { 8 ≤ length octets.now }
    ensures { result ≡ other_flags octets.now }
{
    u64::from(Lengths::read(octets).0) / 128 % 8
}

// The words of the shortest element that can be added.
fn least(old: &[u8]) -> u8
    requires { 8 ≤ length old.now }
    ensures value { result ≡ least old.now }
    ensures most { result ≤ 32 }
{
    let snapshot = TraceType::at(old, TRACE_TYPE).has_snapshot();
    Lengths::read(old).node_len() + if snapshot { 1 } else { 0 }
}

// RemainingLen.
fn remaining(octets: &[u8]) -> u8
    requires { 8 ≤ length octets.now }
    ensures value { result ≡ remaining_of octets.now }
    ensures below { result < 128 }
{
    Lengths::read(octets).remaining()
}

// Whether an element may fit.
fn fits(old: &[u8]) -> bool
    requires { 8 ≤ length old.now }
    ensures { result ≡ fits old.now }
{
    least(old) <= remaining(old)
}

// Whether RemainingLen falls by the words of an element.
fn falls(old: &[u8], now: u8) -> bool
    requires { 8 ≤ length old.now }
    ensures { result ≡ falls old.now now }
{
    let wanted = remaining(old).saturating_sub(least(old));
    now == wanted || TraceType::at(old, TRACE_TYPE).has_snapshot() && now < wanted
}

// What RemainingLen is to be.
fn wanted_remaining(old: &[u8]) -> Value
    requires { 8 ≤ length old.now }
    ensures { result ≡ Number (remaining_of old.now - least old.now) }
{
    Value::Number(u64::from(remaining(old).saturating_sub(least(old))))
}

// A trace that hasn't changed.
#[tactic(auto, unfolding(crate::specs::Trace::same_rules))]
fn same_rules(trace: usize, at: usize, old: &[u8]) -> Option<Reason>
    requires at { at < 2 ^ 60 }
    requires long { 8 ≤ length old.now }
    ensures { result ≡ first_broken (same_rules trace at old.now) }
{
    let adds = TraceType::at(old, TRACE_TYPE).undefined() == 0;
    let found = Value::Number(u64::from(remaining(old)));
    first_broken(&[
        row(
            adds && fits(old),
            Rule::ElementMissing,
            trace,
            at + 3,
            found,
            wanted_remaining(old),
        ),
        row(
            adds && !fits(old),
            Rule::OverflowMissing,
            trace,
            at + 2,
            Value::Number(0),
            Value::Number(1),
        ),
    ])
}

// The header but for Overflow and RemainingLen.
#[tactic(auto, unfolding(crate::specs::Trace::head_rules))]
fn head_rules(trace: usize, at: usize, old: &[u8], new: &[u8]) -> Option<Reason>
    requires at { at < 2 ^ 60 }
    requires long { 8 ≤ length old.now }
    requires same { length new.now ≡ length old.now }
    ensures { result ≡ first_broken (head_rules trace at old.now new.now) }
{
    let found = u64::from(Lengths::read(new).node_len());
    let wanted = u64::from(Lengths::read(old).node_len());
    first_broken(&[
        differing(Rule::NamespaceId, trace, at, &new[..2], &old[..2]),
        number(Rule::NodeLen, trace, at + 2, found, wanted),
        number(
            Rule::Flags,
            trace,
            at + 2,
            other_flags(new),
            other_flags(old),
        ),
        differing(Rule::TraceType, trace, at + 4, &new[4..7], &old[4..7]),
        octet(Rule::TraceReserved, trace, at + 7, new[7], old[7]),
    ])
}

// A trace that has got Overflow.
#[tactic(auto, unfolding(crate::specs::Trace::overflow_rules))]
fn overflow_rules(trace: usize, at: usize, old: &[u8], new: &[u8]) -> Option<Reason>
    requires at { at < 2 ^ 60 }
    requires long { 8 ≤ length old.now }
    requires same { length new.now ≡ length old.now }
    ensures { result ≡ first_broken (overflow_rules trace at old.now new.now) }
{
    let early = fits(old) && !TraceType::at(old, TRACE_TYPE).has_snapshot();
    let found = u64::from(remaining(new));
    let wanted = u64::from(remaining(old));
    let words = at + HEAD_OCTETS;
    first_broken(&[
        row(
            early,
            Rule::OverflowEarly,
            trace,
            at + 2,
            Value::Number(1),
            Value::Number(0),
        ),
        number(Rule::RemainingLen, trace, at + 3, found, wanted),
        differing(Rule::OverflowWords, trace, words, &new[8..], &old[8..]),
    ])
}

// How far RemainingLen falls.
#[tactic(auto, unfolding(crate::specs::Trace::room_rules))]
fn room_rules(trace: usize, at: usize, old: &[u8], new: &[u8]) -> Option<Reason>
    requires at { at < 2 ^ 60 }
    requires long { 8 ≤ length old.now }
    requires same { length new.now ≡ length old.now }
    ensures { result ≡ first_broken (room_rules trace at old.now new.now) }
{
    let found = remaining(new);
    first_broken(&[
        row(
            !fits(old),
            Rule::OverflowMissing,
            trace,
            at + 2,
            Value::Number(0),
            Value::Number(1),
        ),
        row(
            !falls(old, found),
            Rule::RemainingLen,
            trace,
            at + 3,
            Value::Number(u64::from(found)),
            wanted_remaining(old),
        ),
    ])
}

// The words before and after the new element.
#[tactic(auto, unfolding(crate::specs::Trace::words_rules))]
fn words_rules(trace: usize, at: usize, old: &[u8], new: &[u8]) -> Option<Reason>
    requires at { at < 2 ^ 60 }
    requires long { 8 ≤ length old.now }
    requires same { length new.now ≡ length old.now }
    requires order { remaining_of new.now ≤ remaining_of old.now }
    requires space { 8 + 4 * remaining_of old.now ≤ length old.now }
    ensures { result ≡ first_broken (words_rules trace at old.now new.now) }
{
    let start = Lengths::read(new).used();
    let end = Lengths::read(old).used();
    let words = at + HEAD_OCTETS;
    first_broken(&[
        differing(
            Rule::FreeWords,
            trace,
            words,
            &new[8..start],
            &old[8..start],
        ),
        differing(
            Rule::OlderElements,
            trace,
            at + end,
            &new[end..],
            &old[end..],
        ),
    ])
}

// A trace that has got an element.
#[tactic(auto, unfolding(crate::specs::Trace::added_rules), using(crate::proofs::FirstLaws::found, crate::proofs::FirstLaws::passed, crate::proofs::RoomLaws::order, crate::proofs::RoomLaws::space, crate::proofs::RoomLaws::suited, crate::proofs::RoomLaws::has_room))]
fn added_rules(sight: Sight, trace: usize, at: usize, old: &[u8], new: &[u8]) -> Option<Reason>
    requires at { at < 2 ^ 50 }
    requires same { length new.now ≡ length old.now }
    requires open { left_by true old.now ≡ None }
    requires long { 8 ≤ length old.now }
    ensures { result ≡ first_broken (added_rules sight.hops sight.id sight.inward trace at old.now new.now) }
{
    if let Some(reason) = room_rules(trace, at, old, new) {
        return Some(reason);
    }
    if let Some(reason) = words_rules(trace, at, old, new) {
        return Some(reason);
    }
    let start = Lengths::read(new).used();
    let end = Lengths::read(old).used();
    let kind = TraceType::at(old, TRACE_TYPE);
    let node_len = Lengths::read(old).node_len();
    element_rules(sight, trace, at + start, kind, node_len, &new[start..end])
}

// A trace to which a node adds.
#[tactic(auto, unfolding(crate::specs::Trace::open_rules), using(crate::proofs::FirstLaws::found, crate::proofs::FirstLaws::passed))]
fn open_rules(sight: Sight, trace: usize, at: usize, old: &[u8], new: &[u8]) -> Option<Reason>
    requires at { at < 2 ^ 50 }
    requires same { length new.now ≡ length old.now }
    requires open { left_by true old.now ≡ None }
    requires long { 8 ≤ length old.now }
    ensures { result ≡ first_broken (open_rules sight.hops sight.id sight.inward trace at old.now new.now) }
{
    if common(new, old) == old.len() {
        return same_rules(trace, at, old);
    }
    if let Some(reason) = head_rules(trace, at, old, new) {
        return Some(reason);
    }
    if Lengths::read(new).is_over() {
        overflow_rules(trace, at, old, new)
    } else {
        added_rules(sight, trace, at, old, new)
    }
}

// The octets before the Namespace-ID.
#[tactic(auto, unfolding(crate::specs::Trace::front_rules))]
fn front_rules(trace: usize, at: usize, old: &[u8], new: &[u8]) -> Option<Reason>
    requires at { at < 2 ^ 60 }
    requires long { 2 ≤ length old.now }
    requires same { length new.now ≡ length old.now }
    ensures { result ≡ first_broken (front_rules trace at old.now new.now) }
{
    first_broken(&[
        octet(Rule::OptionReserved, trace, at, new[0], old[0]),
        octet(Rule::IoamOptionType, trace, at + 1, new[1], old[1]),
    ])
}

/// The first rule that is broken about the data of a trace, which begin at octet `at`. `knows` says whether the node knows
/// the trace's namespace.
#[tactic(auto, using(crate::proofs::FirstLaws::found, crate::proofs::FirstLaws::passed, crate::proofs::FirstLaws::only, crate::proofs::RoomLaws::known))]
pub(crate) fn body_rules(
    sight: Sight,
    knows: bool,
    trace: usize,
    at: usize,
    old: &[u8],
    new: &[u8],
) -> Option<Reason>
    requires at { at < 2 ^ 40 }
    requires long { 10 ≤ length old.now }
    requires same { length new.now ≡ length old.now }
    ensures { result ≡ first_broken (front_rules trace at old.now new.now
        ++ rules_by sight.hops sight.id sight.inward trace (at + 2) (drop 2 old.now) (drop 2 new.now) (left_by knows (drop 2 old.now))) }
{
    if let Some(reason) = front_rules(trace, at, old, new) {
        return Some(reason);
    }
    let (old, new) = (&old[IN_FRONT..], &new[IN_FRONT..]);
    match left_by(knows, old) {
        Some(left) => differing(left, trace, at + 2, new, old),
        None => open_rules(sight, trace, at + 2, old, new),
    }
}

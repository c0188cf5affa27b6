//! A row of the list of rules, and the first that is broken.
ghost use Rattle.std.specs.Prelude.{◌≡◌, ◌+◌, ◌≤◌, ◌<◌, ◌^◌, length};
ghost use Rattle.ioam_explain.specs.Rows.{differing, first_broken, number, octet, row};

use crate::common::common;
use crate::reason::{Reason, Rule, Value};

/// The reason of a rule, if it is broken: the trace, 0 for none, the octet, what is there and what is wanted.
#[tactic(auto, unfolding(crate::specs::Rows::row))]
pub(crate) fn row(
    broken: bool,
    rule: Rule,
    trace: usize,
    at: usize,
    found: Value,
    wanted: Value,
) -> Option<Reason>
    ensures { result ≡ row broken rule trace at found wanted }
{
    if broken {
        Some(Reason {
            rule,
            trace,
            at,
            found,
            wanted,
        })
    } else {
        None
    }
}

/// The reason of a rule that wants a number.
#[tactic(auto, unfolding(crate::specs::Rows::number))]
pub(crate) fn number(rule: Rule, trace: usize, at: usize, found: u64, wanted: u64) -> Option<Reason>
    ensures { result ≡ number rule trace at found wanted }
{
    row(
        found != wanted,
        rule,
        trace,
        at,
        Value::Number(found),
        Value::Number(wanted),
    )
}

/// The reason of a rule that wants an octet.
#[tactic(auto, unfolding(crate::specs::Rows::octet))]
pub(crate) fn octet(rule: Rule, trace: usize, at: usize, found: u8, wanted: u8) -> Option<Reason>
    ensures { result ≡ octet rule trace at found wanted }
{
    row(
        found != wanted,
        rule,
        trace,
        at,
        Value::Octet(found),
        Value::Octet(wanted),
    )
}

/// The reason of a rule that wants octets, from octet `at` on: the first that differs.
#[tactic(auto, unfolding(crate::specs::Rows::differing, crate::specs::Rows::row))]
pub(crate) fn differing(
    rule: Rule,
    trace: usize,
    at: usize,
    found: &[u8],
    wanted: &[u8],
) -> Option<Reason>
    requires at { at < 2 ^ 62 }
    requires same { length found.now ≡ length wanted.now }
    ensures { result ≡ differing rule trace at found.now wanted.now }
{
    let same = common(found, wanted);
    if same == found.len() {
        return None;
    }
    row(
        true,
        rule,
        trace,
        at + same,
        Value::Octet(found[same]),
        Value::Octet(wanted[same]),
    )
}

/// The first reason of a list of rows.
pub(crate) fn first_broken(rows: &[Option<Reason>]) -> Option<Reason>
    ensures { result ≡ first_broken rows.now }
{
    for row in rows.iter() {
        if let Some(reason) = row {
            return Some(*reason);
        }
    }
    None
}

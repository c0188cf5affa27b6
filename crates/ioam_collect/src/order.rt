//! The order in which records are kept: by key, by falling hop value, by version 1 record, and by visit.
ghost use Rattle.std.specs.Prelude.{◌≡◌, is_some};
ghost use Rattle.ioam_dex.specs.RecordRef.{content};
ghost use Rattle.ioam_dex.specs.Visit.{visit_octets};
ghost use Rattle.ioam_pool.specs.Order as order;
ghost use Rattle.ioam_collect.specs.Keyed.{keyed_of};
ghost use Rattle.ioam_collect.specs.Pairs.{entry_of, key_of, pair_of};
ghost use Rattle.ioam_collect.specs.Unite.{pair_meet};

use crate::key::Key;
use crate::keying::hops_of;
use ioam_dex::RecordRef;
use std::cmp::Ordering;

// The key of a record, where a number that it hasn't is 0.
fn key_of(export: &RecordRef<'_>) -> Key
    ensures { result ≡ key_of (content export.now) }
{
    Key {
        namespace: export.namespace(),
        flow: export.flow().unwrap_or(0),
        seq: export.seq().unwrap_or(0),
    }
}

/// Whether a record has a key: a Flow ID, a Sequence Number and a hop value.
pub(crate) fn has_key(export: &RecordRef<'_>) -> bool
    ensures { result ≡ is_some (keyed_of (content export.now)) }
{
    export.flow().is_some() && export.seq().is_some() && hops_of(export).is_some()
}

// How two visits compare. Equal if either isn't there.
fn meet_visits(one: &RecordRef<'_>, other: &RecordRef<'_>) -> Ordering
    ensures { result ≡ order.extras (visit_octets (content one.now).visit) (visit_octets (content other.now).visit) }
{
    let first = one.visit_octets();
    let second = other.visit_octets();
    if first.is_empty() || second.is_empty() {
        return Ordering::Equal;
    }
    first.cmp(second)
}

// How two records with one key compare.
fn meet_items(one: &RecordRef<'_>, other: &RecordRef<'_>) -> Ordering
    ensures { result ≡ order.meet (entry_of (content one.now)) (entry_of (content other.now)) }
{
    let first = hops_of(one).unwrap_or(0);
    let second = hops_of(other).unwrap_or(0);
    match second.cmp(&first) {
        Ordering::Less => Ordering::Less,
        Ordering::Greater => Ordering::Greater,
        Ordering::Equal => one.cmp_plain(other).then(meet_visits(one, other)),
    }
}

/// How two records that have keys compare. Equal also if they are the same but that one doesn't tell its visit.
pub fn meet(one: &RecordRef<'_>, other: &RecordRef<'_>) -> Ordering
    ensures { result ≡ pair_meet (pair_of (content one.now)) (pair_of (content other.now)) }
{
    match key_of(one).cmp(&key_of(other)) {
        Ordering::Less => Ordering::Less,
        Ordering::Equal => meet_items(one, other),
        Ordering::Greater => Ordering::Greater,
    }
}

//! Values that are numbers.
ghost use Rattle.std.specs.Prelude.{◌≡◌, ◌≤◌, ◌^◌, ◌<◌, IfOk, IfSome};
ghost use Rattle.toml.specs.Data.{get_member};
ghost use Rattle.toml.specs.View.{view, table_view};
ghost use Rattle.ioam_topo_values.specs.Reads.{needed, maybe, optional};
ghost use Rattle.ioam_topo_values.specs.Numbers.{within, number};

use crate::finding::find;
use crate::why::Why;
use toml::{Table, Value};

// A whole number that is to lie between two bounds, both allowed.
pub(crate) fn within(low: u64, high: u64, whole: i64) -> Result<u64, Why>
    ensures value { result ≡ within low high whole }
    ensures small { IfOk result (λ n. (low ≤ n) × (n ≤ high)) }
{
    if whole < 0 {
        return Err(Why::Range);
    }
    let number = whole as u64;
    if low <= number && number <= high {
        Ok(number)
    } else {
        Err(Why::Range)
    }
}

// A value that is to be a whole number between two bounds, both allowed.
pub(crate) fn number_of(low: u64, high: u64, value: &Value) -> Result<u64, Why>
    ensures value { result ≡ number low high (view value.now) }
    ensures small { IfOk result (λ n. (low ≤ n) × (n ≤ high)) }
{
    match value {
        Value::Integer(whole) => within(low, high, *whole),
        _ => Err(Why::Kind),
    }
}

/// The whole number at a key that is needed, between two bounds, both allowed: Missing where it is
/// absent, Kind where it is no whole number, Range outside the bounds.
pub fn number(entry: &Table, key: &str, low: u64, high: u64) -> Result<u64, Why>
    ensures value { result ≡ needed (number low high) (get_member key.now (table_view entry.now)) }
    ensures small { IfOk result (λ n. (low ≤ n) × (n ≤ high)) }
{
    match find(entry, key) {
        Some(value) => number_of(low, high, value),
        None => Err(Why::Missing),
    }
}

/// The whole number at a key, between two bounds, both allowed, or a default where it is absent:
/// Kind where it is no whole number, Range outside the bounds.
pub fn number_or(entry: &Table, key: &str, low: u64, high: u64, default: u64) -> Result<u64, Why>
    requires low { low ≤ default }
    requires high { default ≤ high }
    ensures value { result ≡ optional default (number low high) (get_member key.now (table_view entry.now)) }
    ensures small { IfOk result (λ n. (low ≤ n) × (n ≤ high)) }
{
    match find(entry, key) {
        Some(value) => number_of(low, high, value),
        None => Ok(default),
    }
}

/// The whole number at a key that may be absent, between two bounds, both allowed: Kind where it is
/// no whole number, Range outside the bounds.
pub fn maybe_number(entry: &Table, key: &str, low: u64, high: u64) -> Result<Option<u64>, Why>
    ensures value { result ≡ maybe (number low high) (get_member key.now (table_view entry.now)) }
    ensures small { IfOk result (λ held. IfSome held (λ n. (low ≤ n) × (n ≤ high))) }
{
    match find(entry, key) {
        Some(value) => Ok(Some(number_of(low, high, value)?)),
        None => Ok(None),
    }
}

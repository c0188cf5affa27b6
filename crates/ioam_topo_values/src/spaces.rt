//! Values that are lists of namespaces.
ghost use Rattle.std.specs.Prelude.{◌≡◌, [], map, not, nat_eq, IfOk};
ghost use Rattle.std.specs.List.{list_any};
ghost use Rattle.toml.specs.Data.{get_member};
ghost use Rattle.toml.specs.View.{view, table_view, array_view};
ghost use Rattle.ioam_topo_values.specs.Reads.{ReadsOr, optional, ◌▷◌};
ghost use Rattle.ioam_topo_values.specs.Entries.{are_whole, spaces, apart_from, apart, at_most, namespaces};

use crate::finding::find;
use crate::numbers::number_of;
use crate::refused::Refused;
use crate::why::Why;
use indexmap::IndexSet;
use ioam_data::Namespace;
use ioam_topo::{MOST_SPACES, Spaces};
use std::alloc::Global;
use toml::value::Array;
use toml::{Table, Value};

// Whether all items of an array are whole numbers.
fn are_whole(array: &Array) -> bool
    ensures { result ≡ are_whole (array_view array.now) }
{
    let items = array.as_slice();
    for value in items {
        match value {
            Value::Integer(_) => {}
            _ => return false,
        }
    }
    true
}

// The namespaces of an array of numbers.
fn small_spaces(alloc: Global, array: &Array) -> Result<Vec<Namespace>, Refused>
    ensures { ReadsOr (λ v. v.items) result (spaces (array_view array.now)) }
{
    let items = array.as_slice();
    let mut out = Vec::new(alloc);
    for value in items {
        match number_of(0, 65535, value) {
            Ok(number) => match out.push(Namespace(number as u16)) {
                Ok(()) => {}
                Err(_) => return Err(Refused::NoMemory),
            },
            Err(why) => return Err(Refused::Because(why)),
        }
    }
    Ok(out)
}

// Whether no two namespaces are equal.
fn are_apart(alloc: Global, spaces: &[Namespace]) -> Result<bool, Refused>
    ensures { IfOk result (λ apart. apart ≡ apart_from [] spaces.now) }
{
    let mut seen: IndexSet<u16> = IndexSet::new(alloc);
    for space in spaces {
        match seen.insert_full(space.0) {
            Ok((_, true)) => {}
            Ok((_, false)) => return Ok(false),
            Err(_) => return Err(Refused::NoMemory),
        }
    }
    Ok(true)
}

// The namespaces of these numbers, where there are at most 16 and no two are equal.
fn apart_spaces(alloc: Global, array: &Array) -> Result<Spaces, Refused>
    ensures { ReadsOr (λ held. held) result (spaces (array_view array.now) ▷ apart ▷ at_most 16) }
{
    let held = small_spaces(alloc, array)?;
    match are_apart(alloc, held.as_slice()) {
        Ok(true) if held.len() <= MOST_SPACES => Ok(Spaces::new(held)),
        Ok(true) => Err(Refused::Because(Why::TooMany)),
        Ok(false) => Err(Refused::Because(Why::Twice)),
        Err(_) => Err(Refused::NoMemory),
    }
}

// A value that is to be a list of namespaces.
fn spaces_of(alloc: Global, value: &Value) -> Result<Spaces, Refused>
    ensures { ReadsOr (λ held. held) result (namespaces (view value.now)) }
{
    match value {
        Value::Array(array) if are_whole(array) => apart_spaces(alloc, array),
        _ => Err(Refused::Because(Why::Kind)),
    }
}

/// The namespaces at a key: an array of at most 16 whole numbers from 0 to 65,535, no two equal;
/// none where the key is absent. Of several faults of the array the first is named of these: an
/// item that is no whole number (Kind), one out of range (Range), two that are equal (Twice), too
/// many (TooMany).
pub fn namespaces(alloc: Global, entry: &Table, key: &str) -> Result<Spaces, Refused>
    ensures { ReadsOr (λ held. held) result (optional [] namespaces (get_member key.now (table_view entry.now))) }
{
    match find(entry, key) {
        Some(value) => spaces_of(alloc, value),
        None => Ok(Spaces::new(Vec::new(alloc))),
    }
}

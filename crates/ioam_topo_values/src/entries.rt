//! Values that are arrays of tables.
ghost use Rattle.std.specs.Prelude.{◌≡◌, map};
ghost use Rattle.toml.specs.Data.{get_member, Members};
ghost use Rattle.toml.specs.View.{view, table_view, array_view};
ghost use Rattle.ioam_topo_values.specs.Reads.{ReadsOr};
ghost use Rattle.ioam_topo_values.specs.Entries.{tables, array_at, rows};

use crate::finding::find;
use crate::refused::Refused;
use crate::why::Why;
use std::alloc::Global;
use toml::value::Array;
use toml::{Table, Value};

// The tables of an array, where all its items are tables.
fn tables(alloc: Global, array: &Array) -> Result<Vec<&Table>, Refused>
    ensures { ReadsOr (λ v. map (λ t. table_view t.now) v.items) result (tables (array_view array.now)) }
{
    let items = array.as_slice();
    let mut out = Vec::new(alloc);
    for value in items {
        match value {
            Value::Table(table) => match out.push(table) {
                Ok(()) => {}
                Err(_) => return Err(Refused::NoMemory),
            },
            _ => return Err(Refused::Because(Why::Kind)),
        }
    }
    Ok(out)
}

// The tables at a key, none where it is absent.
fn array_at<'a>(alloc: Global, top: &'a Table, key: &str) -> Result<Vec<&'a Table>, Refused>
    ensures { ReadsOr (λ v. map (λ t. table_view t.now) v.items) result (array_at (get_member key.now (table_view top.now))) }
{
    match find(top, key) {
        None => Ok(Vec::new(alloc)),
        Some(Value::Array(array)) => tables(alloc, array),
        Some(_) => Err(Refused::Because(Why::Kind)),
    }
}

/// The entries of the table at a key: none where it is absent, Kind where it is no array of
/// tables, TooMany where there are more than the most.
pub fn rows<'a>(
    alloc: Global,
    top: &'a Table,
    key: &str,
    most: usize,
) -> Result<Vec<&'a Table>, Refused>
    ensures { ReadsOr (λ v. map (λ t. table_view t.now) v.items) result (rows most (get_member key.now (table_view top.now))) }
{
    match array_at(alloc, top, key) {
        Ok(entries) if entries.len() <= most => Ok(entries),
        Ok(_) => Err(Refused::Because(Why::TooMany)),
        Err(refused) => Err(refused),
    }
}

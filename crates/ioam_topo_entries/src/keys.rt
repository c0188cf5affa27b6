//! The places of entries, and the keys that they may have.
ghost use Rattle.std.specs.Prelude.{◌≡◌, MatchResult, string_bytes, Ok, Err};
ghost use Rattle.std.specs.List.{list_all, list_any};
ghost use Rattle.std.specs.Str.{bytes_eq};
ghost use Rattle.std.specs.BTreeMap.{keys};
ghost use Rattle.toml.specs.View.{table_view};
ghost use Rattle.ioam_topo_entries.specs.declared.fault.DomainRefused.TheVariants.{Fault};
ghost use Rattle.ioam_topo_entries.specs.Faults.{fault, other_key, refused_at, ReadsAt};
ghost use Rattle.ioam_topo_entries.specs.Keys.{is_listed, all_listed, own_keys};

use crate::fault::{DomainFault, DomainRefused};
use crate::words::{Field, Table};
use ioam_topo_values::{Refused, Why};

/// A table and the place of an entry in it.
#[derive(Clone, Copy)]
pub struct Spot {
    /// The table.
    pub table: Table,
    /// The entry, counted from 1; 0 for the table as a whole.
    pub place: u32,
}

impl Spot {
    pub(crate) fn fault(self, key: &'static str, why: Why) -> DomainRefused
        ensures { result ≡ Fault (fault self.table self.place key.now why) }
    {
        DomainRefused::Fault(DomainFault {
            table: self.table,
            place: self.place,
            field: Field(key),
            why,
        })
    }

    /// What was read at a key, or its fault.
    pub fn key<T>(self, key: &'static str, read: Result<T, Why>) -> Result<T, DomainRefused>
        ensures { MatchResult read (λ x. result ≡ Ok x) (λ why. result ≡ Err (Fault (fault self.table self.place key.now why))) }
    {
        match read {
            Ok(value) => Ok(value),
            Err(why) => Err(self.fault(key, why)),
        }
    }

    /// What was read at a key, or its fault, of a read that may find no memory.
    pub fn key_or<T>(self, key: &'static str, read: Result<T, Refused>) -> Result<T, DomainRefused>
        ensures { MatchResult read (λ x. result ≡ Ok x) (λ refused. result ≡ Err (refused_at self.table self.place key.now refused)) }
    {
        match read {
            Ok(value) => Ok(value),
            Err(Refused::Because(why)) => Err(self.fault(key, why)),
            Err(Refused::NoMemory) => Err(DomainRefused::NoMemory),
        }
    }

    /// The keys of an entry are all listed by the table, else Unknown.
    pub fn own_keys(self, entry: &toml::Table) -> Result<(), DomainRefused>
        ensures { ReadsAt (λ x. x) result self.table self.place other_key (own_keys self.table (table_view entry.now)) }
    {
        if keys_listed(self.table, entry) {
            Ok(())
        } else {
            Err(self.fault(Field::OTHER, Why::Unknown))
        }
    }
}

// Whether a key is one of these.
fn is_one(key: &str, keys: &[&str]) -> bool
    ensures { result ≡ list_any (λ it. bytes_eq key.now it.now) keys.now }
{
    keys.iter().any(|it| key == *it)
}

const LINK_KEYS: [&str; 8] = [
    "name", "from", "to", "out_id", "in_id", "delay", "mtu", "tap",
];

const FLOW_KEYS: [&str; 15] = [
    "name",
    "entry",
    "exit",
    "source",
    "target",
    "namespace",
    "hops",
    "label",
    "trace",
    "capacity",
    "edge",
    "direct",
    "every",
    "flow_id",
    "limit",
];

// Whether a table lists a key.
fn is_listed(table: Table, key: &str) -> bool
    ensures { result ≡ is_listed table key.now }
{
    match table {
        Table::Top => is_one(
            key,
            &[
                "format", "packets", "node", "link", "port", "route", "data", "flow", "extra",
            ],
        ),
        Table::NodeTable => is_one(key, &["name", "id", "address", "namespaces"]),
        Table::LinkTable => is_one(key, &LINK_KEYS),
        Table::PortTable => is_one(key, &["name", "node", "id", "in", "out"]),
        Table::RouteTable => is_one(key, &["node", "prefix", "link", "port"]),
        Table::DataTable => is_one(
            key,
            &["node", "namespace", "short", "wide", "schema", "snapshot"],
        ),
        Table::FlowTable => is_one(key, &FLOW_KEYS),
        Table::ExtraTable => is_one(key, &["flow", "namespace", "trace", "capacity"]),
    }
}

// Whether each key of an entry is listed.
fn all_listed(table: Table, entry: &toml::Table) -> bool
    ensures { result ≡ list_all (λ k. is_listed table (string_bytes k)) (keys entry.now) }
{
    entry.keys().all(|key| is_listed(table, key.as_str()))
}

// Whether a table lists all the keys of an entry.
fn keys_listed(table: Table, entry: &toml::Table) -> bool
    ensures { result ≡ all_listed table (table_view entry.now) }
{
    all_listed(table, entry)
}

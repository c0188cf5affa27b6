//! Names that stand for what has them.
ghost use Rattle.std.specs.Prelude.{◌≡◌, ◌<◌, length, IfOk, Ok};
ghost use Rattle.std.specs.Str.{bytes_eq};
ghost use Rattle.toml.specs.Data.{get_member};
ghost use Rattle.toml.specs.View.{table_view};
ghost use Rattle.ioam_topo_values.specs.Reads.{◌▷◌, needed};
ghost use Rattle.ioam_topo_values.specs.Texts.{name};
ghost use Rattle.ioam_topo_entries.specs.Faults.{ReadsAt};
ghost use Rattle.ioam_topo_entries.specs.Goods.{fresh, known, differs};

use crate::fault::DomainRefused;
use crate::keys::Spot;
use ioam_topo_tables::Names;
use ioam_topo_values::{Why, name};
use toml::Table;

impl Spot {
    /// The name at a key of an entry that is needed, which isn't to be among these names: else Twice.
    pub fn new_name<'a>(
        self,
        names: &Names,
        entry: &'a Table,
        key: &'static str,
    ) -> Result<&'a str, DomainRefused>
        ensures { ReadsAt (λ t. t.now) result self.table self.place key.now (needed name (get_member key.now (table_view entry.now)) ▷ fresh bytes_eq names.now) }
    {
        match name(entry, key) {
            Ok(name) if names.contains(name) => Err(self.fault(key, Why::Twice)),
            Ok(name) => Ok(name),
            Err(why) => Err(self.fault(key, why)),
        }
    }

    /// The place among these names of the name at a key of an entry that is needed: Unknown where it
    /// is none of them.
    pub fn known(
        self,
        names: &Names,
        entry: &Table,
        key: &'static str,
    ) -> Result<u32, DomainRefused>
        ensures { ReadsAt (λ at. at) result self.table self.place key.now (needed name (get_member key.now (table_view entry.now)) ▷ known names.now) }
    {
        match known(names, entry, key) {
            Ok(at) => Ok(at),
            Err(why) => Err(self.fault(key, why)),
        }
    }

    /// The place among these names of the name at a key of an entry that is needed, other than
    /// `first`: Unknown where it is none of them, Range where it is `first`.
    pub fn known_other(
        self,
        names: &Names,
        entry: &Table,
        key: &'static str,
        first: u32,
    ) -> Result<u32, DomainRefused>
        ensures { ReadsAt (λ at. at) result self.table self.place key.now
            (needed name (get_member key.now (table_view entry.now)) ▷ known names.now ▷ differs (Ok first)) }
    {
        match known(names, entry, key) {
            Ok(at) if at == first => Err(self.fault(key, Why::Range)),
            Ok(at) => Ok(at),
            Err(why) => Err(self.fault(key, why)),
        }
    }
}

/// The place among these names of the name at a key of an entry that is needed: Unknown where it
/// is none of them.
pub fn known(names: &Names, entry: &Table, key: &str) -> Result<u32, Why>
    ensures value { result ≡ needed name (get_member key.now (table_view entry.now)) ▷ known names.now }
    ensures within { IfOk result (λ at. at < length names.now) }
{
    known_name(names, name(entry, key)?)
}

/// The place of a name among these: Unknown where it is none of them.
pub fn known_name(names: &Names, name: &str) -> Result<u32, Why>
    ensures value { result ≡ known names.now name.now }
    ensures within { IfOk result (λ at. at < length names.now) }
{
    match names.place_of(name) {
        Some(at) => Ok(at as u32),
        None => Err(Why::Unknown),
    }
}

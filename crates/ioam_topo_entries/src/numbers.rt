//! Numbers of fewer bits, at keys of entries.
ghost use Rattle.std.specs.Prelude.{◌≡◌, ◌<◌, ◌≤◌, ◌^◌};
ghost use Rattle.toml.specs.Data.{get_member};
ghost use Rattle.toml.specs.View.{table_view};
ghost use Rattle.ioam_topo_values.specs.Reads.{needed, maybe, optional};
ghost use Rattle.ioam_topo_values.specs.Numbers.{number};
ghost use Rattle.ioam_topo_entries.specs.Faults.{ReadsAt};

use crate::fault::DomainRefused;
use crate::keys::Spot;
use ioam_topo_values::{Why, maybe_number, number, number_or};
use toml::Table;

impl Spot {
    /// The 32-bit number at a key that is needed, between two bounds, both allowed.
    pub fn number32(
        self,
        entry: &Table,
        key: &'static str,
        low: u64,
        high: u64,
    ) -> Result<u32, DomainRefused>
        requires { high < 2 ^ 32 }
        ensures { ReadsAt (λ n. n) result self.table self.place key.now (needed (number low high) (get_member key.now (table_view entry.now))) }
    {
        match number(entry, key, low, high) {
            Ok(number) => Ok(number as u32),
            Err(why) => Err(self.fault(key, why)),
        }
    }

    /// The 8-bit number at a key that is needed, between two bounds, both allowed.
    pub fn number8(
        self,
        entry: &Table,
        key: &'static str,
        low: u64,
        high: u64,
    ) -> Result<u8, DomainRefused>
        requires { high < 2 ^ 8 }
        ensures { ReadsAt (λ n. n) result self.table self.place key.now (needed (number low high) (get_member key.now (table_view entry.now))) }
    {
        match number(entry, key, low, high) {
            Ok(number) => Ok(number as u8),
            Err(why) => Err(self.fault(key, why)),
        }
    }

    /// The 32-bit number at a key, no greater than a bound; 0 where it is absent.
    pub fn number32_or_0(
        self,
        entry: &Table,
        key: &'static str,
        high: u64,
    ) -> Result<u32, DomainRefused>
        requires { high < 2 ^ 32 }
        ensures { ReadsAt (λ n. n) result self.table self.place key.now (optional 0 (number 0 high) (get_member key.now (table_view entry.now))) }
    {
        match number_or(entry, key, 0, high, 0) {
            Ok(number) => Ok(number as u32),
            Err(why) => Err(self.fault(key, why)),
        }
    }
}

/// The 16-bit number at a key that is needed, any at all.
pub fn number16(entry: &Table, key: &str) -> Result<u16, Why>
    ensures { result ≡ needed (number 0 65535) (get_member key.now (table_view entry.now)) }
{
    Ok(number(entry, key, 0, 65535)? as u16)
}

/// The 32-bit number at a key that may be absent, between two bounds, both allowed.
pub fn maybe_number32(entry: &Table, key: &str, low: u64, high: u64) -> Result<Option<u32>, Why>
    requires { high < 2 ^ 32 }
    ensures { result ≡ maybe (number low high) (get_member key.now (table_view entry.now)) }
{
    match maybe_number(entry, key, low, high)? {
        Some(number) => Ok(Some(number as u32)),
        None => Ok(None),
    }
}

/// The 8-bit number at a key that may be absent, between two bounds, both allowed.
pub fn maybe_number8(entry: &Table, key: &str, low: u64, high: u64) -> Result<Option<u8>, Why>
    requires { high < 2 ^ 8 }
    ensures { result ≡ maybe (number low high) (get_member key.now (table_view entry.now)) }
{
    match maybe_number(entry, key, low, high)? {
        Some(number) => Ok(Some(number as u8)),
        None => Ok(None),
    }
}

//! Values that are IPv6 addresses.
ghost use Rattle.std.specs.Prelude.{◌≡◌, Some, List, ℕ, Ok};
ghost use Rattle.toml.specs.Data.{get_member, string};
ghost use Rattle.toml.specs.View.{view, table_view};
ghost use Rattle.ioam_topo_values.specs.Reads.{needed};
ghost use Rattle.ioam_topo_values.specs.Addresses.{is_address_octet, is_plain, address_of, address, Spells};

use crate::finding::find;
use crate::texts::text_of;
use crate::why::Why;
use std::net::Ipv6Addr;
use toml::{Table, Value};

// Whether an octet may stand in an address.
fn is_address_octet(octet: u8) -> bool
    ensures { result ≡ is_address_octet octet }
{
    octet.is_ascii_hexdigit() || octet == b':'
}

// Whether a text has such octets alone, so that no part is dotted and there is no zone.
fn is_plain(text: &[u8]) -> bool
    ensures { result ≡ is_plain text.now }
{
    text.iter().all(|octet| is_address_octet(*octet))
}

// The address that a text spells. The parser would read a dotted part too.
pub(crate) fn address_of(text: &[u8]) -> Option<u128>
    ensures { result ≡ address_of text.now }
{
    if !is_plain(text) {
        return None;
    }
    match Ipv6Addr::parse_ascii(text) {
        Ok(address) => Some(address.to_bits()),
        Err(_) => None,
    }
}

/// The IPv6 address at a key that is needed: eight groups of one to four hexadecimal digits with
/// `:` between them, where `::` may stand once for one or more groups of zero (RFC 4291 section
/// 2.2). There is no dotted form and no zone. The first group is the most significant. Missing
/// where the key is absent, Kind where it is no text, Range where the text is no address.
#[tactic(auto, using(crate::proofs::AddressLaws::key_spells))]
pub fn address(entry: &Table, key: &str) -> Result<u128, Why>
    ensures value { result ≡ needed address (get_member key.now (table_view entry.now)) }
    ensures spelled { (s : List ℕ) (n : ℕ) → get_member key.now (table_view entry.now) ≡ Some (string s) → result ≡ Ok n → Spells s n }
    ensures every { (s : List ℕ) (n : ℕ) → get_member key.now (table_view entry.now) ≡ Some (string s) → Spells s n → result ≡ Ok n }
{
    match find(entry, key) {
        Some(value) => match text_of(value) {
            Ok(text) => address_of(text.as_bytes()).ok_or(Why::Range),
            Err(why) => Err(why),
        },
        None => Err(Why::Missing),
    }
}

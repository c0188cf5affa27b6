//! Values that are prefixes of addresses.
ghost use Rattle.std.specs.Prelude.{◌≡◌, ◌<◌, ℕ, List, length, Some, Ok, IfOk, IfSome};
ghost use Rattle.toml.specs.Data.{get_member, string};
ghost use Rattle.toml.specs.View.{view, table_view};
ghost use Rattle.ioam_topo_values.specs.Reads.{needed};
ghost use Rattle.ioam_topo_values.specs.Prefixes.{length_of, prefix_of, parted, slash_at, prefix, SpellsPrefix};
ghost use Rattle.ioam_topo.specs.declared.prefix.Prefix.{Prefix};
ghost use Rattle.ioam_topo.specs.Prefixes.{IsPrefix};

use crate::addresses::address_of;
use crate::finding::find;
use crate::texts::text_of;
use crate::why::Why;
use ioam_base::digits::decimal_below;
use ioam_topo::{Prefix, masked};
use toml::{Table, Value};

// The prefix length that a text spells.
fn length_of(text: &[u8]) -> Option<u8>
    ensures { result ≡ length_of text.now }
{
    let length = decimal_below(text, 129)?;
    Some(length as u8)
}

// Where the first `/` stands.
fn slash_at(text: &[u8]) -> Option<usize>
    ensures value { result ≡ slash_at text.now }
    ensures within { IfSome result (λ at. at < length text.now) }
{
    text.iter().position(|octet| *octet == b'/')
}

// The prefix of an address and a prefix length.
fn prefix_of(bits: Option<u128>, length: Option<u8>) -> Option<Prefix>
    ensures { result ≡ prefix_of bits length }
{
    match (bits, length) {
        (Some(bits), Some(length)) => Some(Prefix {
            bits: masked(length, bits),
            length,
        }),
        _ => None,
    }
}

// A value that is to be a prefix.
fn prefix_in(value: &Value) -> Result<Prefix, Why>
    ensures { result ≡ prefix (view value.now) }
{
    let octets = text_of(value)?.as_bytes();
    let Some(at) = slash_at(octets) else {
        return Err(Why::Range);
    };
    match prefix_of(address_of(&octets[..at]), length_of(&octets[at + 1..])) {
        Some(prefix) => Ok(prefix),
        None => Err(Why::Range),
    }
}

/// The prefix at a key that is needed: an address, `/` and a decimal number from 0 to 128 without
/// a leading zero save `0` itself. Bits past that number are ignored, and are 0 in what is read.
/// Missing where the key is absent, Kind where it is no text, Range where the text is no prefix.
#[tactic(auto, using(crate::proofs::PrefixSpelledLaws::key_spells_prefix))]
pub fn prefix(entry: &Table, key: &str) -> Result<Prefix, Why>
    ensures value { result ≡ needed prefix (get_member key.now (table_view entry.now)) }
    ensures sound { IfOk result IsPrefix }
    ensures spelled { (s : List ℕ) (p : Prefix) → get_member key.now (table_view entry.now) ≡ Some (string s) → result ≡ Ok p → SpellsPrefix s p }
    ensures every { (s : List ℕ) (p : Prefix) → get_member key.now (table_view entry.now) ≡ Some (string s) → SpellsPrefix s p → result ≡ Ok p }
{
    match find(entry, key) {
        Some(value) => prefix_in(value),
        None => Err(Why::Missing),
    }
}

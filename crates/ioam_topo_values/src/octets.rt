//! Values that are octets in hexadecimal digits.
ghost use Rattle.std.specs.Prelude.{◌≡◌};
ghost use Rattle.toml.specs.Data.{get_member};
ghost use Rattle.toml.specs.View.{view, table_view};
ghost use Rattle.ioam_topo_values.specs.Reads.{ReadsOr, maybe};
ghost use Rattle.ioam_topo_values.specs.Octets.{octets_of, octets};

use crate::finding::find;
use crate::refused::Refused;
use crate::texts::text_of;
use crate::why::Why;
use hex::FromHexError;
use ioam_topo::Octets;
use std::alloc::Global;
use toml::{Table, Value};

/// The most hexadecimal digits of a text of octets.
pub const MOST_DIGITS: usize = 360;

// The octets that a text spells.
fn octets_of(alloc: Global, text: &str) -> Result<Octets, Refused>
    ensures { ReadsOr (λ octets. octets) result (octets_of text.now) }
{
    let digits = text.as_bytes();
    if digits.len() % 8 != 0 || digits.len() > MOST_DIGITS {
        return Err(Refused::Because(Why::Range));
    }
    match hex::decode(alloc, digits) {
        Ok(held) => Ok(Octets::new(held)),
        Err(FromHexError::OutOfMemory) => Err(Refused::NoMemory),
        Err(_) => Err(Refused::Because(Why::Range)),
    }
}

// A value that is to be a text of hexadecimal digits.
fn octets_in(alloc: Global, value: &Value) -> Result<Octets, Refused>
    ensures { ReadsOr (λ octets. octets) result (octets (view value.now)) }
{
    match text_of(value) {
        Ok(text) => octets_of(alloc, text),
        Err(why) => Err(Refused::Because(why)),
    }
}

/// The octets at a key that may be absent: a text of hexadecimal digits in either case, in whole
/// words of 8 digits, at most 360 digits and perhaps none. Kind where it is no text, else Range.
pub fn maybe_octets(alloc: Global, entry: &Table, key: &str) -> Result<Option<Octets>, Refused>
    ensures { ReadsOr (λ held. held) result (maybe octets (get_member key.now (table_view entry.now))) }
{
    match find(entry, key) {
        Some(value) => Ok(Some(octets_in(alloc, value)?)),
        None => Ok(None),
    }
}

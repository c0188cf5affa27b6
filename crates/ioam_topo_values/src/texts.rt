//! Values that are texts, names and names of files.
ghost use Rattle.std.specs.Prelude.{◌≡◌, ◌==◌, not, option_map};
ghost use Rattle.std.specs.List.{list_all};
ghost use Rattle.toml.specs.Data.{get_member};
ghost use Rattle.toml.specs.View.{view, table_view};
ghost use Rattle.ioam_topo_values.specs.Reads.{Reads, needed, maybe};
ghost use Rattle.ioam_topo_values.specs.Texts.{is_name, is_name_octet, is_file_name, text, name, file_name};

use crate::finding::find;
use crate::why::Why;
use toml::{Table, Value};

/// The most characters of a name.
pub const MOST_NAME: usize = 32;

/// The most octets of a file name.
pub const MOST_FILE_NAME: usize = 255;

/// A value that is to be a text, else Kind.
pub fn text_of(value: &Value) -> Result<&str, Why>
    ensures { Reads (λ t. t.now) result (text (view value.now)) }
{
    match value {
        Value::String(text) => Ok(text.as_str()),
        _ => Err(Why::Kind),
    }
}

// Whether an octet may stand in a name.
fn is_name_octet(octet: u8) -> bool
    ensures { result ≡ is_name_octet octet }
{
    matches!(octet, b'a'..=b'z' | b'A'..=b'Z' | b'0'..=b'9' | b'-' | b'_' | b'.')
}

// Whether each octet may stand in a name.
fn are_name_octets(octets: &[u8]) -> bool
    ensures { result ≡ list_all is_name_octet octets.now }
{
    octets.iter().all(|b| is_name_octet(*b))
}

// Whether no octet is zero.
fn are_not_zero(octets: &[u8]) -> bool
    ensures { result ≡ list_all (λ b. not (b == 0)) octets.now }
{
    octets.iter().all(|b| *b != 0)
}

// Whether a text is well formed as a name.
fn is_name(text: &str) -> bool
    ensures { result ≡ is_name text.now }
{
    let octets = text.as_bytes();
    1 <= octets.len() && octets.len() <= MOST_NAME && are_name_octets(octets)
}

// Whether a text is well formed as a file name.
fn is_file_name(text: &str) -> bool
    ensures { result ≡ is_file_name text.now }
{
    let octets = text.as_bytes();
    1 <= octets.len() && octets.len() <= MOST_FILE_NAME && are_not_zero(octets)
}

// A value that is to be a name.
fn name_of(value: &Value) -> Result<&str, Why>
    ensures { Reads (λ t. t.now) result (name (view value.now)) }
{
    match text_of(value) {
        Ok(text) if is_name(text) => Ok(text),
        Ok(_) => Err(Why::Range),
        Err(why) => Err(why),
    }
}

// A value that is to be a file name.
fn file_name_of(value: &Value) -> Result<&str, Why>
    ensures { Reads (λ t. t.now) result (file_name (view value.now)) }
{
    match text_of(value) {
        Ok(text) if is_file_name(text) => Ok(text),
        Ok(_) => Err(Why::Range),
        Err(why) => Err(why),
    }
}

/// The name at a key that is needed: 1 to 32 characters out of a to z, A to Z, 0 to 9, `-`, `_` and
/// `.`. Missing where it is absent, Kind where it is no text, Range where it has another form.
pub fn name<'a>(entry: &'a Table, key: &str) -> Result<&'a str, Why>
    ensures { Reads (λ t. t.now) result (needed name (get_member key.now (table_view entry.now))) }
{
    match find(entry, key) {
        Some(value) => name_of(value),
        None => Err(Why::Missing),
    }
}

/// The name at a key that may be absent, of the form that [`name`] has: Kind where it is no text,
/// Range where it has another form.
pub fn maybe_name<'a>(entry: &'a Table, key: &str) -> Result<Option<&'a str>, Why>
    ensures { Reads (option_map (λ t. t.now)) result (maybe name (get_member key.now (table_view entry.now))) }
{
    match find(entry, key) {
        Some(value) => Ok(Some(name_of(value)?)),
        None => Ok(None),
    }
}

/// The file name at a key that is needed: 1 to 255 octets, none of them 0. Missing where it is
/// absent, Kind where it is no text, Range where it has another form.
pub fn file_name<'a>(entry: &'a Table, key: &str) -> Result<&'a str, Why>
    ensures { Reads (λ t. t.now) result (needed file_name (get_member key.now (table_view entry.now))) }
{
    match find(entry, key) {
        Some(value) => file_name_of(value),
        None => Err(Why::Missing),
    }
}

/// The file name at a key that may be absent, of the form that [`file_name`] has: Kind where it is
/// no text, Range where it has another form.
pub fn maybe_file_name<'a>(entry: &'a Table, key: &str) -> Result<Option<&'a str>, Why>
    ensures { Reads (option_map (λ t. t.now)) result (maybe file_name (get_member key.now (table_view entry.now))) }
{
    match find(entry, key) {
        Some(value) => Ok(Some(file_name_of(value)?)),
        None => Ok(None),
    }
}

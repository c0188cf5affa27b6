//! Keys that go together.
ghost use Rattle.std.specs.Prelude.{◌≡◌, is_some};
ghost use Rattle.toml.specs.Data.{get_member};
ghost use Rattle.toml.specs.View.{table_view};
ghost use Rattle.ioam_topo_values.specs.Reads.{◌▷◌};
ghost use Rattle.ioam_topo_values.specs.Pairs.{beside};

use crate::finding::find;
use crate::why::Why;
use toml::Table;

/// Whether an entry has a key.
pub fn has(entry: &Table, key: &str) -> bool
    ensures { result ≡ is_some (get_member key.now (table_view entry.now)) }
{
    find(entry, key).is_some()
}

/// What was read at a key that may be absent, save where another stands that goes with it: then
/// it is Missing.
pub fn beside<T: Drop>(read: Result<Option<T>, Why>, other: bool) -> Result<Option<T>, Why>
    ensures { result ≡ read ▷ beside other }
{
    match read {
        Ok(Some(value)) => Ok(Some(value)),
        Ok(None) if other => Err(Why::Missing),
        Ok(None) => Ok(None),
        Err(why) => Err(why),
    }
}

//! What the records of one packet have in common.
use ioam_data::Namespace;
use ioam_dex::RecordRef;

/// What the export records of one packet have in common (RFC 9326 section 3.2). Keys are ordered by
/// namespace, then by Flow ID, then by Sequence Number.
#[derive(Clone, Copy, Debug, PartialEq, Eq, PartialOrd, Ord)]
pub struct Key {
    /// The namespace of the data.
    pub namespace: Namespace,
    /// The Flow ID.
    pub flow: u32,
    /// The Sequence Number.
    pub seq: u32,
}

impl Key {
    ghost use Rattle.std.specs.Prelude.{◌≡◌};
    ghost use Rattle.ioam_dex.specs.RecordRef.{content};
    ghost use Rattle.ioam_collect.specs.Keyed.{key_by};

    /// The key of a record. None without a Flow ID or a Sequence Number.
    pub fn of(export: &RecordRef<'_>) -> Option<Key>
        ensures { result ≡ key_by (content export.now).namespace (content export.now).flow (content export.now).seq }
    {
        let flow = export.flow()?;
        let seq = export.seq()?;
        Some(Key {
            namespace: export.namespace(),
            flow,
            seq,
        })
    }
}

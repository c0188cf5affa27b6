//! The entries of a table, collected until one is refused.
ghost use Rattle.std.specs.Prelude.{◌≡◌, ◌+◌, ◌<◌, ◌^◌, ◌++◌, ◌∷◌, [], map, length};
ghost use Rattle.toml.specs.Data.{get_member};
ghost use Rattle.toml.specs.View.{table_view};
ghost use Rattle.ioam_topo_values.specs.Entries.{entries};
ghost use Rattle.ioam_topo_entries.specs.Faults.{Gives, each, table_faults};

use crate::fault::DomainRefused;
use crate::keys::Spot;
use crate::words::{Field, Table};
use ioam_topo_values::rows;
use std::alloc::Global;

/// What is collected of a table's entries, where the entries refer to what was collected before.
pub trait Collects<C>: Drop {
    ghost use Rattle.std.specs.Prelude.{List, ◌≡◌, ◌+◌, ◌++◌, ◌∷◌, [], length};
    ghost use Rattle.toml.specs.Data.{Members};
    ghost use Rattle.toml.specs.View.{table_view};
    ghost use Rattle.ioam_topo_entries.specs.declared.fault.DomainFault.{DomainFault};
    ghost use Rattle.ioam_topo_entries.specs.Faults.{Gives};

    /// the faults of an entry behind others
    ghost faults: { C → List Members → Members → List DomainFault };

    /// what is collected is that of these entries
    ghost Holds: { C → List Members → Self → Type 0 };

    /// Collects one entry more.
    fn take(
        &mut self,
        alloc: Global,
        before: &C,
        place: u32,
        entry: &toml::Table,
    ) -> Result<(), DomainRefused>
        ensures { (earlier : List Members) → Holds before.now earlier self.old → place ≡ length earlier + 1
            → Gives result (faults before.now earlier (table_view entry.now))
            (λ _. Holds before.now (earlier ++ table_view entry.now ∷ []) self.new) };
}

/// Collects all entries of a table, in order.
pub fn collect<C, T: Collects<C>>(
    alloc: Global,
    before: &C,
    entries: &[&toml::Table],
    none: T,
) -> Result<T, DomainRefused>
    requires few { length entries.now < 2 ^ 31 }
    requires none { T.Holds before.now [] none }
    ensures { Gives result (each (T.faults before.now) [] (map (λ t. table_view t.now) entries.now))
        (T.Holds before.now (map (λ t. table_view t.now) entries.now)) }
{
    let mut out = none;
    for (at, entry) in entries.iter().enumerate() {
        out.take(alloc, before, at as u32 + 1, entry)?;
    }
    Ok(out)
}

/// The entries of the table at a key of the file, no more than the most, collected behind none: of
/// the table's faults the first is answered, those of the table as a whole before those of its
/// entries.
pub fn read_entries<C, T: Collects<C>>(
    alloc: Global,
    top: &toml::Table,
    table: Table,
    key: &str,
    most: usize,
    before: &C,
    none: T,
) -> Result<T, DomainRefused>
    requires most { most < 2 ^ 31 }
    requires none { T.Holds before.now [] none }
    ensures { Gives result (table_faults table most (get_member key.now (table_view top.now)) (T.faults before.now))
        (T.Holds before.now (entries (get_member key.now (table_view top.now)))) }
{
    let spot = Spot { table, place: 0 };
    let found = spot.key_or(Field::NONE, rows(alloc, top, key, most))?;
    collect(alloc, before, found.as_slice(), none)
}

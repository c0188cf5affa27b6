//! What becomes of a record, and room for it.
ghost use Rattle.std.specs.Prelude.{◌≡◌, ◌^◌, ◌<◌, ◌≤◌, length, OnOk};
ghost use Rattle.ioam_pool.specs.Chains.{total};
ghost use Rattle.ioam_collect.specs.Puts.{Puts};

use ioam_base::memory::NoMemory;
use ioam_pool::{Chain, Inserted, Item, Pool};

/// What became of a record.
#[derive(Clone, Copy, Debug, PartialEq, Eq)]
pub enum Added {
    /// It is held from now on.
    Kept,
    /// It tells a visit, and is held in place of the record that is the same without it.
    Replaced,
    /// It is held already, or is a held one without its visit.
    Repeat,
    /// It has no Flow ID, no Sequence Number or no hop value.
    Unkeyed,
    /// As many are held as may be.
    Full,
}

// Doubles the pool up to the limit, where no cell is free.
pub(crate) fn make_room(pool: &mut Pool, limit: u32) -> Result<(), NoMemory>
    requires below { total pool.old < limit }
    requires within { pool.old.capacity ≤ limit }
    requires few { limit < 2 ^ 31 }
    ensures chains { pool.new.chains ≡ pool.old.chains }
    ensures within { pool.new.capacity ≤ limit }
    ensures room { OnOk result (total pool.new < pool.new.capacity) }
{
    let capacity = pool.capacity();
    if pool.held() == capacity {
        pool.grow(capacity.max(1).min(limit - capacity))?;
    }
    Ok(())
}

// Inserts an item. Where no cell is free for it, the pool doubles up to the limit first.
pub(crate) fn put(pool: &mut Pool, limit: u32, chain: Chain, item: Item) -> Result<Added, NoMemory>
    requires there { chain < length pool.old.chains }
    requires within { pool.old.capacity ≤ limit }
    requires few { limit < 2 ^ 31 }
    ensures puts { Puts pool.old limit chain item result pool.new }
    ensures within { pool.new.capacity ≤ limit }
{
    match pool.insert(chain, item) {
        Inserted::Kept => Ok(Added::Kept),
        Inserted::Replaced(_) => Ok(Added::Replaced),
        Inserted::Repeat(_) => Ok(Added::Repeat),
        Inserted::Full(item) => {
            if pool.held() == limit {
                return Ok(Added::Full);
            }
            make_room(pool, limit)?;
            match pool.insert(chain, item) {
                Inserted::Kept => Ok(Added::Kept),
                Inserted::Replaced(_) | Inserted::Repeat(_) | Inserted::Full(_) => unreachable!(),
            }
        }
    }
}

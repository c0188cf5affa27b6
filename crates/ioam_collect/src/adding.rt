//! The first item of a key.
ghost use Rattle.std.specs.Prelude.{◌≡◌, ◌<◌, Some, None, IfOk, vec_capacity};
ghost use Rattle.std.specs.BTreeMap.{get};
ghost use Rattle.ioam_collect.specs.Keyed.{key_cmp, IsOfRecord};
ghost use Rattle.ioam_collect.specs.Inside.{IsStore, gathered};
ghost use Rattle.ioam_collect.specs.Adds.{Adds};
ghost use Rattle.ioam_collect.specs.Slots.{AreSlotsOf, HasFewSlots};

use crate::growing::{Added, make_room};
use crate::key::Key;
use crate::key_map::KeyMap;
use ioam_base::memory::NoMemory;
use ioam_pool::{Chain, Inserted, Item, Pool};

// An empty chain that no key has: the one that is left, or a new one.
fn spare_chain(
    pool: &mut Pool,
    chains: &KeyMap,
    spare: &mut Option<Chain>,
    limit: u32,
) -> Result<Chain, NoMemory>
    requires inside { IsStore pool.old chains.now.map spare.old limit }
    ensures inside { IsStore pool.new chains.now.map spare.new limit }
    ensures same { gathered pool.new chains.now.map limit ≡ gathered pool.old chains.now.map limit }
    ensures spare { IfOk result (λ chain. spare.new ≡ Some chain) }
    ensures capacity { pool.new.capacity ≡ pool.old.capacity }
{
    match *spare {
        Some(chain) => Ok(chain),
        None => {
            let chain = pool.add_chain()?;
            *spare = Some(chain);
            Ok(chain)
        }
    }
}

// Adds the first item of a key. All memory is taken before anything changes.
pub(crate) fn add_first(
    pool: &mut Pool,
    chains: &mut KeyMap,
    spare: &mut Option<Chain>,
    limit: u32,
    key: Key,
    item: Item,
) -> Result<Added, NoMemory>
    requires inside { IsStore pool.old chains.old.map spare.old limit }
    requires of_record { IsOfRecord item }
    requires slots { AreSlotsOf chains.old.map chains.old.slots.items }
    requires few { HasFewSlots chains.old.map (vec_capacity chains.old.slots) }
    requires absent { get key_cmp chains.old.map key ≡ None }
    ensures inside { IsStore pool.new chains.new.map spare.new limit }
    ensures slots { AreSlotsOf chains.new.map chains.new.slots.items }
    ensures few { HasFewSlots chains.new.map (vec_capacity chains.new.slots) }
    ensures adds { Adds (gathered pool.old chains.old.map limit) key item result (gathered pool.new chains.new.map limit) }
{
    if pool.held() == limit {
        return Ok(Added::Full);
    }
    make_room(pool, limit)?;
    let chain = spare_chain(pool, chains, spare, limit)?;
    chains.insert(key, chain)?;
    *spare = None;
    match pool.insert(chain, item) {
        Inserted::Kept => Ok(Added::Kept),
        Inserted::Replaced(_) | Inserted::Repeat(_) | Inserted::Full(_) => unreachable!(),
    }
}

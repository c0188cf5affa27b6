//! Chains of items.
ghost use Rattle.std.specs.Prelude.{◌<◌, ◌≤◌, ◌≡◌, length};

use ioam_base::memory::NoMemory;
use ioam_pool::{Chain, Inserted, Item, Parts, Pool};
use std::alloc::Global;
use std::test::Fail;

// Whether an item has this hop value and this core.
fn is(item: &Item, hops: u8, core: u8) -> bool {
    item.hops() == hops && item.core() == [core].as_slice()
}

// Whether a chain has items of these hop values, each with one octet of core.
fn has(pool: &Pool, chain: Chain, wanted: &[(u8, u8)]) -> bool
    requires { chain < length pool.now.chains }
{
    let mut left = wanted;
    for item in pool.walk(chain) {
        match left {
            [(hops, core), rest @ ..] => {
                if !is(item, *hops, *core) {
                    return false;
                }
                left = rest;
            }
            [] => return false,
        }
    }
    left.is_empty()
}

// What became of an item, without those that are handed back.
#[derive(Clone, Copy)]
enum Became {
    Kept,
    Replaced,
    Repeat,
    Full,
}

// Inserts an item of this hop value and this core, with no extra part.
fn insert_core(
    pool: &mut Pool,
    chain: Chain,
    hops: u8,
    core: &[u8],
    alloc: Global,
) -> Result<Became, NoMemory>
    requires chain { chain < length pool.old.chains }
    requires core { length core.now ≤ 262 }
    ensures chains { length pool.new.chains ≡ length pool.old.chains }
    ensures capacity { pool.new.capacity ≡ pool.old.capacity }
{
    let item = Item::new(alloc, &Parts::new(hops, core, &[]))?;
    Ok(match pool.insert(chain, item) {
        Inserted::Kept => Became::Kept,
        Inserted::Replaced(_) => Became::Replaced,
        Inserted::Repeat(_) => Became::Repeat,
        Inserted::Full(_) => Became::Full,
    })
}

// Inserts an item of this hop value, with one octet of core.
fn insert(
    pool: &mut Pool,
    chain: Chain,
    hops: u8,
    core: u8,
    alloc: Global,
) -> Result<Became, NoMemory>
    requires { chain < length pool.old.chains }
    ensures chains { length pool.new.chains ≡ length pool.old.chains }
    ensures capacity { pool.new.capacity ≡ pool.old.capacity }
{
    insert_core(pool, chain, hops, &[core], alloc)
}

// Whether two items fill the pool, and then one is of no room and one is a repeat.
fn is_filled(pool: &mut Pool, p: Chain, q: Chain, alloc: Global) -> Result<bool, NoMemory>
    requires first { p < length pool.old.chains }
    requires second { q < length pool.old.chains }
{
    let five = insert(pool, p, 5, 1, alloc)?;
    let six = insert(pool, p, 6, 2, alloc)?;
    let in_order = has(pool, p, &[(6, 2), (5, 1)]);
    let one = insert(pool, q, 1, 3, alloc)?;
    let five_again = insert(pool, p, 5, 1, alloc)?;
    Ok(
        in_order
            && matches!(five, Became::Kept)
            && matches!(six, Became::Kept)
            && matches!(one, Became::Full)
            && matches!(five_again, Became::Repeat),
    )
}

#[test]
fn repeats_come_before_a_full_pool(rt: HostRuntime) -> Result<(), Fail> {
    let mut pool = Pool::new(rt.alloc(), 2)?;
    let p = pool.add_chain()?;
    let q = pool.add_chain()?;
    assert!(rt; is_filled(&mut pool, p, q, rt.alloc())?);
    assert!(rt; pool.held() == 2 && pool.capacity() == 2);
    Ok(())
}

// Whether the cell of a freed chain is there for another.
fn is_freed(pool: &mut Pool, p: Chain, q: Chain, alloc: Global) -> Result<bool, NoMemory>
    requires first { p < length pool.old.chains }
    requires second { q < length pool.old.chains }
{
    let six = insert(pool, p, 6, 2, alloc)?;
    pool.free(p);
    let one = insert(pool, q, 1, 3, alloc)?;
    Ok(matches!(six, Became::Kept) && matches!(one, Became::Kept) && has(pool, p, &[]))
}

#[test]
fn a_freed_chain_gives_its_cells_back(rt: HostRuntime) -> Result<(), Fail> {
    let mut pool = Pool::new(rt.alloc(), 1)?;
    let p = pool.add_chain()?;
    let q = pool.add_chain()?;
    assert!(rt; is_freed(&mut pool, p, q, rt.alloc())?);
    assert!(rt; pool.held() == 1 && pool.capacity() == 1);
    Ok(())
}

// Whether an item without room is kept once the pool grew.
fn is_kept_later(pool: &mut Pool, p: Chain, alloc: Global) -> Result<bool, NoMemory>
    requires chain { p < length pool.old.chains }
    requires capacity { pool.old.capacity < 100 }
{
    let six = insert(pool, p, 6, 2, alloc)?;
    let one = insert(pool, p, 1, 3, alloc)?;
    pool.grow(1)?;
    let one_again = insert(pool, p, 1, 3, alloc)?;
    Ok(
        matches!(six, Became::Kept)
            && matches!(one, Became::Full)
            && matches!(one_again, Became::Kept),
    )
}

#[test]
fn a_pool_that_grew_has_room(rt: HostRuntime) -> Result<(), Fail> {
    let mut pool = Pool::new(rt.alloc(), 1)?;
    let p = pool.add_chain()?;
    assert!(rt; is_kept_later(&mut pool, p, rt.alloc())?);
    assert!(rt; pool.held() == 2 && pool.capacity() == 2);
    Ok(())
}

// Whether the items of a chain have this core.
fn all_have(pool: &Pool, chain: Chain, core: &[u8]) -> bool
    requires { chain < length pool.now.chains }
{
    for item in pool.walk(chain) {
        if item.core() != core {
            return false;
        }
    }
    true
}

// Whether an item with such a core is kept once.
fn is_kept_once(pool: &mut Pool, p: Chain, core: &[u8], alloc: Global) -> Result<bool, NoMemory>
    requires chain { p < length pool.old.chains }
    requires core { length core.now ≤ 262 }
{
    let first = insert_core(pool, p, 5, core, alloc)?;
    let again = insert_core(pool, p, 5, core, alloc)?;
    Ok(matches!(first, Became::Kept) && matches!(again, Became::Repeat) && all_have(pool, p, core))
}

#[test]
fn a_core_of_many_octets_is_kept_whole(rt: HostRuntime) -> Result<(), Fail> {
    let mut pool = Pool::new(rt.alloc(), 1)?;
    let p = pool.add_chain()?;
    assert!(rt; is_kept_once(&mut pool, p, &[7; 262], rt.alloc())?);
    Ok(())
}

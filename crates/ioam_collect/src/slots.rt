//! Slots in front of a map from keys to chains: a key is looked for in two slots before the map is searched.
ghost use Rattle.std.specs.Prelude.{◌≡◌, ◌+◌, ◌*◌, ◌≤◌, ◌<◌, ℕ, Some, IfSome, length, max, vec_len, vec_capacity};
ghost use Rattle.std.specs.BTreeMap.{BTreeMap, get};
ghost use Rattle.ioam_collect.specs.Keyed.{key_cmp};
ghost use Rattle.ioam_collect.specs.Slots.{AreSlotsOf, StaySlots};
ghost use Rattle.ioam_collect.specs.declared.key.Key.{Key};

use crate::key::Key;
use ioam_pool::Chain;

// How many slots there are from the first key on.
const FIRST_SLOTS: usize = 1024;

// A key and its chain.
#[derive(Clone, Copy)]
pub(crate) struct Slot {
    pub(crate) key: Key,
    pub(crate) chain: Chain,
}

// The first of the two places of a key among so many slots, a power of two. Sequence Numbers that follow one another have
// places that do.
fn place_of(key: Key, slots: usize) -> usize
    requires { 2 ≤ slots }
    ensures { result + 1 < slots }
{
    let flow = key.flow.wrapping_mul(0x9e37_79b1);
    let namespace = u32::from(key.namespace.0).wrapping_mul(0x85eb_ca6b);
    let mixed = key.seq.wrapping_add(flow).wrapping_add(namespace);
    (mixed as usize & (slots / 2 - 1)) * 2
}

// The chain of a key, where the slot at this place has it.
fn chain_at(slots: &[Option<Slot>], place: usize, key: Key) -> Option<Chain>
    requires { place < length slots.now }
    ensures { IfSome result (λ chain. (map : BTreeMap Key ℕ) → AreSlotsOf map slots.now → get key_cmp map key ≡ Some chain) }
{
    let slot = slots[place]?;
    if slot.key == key {
        Some(slot.chain)
    } else {
        None
    }
}

// The chain of a key, where one of its slots has it.
pub(crate) fn chain_in(slots: &[Option<Slot>], key: Key) -> Option<Chain>
    ensures { IfSome result (λ chain. (map : BTreeMap Key ℕ) → AreSlotsOf map slots.now → get key_cmp map key ≡ Some chain) }
{
    if slots.len() < 2 {
        return None;
    }
    let place = place_of(key, slots.len());
    match chain_at(slots, place, key) {
        Some(chain) => Some(chain),
        None => chain_at(slots, place + 1, key),
    }
}

// Puts a key and its chain into the first of the slots of the key. What was there goes into the second.
pub(crate) fn put_in(slots: &mut Vec<Option<Slot>>, key: Key, chain: Chain)
    ensures slots { (map : BTreeMap Key ℕ) → get key_cmp map key ≡ Some chain → AreSlotsOf map slots.old.items → AreSlotsOf map slots.new.items }
    ensures capacity { vec_capacity slots.new ≡ vec_capacity slots.old }
{
    if slots.len() < 2 {
        return;
    }
    let place = place_of(key, slots.len());
    slots[place + 1] = slots[place];
    slots[place] = Some(Slot { key, chain });
}

// Adds so many slots, which are free.
fn add_slots(slots: &mut Vec<Option<Slot>>, more: usize)
    requires { vec_len slots.old + more ≤ vec_capacity slots.old }
    ensures stay { StaySlots slots.old.items slots.new.items }
    ensures len { vec_len slots.new ≡ vec_len slots.old + more }
    ensures capacity { vec_capacity slots.new ≡ vec_capacity slots.old }
{
    'adding: for _ in 0..more {
        slots.push_reserved(None);
    }
}

// Doubles the slots where there are fewer than two for each of so many keys. Without memory they stay as they are.
pub(crate) fn widen(slots: &mut Vec<Option<Slot>>, keys: usize)
    ensures stay { StaySlots slots.old.items slots.new.items }
    // There are no more than there were, or else four for each key and 1,024.
    ensures few { vec_len slots.new ≤ max (vec_len slots.old) (4 * keys + 1024) }
    ensures room { vec_capacity slots.new ≤ max (vec_capacity slots.old) (4 * keys + 1024) }
{
    let len = slots.len();
    if len / 2 >= keys {
        return;
    }
    let more = len.max(FIRST_SLOTS);
    let Ok(()) = slots.try_reserve_exact(more) else {
        return;
    };
    add_slots(slots, more);
}

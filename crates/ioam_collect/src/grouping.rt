//! The groups of a collector.
use crate::key::Key;
use ioam_pool::{Chain, Items, Pool};
use std::collections::btree_map::Iter;
use std::marker::Model;

/// The records of one key, in path order: by falling hop value.
#[derive(Drop)]
pub struct Group<'a> {
    /// What the records have in common.
    pub key: Key,
    /// The records.
    pub items: Items<'a>,
}

/// The groups of a collector, in the order of their keys. Made by [`crate::Collector::groups`].
#[derive(Drop)]
pub struct Groups<'a> {
    pub(crate) entries: Iter<'a, Key, Chain>,
    pub(crate) pool: &'a Pool,
}

impl<'a> Model for Groups<'a> {
    ghost use Rattle.std.specs.Prelude.{List, ℕ, ◌<◌, length, map};
    ghost use Rattle.std.specs.List.{AllByRecursion};
    ghost use Rattle.ioam_pool.specs.Entry.{Entry};
    ghost use Rattle.ioam_pool.specs.Chains.{chain_of};
    ghost use Rattle.ioam_collect.specs.declared.key.Key.{Key};

    ghost Value = { List (Key × List Entry) };

    ghost view = { λ groups. map (λ e. (e.0, chain_of groups.pool.now e.1)) groups.entries };

    ghost invariant = { λ groups. AllByRecursion (λ e. e.1 < length groups.pool.now.chains) groups.entries };
}

impl<'a> Iterator for Groups<'a> {
    ghost use Rattle.std.specs.Iterator.{YieldsFirstBy, item_count};

    type Item = Group<'a>;

    ghost next_gives = { YieldsFirstBy (λ group. (group.key, group.items)) (λ groups. groups) };

    ghost remaining = { item_count (λ groups. groups) };

    fn next(&mut self) -> Option<Group<'a>> {
        let (key, chain) = self.entries.next()?;
        Some(Group {
            key: *key,
            items: self.pool.walk(*chain),
        })
    }
}

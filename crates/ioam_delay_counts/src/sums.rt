//! What is counted of all traces.
ghost use Rattle.std.specs.Prelude.{◌≡◌, ◌<◌, ◌^◌, ◌+◌, ◌++◌, ◌∷◌, [], List, OnOk, length};

use crate::course::{count_hops, count_nodes, put_way, whole_delay};
use crate::filled::{Fill, Filled};
use crate::keys::{HopKey, NodeKey, SpaceKey, WayKey};
use crate::passed::Passed;
use crate::seen::Seen;
use crate::table::Table;
use ioam_base::memory::NoMemory;
use ioam_delays::Sight;
use std::alloc::Global;

/// The most hops, and the most nodes, that are counted apart.
pub const MOST_HOPS: usize = 1_024;

/// The most ways, and the most namespaces, that are counted apart.
pub const MOST_WAYS: usize = 1_024;

/// What is counted of all traces.
#[derive(Drop)]
pub struct Sums {
    /// The traces of each namespace.
    pub spaces: Table<SpaceKey, Filled>,
    /// The traces of each way, and their delays from the first element to the last.
    pub ways: Table<WayKey, Passed>,
    /// The hops between each two nodes, and their delays.
    pub hops: Table<HopKey, Passed>,
    /// The elements of each node.
    pub nodes: Table<NodeKey, Seen>,
    // The way of the trace that is counted, in memory that is kept.
    pub(crate) way: WayKey,
}

impl Sums {
    ghost use Rattle.ioam_delay_counts.specs.Courses.{Course};
    ghost use Rattle.ioam_delay_counts.specs.Counted.{AreCounted, weight};

    /// Before the first trace.
    pub fn new(alloc: Global) -> Sums
        ensures { AreCounted [] result }
    {
        Sums {
            spaces: Table::new(alloc, MOST_WAYS),
            ways: Table::new(alloc, MOST_WAYS),
            hops: Table::new(alloc, MOST_HOPS),
            nodes: Table::new(alloc, MOST_HOPS),
            way: WayKey::new(alloc),
        }
    }

    /// Counts a trace of a packet of this hop limit.
    pub fn count(
        &mut self,
        alloc: Global,
        namespace: u16,
        overflow: bool,
        limit: u8,
        sights: &[Sight],
    ) -> Result<(), NoMemory>
        ensures { OnOk result ((courses : List Course)
            → weight (courses ++ (record { namespace = namespace; overflow = overflow; limit = limit; sights = sights.now }) ∷ []) < 2 ^ 48
            → AreCounted courses self.old
            → AreCounted (courses ++ (record { namespace = namespace; overflow = overflow; limit = limit; sights = sights.now }) ∷ []) self.new) }
    {
        let fill = Fill {
            overflow,
            empty: sights.is_empty(),
        };
        let mut space = SpaceKey(namespace);
        self.spaces.count(alloc, &mut space, fill)?;
        put_way(namespace, overflow, limit, sights, &mut self.way)?;
        self.ways.count(alloc, &mut self.way, whole_delay(sights))?;
        count_hops(alloc, namespace, sights, &mut self.hops)?;
        count_nodes(alloc, namespace, sights, &mut self.nodes)?;
        Ok(())
    }
}

//! What is counted of a trace.
ghost use Rattle.std.specs.Prelude.{◌≡◌, ◌<◌, ◌^◌, ◌+◌, ◌++◌, List, ℤ, Option, None, OnOk, length};
ghost use Rattle.ioam_delay_counts.specs.Tables.{IsTable};
ghost use Rattle.ioam_delays.specs.declared.sight.Sight.{Sight};
ghost use Rattle.ioam_delay_counts.specs.Courses.{Course, IsWay, hops_from, last_hops, nodes_from, steps_of, whole_delay};
ghost use Rattle.ioam_delay_counts.specs.Orders.{hop_before, node_before};
ghost use Rattle.ioam_delay_counts.specs.Tallies.{CountsPassed, CountsSeen};
ghost use Rattle.ioam_delay_counts.specs.declared.keys.HopKey.{HopKey};
ghost use Rattle.ioam_delay_counts.specs.declared.keys.NodeKey.{NodeKey};

use crate::keys::{HopKey, NodeKey, Step, WayKey};
use crate::passed::Passed;
use crate::seen::Seen;
use crate::table::Table;
use ioam_base::memory::NoMemory;
use ioam_delays::{Sight, between, gap_after, gap_between};
use std::alloc::Global;

/// Counts what the elements of a trace say of their nodes.
pub fn count_nodes(
    alloc: Global,
    namespace: u16,
    sights: &[Sight],
    nodes: &mut Table<NodeKey, Seen>,
) -> Result<(), NoMemory>
    ensures counted { OnOk result ((seen : List (NodeKey × Sight)) → length seen + length sights.now < 2 ^ 48 → IsTable node_before CountsSeen seen nodes.old
        → IsTable node_before CountsSeen (seen ++ nodes_from namespace sights.now) nodes.new) }
    ensures limit { nodes.new.limit ≡ nodes.old.limit }
{
    'sights: for sight in sights.iter() {
        let mut key = NodeKey {
            namespace,
            node: sight.node,
        };
        nodes.count(alloc, &mut key, *sight)?;
    }
    Ok(())
}

/// Counts the hops from each element of a trace to the next.
pub fn count_hops(
    alloc: Global,
    namespace: u16,
    sights: &[Sight],
    hops: &mut Table<HopKey, Passed>,
) -> Result<(), NoMemory>
    ensures counted { OnOk result ((seen : List (HopKey × Option ℤ)) → length seen + length sights.now < 2 ^ 48 → IsTable hop_before CountsPassed seen hops.old
        → IsTable hop_before CountsPassed (seen ++ hops_from namespace sights.now) hops.new) }
    ensures limit { hops.new.limit ≡ hops.old.limit }
{
    let mut at = 1;
    'hops: while at < sights.len() {
        let from = sights[at - 1];
        let to = sights[at];
        let mut key = HopKey {
            namespace,
            from: from.node,
            to: to.node,
            past: gap_between(from.hops, to.hops),
        };
        hops.count(alloc, &mut key, between(from.stamp, to.stamp))?;
        at += 1;
    }
    Ok(())
}

// Makes these the steps of the way of a trace.
fn put_steps(sights: &[Sight], steps: &mut Vec<Step>) -> Result<(), NoMemory>
    ensures { OnOk result (steps.new.items ≡ steps_of None sights.now) }
{
    steps.clear();
    let mut before = None;
    'sights: for sight in sights.iter() {
        steps.push(Step {
            past: gap_between(before, sight.hops),
            node: sight.node,
        })?;
        before = sight.hops;
    }
    Ok(())
}

// The hop limit of the last element of a trace.
fn last_of(sights: &[Sight]) -> Option<u8>
    ensures { result ≡ last_hops None sights.now }
{
    if sights.is_empty() {
        return None;
    }
    sights[sights.len() - 1].hops
}

/// Makes it the way of a trace, in the memory that it has.
pub fn put_way(
    namespace: u16,
    overflow: bool,
    limit: u8,
    sights: &[Sight],
    way: &mut WayKey,
) -> Result<(), NoMemory>
    ensures { OnOk result (IsWay (record { namespace = namespace; overflow = overflow; limit = limit; sights = sights.now }) way.new (whole_delay sights.now)) }
{
    way.namespace = namespace;
    put_steps(sights, &mut way.steps)?;
    way.tail = gap_after(last_of(sights), limit);
    way.overflow = overflow;
    Ok(())
}

/// The delay from the first element of a trace to the last.
pub fn whole_delay(sights: &[Sight]) -> Option<i64>
    ensures { result ≡ whole_delay sights.now }
{
    if sights.len() < 2 {
        return None;
    }
    between(sights[0].stamp, sights[sights.len() - 1].stamp)
}

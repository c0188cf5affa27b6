//! What an element says of times and of the way.
ghost use Rattle.std.specs.Prelude.{◌≡◌, ◌<◌, ◌≤◌, ◌^◌};
ghost use Rattle.ioam_data.specs.Fields.{held};
ghost use Rattle.ioam_delays.specs.Sights.{between, fraction_of, gap_of, hops_of, node_of, sight_of, stamp_of, tail_of, transit_of};

use crate::times::{delay, nanoseconds};
use ioam_data::Fields;

/// The node that wrote an element.
#[derive(Clone, Copy, Debug, PartialEq, Eq)]
pub enum Node {
    /// Its id.
    Id(u64),
    /// It wrote no id.
    Unknown,
}

/// How many nodes between two that wrote wrote nothing.
#[derive(Clone, Copy, Debug, PartialEq, Eq)]
pub enum Gap {
    /// This many, by the hop limits.
    Nodes(u8),
    /// The hop limits don't fall.
    Unknown,
}

/// A time stamp, in nanoseconds.
#[derive(Clone, Copy, Debug, PartialEq, Eq)]
pub enum Stamp {
    /// There is none.
    Absent,
    /// Its fraction is of another format.
    Bad,
    /// A time within a second.
    Second(u64),
    /// A time within the 2^32 seconds that the field counts.
    Time(u64),
}

/// A transit delay that a node wrote (RFC 9197 section 4.4.2.5).
#[derive(Clone, Copy, Debug, PartialEq, Eq)]
pub enum Transit {
    /// There is none.
    Absent,
    /// It doesn't fit.
    Long,
    /// In nanoseconds.
    Takes(u32),
}

/// What an element says of times and of the way.
#[derive(Clone, Copy, Debug, PartialEq, Eq)]
pub struct Sight {
    /// The node that wrote it.
    pub node: Node,
    /// The hop limit that it wrote.
    pub hops: Option<u8>,
    /// The fraction of its time stamp, unless it is all ones.
    pub fraction: Option<u32>,
    /// Its time stamp.
    pub stamp: Stamp,
    /// Its transit delay.
    pub transit: Transit,
}

// What a field of all ones says.
const NO_WIDE_ID: u64 = 0xff_ffff_ffff_ffff;

const NO_ID: u32 = 0xff_ffff;

const NONE: u32 = 0xffff_ffff;

/// What an element says, whose fractions are in units of `1/units` seconds.
pub fn read_sight(fields: &Fields<'_>, units: u64) -> Sight
    requires { units ≤ 2 ^ 32 }
    ensures { result ≡ sight_of units (held fields.now) }
{
    Sight {
        node: read_node(fields.wide_hop_node, fields.hop_node),
        hops: read_hops(fields.wide_hop_node, fields.hop_node),
        fraction: read_fraction(fields.fraction),
        stamp: read_stamp(fields.seconds, read_fraction(fields.fraction), units),
        transit: read_transit(fields.delay),
    }
}

// The id of 56 bits, else that of 24 bits.
fn read_node(wide: Option<(u8, u64)>, narrow: Option<(u8, u32)>) -> Node
    ensures { result ≡ node_of wide narrow }
{
    if let Some((_, id)) = wide {
        if id != NO_WIDE_ID {
            return Node::Id(id);
        }
    }
    match narrow {
        Some((_, id)) if id != NO_ID => Node::Id(u64::from(id)),
        _ => Node::Unknown,
    }
}

// The hop limit beside the id of 56 bits, else beside that of 24 bits.
fn read_hops(wide: Option<(u8, u64)>, narrow: Option<(u8, u32)>) -> Option<u8>
    ensures { result ≡ hops_of wide narrow }
{
    match wide {
        Some((hops, _)) => Some(hops),
        None => match narrow {
            Some((hops, _)) => Some(hops),
            None => None,
        },
    }
}

// A fraction that isn't all ones.
fn read_fraction(field: Option<u32>) -> Option<u32>
    ensures { result ≡ fraction_of field }
{
    match field {
        Some(fraction) if fraction != NONE => Some(fraction),
        _ => None,
    }
}

// The time stamp of seconds and a fraction.
fn read_stamp(seconds: Option<u32>, fraction: Option<u32>, units: u64) -> Stamp
    requires { units ≤ 2 ^ 32 }
    ensures { result ≡ stamp_of units seconds fraction }
{
    let Some(fraction) = fraction else {
        return Stamp::Absent;
    };
    if u64::from(fraction) >= units {
        return Stamp::Bad;
    }
    let part = nanoseconds(fraction, units);
    match seconds {
        None => Stamp::Second(part),
        Some(NONE) => Stamp::Absent,
        Some(seconds) => Stamp::Time(u64::from(seconds) * 1_000_000_000 + part),
    }
}

// A transit delay.
fn read_transit(field: Option<u32>) -> Transit
    ensures { result ≡ transit_of field }
{
    match field {
        None => Transit::Absent,
        Some(NONE) => Transit::Absent,
        Some(delay) if delay >= 0x8000_0000 => Transit::Long,
        Some(delay) => Transit::Takes(delay),
    }
}

/// The delay from one time stamp of a trace to another.
pub fn between(from: Stamp, to: Stamp) -> Option<i64>
    ensures { result ≡ between from to }
{
    match (from, to) {
        (Stamp::Second(from), Stamp::Second(to)) => Some(delay(from, to, 1_000_000_000)),
        (Stamp::Time(from), Stamp::Time(to)) => Some(delay(from, to, 4_294_967_296_000_000_000)),
        _ => None,
    }
}

/// How many nodes between two that follow each other wrote nothing, by the hop limits that these wrote.
pub fn gap_between(from: Option<u8>, to: Option<u8>) -> Gap
    ensures { result ≡ gap_of from to }
{
    match (from, to) {
        (Some(from), Some(to)) => {
            if to < from {
                Gap::Nodes(from - to - 1)
            } else {
                Gap::Unknown
            }
        }
        _ => Gap::Nodes(0),
    }
}

/// How many nodes after the last that wrote wrote nothing, by its hop limit and that of the packet.
pub fn gap_after(last: Option<u8>, packet: u8) -> Gap
    ensures { result ≡ tail_of last packet }
{
    match last {
        Some(last) => {
            if packet <= last {
                Gap::Nodes(last - packet)
            } else {
                Gap::Unknown
            }
        }
        None => Gap::Nodes(0),
    }
}

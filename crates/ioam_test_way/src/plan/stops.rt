//! The visits of packets.
use ioam_topo::{LinkId, Way};

/// A visit: the node, its interfaces, the way and the time.
pub(crate) struct Stop {
    pub(crate) node: u32,
    pub(crate) inward: u32,
    pub(crate) outward: Option<u32>,
    pub(crate) way: Option<Way>,
    pub(crate) time: u64,
}

/// Where a packet is visited.
#[derive(Clone, Copy)]
pub(crate) enum Stops {
    None,
    /// At the first node.
    First,
    /// At all three nodes, of which the third takes it out of its tunnel.
    Through,
    /// At the first and the second node in turn.
    Loop,
}

/// When the packets arrive.
pub(crate) const SECOND: u64 = 1_000_000_000;

const AT_A: Stop = Stop {
    node: 0,
    inward: 10,
    outward: Some(12),
    way: Some(Way::Link(LinkId(0))),
    time: SECOND,
};

const AT_B: Stop = Stop {
    node: 1,
    inward: 21,
    outward: Some(23),
    way: Some(Way::Link(LinkId(1))),
    time: SECOND + 1000,
};

const AT_C: Stop = Stop {
    node: 2,
    inward: 32,
    outward: None,
    way: None,
    time: SECOND + 2000,
};

const NO_STOPS: [Stop; 0] = [];

const FIRST: [Stop; 1] = [AT_A];

const THROUGH: [Stop; 3] = [AT_A, AT_B, AT_C];

const BACK_AND_FORTH: [Stop; 5] = [
    AT_A,
    Stop {
        node: 1,
        inward: 21,
        outward: Some(24),
        way: Some(Way::Link(LinkId(2))),
        time: SECOND + 1000,
    },
    Stop {
        node: 0,
        inward: 13,
        outward: Some(12),
        way: Some(Way::Link(LinkId(0))),
        time: SECOND + 2000,
    },
    Stop {
        node: 1,
        inward: 21,
        outward: Some(24),
        way: Some(Way::Link(LinkId(2))),
        time: SECOND + 3000,
    },
    Stop {
        node: 0,
        inward: 13,
        outward: Some(12),
        way: Some(Way::Link(LinkId(0))),
        time: SECOND + 4000,
    },
];

/// The visits of a packet.
pub(crate) fn stops_of(stops: Stops) -> &'static [Stop] {
    match stops {
        Stops::None => &NO_STOPS,
        Stops::First => &FIRST,
        Stops::Through => &THROUGH,
        Stops::Loop => &BACK_AND_FORTH,
    }
}

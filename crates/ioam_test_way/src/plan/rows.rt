//! Arrivals by octets written by hand, and what is planned for each.
use crate::plan::stops::Stops;
use ioam_node::Reason;
use ioam_plan::End;
use ioam_topo::{NodeId, PortId};

/// The numbers of an enclosed packet: its number, that of its direct export, its encapsulation limit
/// and its stamp.
pub(crate) type Drawn = (u64, Option<u32>, Option<u8>, Option<(u32, u32)>);

/// An arrival, and what is planned for it.
pub(crate) struct Arrival {
    pub(crate) port: u32,
    /// The first eight octets of the packet, what stands behind its addresses, and zeros behind that.
    pub(crate) start: &'static str,
    pub(crate) tail: &'static str,
    pub(crate) zeros: usize,
    pub(crate) stops: Stops,
    pub(crate) end: End,
    pub(crate) drawn: Option<Drawn>,
}

const ADDRESSES: &str = "20010db8000100000000000000000001 20010db8000200000000000000000001";

const UDP: &str = "0400040100080000";

const EAST: End = End::Left { port: PortId(1) };

const ARRIVALS: [Arrival; 32] = [
    // Hop limits of the packet.
    Arrival {
        port: 0,
        start: "60000000 0008 11 01",
        tail: UDP,
        zeros: 0,
        stops: Stops::None,
        end: End::Drop {
            reason: Reason::HopLimit,
            node: NodeId(0),
        },
        drawn: None,
    },
    Arrival {
        port: 0,
        start: "60000000 0008 11 02",
        tail: UDP,
        zeros: 0,
        stops: Stops::Through,
        end: End::Drop {
            reason: Reason::HopLimit,
            node: NodeId(2),
        },
        drawn: Some((0, None, None, None)),
    },
    Arrival {
        port: 0,
        start: "60000000 0008 11 03",
        tail: UDP,
        zeros: 0,
        stops: Stops::Through,
        end: EAST,
        drawn: Some((1, None, None, None)),
    },
    // An outer hop limit of 1.
    Arrival {
        port: 0,
        start: "60000000 0008 11 40",
        tail: UDP,
        zeros: 0,
        stops: Stops::First,
        end: End::Drop {
            reason: Reason::HopLimit,
            node: NodeId(1),
        },
        drawn: Some((0, None, None, None)),
    },
    // An outer hop limit of 2.
    Arrival {
        port: 0,
        start: "60000000 0008 11 40",
        tail: UDP,
        zeros: 0,
        stops: Stops::Through,
        end: EAST,
        drawn: Some((0, None, None, None)),
    },
    // One that is too big takes no number.
    Arrival {
        port: 0,
        start: "60000000 0008 11 40",
        tail: UDP,
        zeros: 0,
        stops: Stops::Through,
        end: EAST,
        drawn: Some((0, None, None, None)),
    },
    Arrival {
        port: 2,
        start: "60000000 05a0 11 40",
        tail: "",
        zeros: 1440,
        stops: Stops::None,
        end: End::Drop {
            reason: Reason::TooBig,
            node: NodeId(0),
        },
        drawn: None,
    },
    Arrival {
        port: 0,
        start: "60000000 0008 11 40",
        tail: UDP,
        zeros: 0,
        stops: Stops::Through,
        end: EAST,
        drawn: Some((1, None, None, None)),
    },
    // A loop.
    Arrival {
        port: 0,
        start: "60000000 0008 11 40",
        tail: UDP,
        zeros: 0,
        stops: Stops::Loop,
        end: End::Drop {
            reason: Reason::HopLimit,
            node: NodeId(1),
        },
        drawn: Some((0, Some(0), None, None)),
    },
    // A port on the way.
    Arrival {
        port: 0,
        start: "60000000 0008 11 40",
        tail: UDP,
        zeros: 0,
        stops: Stops::First,
        end: End::Drop {
            reason: Reason::IoamOut,
            node: NodeId(1),
        },
        drawn: Some((0, None, None, None)),
    },
    // A link at the exit.
    Arrival {
        port: 0,
        start: "60000000 0008 11 40",
        tail: UDP,
        zeros: 0,
        stops: Stops::Through,
        end: End::Drop {
            reason: Reason::NoRoute,
            node: NodeId(2),
        },
        drawn: Some((0, None, None, None)),
    },
    // Every third packet.
    Arrival {
        port: 0,
        start: "60000000 0008 11 40",
        tail: UDP,
        zeros: 0,
        stops: Stops::Through,
        end: EAST,
        drawn: Some((0, Some(0), None, None)),
    },
    Arrival {
        port: 0,
        start: "60000000 0008 11 40",
        tail: UDP,
        zeros: 0,
        stops: Stops::Through,
        end: EAST,
        drawn: Some((1, None, None, None)),
    },
    Arrival {
        port: 0,
        start: "60000000 0008 11 40",
        tail: UDP,
        zeros: 0,
        stops: Stops::Through,
        end: EAST,
        drawn: Some((2, None, None, None)),
    },
    Arrival {
        port: 0,
        start: "60000000 0008 11 40",
        tail: UDP,
        zeros: 0,
        stops: Stops::Through,
        end: EAST,
        drawn: Some((3, Some(1), None, None)),
    },
    Arrival {
        port: 0,
        start: "60000000 0008 11 40",
        tail: UDP,
        zeros: 0,
        stops: Stops::Through,
        end: EAST,
        drawn: Some((4, None, None, None)),
    },
    Arrival {
        port: 0,
        start: "60000000 0008 11 40",
        tail: UDP,
        zeros: 0,
        stops: Stops::Through,
        end: EAST,
        drawn: Some((5, None, None, None)),
    },
    Arrival {
        port: 0,
        start: "60000000 0008 11 40",
        tail: UDP,
        zeros: 0,
        stops: Stops::Through,
        end: EAST,
        drawn: Some((6, Some(2), None, None)),
    },
    // Encapsulation limits.
    Arrival {
        port: 0,
        start: "60000000 0010 3c 40",
        tail: "1100040100010100 0400040100080000",
        zeros: 0,
        stops: Stops::None,
        end: End::Drop {
            reason: Reason::EncapLimit,
            node: NodeId(0),
        },
        drawn: None,
    },
    Arrival {
        port: 0,
        start: "60000000 0010 3c 40",
        tail: "1100040101010100 0400040100080000",
        zeros: 0,
        stops: Stops::Through,
        end: EAST,
        drawn: Some((0, None, Some(0), None)),
    },
    Arrival {
        port: 0,
        start: "60000000 0008 11 40",
        tail: UDP,
        zeros: 0,
        stops: Stops::Through,
        end: EAST,
        drawn: Some((1, None, None, None)),
    },
    // A limit of the flow.
    Arrival {
        port: 0,
        start: "60000000 0585 11 40",
        tail: "",
        zeros: 1413,
        stops: Stops::None,
        end: End::Drop {
            reason: Reason::TooBig,
            node: NodeId(0),
        },
        drawn: None,
    },
    Arrival {
        port: 0,
        start: "60000000 0584 11 40",
        tail: "",
        zeros: 1412,
        stops: Stops::Through,
        end: EAST,
        drawn: Some((0, None, Some(4), None)),
    },
    // No option.
    Arrival {
        port: 0,
        start: "60000000 058d 11 40",
        tail: "",
        zeros: 1421,
        stops: Stops::None,
        end: End::Drop {
            reason: Reason::TooBig,
            node: NodeId(0),
        },
        drawn: None,
    },
    Arrival {
        port: 0,
        start: "60000000 058c 11 40",
        tail: "",
        zeros: 1420,
        stops: Stops::Through,
        end: EAST,
        drawn: Some((0, None, None, None)),
    },
    // Every second packet.
    Arrival {
        port: 0,
        start: "60000000 0575 11 40",
        tail: "",
        zeros: 1397,
        stops: Stops::None,
        end: End::Drop {
            reason: Reason::TooBig,
            node: NodeId(0),
        },
        drawn: None,
    },
    Arrival {
        port: 0,
        start: "60000000 0574 11 40",
        tail: "",
        zeros: 1396,
        stops: Stops::Through,
        end: EAST,
        drawn: Some((0, Some(0), None, None)),
    },
    Arrival {
        port: 0,
        start: "60000000 058d 11 40",
        tail: "",
        zeros: 1421,
        stops: Stops::None,
        end: End::Drop {
            reason: Reason::TooBig,
            node: NodeId(0),
        },
        drawn: None,
    },
    Arrival {
        port: 0,
        start: "60000000 058c 11 40",
        tail: "",
        zeros: 1420,
        stops: Stops::Through,
        end: EAST,
        drawn: Some((1, None, None, None)),
    },
    Arrival {
        port: 0,
        start: "60000000 0575 11 40",
        tail: "",
        zeros: 1397,
        stops: Stops::None,
        end: End::Drop {
            reason: Reason::TooBig,
            node: NodeId(0),
        },
        drawn: None,
    },
    Arrival {
        port: 0,
        start: "60000000 0008 11 40",
        tail: UDP,
        zeros: 0,
        stops: Stops::Through,
        end: EAST,
        drawn: Some((2, Some(1), None, None)),
    },
    // The clock of the entry.
    Arrival {
        port: 0,
        start: "60000000 0008 11 40",
        tail: UDP,
        zeros: 0,
        stops: Stops::Through,
        end: EAST,
        drawn: Some((0, None, None, Some((6, 7)))),
    },
];

/// The arrivals of all rows.
pub(crate) fn arrivals() -> &'static [Arrival] {
    &ARRIVALS
}

/// The digits of an arrival's packet.
pub(crate) fn packet_digits(arrival: &Arrival) -> [&'static str; 3] {
    [arrival.start, ADDRESSES, arrival.tail]
}

//! Packets that nodes visit, as rows: a domain, a packet, and its octets, the notes and the export
//! records after each visit.
use ioam_node_visit::What;

/// What a visit is to a tunnel.
#[derive(Clone, Copy, PartialEq, Eq)]
pub(crate) enum Step {
    Begin,
    Transit,
    Exit,
}

/// Where and when a packet is visited.
#[derive(Clone, Copy)]
pub(crate) struct At {
    pub(crate) step: Step,
    pub(crate) node: u32,
    pub(crate) inward: u32,
    /// Not said by the last visit of a tunnel.
    pub(crate) outward: u32,
    pub(crate) time: u64,
}

/// What is noted of an option.
pub(crate) struct Noted {
    pub(crate) space: u16,
    pub(crate) direct: bool,
    pub(crate) what: What,
}

/// A visit, and the hop limit and the octets between the addresses and what is carried after it.
pub(crate) struct Stop {
    pub(crate) at: At,
    pub(crate) hops: &'static str,
    pub(crate) headers: &'static str,
}

pub(crate) struct Row {
    /// The namespaces that node b knows; a and c know 7, 8 and 9.
    pub(crate) spaces: &'static str,
    /// The nodes' data.
    pub(crate) data: &'static str,
    pub(crate) readings: &'static str,
    /// The first seven octets.
    pub(crate) start: &'static str,
    /// The hop limit and the octets behind the addresses before the first visit.
    pub(crate) hops: &'static str,
    pub(crate) headers: &'static str,
    /// What is behind those.
    pub(crate) behind: &'static str,
    pub(crate) stops: &'static [Stop],
    pub(crate) notes: &'static [Noted],
    pub(crate) exports: &'static [&'static str],
}

/// Three nodes in a row: a sends by interface 12 to b's 21, and b by 23 to c's 32.
pub(crate) const A: At = At {
    step: Step::Begin,
    node: 0,
    inward: 10,
    outward: 12,
    time: 1_000_000_000,
};

pub(crate) const B: At = At {
    step: Step::Transit,
    node: 1,
    inward: 21,
    outward: 23,
    time: 1_000_001_000,
};

pub(crate) const C: At = At {
    step: Step::Exit,
    node: 2,
    inward: 32,
    outward: 0,
    time: 1_000_002_000,
};

pub(crate) const ADDED: Noted = Noted {
    space: 7,
    direct: false,
    what: What::Added { words: 1 },
};

pub(crate) const OVERFLOWED: Noted = Noted {
    space: 7,
    direct: false,
    what: What::Overflowed,
};

pub(crate) const EXPORTED: Noted = Noted {
    space: 7,
    direct: true,
    what: What::Exported,
};

/// A packet that is carried: an IPv6 header with the hop limit 63, and 8 octets of UDP header.
pub(crate) const CARRIED: &str =
    "60000000 0008 11 3f 20010db8000100000000000000000001 20010db8000200000000000000000001 0400040100080000";

const FRONT: &str = "node = [
  { name = \"a\", id = 1, address = \"2001:db8::a\", namespaces = [7, 8, 9] },
  { name = \"b\", id = 2, address = \"2001:db8::b\", namespaces = [";

const BACK: &str = "] },
  { name = \"c\", id = 3, address = \"2001:db8::c\", namespaces = [7, 8, 9] },
]
";

/// The file of a row's domain.
pub(crate) fn domain_texts(row: &Row) -> [&'static str; 4] {
    [FRONT, row.spaces, BACK, row.data]
}

/// The addresses of a and c.
pub(crate) const ENDS: &str = "20010db800000000000000000000000a 20010db800000000000000000000000c";

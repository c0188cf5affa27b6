//! A packet that goes through the tunnel of a flow, and what its job holds before its visits and after.

// Three nodes in a row, with taps on both links; a flow with a trace, and with direct export in each
// third packet.
const DOMAIN: [&str; 5] = [NODES, LINKS, PORTS, ROUTES, FLOWS];

const NODES: &str = r#"node = [
  { name = "a", id = 1, address = "2001:db8::a", namespaces = [7] },
  { name = "b", id = 2, address = "2001:db8::b", namespaces = [7] },
  { name = "c", id = 3, address = "2001:db8::c", namespaces = [7] },
]
"#;

const LINKS: &str = r#"link = [
  { name = "ab", from = "a", to = "b", out_id = 12, in_id = 21, delay = 1000, mtu = 1500, tap = "ab.pcap" },
  { name = "bc", from = "b", to = "c", out_id = 23, in_id = 32, delay = 1000, mtu = 1500, tap = "bc.pcap" },
]
"#;

const PORTS: &str = r#"port = [
  { name = "west", node = "a", id = 10, in = "west.pcap", out = "west-out.pcap" },
  { name = "east", node = "c", id = 30, out = "east-out.pcap" },
]
"#;

const ROUTES: &str = r#"route = [
  { node = "a", prefix = "2001:db8::c/128", link = "ab" },
  { node = "b", prefix = "2001:db8::c/128", link = "bc" },
  { node = "c", prefix = "2001:db8:2::/48", port = "east" },
]
"#;

const FLOWS: &str = r#"flow = [
  { name = "f", entry = "a", exit = "c", source = "::/0", target = "2001:db8:2::/48", namespace = 7, hops = 64, trace = 0x800000, capacity = 3, direct = 0x800000, every = 3, flow_id = 9 },
]
"#;

/// The texts of the file of the domain.
pub(crate) fn domain_texts() -> &'static [&'static str] {
    &DOMAIN
}

/// What a job holds: its packet as it stands, what was sent on the links, and its export records.
pub(crate) struct Row {
    pub(crate) packet: &'static [&'static str],
    pub(crate) first: &'static [&'static str],
    pub(crate) second: &'static [&'static str],
    pub(crate) exports: &'static [&'static str],
}

const START: &str = "60000000 0060 00";

const ENDS: &str = "20010db800000000000000000000000a 20010db800000000000000000000000c 29 05 01 00";

const DIRECT: &str = "11 12 00 04 0007 00 c0 800000 00 00000009 00000000
    60000000 0008 11 3f 20010db8000100000000000000000001 20010db8000200000000000000000001 0400040100080000";

const BEFORE: Row = Row {
    packet: &[
        START,
        "40",
        ENDS,
        "31 16 00 00 0007 0803 800000 00 00000000 00000000 00000000",
        DIRECT,
    ],
    first: &[],
    second: &[],
    exports: &[],
};

const AFTER: Row = Row {
    packet: &[
        START,
        "3f",
        ENDS,
        "31 16 00 00 0007 0800 800000 00 3e000003 3f000002 40000001",
        DIRECT,
    ],
    first: &[
        START,
        "40",
        ENDS,
        "31 16 00 00 0007 0802 800000 00 00000000 00000000 40000001",
        DIRECT,
    ],
    second: &[
        START,
        "3f",
        ENDS,
        "31 16 00 00 0007 0801 800000 00 00000000 3f000002 40000001",
        DIRECT,
    ],
    exports: &[
        "02 c0 0022 0007 00 800000 000000003b9aca00 0000000a 00000009 00000000 40000001",
        "02 c0 0022 0007 00 800000 000000003b9acde8 00000015 00000009 00000000 3f000002",
        "02 c0 0022 0007 00 800000 000000003b9ad1d0 00000020 00000009 00000000 3e000003",
    ],
};

/// Before its visits.
pub(crate) fn before() -> &'static Row {
    &BEFORE
}

/// After them.
pub(crate) fn after() -> &'static Row {
    &AFTER
}

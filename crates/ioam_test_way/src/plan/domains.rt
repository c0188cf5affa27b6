//! A domain of three nodes, as rows: its routes and the flow of each, and which arrivals are planned in
//! it one behind the other.
const NODES: &str = r#"
node = [
  { name = "a", id = 1, address = "2001:db8::a", namespaces = [7] },
  { name = "b", id = 2, address = "2001:db8::b", namespaces = [7] },
  { name = "c", id = 3, address = "2001:db8::c", namespaces = [7] },
]
"#;

const LINKS: &str = r#"
link = [
  { name = "ab", from = "a", to = "b", out_id = 12, in_id = 21, delay = 1000, mtu = 1500 },
  { name = "bc", from = "b", to = "c", out_id = 23, in_id = 32, delay = 1000, mtu = 1500 },
  { name = "ba", from = "b", to = "a", out_id = 24, in_id = 13, delay = 1000, mtu = 1500 },
  { name = "cb", from = "c", to = "b", out_id = 34, in_id = 25, delay = 1000, mtu = 1500 },
]
"#;

const PORTS: &str = r#"
port = [
  { name = "west", node = "a", id = 10, out = "west-out.pcap" },
  { name = "east", node = "c", id = 30, out = "east-out.pcap" },
  { name = "west2", node = "a", id = 11, out = "west2-out.pcap" },
  { name = "side", node = "b", id = 20, out = "side-out.pcap" },
]
"#;

const ROUTES: &str = r#"
route = [
  { node = "a", prefix = "2001:db8::c/128", link = "ab" },
  { node = "b", prefix = "2001:db8::c/128", link = "bc" },
  { node = "c", prefix = "2001:db8:2::/48", port = "east" },
]
"#;

// The way of the second node leads back.
const LOOP: &str = r#"
route = [
  { node = "a", prefix = "2001:db8::c/128", link = "ab" },
  { node = "b", prefix = "2001:db8::c/128", link = "ba" },
  { node = "c", prefix = "2001:db8:2::/48", port = "east" },
]
"#;

// The way of the second node leads out of the domain.
const OUTWARDS: &str = r#"
route = [
  { node = "a", prefix = "2001:db8::c/128", link = "ab" },
  { node = "b", prefix = "2001:db8::c/128", port = "side" },
  { node = "c", prefix = "2001:db8:2::/48", port = "east" },
]
"#;

// The way of the third node leads back into the domain.
const INWARDS: &str = r#"
route = [
  { node = "a", prefix = "2001:db8::c/128", link = "ab" },
  { node = "b", prefix = "2001:db8::c/128", link = "bc" },
  { node = "c", prefix = "2001:db8:2::/48", link = "cb" },
]
"#;

const FLOW: &str = r#"
flow = [
  { name = "f", entry = "a", exit = "c", source = "::/0", target = "2001:db8:2::/48", namespace = 7, "#;

const FLOW_END: &str = " },\n]\n";

/// A domain and its arrivals.
pub(crate) struct Row {
    pub(crate) name: &'static str,
    pub(crate) routes: &'static str,
    /// The keys of the flow besides its name, its ends, its prefixes and its namespace.
    pub(crate) flow: &'static str,
    pub(crate) readings: &'static str,
    /// The place of its first arrival, and how many there are.
    pub(crate) from: usize,
    pub(crate) count: usize,
}

const ROWS: [Row; 13] = [
    Row {
        name: "hop limits of the packet",
        routes: ROUTES,
        flow: "hops = 64, trace = 0x800000, capacity = 3",
        readings: "",
        from: 0,
        count: 3,
    },
    Row {
        name: "an outer hop limit of 1",
        routes: ROUTES,
        flow: "hops = 1",
        readings: "",
        from: 3,
        count: 1,
    },
    Row {
        name: "an outer hop limit of 2",
        routes: ROUTES,
        flow: "hops = 2",
        readings: "",
        from: 4,
        count: 1,
    },
    Row {
        name: "one that is too big takes no number",
        routes: ROUTES,
        flow: "hops = 64, trace = 0x800000, capacity = 3, edge = 0x4000",
        readings: "",
        from: 5,
        count: 3,
    },
    Row {
        name: "a loop",
        routes: LOOP,
        flow: "hops = 5, direct = 0x800000, every = 1, flow_id = 9",
        readings: "",
        from: 8,
        count: 1,
    },
    Row {
        name: "a port on the way",
        routes: OUTWARDS,
        flow: "hops = 64, trace = 0x800000, capacity = 3",
        readings: "",
        from: 9,
        count: 1,
    },
    Row {
        name: "a link at the exit",
        routes: INWARDS,
        flow: "hops = 64, trace = 0x800000, capacity = 3",
        readings: "",
        from: 10,
        count: 1,
    },
    Row {
        name: "every third packet",
        routes: ROUTES,
        flow: "hops = 64, trace = 0x800000, capacity = 3, direct = 0x800000, every = 3, flow_id = 9",
        readings: "",
        from: 11,
        count: 7,
    },
    Row {
        name: "encapsulation limits",
        routes: ROUTES,
        flow: "hops = 64, trace = 0x800000, capacity = 3",
        readings: "",
        from: 18,
        count: 3,
    },
    Row {
        name: "a limit of the flow",
        routes: ROUTES,
        flow: "hops = 64, limit = 4",
        readings: "",
        from: 21,
        count: 2,
    },
    Row {
        name: "no option",
        routes: ROUTES,
        flow: "hops = 64",
        readings: "",
        from: 23,
        count: 2,
    },
    Row {
        name: "every second packet",
        routes: ROUTES,
        flow: "hops = 64, direct = 0x800000, every = 2, flow_id = 9",
        readings: "",
        from: 25,
        count: 6,
    },
    Row {
        name: "the clock of the entry",
        routes: ROUTES,
        flow: "hops = 64, edge = 0x3000",
        readings: "a 0 5000000007 - - -\nc 0 9 - - -\n",
        from: 31,
        count: 1,
    },
];

/// The domains.
pub(crate) fn rows() -> &'static [Row] {
    &ROWS
}

/// The texts of a row's domain.
pub(crate) fn domain_texts(row: &Row) -> [&'static str; 7] {
    [NODES, LINKS, PORTS, row.routes, FLOW, row.flow, FLOW_END]
}

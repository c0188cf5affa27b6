//! What the runs read: packets through the tunnel of a flow over three nodes.
use ioam_test_rows::digits::{AT_ONE, HEAD, UDP};

// The nodes, links with taps, ports and routes.
const NETWORK: &str = r#"
node = [
  { name = "a", id = 1, address = "2001:db8::a", namespaces = [7] },
  { name = "b", id = 2, address = "2001:db8::b", namespaces = [7] },
  { name = "c", id = 3, address = "2001:db8::c", namespaces = [7] },
]
link = [
  { name = "ab", from = "a", to = "b", out_id = 12, in_id = 21, delay = 1000, mtu = 1500, tap = "ab.pcap" },
  { name = "bc", from = "b", to = "c", out_id = 23, in_id = 32, delay = 1000, mtu = 1500, tap = "bc.pcap" },
]
port = [
  { name = "west", node = "a", id = 10, in = "west.pcap", out = "west-out.pcap" },
  { name = "east", node = "c", id = 30, out = "east-out.pcap" },
]
"#;

const ROUTES: &str = r#"
route = [
  { node = "a", prefix = "2001:db8::c/128", link = "ab" },
  { node = "b", prefix = "2001:db8::c/128", link = "bc" },
  { node = "c", prefix = "2001:db8:2::/48", port = "east" },
]
"#;

// A flow with a trace.
const FLOW: &str = r#"
[[flow]]
name = "f"
entry = "a"
exit = "c"
source = "::/0"
target = "2001:db8:2::/48"
namespace = 7
hops = 64
trace = 0x800000
capacity = 3
"#;

// Direct export in each third packet.
const DIRECT: &str = "direct = 0x800000\nevery = 3\nflow_id = 9\n";

/// The parts of a domain with a flow that has a trace. A function, so that the proof of a test doesn't look into
/// them.
pub(crate) fn tracing() -> &'static [&'static str] {
    &[NETWORK, ROUTES, FLOW]
}

/// The parts of the same domain, where the flow has direct export too.
pub(crate) fn exporting() -> &'static [&'static str] {
    &[NETWORK, ROUTES, FLOW, DIRECT]
}

/// A capture of one packet.
pub(crate) fn one_packet() -> &'static [&'static str] {
    &[HEAD, AT_ONE, UDP]
}

/// A capture of two packets.
pub(crate) fn two_packets() -> &'static [&'static str] {
    &[HEAD, AT_ONE, UDP, AT_ONE, UDP]
}

/// A file by its name, and the parts of its octets.
pub(crate) struct File {
    pub(crate) name: &'static str,
    pub(crate) parts: &'static [&'static str],
}

// What is written of one packet on the way of its tunnel.
const FILES: [File; 5] = [
    File {
        name: "west-out.pcap",
        parts: &[HEAD],
    },
    File {
        name: "east-out.pcap",
        parts: &[
            HEAD,
            "00000001 000007d0 00000030 00000030",
            "600000000008113e 20010db8000100000000000000000001 20010db8000200000000000000000001 0400040100080000",
        ],
    },
    File {
        name: "ab.pcap",
        parts: &[
            HEAD,
            "00000001 00000000 00000078 00000078",
            "60000000 0050 00 40 20010db800000000000000000000000a 20010db800000000000000000000000c",
            "29 03 01 00 31 16 00 00 0007 0802 800000 00 00000000 00000000 40000001 01 02 00 00",
            "600000000008113f 20010db8000100000000000000000001 20010db8000200000000000000000001 0400040100080000",
        ],
    },
    File {
        name: "bc.pcap",
        parts: &[
            HEAD,
            "00000001 000003e8 00000078 00000078",
            "60000000 0050 00 3f 20010db800000000000000000000000a 20010db800000000000000000000000c",
            "29 03 01 00 31 16 00 00 0007 0801 800000 00 00000000 3f000002 40000001 01 02 00 00",
            "600000000008113f 20010db8000100000000000000000001 20010db8000200000000000000000001 0400040100080000",
        ],
    },
    File {
        name: "exports",
        parts: &[],
    },
];

/// The files that are written of one packet.
pub(crate) fn files() -> &'static [File] {
    &FILES
}

/// Its report.
pub(crate) fn report() -> &'static [u8] {
    b"1 west left east flow f 0\n  trace 7 800000 whole 3\n    hop=64 node=1\n    hop=63 node=2\n    hop=62 node=3\n\
        packets 1 left 1 dropped 0\nnode a seen 1 dropped 0\nnode b seen 1 dropped 0\nnode c seen 1 dropped 0\n\
        flow f enclosed 1 exited 1 direct 0\n"
}

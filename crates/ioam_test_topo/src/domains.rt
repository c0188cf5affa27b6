//! Domain files and what they are read as.
use ioam_topo::{Domain, LinkId, NodeId, PortId, Way};
use ioam_topo_file::{DomainRefused, read_domain};
use std::alloc::Global;

pub(crate) const NODES: &str =
    "node = [{ name = \"a\", id = 1, address = \"2001:db8::a\" }, { name = \"b\", id = 2, address = \"2001:db8::b\" }]\n";

pub(crate) const LINKS: &str =
    "link = [{ name = \"ab\", from = \"a\", to = \"b\", out_id = 1, in_id = 2, delay = 0, mtu = 1500 }]\n";

pub(crate) const PORTS: &str =
    "port = [{ name = \"west\", node = \"a\", id = 1, out = \"w\" }, { name = \"east\", node = \"b\", id = 1, out = \"e\" }]\n";

// Three nodes in a row, a port at each end, and routes from the first to the last and out there.
const ROW: &str = "node = [
  { name = \"a\", id = 1, address = \"2001:db8::a\", namespaces = [7] },
  { name = \"b\", id = 2, address = \"2001:db8::b\", namespaces = [7] },
  { name = \"c\", id = 3, address = \"2001:db8::c\", namespaces = [7] },
]
link = [
  { name = \"ab\", from = \"a\", to = \"b\", out_id = 12, in_id = 21, delay = 1000, mtu = 1500 },
  { name = \"bc\", from = \"b\", to = \"c\", out_id = 23, in_id = 32, delay = 1000, mtu = 1500 },
]
port = [
  { name = \"west\", node = \"a\", id = 10, in = \"west.pcap\", out = \"west-out.pcap\" },
  { name = \"east\", node = \"c\", id = 30, out = \"east-out.pcap\" },
]
route = [
  { node = \"a\", prefix = \"2001:db8::c/128\", link = \"ab\" },
  { node = \"b\", prefix = \"2001:db8::c/128\", link = \"bc\" },
  { node = \"c\", prefix = \"2001:db8:2::/48\", port = \"east\" },
]
";

// Routes of one node, of which one prefix holds another.
const NESTED: &str =
    "node = [{ name = \"a\", id = 1, address = \"::1\" }, { name = \"b\", id = 2, address = \"1:2:3:4:5:6:7::\" }]
link = [{ name = \"ab\", from = \"a\", to = \"b\", out_id = 1, in_id = 2, delay = 0, mtu = 1500 }]
port = [{ name = \"west\", node = \"a\", id = 1, out = \"w\" }]
route = [
  { node = \"a\", prefix = \"::/0\", port = \"west\" },
  { node = \"a\", prefix = \"2001:db8::/32\", link = \"ab\" },
  { node = \"a\", prefix = \"2001:db8::/31\", port = \"west\" },
]
";

// The nodes' addresses in the forms that are read.
const ADDRESSES: &str = "node = [
  { name = \"a\", id = 1, address = \"::\" },
  { name = \"b\", id = 2, address = \"::1\" },
  { name = \"c\", id = 3, address = \"1::\" },
  { name = \"d\", id = 4, address = \"1:2:3:4:5:6:7::\" },
  { name = \"e\", id = 5, address = \"1:2:3:4:5:6:7:8\" },
  { name = \"f\", id = 6, address = \"FE80::aBcD\" },
]
";

// Whether a file is read, and so is its domain. The proof of a function that owns a domain takes
// long: so each test looks through here.
pub(crate) fn is_read_so<F: Fn(&Domain) -> bool + Copy>(alloc: Global, file: &str, look: F) -> bool
    requires { F.IsAlwaysCallable look }
{
    match read_domain(alloc, file.as_bytes()) {
        Ok(domain) => look(&domain),
        Err(_) => false,
    }
}

// Why a file is refused, if it is.
pub(crate) fn refusal_of(alloc: Global, file: &str) -> Option<DomainRefused> {
    read_domain(alloc, file.as_bytes()).err()
}

// Whether these are the nodes' addresses, in the forms that are read.
fn has_addresses(domain: &Domain) -> bool {
    domain.is_local(0)
        && domain.is_local(1)
        && domain.is_local(0x0001_0000_0000_0000_0000_0000_0000_0000)
        && domain.is_local(0x0001_0002_0003_0004_0005_0006_0007_0000)
        && domain.is_local(0x0001_0002_0003_0004_0005_0006_0007_0008)
        && domain.is_local(0xfe80_0000_0000_0000_0000_0000_0000_abcd)
        && !domain.is_local(2)
}

// Whether the row's nodes and links have their names, numbers and defaults.
fn has_names(domain: &Domain) -> bool {
    domain.packets() == 1_000_000
        && domain.nodes().len() == 3
        && domain.node_named("c") == Some(NodeId(2))
        && domain.link_named("bc") == Some(LinkId(1))
}

// Whether the row's nodes send towards its last node, and from there out by its port.
fn leads_through(domain: &Domain) -> bool {
    let c = 0x2001_0db8_0000_0000_0000_0000_0000_000c;
    let out = 0x2001_0db8_0002_0000_0000_0000_0000_0001;
    domain.is_local(c)
        && !domain.is_local(out)
        && domain.forward(NodeId(0), c) == Some(Way::Link(LinkId(0)))
        && domain.forward(NodeId(1), c) == Some(Way::Link(LinkId(1)))
        && domain.forward(NodeId(2), out) == Some(Way::Port(PortId(1)))
        && domain.forward(NodeId(0), out) == None
}

// Whether the longest of the nested prefixes decides.
fn takes_the_longest(domain: &Domain) -> bool {
    let inside = 0x2001_0db8_ffff_0000_0000_0000_0000_0000;
    let beside = 0x2001_0db9_ffff_0000_0000_0000_0000_0000;
    domain.forward(NodeId(0), inside) == Some(Way::Link(LinkId(0)))
        && domain.forward(NodeId(0), beside) == Some(Way::Port(PortId(0)))
        && domain.forward(NodeId(0), 0) == Some(Way::Port(PortId(0)))
        && domain.forward(NodeId(1), 0) == None
}

// Whether the file of addresses is read, and has them.
fn reads_addresses(alloc: Global) -> bool {
    is_read_so(alloc, ADDRESSES, has_addresses)
}

// Whether the row of nodes is read, and leads through.
fn reads_row(alloc: Global) -> bool {
    is_read_so(alloc, ROW, |domain| {
        has_names(domain) && leads_through(domain)
    })
}

// Whether the nested prefixes are read, and the longest decides.
fn reads_nested(alloc: Global) -> bool {
    is_read_so(alloc, NESTED, takes_the_longest)
}

#[test]
fn reads_domains(rt: HostRuntime) {
    let alloc = rt.alloc();
    assert!(rt; reads_addresses(alloc) && reads_row(alloc) && reads_nested(alloc));
}

//! What becomes of a packet where its tunnel ends.
ghost use Rattle.std.specs.Prelude.{IsTrue};
ghost use Rattle.ioam_node_visit.specs.Leaving.{HasInner};

use crate::file::is_read_so;
use crate::visit::rows::ENDS;
use ioam_base::memory::NoMemory;
use ioam_ip::header;
use ioam_node::Reason;
use ioam_node_visit::{Leave, leave};
use ioam_test_rows::digits::{octets, text};
use ioam_topo::{Domain, NodeId, PortId};
use ioam_tunnel::inner;
use std::alloc::Global;

// The exit of a tunnel, which has a port, and a node behind it.
const DOMAIN: &str = "node = [
  { name = \"c\", id = 3, address = \"2001:db8::c\", namespaces = [7] },
  { name = \"d\", id = 4, address = \"2001:db8::d\" },
]
port = [{ name = \"east\", node = \"c\", id = 33, out = \"east.pcap\" }]
link = [{ name = \"cd\", from = \"c\", to = \"d\", out_id = 34, in_id = 43, delay = 1000, mtu = 1500 }]
";

const BY_PORT: &str = "route = [{ node = \"c\", prefix = \"2001:db8:2::/48\", port = \"east\" }]\n";

const BY_LINK: &str = "route = [{ node = \"c\", prefix = \"2001:db8:2::/48\", link = \"cd\" }]\n";

// A packet whose trace is full, around one with a hop limit: that stands at octet 72, up to the end.
fn packet_of(alloc: Global, hops: &'static str) -> Result<Vec<u8>, NoMemory> {
    octets(
        alloc,
        &[
            "60000000 0050 00 3f",
            ENDS,
            "29 03 01 00 31 16 00 00 0007 0800 800000 00 3e000003 3f000002 40000001 01 02 00 00",
            "60000000 0008 11",
            hops,
            "20010db8000100000000000000000001 20010db8000200000000000000000001 0400040100080000",
        ],
    )
}

// Whether a packet carries one.
fn carries(packet: &[u8]) -> bool
    ensures { IsTrue result → HasInner packet.now }
{
    if header(packet).is_none() {
        return false;
    }
    match inner(packet) {
        Some(_) => true,
        None => false,
    }
}

// What becomes of a packet at the first node.
fn left_in(domain: &Domain, packet: &[u8]) -> Option<Leave> {
    if carries(packet) {
        Some(leave(domain, NodeId(0), packet))
    } else {
        None
    }
}

// Whether what it carries leaves by the port there (None), or it is dropped for this reason.
fn is_left(domain: &Domain, packet: &[u8], wanted: Option<Reason>) -> bool {
    match left_in(domain, packet) {
        Some(Leave::Out { port, inner }) => {
            wanted.is_none() && port == PortId(0) && inner.start == 72 && inner.end == 120
        }
        Some(Leave::Drop(reason)) => wanted == Some(reason),
        None => false,
    }
}

// Whether this becomes of one around a packet with this hop limit, by these routes.
fn is_left_by(
    alloc: Global,
    routes: &'static str,
    hops: &'static str,
    wanted: Option<Reason>,
) -> Result<bool, NoMemory> {
    let file = text(alloc, &[DOMAIN, routes])?;
    let packet = packet_of(alloc, hops)?;
    let packet = packet.as_slice();
    Ok(is_read_so(
        alloc,
        file.as_slice(),
        |domain| is_left(domain, packet, wanted),
    ))
}

// Whether what it carries leaves by the port.
fn is_out(alloc: Global, routes: &'static str, hops: &'static str) -> bool {
    is_left_by(alloc, routes, hops, None).unwrap_or(false)
}

// Whether it is dropped for this reason.
fn is_dropped(alloc: Global, routes: &'static str, hops: &'static str, wanted: Reason) -> bool {
    is_left_by(alloc, routes, hops, Some(wanted)).unwrap_or(false)
}

#[test]
fn by_a_port(rt: HostRuntime) {
    assert!(rt; is_out(rt.alloc(), BY_PORT, "02"));
}

#[test]
fn by_no_port(rt: HostRuntime) {
    assert!(rt; is_dropped(rt.alloc(), BY_PORT, "01", Reason::HopLimit));
    assert!(rt; is_dropped(rt.alloc(), BY_LINK, "02", Reason::NoRoute));
    assert!(rt; is_dropped(rt.alloc(), "", "01", Reason::HopLimit));
    assert!(rt; is_dropped(rt.alloc(), "", "02", Reason::NoRoute));
}

//! A line of many nodes.
use crate::file::is_read_so;
use crate::visit::passing::pass;
use crate::visit::rows::{At, CARRIED, ENDS, Step};
use ioam_base::memory::NoMemory;
use ioam_clock::{Readings, read_readings};
use ioam_node_visit::NodeRoom;
use ioam_test_rows::digits::octets;
use ioam_topo::Domain;
use std::alloc::Global;

// The words of the trace.
const WORDS: u32 = 61;

// The area of the trace, of 244 octets of zero; each `z` is 16 of them.
const AREA: &str = "zzzzzzzzzzzzzzz 00000000";

// The file of a domain of so many nodes, with the ids 1, 2, 3, and so on.
fn line_file(alloc: Global, nodes: u32) -> Result<Vec<u8>, NoMemory> {
    let mut file = Vec::new(alloc);
    file.extend_from_slice(b"node = [\n")?;
    for id in 1..=nodes {
        let node = format!(in alloc;
            "{{ name = \"n{id}\", id = {id}, address = \"::{id}\", namespaces = [7] }},\n"
        )?;
        file.extend_from_slice(node.as_bytes())?;
    }
    file.extend_from_slice(b"]\n")?;
    Ok(file)
}

// The octets in front of the area of the trace, with a hop limit and a middle word.
fn front(alloc: Global, hops: &'static str, middle: &'static str) -> Result<Vec<u8>, NoMemory> {
    octets(
        alloc,
        &[
            "60000000 0138 00",
            hops,
            ENDS,
            "29 20 01 00 31 fe 00 00 0007",
            middle,
            "800000 00",
        ],
    )
}

// Those behind it.
fn back(alloc: Global) -> Result<Vec<u8>, NoMemory> {
    octets(alloc, &["01 02 00 00", CARRIED])
}

// The packet before its first visit.
fn packet_in(alloc: Global) -> Result<Vec<u8>, NoMemory> {
    let mut packet = front(alloc, "40", "083d")?;
    packet.extend_from_slice(&octets(alloc, &[AREA])?)?;
    packet.extend_from_slice(&back(alloc)?)?;
    Ok(packet)
}

// The packet after its last visit: the words of nodes 61 to 1.
fn packet_out(
    alloc: Global,
    hops: &'static str,
    middle: &'static str,
) -> Result<Vec<u8>, NoMemory> {
    let mut packet = front(alloc, hops, middle)?;
    for before in 0..WORDS {
        let id = (WORDS - before) as u8;
        packet.extend_from_slice(&[65 - id, 0, 0, id])?;
    }
    packet.extend_from_slice(&back(alloc)?)?;
    Ok(packet)
}

// What a visit is, of so many.
fn step_of(node: u32, nodes: u32) -> Step {
    if node == 0 {
        Step::Begin
    } else if nodes.saturating_sub(node) > 1 {
        Step::Transit
    } else {
        Step::Exit
    }
}

// Whether a packet may pass all nodes of a line.
fn passes(
    domain: &Domain,
    readings: &Readings,
    nodes: u32,
    packet: &mut [u8],
    room: &mut NodeRoom,
) -> bool {
    for node in 0..nodes {
        let at = At {
            step: step_of(node, nodes),
            node,
            inward: 1,
            outward: 2,
            time: 0,
        };
        if !pass(domain, readings, at, packet, room) {
            return false;
        }
    }
    true
}

// Whether a packet that passed them is this one.
fn holds_at(
    alloc: Global,
    domain: &Domain,
    readings: &Readings,
    nodes: u32,
    wanted: &[u8],
) -> Result<bool, NoMemory> {
    let mut packet = packet_in(alloc)?;
    let mut room = NodeRoom::new(alloc, 64, 1)?;
    Ok(passes(domain, readings, nodes, &mut packet, &mut room) && packet.as_slice() == wanted)
}

fn holds_in(alloc: Global, domain: &Domain, nodes: u32, wanted: &[u8]) -> bool {
    match read_readings(alloc, domain, b"") {
        Ok(readings) => holds_at(alloc, domain, &readings, nodes, wanted).unwrap_or(false),
        Err(_) => false,
    }
}

fn holds_by(alloc: Global, file: &[u8], nodes: u32, wanted: &[u8]) -> bool {
    is_read_so(alloc, file, |domain| holds_in(alloc, domain, nodes, wanted))
}

// Whether the packet leaves so many nodes with this hop limit and this middle word.
fn holds(
    alloc: Global,
    nodes: u32,
    hops: &'static str,
    middle: &'static str,
) -> Result<bool, NoMemory> {
    let file = line_file(alloc, nodes)?;
    let wanted = packet_out(alloc, hops, middle)?;
    Ok(holds_by(alloc, file.as_slice(), nodes, wanted.as_slice()))
}

#[test]
fn as_many_nodes_as_words(rt: HostRuntime) {
    assert!(rt; holds(rt.alloc(), 61, "05", "0800").unwrap_or(false));
}

#[test]
fn one_node_more(rt: HostRuntime) {
    assert!(rt; holds(rt.alloc(), 62, "04", "0c00").unwrap_or(false));
}

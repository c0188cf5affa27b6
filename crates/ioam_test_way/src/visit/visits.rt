//! Visits of nodes.
use crate::file::is_read_so;
use crate::visit::foreign_rows::{behind, partly, unknown, unsuited};
use crate::visit::passing::pass;
use crate::visit::rows::{ENDS, Noted, Row, Stop, domain_texts};
use crate::visit::{export_rows, tunnel_rows};
use ioam_base::memory::NoMemory;
use ioam_clock::{Readings, read_readings};
use ioam_node_visit::{NodeNote, NodeRoom};
use ioam_test_rows::digits::{octets, text};
use ioam_topo::Domain;
use std::alloc::Global;

// The packet with a hop limit and these octets behind its addresses.
fn packet_of(
    alloc: Global,
    row: &Row,
    hops: &'static str,
    headers: &'static str,
) -> Result<Vec<u8>, NoMemory> {
    octets(alloc, &[row.start, hops, ENDS, headers, row.behind])
}

// Whether a packet is this one.
fn is_packet(alloc: Global, row: &Row, stop: &Stop, packet: &[u8]) -> bool {
    match packet_of(alloc, row, stop.hops, stop.headers) {
        Ok(wanted) => wanted.as_slice() == packet,
        Err(NoMemory) => false,
    }
}

// Whether a packet leaves its visits as a row says.
fn passes(
    alloc: Global,
    domain: &Domain,
    readings: &Readings,
    row: &Row,
    packet: &mut [u8],
    room: &mut NodeRoom,
) -> bool {
    for stop in row.stops {
        if !pass(domain, readings, stop.at, packet, room) {
            return false;
        }
        if !is_packet(alloc, row, stop, packet) {
            return false;
        }
    }
    true
}

// Whether notes are these.
fn are_noted(notes: &[NodeNote], wanted: &[Noted]) -> bool {
    for (note, noted) in notes.iter().zip(wanted) {
        if note.namespace.0 != noted.space
            || note.direct != noted.direct
            || note.what != noted.what
        {
            return false;
        }
    }
    notes.len() == wanted.len()
}

// Whether its notes and its records are those of a row.
fn has_noted(alloc: Global, row: &Row, room: &NodeRoom) -> bool {
    match octets(alloc, row.exports) {
        Ok(exports) => room.exports() == exports.as_slice() && are_noted(room.notes(), row.notes),
        Err(NoMemory) => false,
    }
}

// Whether a row is so in its domain with its readings.
fn holds_at(
    alloc: Global,
    domain: &Domain,
    readings: &Readings,
    row: &Row,
) -> Result<bool, NoMemory> {
    let mut packet = packet_of(alloc, row, row.hops, row.headers)?;
    let mut room = NodeRoom::new(alloc, 5, 4)?;
    Ok(passes(alloc, domain, readings, row, &mut packet, &mut room) && has_noted(alloc, row, &room))
}

// Whether a row is so in its domain.
fn holds_in(alloc: Global, domain: &Domain, row: &Row) -> bool {
    match read_readings(alloc, domain, row.readings.as_bytes()) {
        Ok(readings) => holds_at(alloc, domain, &readings, row).unwrap_or(false),
        Err(_) => false,
    }
}

// Whether a row is so in the domain of a file.
fn holds_by(alloc: Global, file: &[u8], row: &Row) -> bool {
    is_read_so(alloc, file, |domain| holds_in(alloc, domain, row))
}

// Whether a row is so.
fn holds(alloc: Global, row: &Row) -> bool {
    match text(alloc, &domain_texts(row)) {
        Ok(file) => holds_by(alloc, file.as_slice(), row),
        Err(NoMemory) => false,
    }
}

// Whether rows are so.
fn hold(alloc: Global, rows: &'static [Row]) -> bool {
    for row in rows {
        if !holds(alloc, row) {
            return false;
        }
    }
    true
}

#[test]
fn a_packet_in_its_tunnel(rt: HostRuntime) {
    assert!(rt; hold(rt.alloc(), tunnel_rows::traced()));
    assert!(rt; hold(rt.alloc(), tunnel_rows::taught()));
    assert!(rt; hold(rt.alloc(), tunnel_rows::double()));
    assert!(rt; hold(rt.alloc(), tunnel_rows::read()));
}

#[test]
fn a_packet_that_asks_for_records(rt: HostRuntime) {
    assert!(rt; hold(rt.alloc(), export_rows::traced()));
    assert!(rt; hold(rt.alloc(), export_rows::alone()));
    assert!(rt; hold(rt.alloc(), export_rows::longest()));
}

#[test]
fn a_packet_of_others(rt: HostRuntime) {
    assert!(rt; hold(rt.alloc(), unsuited()));
    assert!(rt; hold(rt.alloc(), unknown()));
    assert!(rt; hold(rt.alloc(), partly()));
    assert!(rt; hold(rt.alloc(), behind()));
}

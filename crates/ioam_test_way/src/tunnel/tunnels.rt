//! Packets in tunnels.
ghost use Rattle.std.specs.Prelude.{IsTrue, ◌≤◌, ◌<◌, length, slice_index};
ghost use Rattle.ioam_ip.specs.Packet.{IsPacket};
ghost use Rattle.ioam_topo.specs.Domain.{flows};
ghost use Rattle.ioam_topo.specs.Sound.{IsFlow};
ghost use Rattle.ioam_tunnel.specs.Enclosed.{MayEnclose};

use crate::file::is_read_so;
use crate::tunnel::rows::{
    Row, bare, direct, domain_texts, none_carried, outer_digits, packet_digits, traced,
};
use ioam_base::memory::NoMemory;
use ioam_ip::header;
use ioam_test_rows::digits::{octets, text};
use ioam_topo::{Domain, Flow, FlowId};
use ioam_tunnel::{Numbers, enclose, inner, outer_size};
use std::alloc::Global;

// Whether a packet may be put into a flow with these numbers.
fn may_enclose(flow: &Flow, numbers: &Numbers, packet: &[u8]) -> bool
    requires flow { IsFlow flow.now }
    requires short { length packet.now ≤ 65575 }
    ensures { IsTrue result → MayEnclose flow.now numbers.now packet.now }
{
    let direct = numbers.direct.is_some();
    let limit = numbers.limit.is_some();
    numbers.number < 0x1_0000_0000
        && (!direct || flow.direct.is_some())
        && outer_size(flow, packet.len(), direct, limit) <= 65_575
}

// Whether there is a flow.
fn has_flow(domain: &Domain) -> bool
    ensures { IsTrue result → 0 < length (flows domain.now) }
{
    !domain.flows().is_empty()
}

// Whether octets are a packet whose hop limit may be lowered.
fn may_pass(packet: &[u8]) -> bool
    ensures packet { IsTrue result → IsPacket packet.now }
    ensures short { IsTrue result → length packet.now ≤ 65575 }
    ensures hops { IsTrue result → 2 ≤ slice_index packet.now 7 }
{
    header(packet).is_some() && packet.len() <= 65_575 && packet.len() > 7 && packet[7] >= 2
}

// The outer packet of a packet of the first flow, where there is one.
fn outer_of(alloc: Global, domain: &Domain, numbers: &Numbers, packet: &[u8]) -> Option<Vec<u8>> {
    if !has_flow(domain) {
        return None;
    }
    if !may_pass(packet) {
        return None;
    }
    if !may_enclose(domain.flow(FlowId(0)), numbers, packet) {
        return None;
    }
    enclose(alloc, domain, FlowId(0), numbers, packet).ok()
}

// Whether a packet is put into these octets.
fn is_enclosed_so(
    alloc: Global,
    domain: &Domain,
    numbers: &Numbers,
    packet: &[u8],
    wanted: &[u8],
) -> bool {
    match outer_of(alloc, domain, numbers, packet) {
        Some(outer) => outer.as_slice() == wanted,
        None => false,
    }
}

// Whether the octets carry a packet of so many octets at their end.
fn carries_last(outer: &[u8], count: usize) -> bool {
    match inner(outer) {
        Some(range) => range.end == outer.len()
            && range.end.checked_sub(count) == Some(range.start),
        None => false,
    }
}

// Whether a packet is put into these octets in the domain of a file, and is found there again.
fn holds_in(alloc: Global, file: &[u8], numbers: &Numbers, packet: &[u8], wanted: &[u8]) -> bool {
    is_read_so(
        alloc,
        file,
        |domain| is_enclosed_so(alloc, domain, numbers, packet, wanted),
    ) && carries_last(wanted, packet.len())
}

// Whether a row's packet is enclosed as the row says.
fn holds(alloc: Global, row: &Row) -> Result<bool, NoMemory> {
    let file = text(alloc, &domain_texts(row))?;
    let packet = octets(alloc, &packet_digits(row))?;
    let wanted = octets(alloc, &outer_digits(row))?;
    Ok(holds_in(
        alloc,
        file.as_slice(),
        &row.numbers,
        packet.as_slice(),
        wanted.as_slice(),
    ))
}

// Whether there is memory, and a row's packet is enclosed as the row says.
fn is_so(alloc: Global, row: &Row) -> bool {
    match holds(alloc, row) {
        Ok(holds) => holds,
        Err(NoMemory) => false,
    }
}

// Whether rows' packets are enclosed so.
fn are_so(alloc: Global, rows: &'static [Row]) -> bool {
    for row in rows {
        if !is_so(alloc, row) {
            return false;
        }
    }
    true
}

#[test]
fn encloses_as_written_by_hand(rt: HostRuntime) {
    assert!(rt; are_so(rt.alloc(), traced()));
    assert!(rt; are_so(rt.alloc(), bare()));
    assert!(rt; are_so(rt.alloc(), direct()));
}

// Whether no packet is carried in octets.
fn carries_none(alloc: Global, digits: &[&str]) -> bool {
    match octets(alloc, digits) {
        Ok(outer) => inner(outer.as_slice()).is_none(),
        Err(NoMemory) => false,
    }
}

// Whether no packet is carried in any of these.
fn carry_none(alloc: Global, cases: &[&[&str]]) -> bool {
    for digits in cases {
        if !carries_none(alloc, digits) {
            return false;
        }
    }
    true
}

#[test]
fn finds_no_packet_where_none_is_carried(rt: HostRuntime) {
    assert!(rt; carry_none(rt.alloc(), none_carried()));
}

//! The reports of rows: the line of each arrival and the sums, by hand.
ghost use Rattle.std.specs.Prelude.{◌≡◌, ◌<◌, ◌^◌, IfOk, IfSome, IsTrue, length};
ghost use Rattle.ioam_topo.specs.Domain.{flows, nodes, ports};
ghost use Rattle.ioam_plan.specs.Inside.{StaysInside};

use crate::file::is_read_so;
use crate::plan::domains::{Row, domain_texts, rows};
use crate::plan::journeys::{may_arrive, packet};
use crate::plan::rows::{Arrival, arrivals};
use crate::plan::stops::SECOND;
use ioam_base::memory::NoMemory;
use ioam_clock::{Readings, read_readings};
use ioam_node::admit;
use ioam_plan::{Counters, Itinerary, plan};
use ioam_report::{Sums, put_arrival, put_sums};
use ioam_test_rows::digits::text;
use ioam_topo::{Domain, PortId};
use std::alloc::Global;

// The places of rows, and their reports.
const REPORTS: [(usize, &str); 3] = [
    // Hop limits of the packet.
    (
        0,
        "1 west drop hop-limit a\n2 west drop hop-limit c flow f 0\n3 west left east flow f 1\n\
packets 3 left 1 dropped 2\nnode a seen 3 dropped 1\nnode b seen 2 dropped 0\nnode c seen 2 dropped 1\n\
flow f enclosed 2 exited 2 direct 0\n",
    ),
    // Of a flow with an edge sequence number one packet is too big.
    (
        3,
        "1 west left east flow f 0\n2 west2 drop too-big a\n3 west left east flow f 1\n\
packets 3 left 2 dropped 1\nnode a seen 3 dropped 1\nnode b seen 2 dropped 0\nnode c seen 2 dropped 0\n\
flow f enclosed 2 exited 2 direct 0 next 2 gaps 0 missed 0 late 0 repeats 0\n",
    ),
    // A loop.
    (
        4,
        "1 west drop hop-limit b flow f 0 direct 0\n\
packets 1 left 0 dropped 1\nnode a seen 3 dropped 0\nnode b seen 3 dropped 1\nnode c seen 0 dropped 0\n\
flow f enclosed 1 exited 0 direct 1\n",
    ),
];

// Whether an arrival more can be told and counted.
fn may_be_told(domain: &Domain, sums: &Sums, itinerary: &Itinerary) -> bool
    ensures port { IsTrue result → itinerary.now.port.0 < length (ports domain.now) }
    ensures flow { IsTrue result → IfSome itinerary.now.carried (λ carried. carried.0.0 < length (flows domain.now)) }
    ensures room { IsTrue result → sums.now.packets < 2 ^ 32 }
{
    let known = match itinerary.carried {
        Some((flow, _)) => (flow.0 as usize) < domain.flows().len(),
        None => true,
    };
    known && (itinerary.port.0 as usize) < domain.ports().len() && sums.packets < 1 << 32
}

/// A report as it is told, and what is counted for it.
#[derive(Drop)]
struct Told {
    sums: Sums,
    out: Vec<u8>,
}

// Whether there is memory for the line of an arrival, which is counted.
fn is_told(domain: &Domain, itinerary: &Itinerary, told: &mut Told) -> bool
    requires inside { StaysInside domain.now itinerary.now }
    requires nodes { length told.old.sums.nodes ≡ length (nodes domain.now) }
    requires flows { length told.old.sums.flows ≡ length (flows domain.now) }
    ensures nodes { length told.new.sums.nodes ≡ length told.old.sums.nodes }
    ensures flows { length told.new.sums.flows ≡ length told.old.sums.flows }
{
    if !may_be_told(domain, &told.sums, itinerary) {
        return false;
    }
    let number = told.sums.packets + 1;
    match put_arrival(domain, number, itinerary, &mut told.out) {
        Ok(()) => {
            told.sums.note(itinerary);
            true
        }
        Err(NoMemory) => false,
    }
}

// Whether there is memory for what is planned for a frame, and for its line.
fn is_taken(
    alloc: Global,
    domain: &Domain,
    readings: &Readings,
    counters: &mut Counters,
    arrival: &Arrival,
    frame: &[u8],
    told: &mut Told,
) -> bool
    requires counters { length counters.old ≡ length (flows domain.now) }
    requires nodes { length told.old.sums.nodes ≡ length (nodes domain.now) }
    requires flows { length told.old.sums.flows ≡ length (flows domain.now) }
    ensures counters { length counters.new ≡ length counters.old }
    ensures nodes { length told.new.sums.nodes ≡ length told.old.sums.nodes }
    ensures flows { length told.new.sums.flows ≡ length told.old.sums.flows }
{
    if !may_arrive(domain, counters, arrival) {
        return false;
    }
    let port = PortId(arrival.port);
    let admitted = admit(domain, port, false, false, frame);
    match plan(alloc, domain, readings, counters, port, SECOND, &admitted) {
        Ok(itinerary) => is_told(domain, &itinerary, told),
        Err(NoMemory) => false,
    }
}

// Whether there is memory for an arrival.
fn takes(
    alloc: Global,
    domain: &Domain,
    readings: &Readings,
    counters: &mut Counters,
    arrival: &Arrival,
    told: &mut Told,
) -> bool
    requires counters { length counters.old ≡ length (flows domain.now) }
    requires nodes { length told.old.sums.nodes ≡ length (nodes domain.now) }
    requires flows { length told.old.sums.flows ≡ length (flows domain.now) }
    ensures counters { length counters.new ≡ length counters.old }
    ensures nodes { length told.new.sums.nodes ≡ length told.old.sums.nodes }
    ensures flows { length told.new.sums.flows ≡ length told.old.sums.flows }
{
    match packet(alloc, arrival) {
        Ok(frame) => is_taken(
            alloc,
            domain,
            readings,
            counters,
            arrival,
            frame.as_slice(),
            told,
        ),
        Err(NoMemory) => false,
    }
}

// Whether there is memory for a row's arrivals.
fn takes_all(
    alloc: Global,
    domain: &Domain,
    readings: &Readings,
    counters: &mut Counters,
    row: &Row,
    told: &mut Told,
) -> bool
    requires counters { length counters.old ≡ length (flows domain.now) }
    requires nodes { length told.old.sums.nodes ≡ length (nodes domain.now) }
    requires flows { length told.old.sums.flows ≡ length (flows domain.now) }
{
    'arrivals: for arrival in arrivals().iter().skip(row.from).take(row.count) {
        if !takes(alloc, domain, readings, counters, arrival, told) {
            return false;
        }
    }
    true
}

// Nothing told.
fn none_told(alloc: Global, domain: &Domain) -> Result<Told, NoMemory>
    ensures nodes { IfOk result (λ told. length told.sums.nodes ≡ length (nodes domain.now)) }
    ensures flows { IfOk result (λ told. length told.sums.flows ≡ length (flows domain.now)) }
{
    let sums = Sums::new(alloc, domain)?;
    Ok(Told {
        sums,
        out: Vec::new(alloc),
    })
}

// Whether a row's arrivals have this report in a domain.
fn reports(alloc: Global, domain: &Domain, readings: &Readings, row: &Row, report: &str) -> bool {
    let Ok(mut counters) = Counters::new(alloc, domain) else {
        return false;
    };
    let Ok(mut told) = none_told(alloc, domain) else {
        return false;
    };
    if !takes_all(alloc, domain, readings, &mut counters, row, &mut told) {
        return false;
    }
    match put_sums(domain, &told.sums, &mut told.out) {
        Ok(()) => told.out.as_slice() == report.as_bytes(),
        Err(NoMemory) => false,
    }
}

// Whether they have it with the row's readings.
fn reports_by(alloc: Global, domain: &Domain, row: &Row, report: &str) -> bool {
    match read_readings(alloc, domain, row.readings.as_bytes()) {
        Ok(readings) => reports(alloc, domain, &readings, row, report),
        Err(_) => false,
    }
}

// Whether they have it in the domain of a file.
fn reports_in(alloc: Global, file: &[u8], row: &Row, report: &str) -> bool {
    is_read_so(alloc, file, |domain| reports_by(alloc, domain, row, report))
}

// Whether there is memory, and a row's arrivals have this report.
fn is_reported(alloc: Global, row: &Row, report: &str) -> bool {
    match text(alloc, &domain_texts(row)) {
        Ok(file) => reports_in(alloc, file.as_slice(), row, report),
        Err(NoMemory) => false,
    }
}

// The name of the first row that hasn't its report.
fn first_wrong(
    alloc: Global,
    rows: &'static [Row],
    reports: &'static [(usize, &'static str)],
) -> Option<&'static str> {
    for (place, report) in reports {
        if let Some(row) = rows.get(*place) {
            if !is_reported(alloc, row, report) {
                return Some(row.name);
            }
        }
    }
    None
}

#[test]
fn reports_as_written_by_hand(rt: HostRuntime) {
    assert!(rt; first_wrong(rt.alloc(), rows(), &REPORTS).is_none());
}

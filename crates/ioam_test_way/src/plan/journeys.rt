//! Journeys of packets.
ghost use Rattle.std.specs.Prelude.{◌≡◌, ◌<◌, ◌^◌, All, IsTrue, length};
ghost use Rattle.ioam_topo.specs.Domain.{flows, ports};

use crate::file::is_read_so;
use crate::plan::domains::{Row, domain_texts, rows};
use crate::plan::rows::{Arrival, Drawn, arrivals, packet_digits};
use crate::plan::stops::{SECOND, Stop, Stops, stops_of};
use ioam_base::memory::NoMemory;
use ioam_clock::{Readings, read_readings};
use ioam_node::admit;
use ioam_plan::{Counters, Itinerary, Visit, plan};
use ioam_test_rows::digits::{octets, text};
use ioam_topo::{Domain, FlowId, PortId};
use ioam_tunnel::Numbers;
use std::alloc::Global;

// Whether a visit is this stop.
fn is_at(visit: &Visit, stop: &Stop) -> bool {
    visit.place.node.0 == stop.node
        && visit.place.inward == stop.inward
        && visit.place.outward == stop.outward
        && visit.way == stop.way
        && visit.time == stop.time
}

// Whether visits are these stops.
fn are_at(visits: &[Visit], stops: &[Stop]) -> bool {
    visits.len() == stops.len()
        && visits
            .iter()
            .zip(stops)
            .all(|(visit, stop)| is_at(visit, stop))
}

// Whether what is carried has these numbers, in the one flow.
fn is_drawn(carried: &Option<(FlowId, Numbers)>, wanted: Option<Drawn>) -> bool {
    match (carried, wanted) {
        (Some((flow, numbers)), Some((number, direct, limit, stamp))) => {
            flow.0 == 0
                && numbers.number == number
                && numbers.direct == direct
                && numbers.limit == limit
                && numbers.stamp == stamp
        }
        (None, None) => true,
        (_, _) => false,
    }
}

// Whether an itinerary is what an arrival says.
fn is_so(itinerary: &Itinerary, arrival: &Arrival) -> bool {
    are_at(itinerary.visits.list(), stops_of(arrival.stops))
        && itinerary.end == arrival.end
        && itinerary.exited == matches!(arrival.stops, Stops::Through)
        && is_drawn(&itinerary.carried, arrival.drawn)
}

// Whether an arrival can be planned.
pub(crate) fn may_arrive(domain: &Domain, counters: &Counters, arrival: &Arrival) -> bool
    ensures port { IsTrue result → arrival.now.port < length (ports domain.now) }
    ensures room { IsTrue result → All (λ number. number < 2 ^ 32) counters.now }
{
    (arrival.port as usize) < domain.ports().len() && counters.has_room()
}

// Whether what is planned for a frame is what its arrival says.
fn is_planned_so(
    alloc: Global,
    domain: &Domain,
    readings: &Readings,
    counters: &mut Counters,
    arrival: &Arrival,
    frame: &[u8],
) -> bool
    requires { length counters.old ≡ length (flows domain.now) }
    ensures { length counters.new ≡ length counters.old }
{
    if !may_arrive(domain, counters, arrival) {
        return false;
    }
    let port = PortId(arrival.port);
    let admitted = admit(domain, port, false, false, frame);
    match plan(alloc, domain, readings, counters, port, SECOND, &admitted) {
        Ok(itinerary) => is_so(&itinerary, arrival),
        Err(NoMemory) => false,
    }
}

// The packet of an arrival.
pub(crate) fn packet(alloc: Global, arrival: &Arrival) -> Result<Vec<u8>, NoMemory> {
    let mut packet = octets(alloc, &packet_digits(arrival))?;
    for _ in 0..arrival.zeros {
        packet.push(0)?;
    }
    Ok(packet)
}

// Whether there is memory, and what is planned for an arrival is what it says.
fn is_planned(
    alloc: Global,
    domain: &Domain,
    readings: &Readings,
    counters: &mut Counters,
    arrival: &Arrival,
) -> bool
    requires { length counters.old ≡ length (flows domain.now) }
    ensures { length counters.new ≡ length counters.old }
{
    match packet(alloc, arrival) {
        Ok(frame) => is_planned_so(alloc, domain, readings, counters, arrival, frame.as_slice()),
        Err(NoMemory) => false,
    }
}

// Whether arrivals, one behind the other, are planned as they say.
fn all_planned(
    alloc: Global,
    domain: &Domain,
    readings: &Readings,
    counters: &mut Counters,
    row: &Row,
) -> bool
    requires { length counters.old ≡ length (flows domain.now) }
{
    'arrivals: for arrival in arrivals().iter().skip(row.from).take(row.count) {
        if !is_planned(alloc, domain, readings, counters, arrival) {
            return false;
        }
    }
    true
}

// Whether a row's arrivals are planned so in a domain.
fn follows(alloc: Global, domain: &Domain, row: &Row) -> bool {
    match read_readings(alloc, domain, row.readings.as_bytes()) {
        Ok(readings) => match Counters::new(alloc, domain) {
            Ok(mut counters) => { all_planned(alloc, domain, &readings, &mut counters, row) }
            Err(NoMemory) => false,
        },
        Err(_) => false,
    }
}

// Whether they are in the domain of a file.
fn holds_in(alloc: Global, file: &[u8], row: &Row) -> bool {
    is_read_so(alloc, file, |domain| follows(alloc, domain, row))
}

// Whether there is memory, and a row's arrivals are planned so.
fn holds(alloc: Global, row: &Row) -> bool {
    match text(alloc, &domain_texts(row)) {
        Ok(file) => holds_in(alloc, file.as_slice(), row),
        Err(NoMemory) => false,
    }
}

// The name of the first row whose arrivals aren't planned so.
fn first_wrong(alloc: Global, rows: &'static [Row]) -> Option<&'static str> {
    for row in rows {
        if !holds(alloc, row) {
            return Some(row.name);
        }
    }
    None
}

#[test]
fn plans_as_written_by_hand(rt: HostRuntime) {
    assert!(rt; first_wrong(rt.alloc(), rows()).is_none());
}

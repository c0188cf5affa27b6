//! A packet's journey from its first stage to its end.
ghost use Rattle.std.specs.Prelude.{◌≡◌, ◌+◌, ◌≤◌, ◌∷◌, ◌++◌, if◌then◌else◌, [], All, IfOk, OnOk, length};
ghost use Rattle.ioam_plan.specs.Inside.{EndsInside};
ghost use Rattle.ioam_plan.specs.Journey.{Journey};
ghost use Rattle.ioam_plan.specs.Rides.{IsVisitIn};
ghost use Rattle.ioam_plan.specs.Steps.{IsHere, LedTo, HasRidden, left};

use crate::itinerary::{Itinerary, Visit, Visits};
use crate::stage::{JourneyStep, Stage, Trip};
use crate::stepping::take_step;
use ioam_base::memory::NoMemory;
use ioam_base::spare::emptied;
use ioam_topo::{Domain, PortId};
use std::alloc::Global;

/// As many visits as most journeys have; one with more takes more memory on its way.
const MOSTLY: usize = 8;

// Puts a visit behind the others.
fn put(visits: &mut Vec<Visit>, visit: Visit) -> Result<(), NoMemory>
    ensures { OnOk result (visits.new.items ≡ visits.old.items ++ visit ∷ []) }
{
    visits.push(visit)?;
    Ok(())
}

/// The journey of a packet from a stage on, which came by a port. Its visits stand in the memory of spare
/// ones where that has the room.
pub(crate) fn travel(
    alloc: Global,
    spare: Visits,
    domain: &Domain,
    port: PortId,
    trip: &Trip,
    start: Stage,
) -> Result<Itinerary, NoMemory>
    requires here { IsHere domain.now start }
    requires few { left start ≤ 255 }
    requires led { LedTo trip.now.size trip.now.inside start [] }
    ensures port { IfOk result (λ it. it.port ≡ port) }
    ensures journey { IfOk result (Journey domain.now trip.now start) }
    ensures visits { IfOk result (λ it. All (IsVisitIn domain.now) it.visits) }
    ensures few { IfOk result (λ it. length it.visits ≤ left start + (if it.exited then 1 else 0)) }
    ensures ridden { IfOk result (λ it. HasRidden trip.now.size trip.now.inside it.exited it.visits) }
    ensures ends { IfOk result (λ it. EndsInside domain.now it.end) }
{
    let mut visits = emptied(alloc, spare.cleared(), MOSTLY)?;
    let mut stage = start;
    'visits: loop {
        match take_step(domain, trip, stage) {
            JourneyStep::Ends(end, exited) => return Ok(Itinerary::of(
                port,
                visits,
                end,
                exited,
                trip.inside,
            )),
            JourneyStep::Goes(visit, next) => {
                put(&mut visits, visit)?;
                stage = next;
            }
        }
    }
}

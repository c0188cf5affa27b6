//! One step of a packet's journey.
ghost use Rattle.std.specs.Prelude.{◌≡◌, ◌+◌, ◌-◌, ◌*◌, ◌≤◌, ◌<◌, ◌^◌, false, is_some, IfSome, Some, length, slice_get};
ghost use Rattle.ioam_node.specs.Choice.{choice};
ghost use Rattle.ioam_topo.specs.Domain.{nodes, links};
ghost use Rattle.ioam_topo.specs.Kept.{JoinsNodes};
ghost use Rattle.ioam_topo.specs.declared.ids.Way.TheVariants as way;
ghost use Rattle.ioam_plan.specs.Journey.{step_at, met_at, sent_on, sent_in};
ghost use Rattle.ioam_plan.specs.Steps.{IsHere, IsInTime, StepsTo};

use crate::itinerary::End;
use crate::stage::{Entry, Inside, JourneySpot, JourneyStep, Stage, Trip};
use ioam_topo::{Domain, Link, LinkId, NodeId, Way};

// The link of a place in the file.
fn link_of(domain: &Domain, link: LinkId) -> &Link
    requires { link.0 < length (links domain.now) }
    ensures value { slice_get (links domain.now) link.0 ≡ Some result.now }
    ensures ends { JoinsNodes (length (nodes domain.now)) result.now }
{
    domain.link(link)
}

// Where a packet enters its tunnel.
fn begin(domain: &Domain, trip: &Trip, spot: JourneySpot, entry: Entry) -> JourneyStep
    requires here { IsHere domain.now (Stage.Enter spot entry) }
    ensures step { result ≡ step_at domain.now trip.now (Stage.Enter spot entry) }
    ensures facts { StepsTo domain.now trip.now (Stage.Enter spot entry) result }
{
    match ioam_node::begin(
        domain,
        spot.node,
        entry.refused,
        spot.hops,
        trip.target,
        trip.size,
    ) {
        Err(reason) => JourneyStep::Ends(
            End::Drop {
                reason,
                node: spot.node,
            },
            false,
        ),
        Ok(link) => {
            let next = spot.crossed(link_of(domain, link), entry.hops);
            JourneyStep::Goes(spot.visit(domain, Some(Way::Link(link))), Stage::At(next))
        }
    }
}

// Where it doesn't, and its tunnel, if it is in one, doesn't end: it is sent on.
fn transit(domain: &Domain, trip: &Trip, spot: JourneySpot, enclosed: bool) -> JourneyStep
    requires here { IsHere domain.now (Stage.At spot) }
    ensures step { result ≡ sent_on domain.now spot (spot.hops - 1)
        (choice domain.now spot.node.0 enclosed spot.hops trip.now.target trip.now.size) }
    ensures facts { StepsTo domain.now trip.now (Stage.At spot) result }
{
    match ioam_node::transit(
        domain,
        spot.node,
        enclosed,
        spot.hops,
        trip.target,
        trip.size,
    ) {
        Err(reason) => JourneyStep::Ends(
            End::Drop {
                reason,
                node: spot.node,
            },
            false,
        ),
        Ok(Way::Port(port)) => JourneyStep::Goes(
            spot.visit(domain, Some(Way::Port(port))),
            Stage::Gone(port),
        ),
        Ok(Way::Link(link)) => {
            let next = spot.crossed(link_of(domain, link), spot.hops - 1);
            JourneyStep::Goes(spot.visit(domain, Some(Way::Link(link))), Stage::At(next))
        }
    }
}

// Where the packet is at a node: the one at which its tunnel ends takes it out.
fn step_from(domain: &Domain, trip: &Trip, spot: JourneySpot) -> JourneyStep
    requires here { IsHere domain.now (Stage.At spot) }
    ensures step { result ≡ step_at domain.now trip.now (Stage.At spot) }
    ensures facts { StepsTo domain.now trip.now (Stage.At spot) result }
{
    match trip.inside {
        None => transit(domain, trip, spot, false),
        Some(inside) => {
            if inside.exit.0 == spot.node.0 {
                JourneyStep::Goes(spot.visit(domain, None), Stage::Out(spot.node, inside))
            } else {
                transit(domain, trip, spot, true)
            }
        }
    }
}

// Where it came out of its tunnel: it leaves by a port of that node.
fn exit(domain: &Domain, trip: &Trip, node: NodeId, inside: Inside) -> JourneyStep
    requires here { IsHere domain.now (Stage.Out node inside) }
    ensures step { result ≡ step_at domain.now trip.now (Stage.Out node inside) }
    ensures facts { StepsTo domain.now trip.now (Stage.Out node inside) result }
{
    match ioam_node::exit(domain, node, inside.hops, inside.target) {
        Ok(port) => JourneyStep::Ends(End::Left { port }, true),
        Err(reason) => JourneyStep::Ends(End::Drop { reason, node }, true),
    }
}

/// What becomes of a packet at a stage of its journey.
pub(crate) fn take_step(domain: &Domain, trip: &Trip, stage: Stage) -> JourneyStep
    requires here { IsHere domain.now stage }
    ensures step { result ≡ step_at domain.now trip.now stage }
    ensures facts { StepsTo domain.now trip.now stage result }
{
    match stage {
        Stage::Enter(spot, entry) => begin(domain, trip, spot, entry),
        Stage::At(spot) => step_from(domain, trip, spot),
        Stage::Gone(port) => JourneyStep::Ends(End::Left { port }, false),
        Stage::Out(node, inside) => exit(domain, trip, node, inside),
    }
}

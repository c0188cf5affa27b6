//! A frame's arrival, as what is planned for it goes by it.
ghost use Rattle.std.specs.Prelude.{◌<◌, ◌^◌, length};
ghost use Rattle.ioam_topo.specs.Domain.{nodes, ports};
ghost use Rattle.ioam_topo.specs.Kept.{IsAtNode};

use ioam_clock::Readings;
use ioam_topo::{Domain, Port, PortId};

/// A frame's arrival: at which port of which domain, when, in nanoseconds, and what the domain's clocks read.
#[derive(Drop)]
pub(crate) struct Arrival<'a> {
    pub(crate) domain: &'a Domain,
    pub(crate) readings: &'a Readings,
    pub(crate) id: PortId,
    pub(crate) port: &'a Port,
    pub(crate) time: u64,
    pub(crate) ghost known: { id.0 < length (ports domain.now) },
    pub(crate) ghost place: { IsAtNode (length (nodes domain.now)) port.now },
    pub(crate) ghost timely: { time < 2 ^ 62 },
}

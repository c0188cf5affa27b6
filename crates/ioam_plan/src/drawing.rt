//! What an entry node draws for a packet of a flow.
ghost use Rattle.std.specs.Prelude.{◌≡◌, ◌<◌, ◌^◌, option_map};
ghost use Rattle.ioam_clock.specs.Stamp.{stamp};
ghost use Rattle.ioam_topo.specs.Sound.{IsFlow};
ghost use Rattle.ioam_tunnel.specs.Limits.{limit_by};
ghost use Rattle.ioam_plan.specs.Drawn.{direct_number, limit_put, is_refused, numbers_of};

use ioam_clock::{Readings, stamp};
use ioam_topo::{Domain, Flow, Format};
use ioam_tunnel::{Limit, Numbers, limit_of};

// The sequence number of its direct export, if it carries one.
fn direct_number(flow: &Flow, number: u64) -> Option<u32>
    requires flow { IsFlow flow.now }
    requires few { number < 2 ^ 32 }
    ensures { result ≡ direct_number flow.now.direct flow.now.every number }
{
    match (flow.direct, flow.every) {
        (Some(_), Some(every)) => {
            let every = u64::from(every);
            if number % every == 0 {
                Some((number / every) as u32)
            } else {
                None
            }
        }
        (_, _) => None,
    }
}

// The encapsulation limit of the outer packet, if it has one.
fn limit_put(limit: Limit) -> Option<u8>
    ensures { result ≡ limit_put limit }
{
    match limit {
        Limit::Put(number) => Some(number),
        Limit::None => None,
        Limit::Refused => None,
    }
}

/// Whether a packet may not be enclosed once more, by the encapsulation limit that was found in it
/// (RFC 2473 section 4.1.1).
pub(crate) fn is_refused(flow: &Flow, found: Option<u8>) -> bool
    ensures { result ≡ is_refused (limit_by found flow.now.limit) }
{
    match limit_of(found, flow.limit) {
        Limit::Refused => true,
        Limit::None => false,
        Limit::Put(_) => false,
    }
}

// A clock's time in the domain's format.
fn stamp_of(format: Format, clock: Option<u64>) -> Option<(u32, u32)>
    ensures { result ≡ option_map (stamp format) clock }
{
    Some(stamp(format, clock?))
}

/// The numbers of a packet that arrives at a time, before which so many were enclosed in its flow, and
/// in which this encapsulation limit was found.
pub(crate) fn numbers_of(
    domain: &Domain,
    readings: &Readings,
    flow: &Flow,
    number: u64,
    found: Option<u8>,
    time: u64,
) -> Numbers
    requires flow { IsFlow flow.now }
    requires few { number < 2 ^ 32 }
    requires time { time < 2 ^ 62 }
    ensures { result ≡ numbers_of domain.now readings.now flow.now number found time }
{
    Numbers {
        number,
        direct: direct_number(flow, number),
        limit: limit_put(limit_of(found, flow.limit)),
        stamp: stamp_of(domain.format(), readings.clock_at(flow.entry, time)),
    }
}

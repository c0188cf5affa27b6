//! Which visits send their packet on a link with a tap.
ghost use Rattle.std.specs.Prelude.{◌≡◌, IfOk, map, slice_get};
ghost use Rattle.ioam_batch.specs.Taps.{has_tap, is_tapped};
ghost use Rattle.ioam_topo.specs.Domain.{links};

use ioam_base::memory::NoMemory;
use ioam_base::spare::emptied;
use ioam_plan::Visit;
use ioam_topo::{Domain, LinkId, Way};
use std::alloc::Global;

// Whether a link of a domain has a tap.
fn has_tap(domain: &Domain, link: LinkId) -> bool
    ensures { result ≡ has_tap (slice_get (links domain.now) link.0) }
{
    match domain.links().get(link.0 as usize) {
        Some(link) => link.tap.is_some(),
        None => false,
    }
}

// Whether a visit sends its packet on a link with a tap.
fn is_tapped(domain: &Domain, visit: &Visit) -> bool
    ensures { result ≡ is_tapped domain.now visit.now }
{
    match visit.way {
        Some(Way::Link(link)) => has_tap(domain, link),
        Some(Way::Port(_)) => false,
        None => false,
    }
}

/// Whether each of these visits does, in the memory of a spare vector where that has the room.
pub(crate) fn taps_of(
    alloc: Global,
    spare: Vec<bool>,
    domain: &Domain,
    visits: &[Visit],
) -> Result<Vec<bool>, NoMemory>
    ensures { IfOk result (λ taps. taps.items ≡ map (is_tapped domain.now) visits.now) }
{
    let mut taps = emptied(alloc, spare, visits.len())?;
    for visit in visits {
        taps.push(is_tapped(domain, visit))?;
    }
    Ok(taps)
}

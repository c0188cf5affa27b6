//! The outputs of a run in their one order.
ghost use Rattle.std.specs.Prelude.{◌≡◌, ◌≤◌, ◌<◌, ◌++◌, length, All, IfOk, OnOk};
ghost use Rattle.ioam_topo.specs.Domain.{links};
ghost use Rattle.ioam_run_outputs.specs.Outlets.{tap_at, tapped, HasTap};

use ioam_base::memory::NoMemory;
use ioam_topo::{Domain, Link, LinkId};
use std::alloc::Global;

// Puts the link at a place behind these, if it has a tap.
fn push_link(ids: &mut Vec<LinkId>, place: u32, link: &Link) -> Result<(), NoMemory>
    ensures { OnOk result (ids.new.items ≡ ids.old.items ++ tap_at place link.now.tap) }
{
    match &link.tap {
        Some(_) => {
            ids.push(LinkId(place))?;
            Ok(())
        }
        None => Ok(()),
    }
}

/// The links that have a tap, at most 64, in file order: the k-th tap is the output behind the ports'
/// and k others.
pub fn tapped_links(alloc: Global, domain: &Domain) -> Result<Vec<LinkId>, NoMemory>
    ensures value { IfOk result (λ ids. ids.items ≡ tapped (links domain.now)) }
    ensures inside { IfOk result (λ ids. All (λ link. link.0 < length (links domain.now)) ids.items) }
    ensures tapped { IfOk result (λ ids. All (HasTap (links domain.now)) ids.items) }
    ensures few { IfOk result (λ ids. length ids.items ≤ 64) }
{
    let mut ids = Vec::new(alloc);
    'links: for (place, link) in domain.links().iter().enumerate() {
        push_link(&mut ids, place as u32, link)?;
    }
    Ok(ids)
}

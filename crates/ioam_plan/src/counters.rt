//! How many packets were enclosed in each flow.
ghost use Rattle.std.specs.Prelude.{◌≡◌, ◌↔◌, ◌+◌, ◌<◌, ◌^◌, IsTrue, ◌∷◌, ◌++◌, [], List, All, IfOk, Some, length, replicate, slice_get, slice_index, slice_set};
ghost use Rattle.ioam_topo.specs.Domain.{flows};
ghost use Rattle.ioam_topo.specs.declared.domain.Domain.{Domain};
ghost use Rattle.ioam_plan.specs.Counted.{CountFor, CanCount};
ghost use Rattle.ioam_plan.specs.declared.itinerary.Itinerary.{Itinerary};

use crate::itinerary::Itinerary;
use ioam_base::memory::NoMemory;
use ioam_topo::{Domain, FlowId};
use std::alloc::Global;
use std::marker::Model;

/// How many packets were enclosed in each flow of a domain, in file order, of the arrivals so far.
/// Contracts see them as a list.
#[derive(Debug, Drop)]
pub struct Counters {
    held: Vec<u64>,
}

impl Model for Counters {
    ghost use Rattle.std.specs.Prelude.{List, ℕ};

    ghost Value = { List ℕ };

    ghost view = { λ counters. counters.held.items };
}

impl Counters {
    /// Those of no arrivals in a domain.
    pub fn new(alloc: Global, domain: &Domain) -> Result<Counters, NoMemory>
        ensures { IfOk result (λ counters. CountFor domain.now counters []) }
    {
        let held = vec![in alloc; 0; domain.flows().len()]?;
        Ok(Counters { held })
    }

    /// Whether each flow can have a packet more: fewer than 2^32 were enclosed in it.
    pub fn has_room(&self) -> bool
        ensures { IsTrue result ↔ All (λ number. number < 2 ^ 32) self.now }
    {
        self.held.iter().all(|number| *number < 1 << 32)
    }

    // How many were enclosed in a flow.
    pub(crate) fn enclosed(&self, flow: FlowId) -> u64
        requires { flow.0 < length self.now }
        ensures { slice_get self.now flow.0 ≡ Some result }
    {
        self.held[flow.0 as usize]
    }

    // Counts a packet more of a flow.
    fn raise(&mut self, flow: FlowId)
        requires known { flow.0 < length self.old }
        requires few { slice_index self.old flow.0 < 2 ^ 32 }
        ensures { self.new ≡ slice_set self.old flow.0 (slice_index self.old flow.0 + 1) }
    {
        self.held[flow.0 as usize] += 1;
    }

    // Counts an arrival more.
    pub(crate) fn note(&mut self, itinerary: &Itinerary)
        requires { CanCount self.old itinerary.now.carried }
        ensures length { length self.new ≡ length self.old }
        ensures counted { (domain : Domain) (earlier : List Itinerary) → CountFor domain self.old earlier
            → CountFor domain self.new (earlier ++ itinerary.now ∷ []) }
    {
        match itinerary.carried {
            Some((flow, _)) => self.raise(flow),
            None => {}
        }
    }
}

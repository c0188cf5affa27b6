//! What a run counts of the packets of each flow.
ghost use Rattle.std.specs.Prelude.{◌≡◌, ◌+◌, ◌-◌, ◌++◌, ◌∷◌, ◌<◌, ◌^◌, ℕ, min, if◌then◌else◌, List, Option, Some, [], IfOk, IfSome, IsSomeAnd, length, slice_get};
ghost use Rattle.ioam_plan.specs.declared.itinerary.Itinerary.{Itinerary};
ghost use Rattle.ioam_report.specs.Flows.{IsSumOf};

use crate::filled::filled;
use ioam_base::memory::NoMemory;
use ioam_edge::Receiver;
use ioam_plan::Itinerary;
use ioam_topo::FlowId;
use ioam_tunnel::Numbers;
use std::alloc::Global;
use std::marker::Model;

/// What is counted of the packets that are enclosed in one flow.
#[derive(Clone, Copy, Debug)]
pub struct FlowSum {
    /// The packets that were enclosed.
    pub enclosed: u64,
    /// Those of them that reached the exit.
    pub exited: u64,
    /// Those of them that carry a direct export.
    pub direct: u64,
    /// What tells of the numbers of those that reached the exit, in order of arrival.
    pub receiver: Receiver,
}

// A count, with one more where there is one; it stands still at the greatest u64.
fn counted(count: u64, more: bool) -> u64
    ensures { result ≡ min (count + (if more then 1 else 0)) (2 ^ 64 - 1) }
{
    count.saturating_add(u64::from(more))
}

impl FlowSum {
    // What is counted of no packets.
    fn new() -> FlowSum
        ensures { (flow : ℕ) → IsSumOf flow [] result }
    {
        FlowSum {
            enclosed: 0,
            exited: 0,
            direct: 0,
            receiver: Receiver::new(),
        }
    }

    // Counts a packet more of the flow, and notes its number where it reached the exit.
    fn note(&mut self, numbers: &Numbers, exited: bool)
        ensures { (flow : FlowId) (arrivals : List Itinerary) (itinerary : Itinerary) → length arrivals < 2 ^ 32
            → itinerary.carried ≡ Some (flow, numbers.now) → itinerary.exited ≡ exited
            → IsSumOf flow.0 arrivals self.old → IsSumOf flow.0 (arrivals ++ itinerary ∷ []) self.new }
    {
        let left = counted(self.exited, exited);
        let exports = counted(self.direct, numbers.direct.is_some());
        self.enclosed = self.enclosed.saturating_add(1);
        self.exited = left;
        self.direct = exports;
        if exited {
            self.receiver.note(numbers.number);
        }
    }
}

/// What is counted of each flow, in file order. Contracts see it as a list. It has memory for these and
/// no more, so that a call which leaves it as long has taken none.
#[derive(Debug, Drop)]
pub struct FlowSums {
    held: Vec<FlowSum>,
}

impl Model for FlowSums {
    ghost use Rattle.std.specs.Prelude.{List};
    ghost use Rattle.ioam_report.specs.declared.flows.FlowSum.{FlowSum};

    ghost Value = { List FlowSum };

    ghost use Rattle.std.specs.Prelude.{◌≡◌, vec_len, vec_capacity};

    ghost view = { λ sums. sums.held.items };

    ghost invariant = { λ sums. vec_capacity sums.held ≡ vec_len sums.held };
}

impl FlowSums {
    /// Nothing of each of so many flows.
    pub(crate) fn new(alloc: Global, count: usize) -> Result<FlowSums, NoMemory>
        ensures count { IfOk result (λ sums. length sums ≡ count) }
        ensures none { IfOk result (λ sums. (flow : ℕ) → flow < count → IsSomeAnd (slice_get sums flow) (IsSumOf flow [])) }
    {
        let none = FlowSum::new();
        let held = filled(alloc, none, count)?;
        Ok(FlowSums { held })
    }

    /// What is counted of each flow, in file order.
    pub fn list(&self) -> &[FlowSum]
        ensures { result.now ≡ self.now }
    {
        self.held.as_slice()
    }

    /// Counts an arrival more in the flow in which it is enclosed, if it is.
    pub(crate) fn note(&mut self, itinerary: &Itinerary)
        requires { IfSome itinerary.now.carried (λ carried. carried.0.0 < length self.old) }
        ensures count { length self.new ≡ length self.old }
        ensures stands { (flow : ℕ) (arrivals : List Itinerary) → length arrivals < 2 ^ 32
            → IsSomeAnd (slice_get self.old flow) (IsSumOf flow arrivals)
            → IsSomeAnd (slice_get self.new flow) (IsSumOf flow (arrivals ++ itinerary.now ∷ [])) }
    {
        match itinerary.carried {
            Some((flow, numbers)) => self.held[flow.0 as usize].note(&numbers, itinerary.exited),
            None => {}
        }
    }
}

//! How many packets leak from one address to another.
ghost use Rattle.std.specs.Prelude.{◌≡◌, ◌++◌, ◌∷◌, [], ◌<◌, ◌^◌, List, OnOk, length};
ghost use Rattle.ioam_leak_flows.specs.declared.flow.Flow.{Flow};
ghost use Rattle.ioam_leak_flows.specs.Tally.{IsTally};

use crate::flow::Flow;
use indexmap::IndexMap;
use ioam_base::memory::NoMemory;
use std::alloc::Global;

/// The most flows that are counted apart.
pub(crate) const MOST_FLOWS: usize = 65_536;

/// How many packets leak in each flow, of the first 65,536 flows; the packets of others aren't counted here.
#[derive(Drop)]
pub struct Flows {
    pub(crate) counts: IndexMap<Flow, u64>,
}

impl Flows {
    /// Before the first packet.
    pub fn new(alloc: Global) -> Flows
        ensures { IsTally [] result }
    {
        Flows {
            counts: IndexMap::new(alloc),
        }
    }

    /// Counts a packet.
    pub fn count(&mut self, flow: Flow) -> Result<(), NoMemory>
        ensures { OnOk result ((flows : List Flow) → length flows < 2 ^ 32 → IsTally flows self.old → IsTally (flows ++ flow ∷ []) self.new) }
    {
        match self.counts.get(&flow) {
            Some(count) => {
                let more = count.saturating_add(1);
                self.counts.insert(flow, more)?;
            }
            None => {
                if self.counts.len() < MOST_FLOWS {
                    self.counts.insert(flow, 1)?;
                }
            }
        }
        Ok(())
    }
}

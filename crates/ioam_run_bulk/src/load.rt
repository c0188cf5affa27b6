//! The arrivals of a generated run, taken one by one.
ghost use Rattle.std.specs.Prelude.{◌≡◌, ◌+◌, ◌<◌, ◌≤◌, ◌^◌, false, List, ℕ, IsTrue, IfOk, OnOk, length};
ghost use Rattle.ioam_clock.specs.declared.sample.Sample.{Sample};
ghost use Rattle.ioam_run_arrivals.specs.Fate.{Frame};
ghost use Rattle.ioam_run_arrivals.specs.Forwarding.{Forwards, IsOf, has_room, taken};
ghost use Rattle.ioam_run_bulk.specs.Load.{AreSums, IsSet, Loads};

use crate::generator::{MOST_GENERATED, next_state, put_packet};
use crate::terms::Terms;
use ioam_base::memory::NoMemory;
use ioam_ip::Layer;
use ioam_pcap::Packet;
use ioam_run_arrivals::{Arrival, Forwarding};
use ioam_topo::{Domain, PortId};
use std::alloc::Global;

// Nanoseconds from an arrival to the next.
const PAUSE: u64 = 1_000;

/// The arrivals so far, the state of the generator at the next one, and room for its octets.
#[derive(Drop)]
pub struct Load {
    pub(crate) gathered: Forwarding,
    pub(crate) state: u64,
    pub(crate) octets: Vec<u8>,
}

/// No arrival yet.
pub(crate) fn new_load(alloc: Global, domain: &Domain, seed: u64) -> Result<Load, NoMemory>
    ensures { IfOk result (λ load. (readings : List (List Sample)) → Loads domain.now readings seed 0 load) }
{
    let gathered = Forwarding::start(alloc, domain)?;
    let octets = Vec::with_capacity(alloc, MOST_GENERATED)?;
    Ok(Load {
        gathered,
        state: seed,
        octets,
    })
}

// Where no more may wait, runs what waits and forgets it.
fn make_room<F: Fn(&mut Forwarding)>(terms: &Terms<'_, '_, '_, F>, gathered: &mut Forwarding)
    requires set { IsSet (λ f p. F.pre f p) (λ f p u q. F.post f p u q) terms.now }
    requires of { IsOf terms.now.domain.now gathered.old }
    requires few { taken gathered.old < 2 ^ 33 }
    ensures of { IsOf terms.now.domain.now gathered.new }
    ensures room { IsTrue (has_room gathered.new) }
    ensures counted { taken gathered.new ≡ taken gathered.old }
    ensures gathers { (frames : List Frame) (texts : List (List ℕ)) → Forwards false terms.now.domain.now terms.now.readings.now frames texts gathered.old
        → Forwards false terms.now.domain.now terms.now.readings.now frames texts gathered.new }
{
    if gathered.has_room() {
        return;
    }
    (terms.run)(gathered);
}

// Takes the arrival with this number, counted from 0, at the first port of the domain.
fn take_next<F: Fn(&mut Forwarding)>(
    terms: &Terms<'_, '_, '_, F>,
    alloc: Global,
    number: u32,
    load: &mut Load,
) -> Result<(), NoMemory>
    requires set { IsSet (λ f p. F.pre f p) (λ f p u q. F.post f p u q) terms.now }
    requires of { IsOf terms.now.domain.now load.old.gathered }
    requires counted { taken load.old.gathered ≡ number }
    ensures of { OnOk result (IsOf terms.now.domain.now load.new.gathered) }
    ensures loads { OnOk result ((seed : ℕ) → Loads terms.now.domain.now terms.now.readings.now seed number load.old
        → Loads terms.now.domain.now terms.now.readings.now seed (number + 1) load.new) }
{
    make_room(terms, &mut load.gathered);
    put_packet(load.state, &mut load.octets)?;
    let arrival = Arrival {
        port: PortId(0),
        layer: Layer::Raw,
        captured: Packet {
            time: u64::from(number) * PAUSE,
            original: load.octets.len() as u32,
            octets: &load.octets,
        },
    };
    load.gathered
        .take(alloc, terms.domain, terms.readings, &arrival)?;
    load.state = next_state(load.state);
    Ok(())
}

/// Takes the arrivals from number `from` on, up to `until` and without it.
pub(crate) fn take_some<F: Fn(&mut Forwarding)>(
    terms: &Terms<'_, '_, '_, F>,
    alloc: Global,
    from: u32,
    until: u32,
    load: &mut Load,
) -> Result<(), NoMemory>
    requires set { IsSet (λ f p. F.pre f p) (λ f p u q. F.post f p u q) terms.now }
    requires span { from ≤ until }
    requires loads { Loads terms.now.domain.now terms.now.readings.now terms.now.seed from load.old }
    ensures loads { OnOk result (Loads terms.now.domain.now terms.now.readings.now terms.now.seed until load.new) }
{
    'arrivals: for number in from..until {
        take_next(terms, alloc, number, load)?;
    }
    Ok(())
}

/// Runs all jobs that wait, and forgets them.
pub(crate) fn run_rest<F: Fn(&mut Forwarding)>(terms: &Terms<'_, '_, '_, F>, load: &mut Load)
    requires set { IsSet (λ f p. F.pre f p) (λ f p u q. F.post f p u q) terms.now }
    requires loads { Loads terms.now.domain.now terms.now.readings.now terms.now.seed terms.now.count load.old }
    ensures sums { AreSums terms.now.domain.now terms.now.readings.now terms.now.seed terms.now.count load.new.gathered.sums }
{
    (terms.run)(&mut load.gathered);
}

//! All visits of one packet.
ghost use Rattle.std.specs.Prelude.{◌≡◌, ◌≤◌, ◌+◌, ◌^◌, [], IfErr, IfOk, IfSome, OnOk, MatchOption, None, Some, is_some, length, slice_get};
ghost use Rattle.ioam_batch.specs.Crossings.{crossings, joined};
ghost use Rattle.ioam_batch.specs.Jobs.{HasTaps, IsFresh, asked_for, reserved_of};
ghost use Rattle.ioam_batch.specs.Made.{IsMade};
ghost use Rattle.ioam_batch.specs.Taps.{is_tapped_at};
ghost use Rattle.ioam_plan.specs.Rides.{Rides};
ghost use Rattle.ioam_topo.specs.declared.domain.Domain.{Domain};

use crate::crossings::Crossings;
use crate::making::{packet_of, room_for};
use ioam_base::memory::NoMemory;
use ioam_dex::MOST_RECORD;
use ioam_node_visit::NodeRoom;
use ioam_plan::{End, Itinerary, Visits};
use ioam_topo::{Domain, PortId};
use std::alloc::Global;
use std::mem;

/// All visits of one packet, with all the room that they need.
#[derive(Drop)]
pub struct Job {
    pub(crate) itinerary: Itinerary,
    pub(crate) packet: Vec<u8>,
    pub(crate) crossings: Crossings,
    pub(crate) room: NodeRoom,
}

impl Job {
    /// A place for a job that is to be made: that of a packet of no octets and no visits. It takes no
    /// memory.
    pub(crate) fn none(alloc: Global) -> Job
        ensures visits { result.itinerary.visits ≡ [] }
        ensures packet { result.packet.items ≡ [] }
        ensures reserved { reserved_of result ≡ 0 }
    {
        Job {
            itinerary: Itinerary {
                port: PortId(0),
                visits: Visits::none(alloc),
                end: End::Left { port: PortId(0) },
                exited: false,
                carried: None,
            },
            packet: Vec::new(alloc),
            crossings: Crossings::none(alloc),
            room: NodeRoom::none(alloc),
        }
    }

    /// The job of a packet that goes by an itinerary through a domain: the packet, or the outer packet
    /// around it, before any visit. The packet of an arrival that was dropped has no octets and no
    /// visits. No visit takes memory: room is made for the packet, for that again at each visit that
    /// sends it on a link with a tap, and for what is noted and exported. That is 17 MiB at most, whatever
    /// the packet and the domain.
    pub fn new(
        alloc: Global,
        domain: &Domain,
        itinerary: Itinerary,
        packet: &[u8],
    ) -> Result<Job, NoMemory>
        requires { Rides domain.now packet.now itinerary }
        ensures { IfOk result (IsMade domain.now packet.now itinerary) }
    {
        let mut job = Job::none(alloc);
        job.renew(alloc, domain, itinerary, packet)?;
        Ok(job)
    }

    /// Becomes that job, as `new` makes it, in the memory that it has: more is taken only where that has
    /// too little room. Nothing of the job that it was stays. After NoMemory it is some job, with no more
    /// octets reserved than it had.
    pub(crate) fn renew(
        &mut self,
        alloc: Global,
        domain: &Domain,
        itinerary: Itinerary,
        packet: &[u8],
    ) -> Result<(), NoMemory>
        requires { Rides domain.now packet.now itinerary }
        ensures made { OnOk result (IsMade domain.now packet.now itinerary self.new) }
        ensures lost { IfErr result (λ _. reserved_of self.new ≤ reserved_of self.old) }
    {
        let spare = mem::replace(&mut self.packet, Vec::new(alloc));
        let octets = packet_of(alloc, spare, domain, &itinerary, packet)?;
        let spare = mem::replace(&mut self.room, NodeRoom::none(alloc));
        let room = room_for(alloc, spare, &itinerary, &octets)?;
        let visits = itinerary.visits.list();
        self.crossings.renew(alloc, domain, visits, octets.len())?;
        self.itinerary = itinerary;
        self.packet = octets;
        self.room = room;
        Ok(())
    }

    /// Takes the memory of its visits out, for a way to be planned in. It takes no memory.
    pub(crate) fn take_visits(&mut self, alloc: Global) -> Visits
        ensures visits { result ≡ self.old.itinerary.visits }
        ensures reserved { reserved_of self.new ≡ reserved_of self.old }
    {
        mem::replace(&mut self.itinerary.visits, Visits::none(alloc))
    }

    /// The packet as it stands.
    pub fn packet(&self) -> &[u8]
        ensures { result.now ≡ self.now.packet.items }
    {
        &self.packet
    }

    /// Its way.
    pub fn itinerary(&self) -> &Itinerary
        ensures { result.now ≡ self.now.itinerary }
    {
        &self.itinerary
    }

    /// What its visits noted and exported.
    pub fn room(&self) -> &NodeRoom
        ensures { result.now ≡ self.now.room }
    {
        &self.room
    }

    /// The octets of the packet as a visit sent it, by its place from 0: None exactly where that visit
    /// sends it on no link with a tap; no octets before the visit. There are at most 131,072.
    pub fn crossing(&self, visit: usize) -> Option<&[u8]>
        ensures small { IfSome result (λ octets. length octets.now ≤ 131072) }
        ensures sent { MatchOption result (joined (slice_get (crossings self.now.crossings) visit) ≡ None)
            (λ octets. joined (slice_get (crossings self.now.crossings) visit) ≡ Some octets.now) }
        ensures tapped { (domain : Domain) → HasTaps domain self.now → is_some result ≡ is_tapped_at domain self.now.itinerary.visits visit }
        ensures before { (domain : Domain) → IsFresh domain self.now → IfSome result (λ octets. octets.now ≡ []) }
    {
        self.crossings.at(visit)
    }

    /// For how many octets it has room: the length of its packet, that length again for each visit that
    /// sends it on a link with a tap, and 274 for each IOAM option that a visit may meet.
    pub fn reserved(&self) -> usize
        ensures value { result ≡ reserved_of self.now }
        ensures fresh { (domain : Domain) → IsFresh domain self.now → result ≡ asked_for domain self.now.itinerary self.now.packet.items }
        ensures small { result ≤ 2 ^ 63 + 2 ^ 29 }
    {
        self.packet.len() + self.crossings.kept() + MOST_RECORD * self.room.given() as usize
    }
}

// Compiles only where a value of the type may be handed to a thread.
fn sent<T: Send>() {}

// Not called: that it compiles is what it shows.
fn _a_worker_is_handed_jobs() {
    sent::<Job>();
}

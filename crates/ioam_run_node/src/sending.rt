//! What a node makes of a packet that it sends.
ghost use Rattle.std.specs.Prelude.{◌≡◌, ◌<◌, ◌≤◌, ◌^◌, ◌∷◌, [], ◌++◌, IfOk, OnOk, length};
ghost use Rattle.ioam_ip.specs.Hop.{option_count};
ghost use Rattle.ioam_desk_outputs.specs.Told.{Adds};
ghost use Rattle.ioam_pcap.specs.Entries.{most};
ghost use Rattle.ioam_pcap.specs.Text.{record_octets};
ghost use Rattle.ioam_node.specs.Outward.{outward_of};
ghost use Rattle.ioam_topo.specs.Domain.{links, ports};
ghost use Rattle.ioam_topo.specs.Forward.{IsWayFrom};
ghost use Rattle.ioam_run_node.specs.NodeText.{added_of, out_lines, way_name};
ghost use Rattle.ioam_run_node.specs.Passage.{CanGo, Goes, LeavesClean, exported, noted, passed_on};
ghost use Rattle.ioam_run_node.specs.Seat.{seat_of};

use crate::names::{EXPORTS, OUT, REPORT};
use crate::notes::put_notes;
use crate::post::Post;
use ioam_base::memory::NoMemory;
use ioam_base::spare::copied_in;
use ioam_base::text::{append, append_decimal};
use ioam_desk_outputs::Output;
use ioam_node::Place;
use ioam_node_visit::{NodeNote, NodeRoom, option_count, transit};
use ioam_pcap::put_record;
use ioam_plan::outward_of;
use ioam_topo::{Domain, Way};
use std::alloc::Global;

/// A packet that a node has passed on, and what it noted and exported. The next one takes its memory.
#[derive(Drop)]
pub struct Sent {
    pub(crate) packet: Vec<u8>,
    pub(crate) room: NodeRoom,
}

impl Sent {
    /// None yet. It takes no memory.
    pub(crate) fn none(alloc: Global) -> Sent {
        Sent {
            packet: Vec::new(alloc),
            room: NodeRoom::none(alloc),
        }
    }
}

// The name of the link or the port of a way.
fn way_name(domain: &Domain, way: Way) -> &str
    requires { (node : _) × IsWayFrom (links domain.now) (ports domain.now) node way }
    ensures { result.now ≡ way_name domain.now way }
{
    match way {
        Way::Link(link) => domain.link(link).name.text(),
        Way::Port(port) => domain.port(port).name.text(),
    }
}

// `N out NAME`, and the lines of the notes
fn put_sent(number: u64, name: &str, notes: &[NodeNote], out: &mut Vec<u8>) -> Result<(), NoMemory>
    ensures { OnOk result (out.new.items ≡ out.old.items ++ out_lines number name.now notes.now) }
{
    append_decimal(out, number)?;
    append(out, b" out ")?;
    append(out, name.as_bytes())?;
    append(out, b"\n")?;
    put_notes(notes, out)
}

// Adds a packet to OUT.
fn add_packet(time: u64, packet: &[u8], outputs: &mut [Output]) -> Result<(), NoMemory>
    requires width { length outputs.old ≡ 3 }
    requires short { length packet.now ≤ most }
    ensures { OnOk result (Adds outputs.old outputs.new (record_octets time packet.now ∷ [] ∷ [] ∷ [])) }
{
    put_record(time, packet, &mut outputs[OUT].gathered)?;
    Ok(())
}

// Adds its lines to REPORT.
fn add_lines(
    number: u64,
    name: &str,
    notes: &[NodeNote],
    outputs: &mut [Output],
) -> Result<(), NoMemory>
    requires { length outputs.old ≡ 3 }
    ensures { OnOk result (Adds outputs.old outputs.new ([] ∷ out_lines number name.now notes.now ∷ [] ∷ [])) }
{
    put_sent(number, name, notes, &mut outputs[REPORT].gathered)?;
    Ok(())
}

// Adds what was exported to EXPORTS.
fn add_exports(exports: &[u8], outputs: &mut [Output]) -> Result<(), NoMemory>
    requires { length outputs.old ≡ 3 }
    ensures { OnOk result (Adds outputs.old outputs.new ([] ∷ [] ∷ exports.now ∷ [])) }
{
    append(&mut outputs[EXPORTS].gathered, exports)?;
    Ok(())
}

// Adds a packet that was sent at a time by a way of this name.
fn put_all(
    number: u64,
    time: u64,
    name: &str,
    sent: &Sent,
    outputs: &mut [Output],
) -> Result<(), NoMemory>
    requires width { length outputs.old ≡ 3 }
    requires short { length sent.now.packet.items ≤ most }
    ensures { OnOk result (Adds outputs.old outputs.new (record_octets time sent.now.packet.items
        ∷ out_lines number name.now sent.now.room.notes ∷ sent.now.room.exports ∷ [])) }
{
    add_packet(time, &sent.packet, outputs)?;
    add_lines(number, name, sent.room.notes(), outputs)?;
    add_exports(sent.room.exports(), outputs)?;
    Ok(())
}

impl Post<'_> {
    // The visit of a packet that came at a time and goes on by a way.
    fn visit(&self, time: u64, way: Way, packet: &mut [u8], room: &mut NodeRoom)
        requires time { time < 2 ^ 62 }
        requires can_go { CanGo (seat_of self.now) way packet.old }
        requires room { option_count packet.old ≤ room.old.spare }
        ensures packet { packet.new ≡ passed_on (seat_of self.now) time way packet.old }
        ensures notes { room.new.notes ≡ room.old.notes ++ noted (seat_of self.now) time way packet.old }
        ensures exports { room.new.exports ≡ room.old.exports ++ exported (seat_of self.now) time way packet.old }
        ensures clean { LeavesClean (seat_of self.now) (Goes time way packet.old) }
    {
        let place = Place {
            node: self.node,
            inward: self.inward,
            outward: outward_of(self.domain, way),
        };
        transit(self.domain, self.readings, place, time, packet, room);
    }

    // A packet that came at a time, as the node sends it by a way, in the memory of one that was sent.
    fn pass(
        &self,
        alloc: Global,
        spare: Sent,
        time: u64,
        way: Way,
        packet: &[u8],
    ) -> Result<Sent, NoMemory>
        requires time { time < 2 ^ 62 }
        requires short { length packet.now ≤ most }
        requires can_go { CanGo (seat_of self.now) way packet.now }
        ensures packet { IfOk result (λ sent. sent.packet.items ≡ passed_on (seat_of self.now) time way packet.now) }
        ensures size { IfOk result (λ sent. length sent.packet.items ≡ length packet.now) }
        ensures notes { IfOk result (λ sent. sent.room.notes ≡ noted (seat_of self.now) time way packet.now) }
        ensures exports { IfOk result (λ sent. sent.room.exports ≡ exported (seat_of self.now) time way packet.now) }
        ensures clean { OnOk result (LeavesClean (seat_of self.now) (Goes time way packet.now)) }
    {
        let Sent { packet: held, room } = spare;
        let mut room = room.renewed(alloc, 1, option_count(packet))?;
        let mut sent = copied_in(alloc, held, packet)?;
        self.visit(time, way, &mut sent, &mut room);
        Ok(Sent { packet: sent, room })
    }

    /// Adds a packet that goes on to the three outputs, put together in the memory of one that was sent,
    /// and hands its memory on.
    pub(crate) fn send(
        &self,
        alloc: Global,
        spare: Sent,
        number: u64,
        time: u64,
        way: Way,
        packet: &[u8],
        outputs: &mut [Output],
    ) -> Result<Sent, NoMemory>
        requires width { length outputs.old ≡ 3 }
        requires time { time < 2 ^ 62 }
        requires short { length packet.now ≤ most }
        requires can_go { CanGo (seat_of self.now) way packet.now }
        ensures adds { OnOk result (Adds outputs.old outputs.new (added_of (seat_of self.now) number (Goes time way packet.now))) }
        ensures clean { OnOk result (LeavesClean (seat_of self.now) (Goes time way packet.now)) }
        ensures fits { OnOk result (length (passed_on (seat_of self.now) time way packet.now) ≤ most) }
    {
        let sent = self.pass(alloc, spare, time, way, packet)?;
        put_all(number, time, way_name(self.domain, way), &sent, outputs)?;
        Ok(sent)
    }
}

//! The options of a header, changed one after the other.
ghost use Rattle.std.specs.Prelude.{◌≡◌, ◌↔◌, ◌<◌, ◌≤◌, ◌^◌, ◌+◌, ◌++◌, length, slice_index};
ghost use Rattle.ioam_dex.specs.Reads.{records_octets};
ghost use Rattle.ioam_ip.specs.Chain.{IsSound};
ghost use Rattle.ioam_ip.specs.ChainOptions.{CarriesIoam};
ghost use Rattle.ioam_ip.specs.Hop.{hop_stepped, option_count};
ghost use Rattle.ioam_ip.specs.Packet.{IsPacket};
ghost use Rattle.ioam_ip.specs.Rewriting.{options_in, with_steps};
ghost use Rattle.ioam_topo.specs.Domain.{nodes};
ghost use Rattle.ioam_node_visit.specs.Counted.{hop_exports, hop_notes, notes_in, records_in};
ghost use Rattle.ioam_node_visit.specs.Exports.{records_of};
ghost use Rattle.ioam_node_visit.specs.Notes.{notes_of};
ghost use Rattle.ioam_node_visit.specs.Step.{node_step};

use crate::room::NodeRoom;
use crate::visit::NodeVisit;
use ioam_ip::{hop_header, next_option};

impl NodeVisit<'_> {
    // Changes the options of a header as the node does.
    fn change_options(&self, head: &mut [u8], room: &mut NodeRoom)
        requires node { self.now.place.node.0 < length (nodes self.now.domain.now) }
        requires time { self.now.time < 2 ^ 63 }
        requires room { let notes = notes_of self.now.domain.now self.now.readings.now self.now.place self.now.time self.now.hops in
            length (notes_in notes (options_in head.old)) ≤ room.old.spare }
        ensures notes { let notes = notes_of self.now.domain.now self.now.readings.now self.now.place self.now.time self.now.hops in
            room.new.notes ≡ room.old.notes ++ notes_in notes (options_in head.old) }
        ensures exports { let records = records_of self.now.domain.now self.now.readings.now self.now.place self.now.time self.now.hops in
            room.new.exports ≡ room.old.exports ++ records_octets (records_in records (options_in head.old)) }
        ensures spare { let notes = notes_of self.now.domain.now self.now.readings.now self.now.place self.now.time self.now.hops in
            room.new.spare + length (notes_in notes (options_in head.old)) ≡ room.old.spare }
        ensures capacities { room.new.capacities ≡ room.old.capacities }
        ensures steps { let step = node_step self.now.domain.now self.now.readings.now self.now.place self.now.time self.now.hops in
            head.new ≡ with_steps step head.old (options_in head.old) }
        ensures said { slice_index head.new 1 ≡ slice_index head.old 1 }
    {
        let mut at = 2;
        'options: while let Some(spot) = next_option(head, at) {
            let start = spot.at + 2;
            let end = start + spot.size;
            self.change(spot.kind, &mut head[start..end], room);
            at = end;
        }
    }

    // Changes the options of the outer Hop-by-Hop header of a packet as the node does.
    pub(crate) fn change_packet(&self, packet: &mut [u8], room: &mut NodeRoom)
        requires node { self.now.place.node.0 < length (nodes self.now.domain.now) }
        requires time { self.now.time < 2 ^ 63 }
        requires packet { IsPacket packet.old }
        requires sound { IsSound packet.old }
        requires room { option_count packet.old ≤ room.old.spare }
        ensures notes { let notes = notes_of self.now.domain.now self.now.readings.now self.now.place self.now.time self.now.hops in
            room.new.notes ≡ room.old.notes ++ hop_notes notes packet.old }
        ensures exports { let records = records_of self.now.domain.now self.now.readings.now self.now.place self.now.time self.now.hops in
            room.new.exports ≡ room.old.exports ++ hop_exports records packet.old }
        ensures spare { room.old.spare ≤ room.new.spare + option_count packet.old }
        ensures given { room.new.spare + length room.new.notes ≡ room.old.spare + length room.old.notes }
        ensures capacities { room.new.capacities ≡ room.old.capacities }
        ensures steps { let step = node_step self.now.domain.now self.now.readings.now self.now.place self.now.time self.now.hops in
            packet.new ≡ hop_stepped step packet.old }
    {
        let Some(hop) = hop_header(packet) else {
            return;
        };
        self.change_options(&mut packet[hop], room);
    }

    // The same of a packet with a whole chain.
    pub(crate) fn visit_packet(&self, packet: &mut [u8], room: &mut NodeRoom)
        requires node { self.now.place.node.0 < length (nodes self.now.domain.now) }
        requires time { self.now.time < 2 ^ 63 }
        requires packet { IsPacket packet.old }
        requires sound { IsSound packet.old }
        requires room { option_count packet.old ≤ room.old.spare }
        ensures notes { let notes = notes_of self.now.domain.now self.now.readings.now self.now.place self.now.time self.now.hops in
            room.new.notes ≡ room.old.notes ++ hop_notes notes packet.old }
        ensures exports { let records = records_of self.now.domain.now self.now.readings.now self.now.place self.now.time self.now.hops in
            room.new.exports ≡ room.old.exports ++ hop_exports records packet.old }
        ensures spare { room.old.spare ≤ room.new.spare + option_count packet.old }
        ensures given { room.new.spare + length room.new.notes ≡ room.old.spare + length room.old.notes }
        ensures capacities { room.new.capacities ≡ room.old.capacities }
        ensures steps { let step = node_step self.now.domain.now self.now.readings.now self.now.place self.now.time self.now.hops in
            packet.new ≡ hop_stepped step packet.old }
        ensures packet { IsPacket packet.new }
        ensures sound { IsSound packet.new }
        ensures carries { CarriesIoam packet.old ↔ CarriesIoam packet.new }
        ensures count { option_count packet.new ≡ option_count packet.old }
        ensures hops { slice_index packet.new 7 ≡ slice_index packet.old 7 }
    {
        self.change_packet(packet, room);
    }
}

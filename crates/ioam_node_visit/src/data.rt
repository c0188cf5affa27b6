//! What a node does to one option: it fills a trace, or exports what direct export asks for.
ghost use Rattle.std.specs.Prelude.{◌≡◌, ◌<◌, ◌≤◌, ◌^◌, ◌-◌, ◌+◌, ◌++◌, ◌∷◌, [], true, if◌then◌else◌, length};
ghost use Rattle.ioam_dex.specs.Direct.{HasItsNumbers, read_of};
ghost use Rattle.ioam_dex.specs.Reads.{records_octets};
ghost use Rattle.ioam_topo.specs.Domain.{nodes};
ghost use Rattle.ioam_trace.specs.Filled.{filled};
ghost use Rattle.ioam_node_visit.specs.Exports.{direct_records, record_for, records_of};
ghost use Rattle.ioam_node_visit.specs.Notes.{direct_note, filled_what, note, notes_of, short_note, trace_note, what_done};
ghost use Rattle.ioam_node_visit.specs.Seeing.{view_of};
ghost use Rattle.ioam_node_visit.specs.declared.note.What.TheVariants.{Exported};
ghost use Rattle.ioam_node_visit.specs.Step.{knows, node_step, trace_step};

use crate::met::{Met, meet};
use crate::note::{NodeNote, What};
use crate::room::NodeRoom;
use crate::visit::NodeVisit;
use ioam_base::octets::u16_at;
use ioam_data::option_type::IN_FRONT;
use ioam_data::{ElementBuf, Namespace};
use ioam_dex::{Direct, Export, read};
use ioam_trace::{Filled, HEAD_OCTETS};

// What was done, as a note says it.
fn what_done(filled: Filled) -> What
    ensures { result ≡ what_done filled }
{
    match filled {
        Filled::Added { words } => What::Added { words },
        Filled::Overflowed => What::Overflowed,
        Filled::AlreadyOver => What::AlreadyOver,
        Filled::Unsuited => What::Unsuited,
    }
}

// The note of an option that is too short to be read.
fn short_note() -> NodeNote
    ensures { result ≡ short_note }
{
    NodeNote {
        namespace: Namespace(0),
        direct: false,
        what: What::Short,
    }
}

impl NodeVisit<'_> {
    // Adds the node's data to the octets of a trace of a namespace, and says what was done.
    fn fill_known(&self, namespace: Namespace, octets: &mut [u8]) -> What
        requires begins { 8 ≤ length octets.old }
        requires node { self.now.place.node.0 < length (nodes self.now.domain.now) }
        requires time { self.now.time < 2 ^ 63 }
        ensures octets { let view = view_of self.now.domain.now self.now.readings.now self.now.place self.now.time self.now.hops namespace.0 in
            octets.new ≡ (if knows self.now.domain.now self.now.place.node.0 namespace.0 then filled octets.old view else octets.old) }
        ensures what { result ≡ filled_what self.now.domain.now self.now.readings.now self.now.place self.now.time self.now.hops namespace.0 octets.old }
    {
        if !self.domain.knows(self.place.node, namespace) {
            return What::Unknown;
        }
        what_done(self.fill_seen(namespace, octets))
    }

    // Adds the node's data to a trace, and gives the note of what was done.
    #[tactic(auto, unfolding(crate::specs::Step::trace_step, crate::specs::Notes::trace_note))]
    fn fill_trace(&self, body: &mut [u8]) -> NodeNote
        requires node { self.now.place.node.0 < length (nodes self.now.domain.now) }
        requires time { self.now.time < 2 ^ 63 }
        ensures octets { body.new ≡ trace_step self.now.domain.now self.now.readings.now self.now.place self.now.time self.now.hops body.old }
        ensures note { result ≡ trace_note self.now.domain.now self.now.readings.now self.now.place self.now.time self.now.hops body.old }
    {
        if body.len() < IN_FRONT + HEAD_OCTETS {
            return short_note();
        }
        let namespace = Namespace(u16_at(body, IN_FRONT));
        let what = self.fill_known(namespace, &mut body[IN_FRONT..]);
        NodeNote {
            namespace,
            direct: false,
            what,
        }
    }

    // Exports what direct export data of a namespace that the node knows ask for.
    #[tactic(auto, unfolding(crate::specs::Exports::record_for))]
    fn export_known(&self, direct: &Direct, room: &mut NodeRoom)
        requires node { self.now.place.node.0 < length (nodes self.now.domain.now) }
        requires time { self.now.time < 2 ^ 63 }
        requires numbers { HasItsNumbers direct.now }
        requires room { 1 ≤ room.old.spare }
        ensures notes { room.new.notes ≡ room.old.notes ++ note direct.now.namespace.0 true Exported ∷ [] }
        ensures exports { let given = record_for self.now.domain.now self.now.readings.now self.now.place self.now.time self.now.hops direct.now in
            room.new.exports ≡ room.old.exports ++ records_octets (given ∷ []) }
        ensures spare { room.new.spare ≡ room.old.spare - 1 }
        ensures capacities { room.new.capacities ≡ room.old.capacities }
    {
        // no node fills in a checksum complement
        let kind = direct.kind.without_checksum();
        let mut buffer = ElementBuf::new();
        self.put_seen(kind, direct.namespace, &mut buffer);
        let export = Export {
            namespace: direct.namespace,
            flags: direct.flags,
            ext: direct.ext,
            kind: kind.bits(),
            visit: Some((self.time, self.place.inward)),
            flow: direct.flow,
            seq: direct.seq,
            element: buffer.octets(),
        };
        let note = NodeNote {
            namespace: direct.namespace,
            direct: true,
            what: What::Exported,
        };
        room.add_export(note, &export);
    }

    // Exports what direct export data ask for, and notes it.
    fn export(&self, octets: &[u8], room: &mut NodeRoom)
        requires node { self.now.place.node.0 < length (nodes self.now.domain.now) }
        requires time { self.now.time < 2 ^ 63 }
        requires room { 1 ≤ room.old.spare }
        ensures notes { room.new.notes ≡ room.old.notes ++ direct_note self.now.domain.now self.now.place.node.0 (read_of octets.now) ∷ [] }
        ensures exports { let records = direct_records self.now.domain.now self.now.readings.now self.now.place self.now.time self.now.hops (read_of octets.now) in
            room.new.exports ≡ room.old.exports ++ records_octets records }
        ensures spare { room.new.spare ≡ room.old.spare - 1 }
        ensures capacities { room.new.capacities ≡ room.old.capacities }
    {
        let Ok(direct) = read(octets) else {
            room.add(short_note());
            return;
        };
        if !self.domain.knows(self.place.node, direct.namespace) {
            room.add(NodeNote {
                namespace: direct.namespace,
                direct: true,
                what: What::Unknown,
            });
            return;
        }
        self.export_known(&direct, room);
    }

    // Changes the data of an option as the node does, notes what was done, and exports what is asked for.
    #[tactic(auto, unfolding(crate::specs::Step::node_step, crate::specs::Notes::notes_of, crate::specs::Exports::records_of))]
    pub(crate) fn change(&self, kind: u8, body: &mut [u8], room: &mut NodeRoom)
        requires node { self.now.place.node.0 < length (nodes self.now.domain.now) }
        requires time { self.now.time < 2 ^ 63 }
        requires room { length (notes_of self.now.domain.now self.now.readings.now self.now.place self.now.time self.now.hops kind body.old) ≤ room.old.spare }
        ensures octets { body.new ≡ node_step self.now.domain.now self.now.readings.now self.now.place self.now.time self.now.hops kind body.old }
        ensures notes { room.new.notes ≡ room.old.notes ++ notes_of self.now.domain.now self.now.readings.now self.now.place self.now.time self.now.hops kind body.old }
        ensures exports { let records = records_of self.now.domain.now self.now.readings.now self.now.place self.now.time self.now.hops kind body.old in
            room.new.exports ≡ room.old.exports ++ records_octets records }
        ensures spare { room.new.spare + length (notes_of self.now.domain.now self.now.readings.now self.now.place self.now.time self.now.hops kind body.old) ≡ room.old.spare }
        ensures capacities { room.new.capacities ≡ room.old.capacities }
    {
        match meet(kind, body) {
            Met::Cut => room.add(short_note()),
            Met::Trace => room.add(self.fill_trace(body)),
            Met::Direct => self.export(&body[IN_FRONT..], room),
            Met::Other => {}
        }
    }
}

//! Room for what a packet's visits note and export.
ghost use Rattle.std.specs.Prelude.{◌≡◌, ◌≤◌, ◌+◌, ◌-◌, ◌*◌, ◌++◌, ◌∷◌, [], IfOk, IsOk, length};
ghost use Rattle.ioam_dex.specs.Record.{HasItsParts, most_record, record_of, record_octets};

use crate::note::NodeNote;
use ioam_base::memory::NoMemory;
use ioam_base::spare::emptied;
use ioam_dex::{Export, ExportRoom, MOST_RECORD, put_export};
use std::alloc::Global;
use std::marker::Model;

/// Room for the notes and export records of a packet's visits, all of it taken when it is made.
#[derive(Drop)]
pub struct NodeRoom {
    notes: Vec<NodeNote>,
    exports: ExportRoom,
    // how many IOAM options it is for
    given: u32,
}

impl Model for NodeRoom {
    ghost use Rattle.std.specs.Prelude.{◌≡◌, ◌-◌, ◌+◌, ◌*◌, ◌≤◌, length, vec_capacity};
    ghost use Rattle.ioam_dex.specs.Record.{most_record};
    ghost use Rattle.ioam_node_visit.specs.Room.{Room};

    ghost Value = { Room };

    ghost view = { λ room. record {
      notes = room.notes.items;
      exports = room.exports.octets;
      spare = room.given - length room.notes.items;
      capacities = (vec_capacity room.notes, room.exports.capacity);
    } };

    ghost invariant = { λ room. (length room.notes.items ≤ room.given) × (room.given ≤ vec_capacity room.notes) × (room.given ≤ 1048576)
        × (most_record * (room.given - length room.notes.items) ≤ room.exports.spare)
        × (most_record * room.given ≡ room.exports.spare + length room.exports.octets) };
}

impl NodeRoom {
    /// Room for so many visits of a packet with so many IOAM options, at most 1,048,576 in all: a note
    /// and the most octets of a record for each.
    pub fn new(alloc: Global, visits: u32, options: u32) -> Result<NodeRoom, NoMemory>
        requires { visits * options ≤ 1048576 }
        ensures notes { IfOk result (λ room. room.notes ≡ []) }
        ensures exports { IfOk result (λ room. room.exports ≡ []) }
        ensures spare { IfOk result (λ room. room.spare ≡ visits * options) }
    {
        NodeRoom::none(alloc).renewed(alloc, visits, options)
    }

    /// No room. It takes no memory.
    pub fn none(alloc: Global) -> NodeRoom
        ensures notes { result.notes ≡ [] }
        ensures exports { result.exports ≡ [] }
        ensures spare { result.spare ≡ 0 }
        ensures capacities { result.capacities ≡ (0, 0) }
    {
        NodeRoom {
            notes: Vec::new(alloc),
            exports: ExportRoom::none(alloc),
            given: 0,
        }
    }

    /// As `new`, in the memory of this room where that has places for all; else it is handed back.
    pub fn renewed(self, alloc: Global, visits: u32, options: u32) -> Result<NodeRoom, NoMemory>
        requires { visits * options ≤ 1048576 }
        ensures notes { IfOk result (λ room. room.notes ≡ []) }
        ensures exports { IfOk result (λ room. room.exports ≡ []) }
        ensures spare { IfOk result (λ room. room.spare ≡ visits * options) }
        // Where its memory has places for all, it takes none.
        ensures fits { visits * options ≤ self.capacities.0 → most_record * (visits * options) ≤ self.capacities.1 → IsOk result }
    {
        let NodeRoom { notes, exports, .. } = self;
        let given = visits * options;
        let count = given as usize;
        let notes = emptied(alloc, notes, count)?;
        let exports = exports.renewed(alloc, MOST_RECORD * count)?;
        Ok(NodeRoom {
            notes,
            exports,
            given,
        })
    }

    /// The export records, one behind the other.
    pub fn exports(&self) -> &[u8]
        ensures { result.now ≡ self.now.exports }
    {
        self.exports.octets()
    }

    /// The notes, in the order in which the options were met.
    pub fn notes(&self) -> &[NodeNote]
        ensures { result.now ≡ self.now.notes }
    {
        &self.notes
    }

    /// For how many more IOAM options there is room.
    pub fn spare(&self) -> u32
        ensures { result ≡ self.now.spare }
    {
        self.given - self.notes.len() as u32
    }

    /// For how many IOAM options it was made.
    pub fn given(&self) -> u32
        ensures value { result ≡ self.now.spare + length self.now.notes }
        ensures most { result ≤ 1048576 }
    {
        self.given
    }

    /// Takes the notes and the records away. There is room again for all for which it was made.
    pub fn clear(&mut self)
        ensures { self.new ≡ record self.old { notes = []; exports = []; spare = self.old.spare + length self.old.notes } }
    {
        self.notes.clear();
        self.exports.clear();
    }

    // Adds a note, for which there is room.
    pub(crate) fn add(&mut self, note: NodeNote)
        requires { 1 ≤ self.old.spare }
        ensures notes { self.new.notes ≡ self.old.notes ++ note ∷ [] }
        ensures exports { self.new.exports ≡ self.old.exports }
        ensures spare { self.new.spare ≡ self.old.spare - 1 }
        ensures capacities { self.new.capacities ≡ self.old.capacities }
    {
        // there is a place: `new` took the memory for all that was given
        self.notes.push_reserved(note);
    }

    // Adds a note and a record.
    pub(crate) fn add_export(&mut self, note: NodeNote, export: &Export<'_>)
        requires parts { HasItsParts (record_of export.now) }
        requires spare { 1 ≤ self.old.spare }
        ensures notes { self.new.notes ≡ self.old.notes ++ note ∷ [] }
        ensures exports { self.new.exports ≡ self.old.exports ++ record_octets (record_of export.now) }
        ensures spare { self.new.spare ≡ self.old.spare - 1 }
        ensures capacities { self.new.capacities ≡ self.old.capacities }
    {
        self.notes.push_reserved(note);
        put_export(export, &mut self.exports);
    }
}

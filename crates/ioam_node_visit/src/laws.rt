//! Laws of a visit, whatever the domain.
ghost use Rattle.std.specs.Prelude.{◌≡◌, ◌↔◌, ◌-◌, ℕ, List, slice_index};
ghost use Rattle.ioam_clock.specs.declared.sample.Sample.{Sample};
ghost use Rattle.ioam_dex.specs.Record.{Record};
ghost use Rattle.ioam_ip.specs.Chain.{IsSound};
ghost use Rattle.ioam_ip.specs.Hop.{hop_options, hop_stepped};
ghost use Rattle.ioam_ip.specs.Lowered.{lowered};
ghost use Rattle.ioam_ip.specs.Packet.{IsPacket};
ghost use Rattle.ioam_node.specs.declared.place.Place.{Place};
ghost use Rattle.ioam_topo.specs.declared.domain.Domain.{Domain};
ghost use Rattle.ioam_node_visit.specs.Counted.{hop_notes, hop_records};
ghost use Rattle.ioam_node_visit.specs.Exported.{AreExports};
ghost use Rattle.ioam_node_visit.specs.Exports.{records_of};
ghost use Rattle.ioam_node_visit.specs.Noted.{AreNotes};
ghost use Rattle.ioam_node_visit.specs.Notes.{notes_of};
ghost use Rattle.ioam_node_visit.specs.Step.{node_step};
ghost use Rattle.ioam_node_visit.specs.Stepped.{Stepped};
ghost use Rattle.ioam_node_visit.specs.declared.note.NodeNote.{NodeNote};

/// Says that what a visit makes of a packet, as functions of what comes in, is what the rules of RFC 9197 section 4.4 and RFC
/// 9326 section 3.2 tell place by place: the packet whose hop limit stays, and that whose hop limit is one less; the notes;
/// and the export records. Nothing else is.
pub fn one_visit()
    ensures stays { (domain : Domain) (readings : List (List Sample)) (place : Place) (time hops : ℕ) (before after : List ℕ)
        → IsPacket before → IsSound before
        → (after ≡ hop_stepped (node_step domain readings place time hops) before)
        ↔ Stepped domain readings place time hops (slice_index before 7) before after }
    ensures lowers { (domain : Domain) (readings : List (List Sample)) (place : Place) (time hops : ℕ) (before after : List ℕ)
        → IsPacket before → IsSound before
        → (after ≡ hop_stepped (node_step domain readings place time hops) (lowered 1 before))
        ↔ Stepped domain readings place time hops (slice_index before 7 - 1) before after }
    ensures notes { (domain : Domain) (readings : List (List Sample)) (place : Place) (time hops : ℕ) (packet : List ℕ) (xs : List NodeNote)
        → (xs ≡ hop_notes (notes_of domain readings place time hops) packet)
        ↔ AreNotes domain readings place time hops (hop_options packet) xs }
    ensures records { (domain : Domain) (readings : List (List Sample)) (place : Place) (time hops : ℕ) (packet : List ℕ) (xs : List Record)
        → (xs ≡ hop_records (records_of domain readings place time hops) packet)
        ↔ AreExports domain readings place time hops (hop_options packet) xs }
{}

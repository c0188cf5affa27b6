//! Export records by their octets.
ghost use Rattle.std.specs.Prelude.{◌≡◌, ◌≤◌, length};
ghost use Rattle.ioam_dex.specs.Record.{Rec, front_of, length_of, record_at};

use crate::export::Export;
use crate::fields::{EXTENSIONS, NAMESPACE, PLAIN, VERSION, VISIT};
use crate::layout::{element_in, front_size};
use crate::numbers::{four_where, has_flow, has_seq, u32_where};
use crate::room::ExportRoom;
use crate::step::head;
use crate::visit::{has_visit, twelve_where, visit_where};
use ioam_base::octets::u16_at;
use ioam_data::{Namespace, TraceType};
use std::cmp::Ordering;

/// One whole export record of either version, by its octets. Its fields are read where they stand: it is checked once, and
/// never decoded as a whole.
#[derive(Clone, Copy, Debug)]
pub struct RecordRef<'a> {
    /// The octets of the record, 274 at most.
    pub octets: &'a [u8],
    pub ghost whole: { ∥ Rec octets.now (record_at octets.now) ∥₁ },
    pub ghost front: { front_of octets.now ≤ length octets.now },
    pub ghost size: { length octets.now ≡ length_of octets.now },
    pub ghost short: { length octets.now ≤ 274 },
}

impl<'a> RecordRef<'a> {
    ghost use Rattle.std.specs.Prelude.{is_some, slice_index, ◌+◌};
    ghost use Rattle.std.specs.Cmp.Lexicographic.{slice_cmp};
    ghost use Rattle.std.specs.Ordering.{nat_cmp};
    ghost use Rattle.ioam_dex.specs.Record.{Record, record_of, record_octets};
    ghost use Rattle.ioam_dex.specs.RecordRef.{content, fields_between, plain, plain_head, plain_tail};
    ghost use Rattle.ioam_dex.specs.Room.{appended};
    ghost use Rattle.ioam_dex.specs.Visit as visit;

    /// The record that `octets` are.
    pub fn new(octets: &'a [u8]) -> RecordRef<'a>
        requires { (x : Record) × Rec octets.now x }
        ensures octets { result.octets.now ≡ octets.now }
        ensures says { (x : Record) → Rec octets.now x → content result ≡ x }
    {
        RecordRef { octets }
    }

    // The offset of the Flow ID, or of what follows where there is none.
    fn numbers_at(&self) -> usize
        ensures value { result ≡ 10 + visit.twelve_where (visit.has_visit (slice_index self.now.octets.now 0)) }
        ensures inside { result ≤ length self.now.octets.now }
    {
        VISIT + twelve_where(self.has_visit())
    }

    /// Whether the record is of version 2, and so has a visit.
    pub fn has_visit(&self) -> bool
        ensures version { result ≡ visit.has_visit (slice_index self.now.octets.now 0) }
        ensures visit { result ≡ is_some (content self.now).visit }
    {
        has_visit(self.octets[VERSION])
    }

    /// The Namespace-ID.
    pub fn namespace(&self) -> Namespace
        ensures { result.0 ≡ (content self.now).namespace }
    {
        Namespace(u16_at(self.octets, NAMESPACE))
    }

    /// The Flow ID, if the extension flags have it.
    pub fn flow(&self) -> Option<u32>
        ensures { result ≡ (content self.now).flow }
    {
        u32_where(
            has_flow(self.octets[EXTENSIONS]),
            self.octets,
            self.numbers_at(),
        )
    }

    /// The Sequence Number, if the extension flags have it.
    pub fn seq(&self) -> Option<u32>
        ensures { result ≡ (content self.now).seq }
    {
        let ext = self.octets[EXTENSIONS];
        let at = self.numbers_at() + four_where(has_flow(ext));
        u32_where(has_seq(ext), self.octets, at)
    }

    /// The time at the node, in nanoseconds, and the interface by which the packet came, if the record is of version 2.
    pub fn visit(&self) -> Option<(u64, u32)>
        ensures { result ≡ (content self.now).visit }
    {
        visit_where(self.has_visit(), self.octets, VISIT)
    }

    /// The octets of the visit: 12, or none if the record is of version 1.
    pub fn visit_octets(&self) -> &'a [u8]
        ensures octets { result.now ≡ visit.visit_octets (content self.now).visit }
    {
        &self.octets[VISIT..self.numbers_at()]
    }

    /// The IOAM-Trace-Type of the element.
    pub fn trace_type(&self) -> TraceType
        ensures { result ≡ (content self.now).kind }
    {
        element_in(self.octets).0
    }

    /// The element of that type.
    pub fn element(&self) -> &'a [u8]
        ensures { result.now ≡ (content self.now).element }
    {
        element_in(self.octets).1
    }

    /// All of it, decoded.
    pub fn export(&self) -> Export<'a>
        ensures { record_of result ≡ content self.now }
    {
        let front = front_size(self.octets[VERSION], self.octets[EXTENSIONS]);
        head(self.octets, front, self.octets.len()).with_element(self.element())
    }

    // The first octets of the record without its visit: version 1, the extension flags, and its length.
    fn plain_head(&self) -> [u8; 4]
        ensures { result ≡ plain_head self.now.octets.now }
    {
        let size = self.octets.len() - twelve_where(self.has_visit());
        let [high, low] = (size as u16).to_be_bytes();
        [PLAIN, self.octets[EXTENSIONS], high, low]
    }

    // The octets between the record's length and its visit.
    fn fields_between(&self) -> &'a [u8]
        ensures { result.now ≡ fields_between self.now.octets.now }
    {
        &self.octets[NAMESPACE..VISIT]
    }

    // The octets after the visit, or after the IOAM-Trace-Type where there is none.
    fn plain_tail(&self) -> &'a [u8]
        ensures { result.now ≡ plain_tail self.now.octets.now }
    {
        &self.octets[self.numbers_at()..]
    }

    /// How two records compare without their visits, octet for octet as records of version 1.
    pub fn cmp_plain(&self, other: &RecordRef<'_>) -> Ordering
        ensures { result ≡ slice_cmp nat_cmp (record_octets (plain (content self.now))) (record_octets (plain (content other.now))) }
    {
        let heads = self
            .plain_head()
            .as_slice()
            .cmp(other.plain_head().as_slice());
        let between = self.fields_between().cmp(other.fields_between());
        let tails = self.plain_tail().cmp(other.plain_tail());
        heads.then(between.then(tails))
    }

    /// Appends the record without its visit, as one of version 1. It takes no memory.
    pub fn put_plain(&self, room: &mut ExportRoom)
        requires { 274 ≤ room.old.spare }
        ensures appended { room.new ≡ appended room.old (record_octets (plain (content self.now))) }
        ensures size { length (record_octets (plain (content self.now))) ≤ 262 }
        ensures says { Rec (record_octets (plain (content self.now))) (plain (content self.now)) }
    {
        room.append(&self.plain_head());
        room.append(self.fields_between());
        room.append(self.plain_tail());
    }
}

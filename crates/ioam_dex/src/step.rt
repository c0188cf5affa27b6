//! What octets show of the record that is due at their front.
ghost use Rattle.std.specs.Prelude.{◌≡◌, ◌<◌, ◌≤◌, ◌↔◌, IsTrue, length};
ghost use Rattle.ioam_data.specs.Elements.{IsFilled};
ghost use Rattle.ioam_dex.specs.Record.{record_at, record_of, element_of, front_of};
ghost use Rattle.ioam_dex.specs.Faults.{TellsSize, TellsRecord, said};

use crate::export::{Export, ExportFault};
use crate::fields::{
    EXTENSIONS, FLAGS, LENGTH, NAMESPACE, PLAIN, SIZED, TRACE_TYPE, VERSION, VISIT, VISITED,
};
use crate::head::{RecordHead, RecordStep, Sizing};
use crate::layout::front_size;
use crate::numbers::{four_where, has_flow, has_seq, u32_where};
use crate::visit::{has_visit, twelve_where, visit_where};
use ioam_base::octets::u16_at;
use ioam_data::{MOST_EXPORTED, Namespace, TraceType, split};

impl RecordHead {
    /// The record with its element.
    pub(crate) fn with_element(self, element: &[u8]) -> Export<'_>
        ensures { record_of result ≡ said self element.now }
    {
        Export {
            namespace: self.namespace,
            flags: self.flags,
            ext: self.ext,
            kind: self.kind,
            visit: self.visit,
            flow: self.flow,
            seq: self.seq,
            element,
        }
    }
}

/// Whether octets are one element of a type, or nothing where it asks for nothing.
pub fn is_filled(kind: TraceType, element: &[u8]) -> bool
    ensures { IsTrue result ↔ IsFilled kind element.now }
{
    match split(kind, kind.words(), element) {
        Some(size) => size == element.len(),
        None => kind.words() == 0 && !kind.has_snapshot() && element.is_empty(),
    }
}

// What the first octets show of the record's size.
fn size_step(octets: &[u8]) -> Sizing
    ensures { TellsSize octets.now result }
{
    if octets.is_empty() {
        return Sizing::Cut;
    }
    let version = octets[VERSION];
    if version != PLAIN && version != VISITED {
        return Sizing::Bad(ExportFault::Version { found: version });
    }
    if octets.len() < SIZED {
        return Sizing::Cut;
    }
    let front = front_size(version, octets[EXTENSIONS]);
    let found = u16_at(octets, LENGTH);
    let size = usize::from(found);
    if size < front || size > front + MOST_EXPORTED {
        return Sizing::Bad(ExportFault::Length { found });
    }
    Sizing::Sized { front, size }
}

// The head of a record whose front is there.
pub(crate) fn head(octets: &[u8], front: usize, size: usize) -> RecordHead
    requires fits { front_of octets.now ≤ length octets.now }
    ensures says { said result (element_of octets.now) ≡ record_at octets.now }
    ensures front { result.front ≡ front }
    ensures size { result.size ≡ size }
{
    let second = has_visit(octets[VERSION]);
    let ext = octets[EXTENSIONS];
    let numbers = VISIT + twelve_where(second);
    RecordHead {
        namespace: Namespace(u16_at(octets, NAMESPACE)),
        flags: octets[FLAGS],
        ext,
        kind: TraceType::at(octets, TRACE_TYPE).bits(),
        visit: visit_where(second, octets, VISIT),
        flow: u32_where(has_flow(ext), octets, numbers),
        seq: u32_where(has_seq(ext), octets, numbers + four_where(has_flow(ext))),
        front,
        size,
    }
}

/// What the octets show of the record that is due at their front.
pub(crate) fn record_step(octets: &[u8]) -> RecordStep
    ensures { TellsRecord octets.now result }
{
    match size_step(octets) {
        Sizing::Cut => RecordStep::Cut,
        Sizing::Bad(fault) => RecordStep::Bad(fault),
        Sizing::Sized { front, size } => {
            if octets.len() < size {
                return RecordStep::Cut;
            }
            if is_filled(TraceType::at(octets, TRACE_TYPE), &octets[front..size]) {
                RecordStep::Whole(head(octets, front, size))
            } else {
                RecordStep::Bad(ExportFault::Element { at: front as u32 })
            }
        }
    }
}

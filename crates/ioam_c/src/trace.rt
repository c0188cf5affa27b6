//! The head of a trace, and its elements one call for each.
ghost use Rattle.std.specs.Prelude.{◌≡◌, ◌≤◌, ℕ, List, length, take};
ghost use Rattle.std.specs.Option.{ForSome};
ghost use Rattle.ioam_data.specs.Elements.{IsElement};
ghost use Rattle.ioam_trace.specs.Head.{remaining_of};
ghost use Rattle.ioam_trace.specs.Read.{Carries};
ghost use Rattle.ioam_c.specs.Trace.{Gives, IsOldest, ReadsElement, ReadsHead, head_of, octets_of};

use crate::element::{IoamElement, shown};
use crate::status::{END, OK, fault_status};
use ioam_trace::{Incremental, Trace, TraceHead};

/// The header of a trace (RFC 9197 section 4.4.1).
#[repr(C)]
#[derive(Clone, Copy, Debug)]
pub struct IoamTraceHead {
    /// IOAM-Trace-Type, 24 bits. Bit 0 of the RFC is 0x800000.
    pub kind: u32,
    /// Namespace-ID.
    pub namespace: u16,
    /// NodeLen: the words of 4 octets that a node adds, its snapshot not counted.
    pub node_len: u8,
    /// Flags, 4 bits. Overflow is 8.
    pub flags: u8,
    /// RemainingLen: the free words of 4 octets.
    pub remaining: u8,
    /// The reserved octet.
    pub reserved: u8,
}

/// Reads the header of a pre-allocated trace, whose octets are those after the IOAM-Option-Type. `OK`: they are such a trace, and
/// `head` is its header. `SHORT`, `SPACE`, `NODE_LEN` or `ELEMENT`: they are none, and `head` stays.
#[unsafe(no_mangle)]
pub extern "C" fn ioam_trace_head(octets: &[u8], head: &mut IoamTraceHead) -> u32
    ensures { ReadsHead (remaining_of octets.now) octets.now head.old head.new result }
{
    match Trace::read(octets) {
        Ok(trace) => {
            *head = head_of(&trace.head);
            OK
        }
        Err(fault) => fault_status(fault),
    }
}

/// Reads the header of an incremental trace. The answers are as for [`ioam_trace_head`], but `SPACE` never comes.
#[unsafe(no_mangle)]
pub extern "C" fn ioam_incremental_head(octets: &[u8], head: &mut IoamTraceHead) -> u32
    ensures { ReadsHead 0 octets.now head.old head.new result }
{
    match Incremental::decode(octets) {
        Ok(trace) => {
            *head = head_of(&trace.head);
            OK
        }
        Err(fault) => fault_status(fault),
    }
}

/// Gives the oldest of the elements that a pre-allocated trace holds before the offset `cursor`: begin with the count of the octets.
/// `OK`: `element` is that element, and `cursor` becomes its offset; the trace cut there holds the elements that are left. `END`: none
/// is left. `SHORT`, `SPACE`, `NODE_LEN` or `ELEMENT`: the octets before `cursor` are no trace. `cursor` and `element` stay unless the
/// answer is `OK`.
#[unsafe(no_mangle)]
pub extern "C" fn ioam_trace_element(
    octets: &[u8],
    cursor: &mut usize,
    element: &mut IoamElement,
) -> u32
    ensures { let held = take cursor.old octets.now in
        ReadsElement (remaining_of held) held cursor.old element.old cursor.new element.new result }
{
    let held = front(octets, *cursor);
    match Trace::read(held) {
        Ok(trace) => {
            let mut elements = trace.elements();
            give(&trace.head, held, elements.next(), cursor, element)
        }
        Err(fault) => fault_status(fault),
    }
}

/// Gives the oldest of the elements that an incremental trace holds before the offset `cursor`, as [`ioam_trace_element`] does; `SPACE`
/// never comes.
#[unsafe(no_mangle)]
pub extern "C" fn ioam_incremental_element(
    octets: &[u8],
    cursor: &mut usize,
    element: &mut IoamElement,
) -> u32
    ensures { let held = take cursor.old octets.now in
        ReadsElement 0 held cursor.old element.old cursor.new element.new result }
{
    let held = front(octets, *cursor);
    match Incremental::decode(held) {
        Ok(trace) => {
            let mut elements = trace.elements();
            give(&trace.head, held, elements.next(), cursor, element)
        }
        Err(fault) => fault_status(fault),
    }
}

// The header as C sees it.
fn head_of(head: &TraceHead) -> IoamTraceHead
    ensures { result ≡ head_of head.now }
{
    IoamTraceHead {
        kind: head.kind.bits(),
        namespace: head.namespace.0,
        node_len: head.node_len,
        flags: head.flags,
        remaining: head.remaining,
        reserved: head.reserved,
    }
}

// The first octets, all of them if they are fewer.
fn front(octets: &[u8], count: usize) -> &[u8]
    ensures { result.now ≡ take count octets.now }
{
    if count < octets.len() {
        &octets[..count]
    } else {
        octets
    }
}

// Gives the oldest of the elements of a trace.
fn give(
    head: &TraceHead,
    held: &[u8],
    oldest: Option<&[u8]>,
    cursor: &mut usize,
    element: &mut IoamElement,
) -> u32
    requires fits { ForSome oldest (λ octets. length octets.now ≤ length held.now) }
    requires whole { ForSome oldest (λ octets. IsElement head.now.kind head.now.node_len octets.now) }
    ensures { (free : ℕ) (elements : List (List ℕ)) → Carries free held.now head.now elements → IsOldest elements (octets_of oldest.entry)
        → Gives free held.now head.now elements cursor.old element.old cursor.new element.new result }
{
    match oldest {
        Some(octets) => {
            let start = held.len() - octets.len();
            *element = shown(head, start, octets);
            *cursor = start;
            OK
        }
        None => END,
    }
}

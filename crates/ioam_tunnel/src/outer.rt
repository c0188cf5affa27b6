//! An outer packet as it is written, from its first octet to its last.
ghost use Rattle.std.specs.Prelude.{◌≡◌, ◌≤◌, ◌+◌, ◌*◌, ◌++◌, [], ◌∷◌, length, replicate, slice_index, IfOk, OnOk};
ghost use Rattle.ioam_base.specs.Words.{two_octets, three_octets, four_octets, eight_octets, four_octets_if, eight_octets_if};
ghost use Rattle.ioam_dex.specs.Direct.{direct_octets};
ghost use Rattle.ioam_edge.specs.Edge.{edge_octets};
ghost use Rattle.ioam_ip.specs.Layout.{padding, gap_before, finished};
ghost use Rattle.ioam_ip.specs.Lowered.{lowered};
ghost use Rattle.ioam_topo.specs.Traces.{IsFlowTrace};
ghost use Rattle.ioam_trace.specs.Data.{trace_data};
ghost use Rattle.ioam_tunnel.specs.Enclosed.{room_of};
ghost use Rattle.ioam_tunnel.specs.Outer.{more, behind};
ghost use Rattle.ioam_tunnel.specs.Wire.{IsRoom};

use ioam_base::memory::NoMemory;
use ioam_base::octets::put_at;
use ioam_base::spare::emptied;
use ioam_base::text::append;
use ioam_data::TraceType;
use ioam_dex::Direct;
use ioam_edge::Edge;
use ioam_ip::option_type::PADN;
use ioam_ip::{HEADER_OCTETS, HOP_LIMIT, gap_before, padded};
use ioam_topo::FlowTrace;
use ioam_trace::Lengths;
use std::alloc::Global;
use std::marker::Model;

// What the first of two octets counts in.
const OCTET: u16 = 1 << 8;

// What the first two of four octets count in.
const TWO_OCTETS: u32 = 1 << 16;

// What a type of 24 bits counts in, in front of a reserved octet (RFC 9197 section 4.4.1, RFC 9326 section 3.2).
const OVER_RESERVED: u32 = 1 << 8;

/// An outer packet whose headers have all their octets from the first on, and where in it the options
/// header begins that is laid out now, and ends as far as it is. From there on its octets are zeros.
/// Contracts see what stands in front of that header, the header as far as it is, and how many octets
/// there are for it.
#[derive(Drop)]
pub(crate) struct Outer {
    octets: Vec<u8>,
    start: usize,
    end: usize,
}

impl Model for Outer {
    ghost use Rattle.std.specs.Prelude.{◌≡◌, ◌≤◌, ◌-◌, length, drop, replicate};
    ghost use Rattle.ioam_tunnel.specs.Outer.{Writing, writing_of};

    ghost Value = { Writing };

    ghost view = { λ outer. writing_of outer.octets.items outer.start outer.end };

    ghost invariant = { λ outer. (outer.start ≤ outer.end) × (outer.end ≤ length outer.octets.items)
        × (drop outer.end outer.octets.items ≡ replicate (length outer.octets.items - outer.end) 0) };
}

impl Outer {
    /// A packet that begins with this header, with so many octets for its options headers, in the memory
    /// of a spare vector where that has the room for them and for so many octets that it carries.
    pub(crate) fn new(
        alloc: Global,
        spare: Vec<u8>,
        head: &[u8; HEADER_OCTETS],
        options: usize,
        carried: usize,
    ) -> Result<Outer, NoMemory>
        requires options { options ≤ 2040 }
        requires carried { carried ≤ 65575 }
        ensures front { IfOk result (λ outer. outer.front ≡ head.now) }
        ensures laid { IfOk result (λ outer. outer.laid ≡ []) }
        ensures most { IfOk result (λ outer. outer.most ≡ options) }
    {
        let mut octets = emptied(alloc, spare, HEADER_OCTETS + options + carried)?;
        octets.resize(HEADER_OCTETS + options, 0)?;
        put_at(&mut octets, 0, head);
        Ok(Outer {
            octets,
            start: HEADER_OCTETS,
            end: HEADER_OCTETS,
        })
    }

    /// Appends octets to the header that is laid out.
    pub(crate) fn append(&mut self, part: &[u8])
        requires { length self.old.laid + length part.now ≤ self.old.most }
        ensures value { self.new ≡ more self.old part.now }
        ensures size { length self.new.laid ≡ length self.old.laid + length part.now }
        ensures most { self.new.most ≡ self.old.most }
    {
        put_at(&mut self.octets, self.end, part);
        self.end += part.len();
    }

    /// Appends two octets, each by itself: what a slice's copy takes besides, a test and a call, is more
    /// than so few octets take.
    pub(crate) fn pair(&mut self, first: u8, second: u8)
        requires { length self.old.laid + 2 ≤ self.old.most }
        ensures value { self.new ≡ more self.old (first ∷ second ∷ []) }
        ensures size { length self.new.laid ≡ length self.old.laid + 2 }
        ensures most { self.new.most ≡ self.old.most }
    {
        self.octets[self.end] = first;
        self.octets[self.end + 1] = second;
        self.end += 2;
    }

    // Appends so many zeros, which stand there already.
    fn skip(&mut self, count: usize)
        requires { length self.old.laid + count ≤ self.old.most }
        ensures value { self.new ≡ more self.old (replicate count 0) }
        ensures size { length self.new.laid ≡ length self.old.laid + count }
        ensures most { self.new.most ≡ self.old.most }
    {
        self.end += count;
    }

    // Appends a number as two octets.
    fn two(&mut self, number: u16)
        requires { length self.old.laid + 2 ≤ self.old.most }
        ensures value { self.new ≡ more self.old (two_octets number) }
        ensures size { length self.new.laid ≡ length self.old.laid + 2 }
        ensures most { self.new.most ≡ self.old.most }
    {
        self.pair((number / OCTET) as u8, (number % OCTET) as u8);
    }

    // Appends a number as four octets.
    fn four(&mut self, number: u32)
        requires { length self.old.laid + 4 ≤ self.old.most }
        ensures value { self.new ≡ more self.old (four_octets number) }
        ensures size { length self.new.laid ≡ length self.old.laid + 4 }
        ensures most { self.new.most ≡ self.old.most }
    {
        self.two((number / TWO_OCTETS) as u16);
        self.two((number % TWO_OCTETS) as u16);
    }

    // Appends a number as four octets, where it is there.
    fn four_if(&mut self, number: Option<u32>)
        requires { length self.old.laid + length (four_octets_if number) ≤ self.old.most }
        ensures value { self.new ≡ more self.old (four_octets_if number) }
        ensures size { length self.new.laid ≡ length self.old.laid + length (four_octets_if number) }
        ensures most { self.new.most ≡ self.old.most }
    {
        if let Some(number) = number {
            self.four(number);
        }
    }

    // Appends a number as eight octets, where it is there.
    fn eight_if(&mut self, number: Option<u64>)
        requires { length self.old.laid + length (eight_octets_if number) ≤ self.old.most }
        ensures value { self.new ≡ more self.old (eight_octets_if number) }
        ensures size { length self.new.laid ≡ length self.old.laid + length (eight_octets_if number) }
        ensures most { self.new.most ≡ self.old.most }
    {
        if let Some(number) = number {
            self.append(&number.to_be_bytes());
        }
    }

    // Appends a type of 24 bits as three octets, and a reserved octet.
    #[tactic(auto, using(crate::proofs::OuterLaws::kind_word))]
    fn put_kind(&mut self, kind: TraceType)
        requires { length self.old.laid + 4 ≤ self.old.most }
        ensures value { self.new ≡ more self.old (three_octets kind ++ (0 ∷ [])) }
        ensures word { self.new ≡ more self.old (four_octets (kind * 256 + 0)) }
        ensures size { length self.new.laid ≡ length self.old.laid + 4 }
        ensures most { self.new.most ≡ self.old.most }
    {
        self.four(kind.bits() * OVER_RESERVED);
    }

    // Appends padding of two octets or more: PadN with zeros (RFC 8200 section 4.2).
    fn pad_more(&mut self, count: usize)
        requires some { 2 ≤ count }
        requires small { count ≤ 8 }
        requires room { length self.old.laid + count ≤ self.old.most }
        ensures value { self.new ≡ more self.old (padding count) }
        ensures size { length self.new.laid ≡ length self.old.laid + count }
        ensures most { self.new.most ≡ self.old.most }
    {
        self.pair(PADN, (count - 2) as u8);
        self.skip(count - 2);
    }

    // Appends padding of so many octets: Pad1 for one, PadN for more (RFC 8200 section 4.2).
    #[tactic(auto, using(crate::proofs::OuterLaws::padded_short))]
    fn pad(&mut self, count: usize)
        requires small { count ≤ 8 }
        requires room { length self.old.laid + count ≤ self.old.most }
        ensures value { self.new ≡ more self.old (padding count) }
        ensures size { length self.new.laid ≡ length self.old.laid + count }
        ensures most { self.new.most ≡ self.old.most }
    {
        if count < 2 {
            // Pad1 is a zero.
            self.skip(count);
        } else {
            self.pad_more(count);
        }
    }

    /// Begins an IOAM option: the padding in front of it, its type, the length of its data, and as the
    /// first of these a reserved octet and the IOAM-Option-Type.
    pub(crate) fn begin_option(&mut self, kind: u8, size: u8, option_type: u8)
        requires { length self.old.laid + gap_before (length self.old.laid) kind + 4 ≤ self.old.most }
        ensures value { self.new ≡ more self.old (padding (gap_before (length self.old.laid) kind) ++ (kind ∷ size ∷ 0 ∷ option_type ∷ [])) }
        ensures size { length self.new.laid ≡ length self.old.laid + gap_before (length self.old.laid) kind + 4 }
        ensures most { self.new.most ≡ self.old.most }
    {
        let gap = gap_before(self.end - self.start, kind);
        self.pad(gap);
        self.pair(kind, size);
        self.pair(0, option_type);
    }

    /// Appends a trace without elements.
    pub(crate) fn put_trace(&mut self, trace: FlowTrace)
        requires sound { IsFlowTrace trace }
        requires room { length self.old.laid + (8 + 4 * trace.capacity) ≤ self.old.most }
        ensures value { self.new ≡ more self.old (trace_data trace.namespace.0 trace.kind trace.capacity []) }
        ensures sound { IsRoom (room_of trace) }
    {
        let lengths = Lengths::new(trace.kind.words(), 0, trace.capacity);
        self.two(trace.namespace.0);
        self.two(lengths.0);
        self.put_kind(trace.kind);
        self.skip(4 * usize::from(trace.capacity));
    }

    /// Appends direct export data.
    pub(crate) fn put_direct(&mut self, direct: &Direct)
        requires { length self.old.laid + length (direct_octets direct.now 0) ≤ self.old.most }
        ensures { self.new ≡ more self.old (direct_octets direct.now 0) }
    {
        self.two(direct.namespace.0);
        self.pair(direct.flags, direct.ext);
        self.put_kind(direct.kind);
        self.four_if(direct.flow);
        self.four_if(direct.seq);
    }

    /// Appends edge-to-edge data.
    pub(crate) fn put_edge(&mut self, edge: &Edge)
        requires { length self.old.laid + length (edge_octets edge.now) ≤ self.old.most }
        ensures { self.new ≡ more self.old (edge_octets edge.now) }
    {
        self.two(edge.namespace.0);
        self.two(edge.kind);
        self.eight_if(edge.seq64);
        self.four_if(edge.seq32);
        self.four_if(edge.seconds);
        self.four_if(edge.fraction);
    }

    /// Ends the header that is laid out: pads it to a multiple of 8 octets, and writes its length.
    pub(crate) fn finish(&mut self)
        requires some { 2 ≤ length self.old.laid }
        requires small { self.old.most ≤ 2040 }
        requires room { length (finished self.old.laid) ≤ self.old.most }
        ensures { self.new ≡ behind self.old (finished self.old.laid) }
    {
        let size = self.end - self.start;
        let whole = padded(size);
        self.pad(whole - size);
        self.octets[self.start + 1] = (whole / 8 - 1) as u8;
        self.start = self.end;
    }

    /// The whole packet, which carries this one with its hop limit one less.
    pub(crate) fn carry(self, packet: &[u8]) -> Result<Vec<u8>, NoMemory>
        requires long { 8 ≤ length packet.now }
        requires hops { 1 ≤ slice_index packet.now 7 }
        requires whole { self.most ≡ 0 }
        ensures { IfOk result (λ out. out.items ≡ self.front ++ lowered 1 packet.now) }
    {
        let Outer { mut octets, .. } = self;
        append_lowered(&mut octets, packet)?;
        Ok(octets)
    }
}

// Appends a packet with its hop limit one less.
fn append_lowered(out: &mut Vec<u8>, packet: &[u8]) -> Result<(), NoMemory>
    requires long { 8 ≤ length packet.now }
    requires hops { 1 ≤ slice_index packet.now 7 }
    ensures { OnOk result (out.new.items ≡ out.old.items ++ lowered 1 packet.now) }
{
    let at = out.len() + HOP_LIMIT;
    append(out, packet)?;
    out[at] = packet[HOP_LIMIT] - 1;
    Ok(())
}

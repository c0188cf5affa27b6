//! Packets of captures, their faults, and what a reader shows.
ghost use Rattle.std.specs.Prelude.{◌≡◌};
ghost use Rattle.ioam_pcap.specs.Cut.{is_cut};

use ioam_ip::Layer;

/// The most octets of a packet that a capture may have.
pub const MOST_PACKET: u32 = 262_144;

/// A packet of a capture.
#[derive(Clone, Copy, Debug)]
pub struct Packet<'a> {
    /// Nanoseconds: the record's seconds times 10^9 and its fraction, which is not bounded.
    pub time: u64,
    /// The octets that the packet had where it was captured.
    pub original: u32,
    /// The octets that were captured.
    pub octets: &'a [u8],
}

impl Packet<'_> {
    /// Whether fewer octets were captured than the packet had.
    pub fn is_cut(&self) -> bool
        ensures { result ≡ is_cut (record { time = self.now.time; original = self.now.original; octets = self.now.octets.now }) }
    {
        self.octets.len() < self.original as usize
    }
}

/// Why a capture cannot be read on. A classic capture has the faults `Magic`, `Link`, `RecordLong`
/// and `Short`. Those of a block of a capture in the form pcapng are looked for in this order, and
/// the first stands for it; its place is the block's.
#[derive(Clone, Copy, Debug, PartialEq, Eq)]
pub enum CapFault {
    /// The first four octets, read big-endian, are none of the four magic numbers; in the form
    /// pcapng, not those of a section block.
    Magic { found: u32 },
    /// So many blocks were read, and another begins.
    Blocks { limit: u32 },
    /// The byte order of a section block, read big-endian, is 0x1a2b3c4d in neither order.
    Order { found: u32 },
    /// A total length passes 16,777,216 octets.
    Large { found: u32 },
    /// A total length is no multiple of 4, or too small for a block of its type, for the captured
    /// octets of a packet, or for an option of an interface.
    Size { found: u32 },
    /// The total length at a block's end is not that at its front.
    Trail { found: u32 },
    /// A block of type 2, whose form is obsolete, or 3, which has no time for its packet.
    Kind { found: u32 },
    /// A packet names no interface of its section.
    Face { found: u32 },
    /// The link type, the whole 32-bit word at octet 20, is none of 1, 101 and 229; in the form
    /// pcapng, that of a packet's interface.
    Link { found: u32 },
    /// The resolution of a packet's interface is above 18 and below 128, or above 191.
    Resolution { found: u32 },
    /// A record's captured length passes 262,144 octets, and 16 octets of the record are there; in
    /// the form pcapng, a packet's.
    RecordLong { found: u32 },
    /// A packet's time, of so many units, is negative or at least 2^62 nanoseconds.
    Time { found: u64 },
    /// The capture ends inside its head or a record, of which it has so many octets; in the form
    /// pcapng, inside a block, or before its first one is whole.
    Short { have: u32 },
}

/// What a reader shows next of its capture.
#[derive(Clone, Copy, Debug)]
pub enum CapStep<'a> {
    /// The head was read: its packets begin at this layer.
    Head { link: Layer },
    /// A record was read.
    Packet(Packet<'a>),
    /// More octets are needed, or the capture's end.
    More,
    /// At this place, in octets from the capture's first, its head or a record is faulty.
    Bad { at: u64, fault: CapFault },
}

/// What a reader would show next, without the octets: enough to choose among several captures.
#[derive(Clone, Copy, Debug, PartialEq, Eq)]
pub enum CapLook {
    /// A head: the capture's packets begin at this layer.
    Head { link: Layer },
    /// A record of a packet with this time, in nanoseconds, and so many captured octets.
    Packet { time: u64, size: u32 },
    /// More octets are needed, or the capture's end.
    More,
    /// At this place, in octets from the capture's first, its head or a record is faulty.
    Bad { at: u64, fault: CapFault },
}

//! The types of blocks, their least sizes, and the codes of options (draft-ietf-opsawg-pcapng sections 3.5 and 4).

/// The type of a section block, the same in both orders of octets.
pub const SECTION: u32 = 0x0a0d_0d0a;

/// The type of an interface block.
pub const INTERFACE: u32 = 1;

/// The type of the packet block that is obsolete.
pub const OBSOLETE_PACKET: u32 = 2;

/// The type of a simple packet block, which says no time.
pub const SIMPLE_PACKET: u32 = 3;

/// The type of an enhanced packet block.
pub const ENHANCED_PACKET: u32 = 6;

/// The code behind which no option stands.
pub const NO_MORE: u16 = 0;

/// The code of the option that says the resolution of an interface's times (if_tsresol).
pub const RESOLUTION: u16 = 9;

/// The code of the option that says what is added to an interface's times (if_tsoffset).
pub const OFFSET: u16 = 14;

/// The number of a section block that says its order of octets, as it reads in that order (Byte-Order Magic).
pub const MAGIC: u32 = 0x1a2b_3c4d;

/// The same as it reads in the other order.
pub const SWAPPED_MAGIC: u32 = 0x4d3c_2b1a;

/// The octets of a block around its body: its type and its total length in front, its total length once more at its end.
pub const LEAST_SIZE: u32 = 12;

/// The octets of a section block without options.
pub const LEAST_SECTION: u32 = 28;

/// The octets of an interface block without options.
pub const LEAST_INTERFACE: u32 = 20;

/// The octets of an enhanced packet block without captured octets and options.
pub const LEAST_PACKET: u32 = 32;

/// The octets of an enhanced packet block in front of what was captured.
pub const PACKET_FRONT: usize = 28;

//! The fields of an element as they are read, one behind the other.
ghost use Rattle.std.specs.Prelude.{◌≡◌, ℕ, ◌+◌, ◌*◌, ◌<◌, ◌≤◌, length};
ghost use Rattle.ioam_data.specs.Kind.{where_has};
ghost use Rattle.ioam_data.specs.Shape.{parted, number_of};
ghost use Rattle.ioam_data.specs.Shape.Shape.{HopNode, Pair, WideHopNode, WidePair};
ghost use Rattle.ioam_data.specs.Fields.{when_has, hop_node_at, faces_at, number_at, wide_hop_node_at, wide_faces_at, wide_at};

use crate::kind::TraceType;
use crate::units::{OVER_16, OVER_24, OVER_32};
use ioam_base::octets::u32_at;

/// What is left of an element while its fields are read in bit order. Each call reads the field of a
/// bit and goes on behind it, where the type has the bit.
#[derive(Clone, Copy)]
pub struct Cursor<'a> {
    /// The type of the element.
    pub kind: TraceType,
    /// The octets that are left.
    pub rest: &'a [u8],
}

impl<'a> Cursor<'a> {
    ghost use Rattle.ioam_data.specs.Cursor.{Passes, HasRoom, GoesOn};

    // Goes on behind so many octets.
    #[inline]
    fn pass(&mut self, octets: usize)
        requires { octets ≤ length self.old.rest.now }
        ensures { GoesOn self.old self.new octets }
    {
        self.rest = &self.rest[octets..];
    }

    /// A field of 32 bits.
    #[inline]
    pub fn number(&mut self, bit: u8) -> Option<u32>
        requires bit { bit < 24 }
        requires room { HasRoom self.old bit 1 }
        ensures value { result ≡ when_has self.old.kind bit (number_at self.old.rest.now) }
        ensures passes { Passes self.old self.new bit 1 }
    {
        if !self.kind.has(bit) {
            return None;
        }
        let number = u32_at(self.rest, 0);
        self.pass(4);
        Some(number)
    }

    /// Hop_Lim and the node id of 24 bits.
    #[inline]
    pub fn hop_node(&mut self, bit: u8) -> Option<(u8, u32)>
        requires bit { bit < 24 }
        requires room { HasRoom self.old bit 1 }
        ensures value { result ≡ when_has self.old.kind bit (hop_node_at self.old.rest.now) }
        ensures number { result ≡ parted 16777216 (when_has self.old.kind bit (number_of HopNode self.old.rest.now)) }
        ensures passes { Passes self.old self.new bit 1 }
    {
        let word = self.number(bit)?;
        Some(((word / OVER_24) as u8, word % OVER_24))
    }

    /// Ingress and egress interface of 16 bits.
    #[inline]
    pub fn faces(&mut self, bit: u8) -> Option<(u16, u16)>
        requires bit { bit < 24 }
        requires room { HasRoom self.old bit 1 }
        ensures value { result ≡ when_has self.old.kind bit (faces_at self.old.rest.now) }
        ensures number { result ≡ parted 65536 (when_has self.old.kind bit (number_of Pair self.old.rest.now)) }
        ensures passes { Passes self.old self.new bit 1 }
    {
        let word = self.number(bit)?;
        Some(((word / OVER_16) as u16, (word % OVER_16) as u16))
    }

    /// Ingress and egress interface of 32 bits.
    #[inline]
    pub fn wide_faces(&mut self, bit: u8) -> Option<(u32, u32)>
        requires bit { bit < 24 }
        requires room { HasRoom self.old bit 2 }
        ensures value { result ≡ when_has self.old.kind bit (wide_faces_at self.old.rest.now) }
        ensures number { result ≡ parted 4294967296 (when_has self.old.kind bit (number_of WidePair self.old.rest.now)) }
        ensures passes { Passes self.old self.new bit 2 }
    {
        if !self.kind.has(bit) {
            return None;
        }
        let words = (u32_at(self.rest, 0), u32_at(self.rest, 4));
        self.pass(8);
        Some(words)
    }

    /// A field of 64 bits.
    #[inline]
    pub fn wide(&mut self, bit: u8) -> Option<u64>
        requires bit { bit < 24 }
        requires room { HasRoom self.old bit 2 }
        ensures value { result ≡ when_has self.old.kind bit (wide_at self.old.rest.now) }
        ensures passes { Passes self.old self.new bit 2 }
    {
        let (first, second) = self.wide_faces(bit)?;
        Some(u64::from(first) * OVER_32 + u64::from(second))
    }

    /// Hop_Lim and the node id of 56 bits.
    #[inline]
    pub fn wide_hop_node(&mut self, bit: u8) -> Option<(u8, u64)>
        requires bit { bit < 24 }
        requires room { HasRoom self.old bit 2 }
        ensures value { result ≡ when_has self.old.kind bit (wide_hop_node_at self.old.rest.now) }
        ensures number { result ≡ parted 72057594037927936 (when_has self.old.kind bit (number_of WideHopNode self.old.rest.now)) }
        ensures passes { Passes self.old self.new bit 2 }
    {
        let (first, second) = self.wide_faces(bit)?;
        Some((
            (first / OVER_24) as u8,
            u64::from(first % OVER_24) * OVER_32 + u64::from(second),
        ))
    }
}

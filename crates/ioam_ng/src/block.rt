//! A whole block, and what it holds.
ghost use Rattle.std.specs.Prelude.{◌≡◌, ◌≤◌, length};
ghost use Rattle.ioam_ng.specs.Blocks.{TellsFace, face_at, units};
ghost use Rattle.ioam_pcap.specs.Form.{number_at};
ghost use Rattle.ioam_ng.specs.Front.{least_size};
ghost use Rattle.ioam_ng.specs.BlockSteps.{TellsBody, TellsPacket, TellsAmong, TellsContent, TellsBlock};

use crate::codes::{
    ENHANCED_PACKET, INTERFACE, LEAST_PACKET, OBSOLETE_PACKET, SECTION, SIMPLE_PACKET,
};
use crate::face::{Face, is_resolved, time_of};
use crate::front::{Front, FrontStep, front_step};
use crate::numbers::short_at;
use crate::option::face_in;
use ioam_pcap::{CapFault, Link, MOST_PACKET, Order, link_type, number_at};

/// What a packet block says of its packet.
#[derive(Clone, Copy)]
pub struct PacketHead {
    pub link: Link,
    pub time: u64,
    pub original: u32,
    pub captured: u32,
}

/// The body of a block, as far as no interface is needed for it.
#[derive(Clone, Copy)]
enum Body {
    Section,
    Face(Face),
    Packet,
    Other,
}

/// What a block holds.
#[derive(Clone, Copy)]
pub enum Content {
    Section,
    Face(Face),
    Packet(PacketHead),
    Other,
}

/// A whole block.
#[derive(Clone, Copy)]
pub struct Block {
    pub order: Order,
    pub size: u32,
    pub content: Content,
}

/// What the octets where a block is due show of it.
#[derive(Clone, Copy)]
pub enum BlockStep {
    Whole(Block),
    Cut,
    Bad(CapFault),
}

/// The interface that a whole interface block describes, in the order of its section; None where an
/// option passes the block's body (draft-ietf-opsawg-pcapng sections 3.5 and 4.2).
pub fn face_at(order: Order, block: &[u8]) -> Option<Face>
    requires { 20 ≤ length block.now }
    ensures value { result ≡ face_at order block.now }
    // Its options are those that stand one behind the other up to their end; of two with one code the
    // first counts.
    ensures reads { TellsFace order block.now result }
{
    face_in(
        order,
        short_at(order, block, 8),
        &block[16..block.len() - 4],
    )
}

// How many octets a packet block says were captured.
fn captured_in(order: Order, block: &[u8]) -> u32
    requires { 32 ≤ length block.now }
    ensures { result ≡ number_at order block.now 20 }
{
    number_at(order, block, 20)
}

// The body of a block of a type; None where the captured octets or an option pass it.
fn body_in(front: Front, block: &[u8]) -> Option<Body>
    requires { least_size front.kind ≤ length block.now }
    ensures { TellsBody front.order front.kind block.now result }
{
    match front.kind {
        SECTION => Some(Body::Section),
        INTERFACE => face_at(front.order, block).map(Body::Face),
        ENHANCED_PACKET => {
            let captured = captured_in(front.order, block);
            if block.len() < LEAST_PACKET as usize + captured as usize {
                None
            } else {
                Some(Body::Packet)
            }
        }
        _ => Some(Body::Other),
    }
}

// The units of a packet's time.
fn units_in(order: Order, block: &[u8]) -> u64
    requires { 32 ≤ length block.now }
    ensures { result ≡ units order block.now }
{
    let high = u64::from(number_at(order, block, 12));
    let low = u64::from(number_at(order, block, 16));
    high * (1 << 32) + low
}

// What a packet block of an interface says.
fn packet_in(order: Order, face: Face, block: &[u8]) -> Result<PacketHead, CapFault>
    requires { 32 ≤ length block.now }
    ensures { TellsPacket order face block.now result }
{
    let found = u32::from(face.kind);
    let Some(link) = link_type(found) else {
        return Err(CapFault::Link { found });
    };
    if !is_resolved(face.resolution) {
        return Err(CapFault::Resolution {
            found: u32::from(face.resolution),
        });
    }
    let captured = captured_in(order, block);
    if MOST_PACKET < captured {
        return Err(CapFault::RecordLong { found: captured });
    }
    let units = units_in(order, block);
    match time_of(face, units) {
        Some(time) => Ok(PacketHead {
            link,
            time,
            original: number_at(order, block, 24),
            captured,
        }),
        None => Err(CapFault::Time { found: units }),
    }
}

// What a packet block says, among the interfaces of its section.
fn packet_among(order: Order, faces: &[Face], block: &[u8]) -> Result<PacketHead, CapFault>
    requires { 32 ≤ length block.now }
    ensures { TellsAmong order faces.now block.now result }
{
    let number = number_at(order, block, 8);
    match faces.get(number as usize) {
        Some(face) => packet_in(order, *face, block),
        None => Err(CapFault::Face { found: number }),
    }
}

// What a whole block of this front holds.
fn content_in(front: Front, faces: &[Face], block: &[u8]) -> Result<Content, CapFault>
    requires least { least_size front.kind ≤ length block.now }
    requires size { length block.now ≡ front.size }
    ensures { TellsContent front.order front.kind faces.now block.now result }
{
    let Some(body) = body_in(front, block) else {
        return Err(CapFault::Size { found: front.size });
    };
    let trail = number_at(front.order, block, block.len() - 4);
    if trail != front.size {
        return Err(CapFault::Trail { found: trail });
    }
    if front.kind == OBSOLETE_PACKET || front.kind == SIMPLE_PACKET {
        return Err(CapFault::Kind { found: front.kind });
    }
    match body {
        Body::Section => Ok(Content::Section),
        Body::Face(face) => Ok(Content::Face(face)),
        Body::Packet => packet_among(front.order, faces, block).map(Content::Packet),
        Body::Other => Ok(Content::Other),
    }
}

/// What the octets where a block is due show of it, behind so many blocks.
pub fn block_step(count: u32, known: Option<Order>, faces: &[Face], octets: &[u8]) -> BlockStep
    ensures { TellsBlock (record { count = count; order = known; faces = faces.now }) octets.now result }
{
    match front_step(count, known, octets) {
        FrontStep::Cut => BlockStep::Cut,
        FrontStep::Bad(fault) => BlockStep::Bad(fault),
        FrontStep::There(front) => {
            let size = front.size as usize;
            if octets.len() < size {
                return BlockStep::Cut;
            }
            match content_in(front, faces, &octets[..size]) {
                Ok(content) => BlockStep::Whole(Block {
                    order: front.order,
                    size: front.size,
                    content,
                }),
                Err(fault) => BlockStep::Bad(fault),
            }
        }
    }
}

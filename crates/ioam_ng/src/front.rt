//! The front of a block.
ghost use Rattle.std.specs.Prelude.{◌≡◌, ◌≤◌, true, false, length};
ghost use Rattle.ioam_ng.specs.Front.{is_section, is_front, is_alien, least_size};
ghost use Rattle.ioam_ng.specs.Steps.{TellsFront, TellsNumbers, TellsSize};

use crate::codes::{
    ENHANCED_PACKET, INTERFACE, LEAST_INTERFACE, LEAST_PACKET, LEAST_SECTION, LEAST_SIZE, SECTION,
};
use crate::numbers::order_said;
use ioam_base::octets::u32_at;
use ioam_pcap::{CapFault, Order, number_at};

/// The most blocks of a capture.
const MOST_BLOCKS: u32 = 1 << 25;

/// The most octets of a block.
const MOST_BLOCK: u32 = 1 << 24;

/// The front of a block.
#[derive(Clone, Copy)]
pub struct Front {
    pub order: Order,
    pub kind: u32,
    pub size: u32,
}

/// What the octets where a block is due show of its front.
#[derive(Clone, Copy)]
pub enum FrontStep {
    There(Front),
    Cut,
    Bad(CapFault),
}

// A section block begins.
fn is_section(octets: &[u8]) -> bool
    requires { 4 ≤ length octets.now }
    ensures { result ≡ is_section octets.now }
{
    u32_at(octets, 0) == SECTION
}

// The front of a block is there.
fn is_front(octets: &[u8]) -> bool
    requires { 4 ≤ length octets.now }
    ensures { result ≡ is_front octets.now }
{
    if is_section(octets) {
        12 <= octets.len()
    } else {
        8 <= octets.len()
    }
}

// The first block is no section block.
fn is_alien(known: Option<Order>, octets: &[u8]) -> bool
    requires { 4 ≤ length octets.now }
    ensures { result ≡ is_alien known octets.now }
{
    known.is_none() && !is_section(octets)
}

// The least total length of a block of a type.
fn least_size(kind: u32) -> u32
    ensures { result ≡ least_size kind }
{
    match kind {
        SECTION => LEAST_SECTION,
        INTERFACE => LEAST_INTERFACE,
        ENHANCED_PACKET => LEAST_PACKET,
        _ => LEAST_SIZE,
    }
}

/// What the octets where a block is due show of its front, behind so many blocks.
pub fn front_step(count: u32, known: Option<Order>, octets: &[u8]) -> FrontStep
    ensures { TellsFront count known octets.now result }
{
    if octets.len() < 4 {
        return FrontStep::Cut;
    }
    if is_alien(known, octets) {
        return FrontStep::Bad(CapFault::Magic {
            found: u32_at(octets, 0),
        });
    }
    if !is_front(octets) {
        return FrontStep::Cut;
    }
    if MOST_BLOCKS <= count {
        return FrontStep::Bad(CapFault::Blocks { limit: MOST_BLOCKS });
    }
    numbers_step(known, octets)
}

// The same of a front that is there, where another block may be read.
fn numbers_step(known: Option<Order>, octets: &[u8]) -> FrontStep
    requires there { is_front octets.now ≡ true }
    requires known { is_alien known octets.now ≡ false }
    ensures { TellsNumbers known octets.now result }
{
    if is_section(octets) {
        let said = u32_at(octets, 8);
        return match order_said(said) {
            Some(order) => sized(order, SECTION, number_at(order, octets, 4)),
            None => FrontStep::Bad(CapFault::Order { found: said }),
        };
    }
    match known {
        Some(order) => sized(
            order,
            number_at(order, octets, 0),
            number_at(order, octets, 4),
        ),
        None => FrontStep::Cut,
    }
}

// The front of a block of this type and this total length.
fn sized(order: Order, kind: u32, size: u32) -> FrontStep
    ensures { TellsSize order kind size result }
{
    if MOST_BLOCK < size {
        return FrontStep::Bad(CapFault::Large { found: size });
    }
    if size % 4 != 0 || size < least_size(kind) {
        return FrontStep::Bad(CapFault::Size { found: size });
    }
    FrontStep::There(Front { order, kind, size })
}

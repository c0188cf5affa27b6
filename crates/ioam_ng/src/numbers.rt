//! The numbers of a block, in the order of octets of its section.
ghost use Rattle.std.specs.Prelude.{◌≡◌, ◌+◌, ◌≤◌, length};
ghost use Rattle.ioam_ng.specs.Numbers.{short_at, long_at, order_said};

use crate::codes::{MAGIC, SWAPPED_MAGIC};
use ioam_pcap::{Order, number_at};

/// The order that a section block's third number, read big-endian, says.
pub fn order_said(number: u32) -> Option<Order>
    ensures { result ≡ order_said number }
{
    match number {
        MAGIC => Some(Order::Big),
        SWAPPED_MAGIC => Some(Order::Little),
        _ => None,
    }
}

/// The 16-bit number at a place.
pub fn short_at(order: Order, octets: &[u8], at: usize) -> u16
    requires { at + 2 ≤ length octets.now }
    ensures { result ≡ short_at order octets.now at }
{
    let first = u16::from(octets[at]);
    let second = u16::from(octets[at + 1]);
    match order {
        Order::Big => first * 256 + second,
        Order::Little => first + second * 256,
    }
}

/// The 64-bit number at a place.
pub fn long_at(order: Order, octets: &[u8], at: usize) -> u64
    requires { at + 8 ≤ length octets.now }
    ensures { result ≡ long_at order octets.now at }
{
    let first = u64::from(number_at(order, octets, at));
    let second = u64::from(number_at(order, octets, at + 4));
    match order {
        Order::Big => first * (1 << 32) + second,
        Order::Little => first + second * (1 << 32),
    }
}

//! The numbers of a capture's head and of its records, in the order of octets of the file.
ghost use Rattle.std.specs.Prelude.{◌≡◌, ◌+◌, ◌≤◌, ◌++◌, drop, length};
ghost use Rattle.ioam_base.specs.Octets.{written};
ghost use Rattle.ioam_pcap.specs.Form.{number_at};

use crate::form::Order;
use byteorder::{BigEndian, ByteOrder, LittleEndian};

/// The four numbers of a record's head, 16 octets.
#[derive(Clone, Copy)]
pub struct EntryNumbers {
    pub seconds: u32,
    pub fraction: u32,
    pub captured: u32,
    pub original: u32,
}

impl EntryNumbers {
    // Those that octets begin with, in an order.
    fn read<B: ByteOrder>(octets: &[u8]) -> EntryNumbers
        requires { 16 ≤ length octets.now }
        ensures seconds { result.seconds ≡ B.number_of 4 (drop 0 octets.now) }
        ensures fraction { result.fraction ≡ B.number_of 4 (drop 4 octets.now) }
        ensures captured { result.captured ≡ B.number_of 4 (drop 8 octets.now) }
        ensures original { result.original ≡ B.number_of 4 (drop 12 octets.now) }
    {
        EntryNumbers {
            seconds: read_at::<B>(octets, 0),
            fraction: read_at::<B>(octets, 4),
            captured: read_at::<B>(octets, 8),
            original: read_at::<B>(octets, 12),
        }
    }

    /// Their octets, in an order.
    pub fn in_octets<B: ByteOrder>(self) -> [u8; 16]
        ensures { result ≡ B.bytes_of 4 self.seconds ++ (B.bytes_of 4 self.fraction
            ++ (B.bytes_of 4 self.captured ++ B.bytes_of 4 self.original)) }
    {
        let mut octets = [0; 16];
        put_at::<B>(&mut octets, 0, self.seconds);
        put_at::<B>(&mut octets, 4, self.fraction);
        put_at::<B>(&mut octets, 8, self.captured);
        put_at::<B>(&mut octets, 12, self.original);
        octets
    }
}

// The number at a place, in an order.
fn read_at<B: ByteOrder>(octets: &[u8], at: usize) -> u32
    requires { at + 4 ≤ length octets.now }
    ensures { result ≡ B.number_of 4 (drop at octets.now) }
{
    B::read_u32(&octets[at..])
}

// Writes a number over the four octets at a place, in an order.
fn put_at<B: ByteOrder>(octets: &mut [u8], at: usize, number: u32)
    requires { at + 4 ≤ length octets.old }
    ensures { octets.new ≡ written octets.old at (B.bytes_of 4 number) }
{
    B::write_u32(&mut octets[at..], number);
}

/// The numbers of the record's head that octets begin with, in the order of a file.
pub fn entry_numbers(order: Order, octets: &[u8]) -> EntryNumbers
    requires { 16 ≤ length octets.now }
    ensures seconds { result.seconds ≡ number_at order octets.now 0 }
    ensures fraction { result.fraction ≡ number_at order octets.now 4 }
    ensures captured { result.captured ≡ number_at order octets.now 8 }
    ensures original { result.original ≡ number_at order octets.now 12 }
{
    match order {
        Order::Big => EntryNumbers::read::<BigEndian>(octets),
        Order::Little => EntryNumbers::read::<LittleEndian>(octets),
    }
}

/// The 32-bit number at a place of the octets, in an order.
pub fn number_at(order: Order, octets: &[u8], at: usize) -> u32
    requires { at + 4 ≤ length octets.now }
    ensures { result ≡ number_at order octets.now at }
{
    match order {
        Order::Big => read_at::<BigEndian>(octets, at),
        Order::Little => read_at::<LittleEndian>(octets, at),
    }
}

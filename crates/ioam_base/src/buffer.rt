//! Room for the octets of one value.
ghost use Rattle.std.specs.Prelude.{◌≡◌, ◌+◌, ◌≤◌, ◌<◌, ◌^◌, [], ◌++◌, length};
ghost use Rattle.ioam_base.specs.Words.{two_octets, three_octets, four_octets, eight_octets, four_octets_if, eight_octets_if};

use crate::octets::{put_at, put_u16_at, put_u24_at, put_u32_at, put_u64_at};
use std::marker::Model;

/// Room for the octets of one value, 24 at most. Contracts see the octets that it holds.
#[derive(Drop)]
pub struct Buffer {
    octets: [u8; 24],
    len: usize,
}

impl Model for Buffer {
    ghost use Rattle.std.specs.Prelude.{ℕ, ◌≤◌, List, take};

    ghost Value = { List ℕ };

    ghost view = { λ buffer. take buffer.len buffer.octets };

    ghost invariant = { λ buffer. buffer.len ≤ 24 };
}

impl Buffer {
    /// An empty buffer.
    pub fn new() -> Buffer
        ensures { result ≡ [] }
    {
        Buffer {
            octets: [0; 24],
            len: 0,
        }
    }

    /// The octets that it holds.
    pub fn octets(&self) -> &[u8]
        ensures { result.now ≡ self.now }
    {
        &self.octets[..self.len]
    }

    /// Appends octets.
    pub fn append(&mut self, octets: &[u8])
        requires { length self.old + length octets.now ≤ 24 }
        ensures value { self.new ≡ self.old ++ octets.now }
        ensures size { length self.new ≡ length self.old + length octets.now }
    {
        put_at(&mut self.octets, self.len, octets);
        self.len += octets.len();
    }

    /// Appends a number as two octets.
    pub fn two(&mut self, number: u16)
        requires { length self.old + 2 ≤ 24 }
        ensures value { self.new ≡ self.old ++ two_octets number }
        ensures size { length self.new ≡ length self.old + 2 }
    {
        put_u16_at(&mut self.octets, self.len, number);
        self.len += 2;
    }

    /// Appends a number of 24 bits as three octets.
    pub fn three(&mut self, number: u32)
        requires room { length self.old + 3 ≤ 24 }
        requires fits { number < 2 ^ 24 }
        ensures value { self.new ≡ self.old ++ three_octets number }
        ensures size { length self.new ≡ length self.old + 3 }
    {
        put_u24_at(&mut self.octets, self.len, number);
        self.len += 3;
    }

    /// Appends a number as four octets.
    pub fn four(&mut self, number: u32)
        requires { length self.old + 4 ≤ 24 }
        ensures value { self.new ≡ self.old ++ four_octets number }
        ensures size { length self.new ≡ length self.old + 4 }
    {
        put_u32_at(&mut self.octets, self.len, number);
        self.len += 4;
    }

    /// Appends a number as eight octets.
    pub fn eight(&mut self, number: u64)
        requires { length self.old + 8 ≤ 24 }
        ensures value { self.new ≡ self.old ++ eight_octets number }
        ensures size { length self.new ≡ length self.old + 8 }
    {
        put_u64_at(&mut self.octets, self.len, number);
        self.len += 8;
    }

    /// Appends a number as four octets, where it is there.
    pub fn four_if(&mut self, number: Option<u32>)
        requires { length self.old + 4 ≤ 24 }
        ensures value { self.new ≡ self.old ++ four_octets_if number }
        ensures size { length self.new ≤ length self.old + 4 }
    {
        if let Some(number) = number {
            self.four(number);
        }
    }

    /// Appends a number as eight octets, where it is there.
    pub fn eight_if(&mut self, number: Option<u64>)
        requires { length self.old + 8 ≤ 24 }
        ensures value { self.new ≡ self.old ++ eight_octets_if number }
        ensures size { length self.new ≤ length self.old + 8 }
    {
        if let Some(number) = number {
            self.eight(number);
        }
    }
}

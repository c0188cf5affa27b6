//! An input slot of a desk in memory.
ghost use Rattle.std.specs.Prelude.{◌≡◌, ◌++◌, ◌==◌, false, drop, length, min, take};

use ioam_base::octets::put_at;
use std::marker::Model;

/// An input slot: octets, of which those from `at` on are left to read.
#[derive(Drop)]
pub(crate) struct Input {
    octets: Vec<u8>,
    at: usize,
    ended: bool,
}

impl Model for Input {
    ghost use Rattle.std.specs.Prelude.{◌≤◌, drop, vec_len};
    ghost use Rattle.ioam_desk.specs.Unread.{Unread};

    ghost Value = { Unread };

    ghost view = { λ input. record { left = drop input.at input.octets.items; ended = input.ended } };

    ghost invariant = { λ input. input.at ≤ vec_len input.octets };
}

impl Input {
    /// All the octets are left.
    pub(crate) fn new(octets: Vec<u8>) -> Input
        ensures { result ≡ record { left = octets.items; ended = false } }
    {
        Input {
            octets,
            at: 0,
            ended: false,
        }
    }

    /// Moves the first octets that are left into the front of a buffer: as many as `most`, the
    /// buffer and what is left allow. The slot has ended if that is none.
    pub(crate) fn read(&mut self, into: &mut [u8], most: usize) -> usize
        ensures count { result ≡ min most (min (length into.old) (length self.old.left)) }
        ensures moved { self.old.left ≡ take result into.new ++ self.new.left }
        ensures kept { drop result into.new ≡ drop result into.old }
        ensures ended { self.new.ended ≡ (result == 0) }
    {
        let left = self.octets.len() - self.at;
        let count = most.min(into.len().min(left));
        put_at(into, 0, &self.octets[self.at..self.at + count]);
        self.at += count;
        self.ended = count == 0;
        count
    }
}

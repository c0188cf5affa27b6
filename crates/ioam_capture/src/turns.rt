//! What is due of several captures, and which comes next.
ghost use Rattle.std.specs.Prelude.{◌≡◌};
ghost use Rattle.ioam_capture.specs.Turn.{IsTurn, ahead, turn_of};

use ioam_pcap::CapFault;

/// What is due of one of several captures that are merged by time.
#[derive(Clone, Copy, Debug, PartialEq, Eq)]
pub enum Due {
    /// A record with this time, in nanoseconds.
    Record { time: u64 },
    /// Nothing: the capture has ended.
    End,
    /// At this place, in octets from the capture's first, its head or a record is faulty.
    Bad { at: u64, fault: CapFault },
    /// It isn't known yet: what is due isn't whole so far, nor has the capture ended.
    More,
}

/// What comes next of several captures.
#[derive(Clone, Copy, Debug, PartialEq, Eq)]
pub enum Turn {
    /// The record that is due of the capture at this place among the captures, from 0, with the
    /// least time, in nanoseconds; of several such captures it is the first.
    Next {
        place: usize,
        time: u64,
    },
    /// All captures have ended.
    Over,
    /// The capture at this place among the captures, from 0, is the first that is faulty: at `at`,
    /// in octets from its first.
    Broken {
        place: usize,
        at: u64,
        fault: CapFault,
    },
    /// Of some capture it isn't known what is due.
    Unshown,
}

/// The turn of several captures, by what is due of each.
pub fn next_turn(dues: &[Due]) -> Turn
    ensures exact { result ≡ turn_of dues.now }
    ensures says { IsTurn dues.now result }
{
    let mut turn = Turn::Over;
    for place in (0..dues.len()).rev() {
        turn = ahead(place, dues[place], turn);
    }
    turn
}

// The turn where this is due of a capture, and the turn of those behind it is known.
fn ahead(place: usize, due: Due, turn: Turn) -> Turn
    ensures { result ≡ ahead place due turn }
{
    match (due, turn) {
        (Due::More, _) | (_, Turn::Unshown) => Turn::Unshown,
        (Due::End, _) | (Due::Record { .. }, Turn::Broken { .. }) => turn,
        (Due::Bad { at, fault }, _) => Turn::Broken { place, at, fault },
        (Due::Record { time }, Turn::Next { time: least, .. }) if least < time => turn,
        (Due::Record { time }, _) => Turn::Next { place, time },
    }
}

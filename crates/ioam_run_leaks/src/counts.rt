//! How many packets of a capture leak, hide or are clean.
ghost use Rattle.std.specs.Prelude.{◌≡◌, ◌<◌, ◌^◌};
ghost use Rattle.ioam_run_leaks.specs.Counting.{all_of, counted, unseen_of};
ghost use Rattle.ioam_run_leaks.specs.Observation.{observation_of};

use crate::observe::{Observed, Unseen};
use ioam_leaks::{Finding, Leak};

/// How many records of a capture there were of each kind.
#[derive(Clone, Copy)]
pub struct Counts {
    pub clean: u64,
    pub carries: u64,
    pub quotes: u64,
    pub hidden: u64,
    pub not_ipv6: u64,
    pub cut: u64,
    pub length: u64,
}

impl Counts {
    /// Before the first record.
    pub const NONE: Counts = Counts {
        clean: 0,
        carries: 0,
        quotes: 0,
        hidden: 0,
        not_ipv6: 0,
        cut: 0,
        length: 0,
    };

    /// How many weren't looked into.
    pub fn unseen(&self) -> u64
        requires { unseen_of self.now < 2 ^ 32 }
        ensures { result ≡ unseen_of self.now }
    {
        self.not_ipv6 + self.cut + self.length
    }

    /// How many there were.
    pub fn all(&self) -> u64
        requires { all_of self.now < 2 ^ 32 }
        ensures { result ≡ all_of self.now }
    {
        self.clean + self.carries + self.quotes + self.hidden + self.unseen()
    }

    /// Counts one more.
    pub fn add(&mut self, seen: &Observed<'_>)
        requires { all_of self.old < 2 ^ 32 }
        ensures counted { self.new ≡ counted self.old (observation_of seen.now) }
    {
        match seen {
            Observed::Seen { finding, .. } => match finding {
                Finding::Clean => self.clean += 1,
                Finding::Leaks(Leak::Carries) => self.carries += 1,
                Finding::Leaks(Leak::Quotes) => self.quotes += 1,
                Finding::Hides(_) => self.hidden += 1,
            },
            Observed::Missed(Unseen::NotIpv6) => self.not_ipv6 += 1,
            Observed::Missed(Unseen::Cut) => self.cut += 1,
            Observed::Missed(Unseen::Length) => self.length += 1,
        }
    }
}

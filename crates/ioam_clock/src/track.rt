//! The samples of one node.
ghost use Rattle.std.specs.Prelude.{◌≡◌, ◌++◌, ◌∷◌, ◌≤◌, ◌<◌, [], length, IsTrue, IfSome, OnOk, OnErr};
ghost use Rattle.ioam_clock.specs.Samples.{sample_at, follows, IsSmall, IsCut, Rise};
ghost use Rattle.ioam_clock.specs.Guess.{is_in_force};

use crate::guess::{come, rate};
use crate::sample::Sample;
use ioam_base::memory::NoMemory;
use std::alloc::Global;
use std::marker::Model;

// The samples of a node, the oldest first.
#[derive(Debug, Drop)]
pub(crate) struct Track {
    samples: Vec<Sample>,
    // How many samples come in 2^64 nanoseconds, by which the one of a time is guessed.
    rate: u64,
}

impl Model for Track {
    ghost use Rattle.std.specs.Prelude.{List};
    ghost use Rattle.ioam_clock.specs.declared.sample.Sample.{Sample};
    ghost use Rattle.ioam_clock.specs.Samples.{AreSamples};

    ghost Value = { List Sample };

    ghost view = { λ track. track.samples.items };

    ghost invariant = { λ track. AreSamples track.samples.items };
}

// How many samples aren't after a time, where the times rise, by halves.
fn search_until(samples: &[Sample], time: u64) -> usize
    requires { Rise samples.now }
    ensures within { result ≤ length samples.now }
    ensures cut { IsCut samples.now time result }
{
    samples.partition_point(|sample| sample.time <= time)
}

// How many samples come at a rate until a time, the first among them, and at most all. The last alone is said: nothing
// else rests on its value, since what is guessed is tested.
fn guess(samples: &[Sample], rate: u64, time: u64) -> usize
    ensures { result ≤ length samples.now }
{
    match samples.first() {
        Some(first) => {
            let behind = come(rate, time.saturating_sub(first.time));
            behind.min(samples.len() - 1) + 1
        }
        None => 0,
    }
}

// Whether the sample at a place isn't after a time, and the next is, where there is one.
fn is_in_force(samples: &[Sample], time: u64, at: usize) -> bool
    requires { at < length samples.now }
    ensures { result ≡ is_in_force samples.now time at }
{
    let ends = match samples.get(at + 1) {
        Some(next) => time < next.time,
        None => true,
    };
    samples[at].time <= time && ends
}

// How many samples aren't after a time, where the times rise: as many as are guessed or one more, or
// else by halves.
fn count_until(samples: &[Sample], rate: u64, time: u64) -> usize
    requires { Rise samples.now }
    ensures within { result ≤ length samples.now }
    ensures cut { IsCut samples.now time result }
{
    let count = guess(samples, rate, time);
    if count > 0 && is_in_force(samples, time, count - 1) {
        count
    } else if count < samples.len() && is_in_force(samples, time, count) {
        count + 1
    } else {
        search_until(samples, time)
    }
}

impl Track {
    pub(crate) fn new(alloc: Global) -> Track
        ensures { result ≡ [] }
    {
        Track {
            samples: Vec::new(alloc),
            rate: 0,
        }
    }

    // Whether a sample may stand behind these.
    pub(crate) fn is_before(&self, sample: &Sample) -> bool
        ensures { result ≡ follows self.now sample.now }
    {
        match self.samples.as_slice().last() {
            Some(before) => before.time < sample.time,
            None => true,
        }
    }

    // The rate of these samples and of one that may stand behind them. Nothing rests on its value, since what is guessed
    // by it is tested.
    fn rate_with(&self, sample: &Sample) -> u64
        requires { IsSmall sample.now }
    {
        match self.samples.as_slice().first() {
            Some(first) => {
                let span = sample.time.saturating_sub(first.time);
                rate(span, self.samples.len() as u64)
            }
            None => 0,
        }
    }

    // Adds a sample that may stand behind these.
    pub(crate) fn push(&mut self, sample: Sample) -> Result<(), NoMemory>
        requires follows { IsTrue (follows self.old sample) }
        requires small { IsSmall sample }
        ensures ok { OnOk result (self.new ≡ self.old ++ sample ∷ []) }
        ensures err { OnErr result (self.new ≡ self.old) }
    {
        // without memory it is that of one sample too many, which does no harm
        self.rate = self.rate_with(&sample);
        match self.samples.push(sample) {
            Ok(()) => Ok(()),
            Err(_) => Err(NoMemory),
        }
    }

    // The sample in force at a time.
    #[tactic(auto, using(crate::proofs::TrackLaws::sample_at_count, crate::proofs::TrackLaws::sample_at_none, crate::proofs::TrackLaws::count_before))]
    pub(crate) fn sample_at(&self, time: u64) -> Option<Sample>
        ensures value { result ≡ sample_at self.now time }
        ensures small { IfSome result IsSmall }
        ensures before { IfSome result (λ sample. sample.time ≤ time) }
    {
        let samples = self.samples.as_slice();
        let count = count_until(samples, self.rate, time);
        if count == 0 {
            return None;
        }
        Some(samples[count - 1])
    }
}

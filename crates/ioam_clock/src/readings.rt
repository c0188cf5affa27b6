//! The readings of the nodes of a domain.
ghost use Rattle.std.specs.Prelude.{◌≡◌, ◌≤◌, ◌^◌, IfSome};
ghost use Rattle.ioam_clock.specs.Samples.{sample_at, clock_at, IsSmall};
ghost use Rattle.ioam_clock.specs.Reading.{samples_of};

use crate::sample::Sample;
use crate::track::Track;
use ioam_topo::NodeId;
use std::marker::Model;

/// The samples of each node of a domain, in the order of the domain's file.
#[derive(Debug, Drop)]
pub struct Readings {
    pub(crate) tracks: Vec<Track>,
}

impl Model for Readings {
    ghost use Rattle.std.specs.Prelude.{List};
    ghost use Rattle.ioam_clock.specs.declared.sample.Sample.{Sample};

    ghost Value = { List (List Sample) };

    ghost view = { λ readings. readings.tracks.items };
}

impl Readings {
    /// The sample in force at a node at a time in nanoseconds: the node's last whose time isn't after
    /// it. None where there is none, and for a node that isn't the domain's.
    pub fn view(&self, node: NodeId, time: u64) -> Option<Sample>
        ensures value { result ≡ sample_at (samples_of self.now node.0) time }
        ensures small { IfSome result IsSmall }
        ensures before { IfSome result (λ sample. sample.time ≤ time) }
    {
        self.tracks.get(node.0 as usize)?.sample_at(time)
    }

    /// What the node's clock reads at a time in nanoseconds, at most 2^63: the clock of the sample in
    /// force there and the time elapsed since. None where no sample is in force.
    pub fn clock_at(&self, node: NodeId, time: u64) -> Option<u64>
        requires { time ≤ 2 ^ 63 }
        ensures { result ≡ clock_at (samples_of self.now node.0) time }
    {
        let sample = self.view(node, time)?;
        Some(sample.clock + (time - sample.time))
    }
}

// Compiles only where threads may share a value of the type.
fn shared<T: Sync>() {}

// Not called: that it compiles is what it shows.
fn _workers_share_the_readings() {
    shared::<Readings>();
}

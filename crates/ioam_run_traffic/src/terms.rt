//! What the traffic of a domain goes by.
use ioam_clock::Readings;
use ioam_topo::{Domain, PortId};

/// What the traffic of a domain goes by, from the first arrival to the last.
#[derive(Drop)]
pub(crate) struct Terms<'a, F, G> {
    /// Runs the jobs that wait and appends what they leave to the outputs. It is a closure, since a trait's method can't start
    /// threads under a bound on a gate.
    pub(crate) tell: &'a F,
    /// What each worker asks before its jobs.
    pub(crate) gate: &'a G,
    /// The domain.
    pub(crate) domain: &'a Domain,
    /// The readings of its nodes.
    pub(crate) readings: &'a Readings,
    /// The ports that have a capture, in the order of the captures.
    pub(crate) ports: &'a [PortId],
}

//! What a generated run goes by.
use ioam_clock::Readings;
use ioam_topo::Domain;

/// What a generated run goes by, from the first arrival to the last.
#[derive(Drop)]
pub struct Terms<'r, 'd, 's, F> {
    /// Runs the jobs that wait, and forgets them. It is a closure, since a trait's method can't start threads under a bound on
    /// a gate.
    pub run: &'r F,
    /// The state of the generator at the first arrival.
    pub seed: u64,
    /// How many arrivals there are, 1 to 1,000,000.
    pub count: u32,
    /// The domain.
    pub domain: &'d Domain,
    /// The readings of its nodes.
    pub readings: &'s Readings,
}

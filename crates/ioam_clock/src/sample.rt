//! What a node reads at a time.

/// What a node reads at a time.
#[derive(Clone, Copy, Debug, PartialEq, Eq)]
pub struct Sample {
    /// The time of the sample, in nanoseconds, below 2^63.
    pub time: u64,
    /// What the node's clock reads then: nanoseconds since the epoch of the domain's timestamp
    /// format, below 2^63.
    pub clock: u64,
    /// The transit delay in nanoseconds, below 2^63 (RFC 9197 section 4.4.2.5); None where the node
    /// can't fill the field.
    pub delay: Option<u64>,
    /// The depth of the queue in memory buffers used (RFC 9197 section 4.4.2.7); None where the node
    /// can't fill the field.
    pub queue: Option<u32>,
    /// The occupancy of the buffer in units of the node's own (RFC 9197 section 4.4.2.12); None where
    /// the node can't fill the field.
    pub buffer: Option<u32>,
}

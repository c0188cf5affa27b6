//! How many packets of BEFORE became what.

/// How many packets of BEFORE became what.
#[derive(Clone, Copy)]
pub(crate) struct Counts {
    /// A packet of AFTER.
    pub(crate) sent: u32,
    /// None.
    pub(crate) gone: u32,
    /// To these a reason applied.
    pub(crate) skipped: u32,
}

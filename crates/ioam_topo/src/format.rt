//! The format of a domain's timestamps.

/// The format of a domain's timestamps (RFC 9197 section 5).
#[derive(Clone, Copy, Debug, PartialEq, Eq)]
pub enum Format {
    /// Seconds and nanoseconds.
    Ptp,
    /// Seconds and fractions of 2^-32 of a second.
    Ntp,
    /// Seconds and microseconds.
    Posix,
}

//! What a node writes of a time.
ghost use Rattle.std.specs.Prelude.{◌≡◌, ◌<◌};
ghost use Rattle.ioam_clock.specs.Stamp.{fraction, stamp};

use ioam_topo::Format;

// Nanoseconds in a second.
const SECOND: u64 = 1_000_000_000;

// Nanoseconds below a second, as a format counts them.
fn fraction(format: Format, below: u64) -> u32
    requires { below < 1000000000 }
    ensures { result ≡ fraction format below }
{
    match format {
        Format::Ptp => below as u32,
        Format::Ntp => ((below << 32) / SECOND) as u32,
        Format::Posix => (below / 1000) as u32,
    }
}

/// The two words of a timestamp (RFC 9197 section 5) of so many nanoseconds since the format's epoch:
/// the seconds modulo 2^32, and below a second nanoseconds (PTP), units of 2^-32 seconds (NTP) or
/// microseconds (POSIX), rounded down.
pub fn stamp(format: Format, time: u64) -> (u32, u32)
    ensures { result ≡ stamp format time }
{
    (
        (time / SECOND % (1 << 32)) as u32,
        fraction(format, time % SECOND),
    )
}

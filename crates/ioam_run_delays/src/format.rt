//! The formats of time stamps (RFC 9197 section 5).
ghost use Rattle.std.specs.Prelude.{◌≡◌, ◌≤◌, ◌^◌};
ghost use Rattle.ioam_run_delays.specs.Format.{units_of};

use ioam_topo::Format;

/// How many units of its fraction a second has.
pub fn units_of(format: Format) -> u64
    ensures is { result ≡ units_of format }
    ensures most { result ≤ 2 ^ 32 }
{
    match format {
        Format::Ptp => 1_000_000_000,
        Format::Ntp => 4_294_967_296,
        Format::Posix => 1_000_000,
    }
}

//! Times (RFC 9197 section 5) and the delays between them.
ghost use Rattle.std.specs.Prelude.{◌≡◌, ◌<◌, ◌≤◌, ◌*◌, ◌/◌, ◌^◌};
ghost use Rattle.ioam_delays.specs.Times.{IsDelay, ahead_of, delay_of, part_of};

/// The nanoseconds of a fraction in units of `1/units` seconds.
pub fn nanoseconds(fraction: u32, units: u64) -> u64
    requires below { fraction < units }
    requires units { units ≤ 2 ^ 32 }
    ensures is { result ≡ part_of units fraction }
    ensures below { result < 10 ^ 9 }
{
    u64::from(fraction) * 1_000_000_000 / units
}

/// The delay from one time to another, both known modulo a number.
pub fn delay(from: u64, to: u64, modulus: u64) -> i64
    requires some { 0 < modulus }
    requires most { modulus ≤ 2 ^ 32 * 10 ^ 9 }
    ensures value { result ≡ delay_of modulus from to }
    ensures is { IsDelay modulus from to result }
{
    let ahead = ahead(from % modulus, to % modulus, modulus);
    if 2 * ahead < modulus {
        ahead as i64
    } else {
        -1 - (modulus - ahead - 1) as i64
    }
}

// How far a time is ahead of another, modulo a number.
fn ahead(from: u64, to: u64, modulus: u64) -> u64
    requires from { from < modulus }
    requires to { to < modulus }
    requires most { modulus ≤ 2 ^ 32 * 10 ^ 9 }
    ensures is { result ≡ ahead_of modulus from to }
    ensures below { result < modulus }
{
    if to < from {
        to + (modulus - from)
    } else {
        to - from
    }
}

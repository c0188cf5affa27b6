//! Interfaces, and the times of their packets.
ghost use Rattle.std.specs.Prelude.{◌≡◌, ◌≤◌, ◌<◌, ◌^◌, ◌*◌, IfSome, IsTrue};
ghost use Rattle.ioam_ng.specs.Face.{is_resolved, unit_count, added, taken_off, time_between, time_of};

/// An interface of a section.
#[derive(Clone, Copy, Debug)]
pub struct Face {
    /// The link type.
    pub kind: u16,
    /// The resolution of its times: below 128 units of 10^-r seconds, else of 2^-(r - 128).
    pub resolution: u8,
    /// Seconds that are added to its times, a signed number of 64 bits in two's complement.
    pub offset: u64,
}

const NANOSECONDS: u128 = 1_000_000_000;

/// A resolution is one that is read.
pub fn is_resolved(resolution: u8) -> bool
    ensures { result ≡ is_resolved resolution }
{
    resolution <= 18 || (128 <= resolution && resolution <= 191)
}

// The units of a resolution in a second.
#[tactic(auto, using(crate::proofs::FaceLaws::tens_fit, crate::proofs::FaceLaws::twos_fit, crate::proofs::FaceLaws::tens_some, crate::proofs::FaceLaws::twos_some))]
fn unit_count(resolution: u8) -> u64
    requires { IsTrue (is_resolved resolution) }
    ensures value { result ≡ unit_count resolution }
    ensures some { 0 < result }
{
    if resolution < 128 {
        10u64.pow(u32::from(resolution))
    } else {
        2u64.pow(u32::from(resolution - 128))
    }
}

// The seconds that an offset adds.
fn added(offset: u64) -> u64
    ensures value { result ≡ added offset }
    ensures few { result < 0x8000000000000000 }
{
    if offset < 0x8000_0000_0000_0000 {
        offset
    } else {
        0
    }
}

// The seconds that an offset takes off.
fn taken_off(offset: u64) -> u64
    ensures value { result ≡ taken_off offset }
    ensures few { result ≤ 0x8000000000000000 }
{
    if offset < 0x8000_0000_0000_0000 {
        0
    } else {
        u64::MAX - offset + 1
    }
}

// The difference of two counts of nanoseconds, where it is no less than 0 and below 2^62.
fn time_between(plus: u128, minus: u128) -> Option<u64>
    ensures value { result ≡ time_between plus minus }
    ensures small { IfSome result (λ time. time < 2 ^ 62) }
{
    if minus <= plus && plus - minus < 0x4000_0000_0000_0000 {
        Some((plus - minus) as u64)
    } else {
        None
    }
}

/// The nanoseconds of so many units, at an interface whose resolution is read.
pub fn time_of(face: Face, units: u64) -> Option<u64>
    requires { IsTrue (is_resolved face.resolution) }
    ensures value { result ≡ time_of face units }
    ensures small { IfSome result (λ time. time < 2 ^ 62) }
{
    let count = unit_count(face.resolution);
    let before = u128::from(units) * NANOSECONDS / u128::from(count);
    let plus = before + u128::from(added(face.offset)) * NANOSECONDS;
    let minus = u128::from(taken_off(face.offset)) * NANOSECONDS;
    time_between(plus, minus)
}

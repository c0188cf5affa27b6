//! The buckets in which delays are counted.
ghost use Rattle.std.specs.Prelude.{◌≡◌, ◌<◌, ◌≤◌, ◌+◌, ◌*◌, ◌^◌, ◌-◌, ◌/◌};
ghost use Rattle.ioam_delays.specs.Buckets.{IsWithin, greatest_of, high, least_of, low};

/// How many buckets there are.
pub const BUCKETS: usize = 4_096;

// How many of them are for delays from 0 on.
const HALF: usize = 2_048;

/// The bucket of a delay.
pub fn bucket(delay: i64) -> usize
    ensures within { IsWithin result delay }
    ensures exists { result < 4096 }
{
    if delay < 0 {
        HALF - 1 - size_bucket((-1 - delay) as u64)
    } else {
        HALF + size_bucket(delay as u64)
    }
}

// The bucket of a number below 2^63 among those for numbers from 0 on.
fn size_bucket(size: u64) -> usize
    requires { size < 2 ^ 63 }
    ensures least { least_of result ≤ size }
    ensures greatest { size ≤ greatest_of result }
    ensures exists { result < 2048 }
{
    if size < 64 {
        return size as usize;
    }
    let shift = size.ilog2() - 5;
    (32 * u64::from(shift) + (size >> shift)) as usize
}

/// The least number of a bucket, or the number after the last bucket.
pub fn least(bucket: usize) -> i128
    requires { bucket ≤ 4096 }
    ensures { result ≡ low bucket }
{
    if bucket < HALF {
        -1 - size_greatest(HALF - 1 - bucket) as i128
    } else {
        size_least(bucket - HALF) as i128
    }
}

/// The greatest number of a bucket.
pub fn greatest(bucket: usize) -> i128
    requires { bucket < 4096 }
    ensures { result ≡ high bucket }
{
    if bucket < HALF {
        -1 - size_least(HALF - 1 - bucket) as i128
    } else {
        size_greatest(bucket - HALF) as i128
    }
}

// How far the numbers of a bucket are shifted.
fn shift_of(bucket: usize) -> usize
    requires { bucket ≤ 2048 }
    ensures { result ≡ bucket / 32 - 1 }
{
    (bucket / 32).saturating_sub(1)
}

// The least number of a bucket for numbers from 0 on.
fn size_least(bucket: usize) -> u128
    requires { bucket ≤ 2048 }
    ensures is { result ≡ least_of bucket }
    ensures fits { result < 2 ^ 69 }
{
    let shift = shift_of(bucket);
    ((bucket - 32 * shift) as u128) << shift
}

// The greatest number of a bucket for numbers from 0 on.
fn size_greatest(bucket: usize) -> u128
    requires { bucket ≤ 2048 }
    ensures is { result ≡ greatest_of bucket }
    ensures fits { result < 2 ^ 69 }
{
    let shift = shift_of(bucket);
    (((bucket - 32 * shift) as u128) << shift) + ((1u128 << shift) - 1)
}

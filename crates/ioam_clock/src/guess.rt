//! Which sample is in force at a time, guessed from how fast the samples come.
ghost use Rattle.std.specs.Prelude.{◌<◌, ◌^◌};

// How many come in 2^64 nanoseconds, rounded down, where so many come in a span. No clause says it: what is guessed by
// it is tested, and else searched for, so that nothing rests on its value but speed.
pub(crate) fn rate(span: u64, steps: u64) -> u64
    requires some { 0 < steps }
    requires short { span < 2 ^ 63 }
{
    u64::MAX / (span / steps + 1)
}

// How many of what comes at a rate come in a time, rounded down. Likewise nothing rests on its value.
pub(crate) fn come(rate: u64, time: u64) -> usize {
    ((time as u128 * rate as u128) >> 64) as usize
}

//! Samples that are added to the readings of their nodes.
ghost use Rattle.std.specs.Prelude.{◌≡◌, ◌<◌, IfOk, vec_len};
ghost use Rattle.ioam_clock.specs.Held.{line_of};
ghost use Rattle.ioam_clock.specs.Samples.{IsSmall};
ghost use Rattle.ioam_clock.specs.Reading.{sample_of, added};
ghost use Rattle.ioam_clock.specs.Adding.{Adds};

use crate::fault::ReadWhy;
use crate::line::Words;
use crate::numbers::{maybe, maybe_u32, number};
use crate::refused::Refused;
use crate::sample::Sample;
use crate::track::Track;

// Times, clocks and delays are below this.
const PAST_TIMES: u64 = 1 << 63;

// The sample that a line says.
pub(crate) fn sample_of(words: &Words<'_>) -> Result<Sample, ReadWhy>
    ensures value { result ≡ sample_of (line_of words.now) }
    ensures small { IfOk result IsSmall }
{
    let time = number(words.time, PAST_TIMES)?;
    let clock = number(words.clock, PAST_TIMES)?;
    let delay = maybe(words.delay, PAST_TIMES)?;
    let queue = maybe_u32(words.queue)?;
    let buffer = maybe_u32(words.buffer)?;
    Ok(Sample {
        time,
        clock,
        delay,
        queue,
        buffer,
    })
}

// Adds a sample of a node behind those that it has.
pub(crate) fn add_sample(
    tracks: &mut Vec<Track>,
    node: usize,
    sample: Sample,
) -> Result<(), Refused>
    requires there { node < vec_len tracks.old }
    requires small { IsSmall sample }
    ensures adds { Adds result tracks.new.items (added tracks.old.items node sample) }
    ensures len { vec_len tracks.new ≡ vec_len tracks.old }
{
    let track = &mut tracks[node];
    if !track.is_before(&sample) {
        return Err(Refused::Because(ReadWhy::Order));
    }
    match track.push(sample) {
        Ok(()) => Ok(()),
        Err(_) => Err(Refused::NoMemory),
    }
}

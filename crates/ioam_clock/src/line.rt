//! A line of a file of readings.
ghost use Rattle.std.specs.Prelude.{◌≡◌, ◌<◌, ◌∷◌, [], length, position, IfSome, MatchOption};
ghost use Rattle.std.specs.List.{slice_split};
ghost use Rattle.ioam_clock.specs.Lines.{ends_word, has_empty, words_of};
ghost use Rattle.ioam_clock.specs.Held.{line_of, ReadsWords};

use crate::fault::ReadWhy;

// The words of a line that says what a node reads at a time.
#[derive(Clone, Copy)]
pub(crate) struct Words<'a> {
    pub(crate) node: &'a [u8],
    pub(crate) time: &'a [u8],
    pub(crate) clock: &'a [u8],
    pub(crate) delay: &'a [u8],
    pub(crate) queue: &'a [u8],
    pub(crate) buffer: &'a [u8],
}

// The place of the first space.
fn space_in(line: &[u8]) -> Option<usize>
    ensures value { result ≡ position ends_word line.now }
    ensures within { IfSome result (λ at. at < length line.now) }
{
    line.iter().position(|octet| *octet == b' ')
}

// The first word of a line and what stands behind the space after it; None where there is no space.
#[tactic(auto, using(crate::proofs::LineLaws::slice_split_some, crate::proofs::LineLaws::slice_split_whole))]
fn split_word(line: &[u8]) -> Option<(&[u8], &[u8])>
    ensures { MatchOption result (slice_split ends_word line.now ≡ line.now ∷ [])
        (λ parts. slice_split ends_word line.now ≡ parts.0.now ∷ slice_split ends_word parts.1.now) }
{
    let at = space_in(line)?;
    Some((&line[..at], &line[at + 1..]))
}

// Whether a word of a line is empty.
fn has_empty(words: &Words<'_>) -> bool
    ensures { result ≡ has_empty (line_of words.now) }
{
    words.node.is_empty()
        || words.time.is_empty()
        || words.clock.is_empty()
        || words.delay.is_empty()
        || words.queue.is_empty()
        || words.buffer.is_empty()
}

// The words of a line that has six.
#[tactic(auto, using(crate::proofs::LineLaws::more_words))]
pub(crate) fn split_line(line: &[u8]) -> Result<Words<'_>, ReadWhy>
    ensures { ReadsWords result (words_of line.now) }
{
    let Some((node, rest)) = split_word(line) else {
        return Err(ReadWhy::Words);
    };
    let Some((time, rest)) = split_word(rest) else {
        return Err(ReadWhy::Words);
    };
    let Some((clock, rest)) = split_word(rest) else {
        return Err(ReadWhy::Words);
    };
    let Some((delay, rest)) = split_word(rest) else {
        return Err(ReadWhy::Words);
    };
    let Some((queue, buffer)) = split_word(rest) else {
        return Err(ReadWhy::Words);
    };
    let words = Words {
        node,
        time,
        clock,
        delay,
        queue,
        buffer,
    };
    if let Some(_) = split_word(buffer) {
        return Err(ReadWhy::Words);
    }
    if has_empty(&words) {
        return Err(ReadWhy::Words);
    }
    Ok(words)
}

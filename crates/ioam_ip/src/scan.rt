//! One look through an options header: do its options fill it, and what stands in it.
ghost use Rattle.std.specs.Prelude.{◌≡◌, ◌+◌, ◌<◌, ◌≤◌, ◌∷◌, [], ◌||◌, length, MatchOption};
ghost use Rattle.ioam_ip.specs.Options.{OptionFits, option_end, item_at};
ghost use Rattle.ioam_ip.specs.Findings.{is_ioam, first_limit};
ghost use Rattle.std.specs.Option.{option_or};
ghost use Rattle.ioam_ip.specs.Scan.{Scans};

use crate::option_type::{ENCAPSULATION_LIMIT, is_ioam_type};

/// What was found among options: whether one is an IOAM option, and the first encapsulation limit.
#[derive(Clone, Copy)]
pub(crate) struct Findings {
    pub(crate) ioam: bool,
    pub(crate) limit: Option<u8>,
}

/// What a look through an options header gives.
#[derive(Clone, Copy)]
pub(crate) enum Scan {
    /// The options fill the header.
    Fills(Findings),
    /// The first option that doesn't fit, by its place in the header.
    Unfit(usize),
}

/// Looks through all octets of one options header.
pub(crate) fn look_through(head: &[u8]) -> Scan
    requires { 2 ≤ length head.now }
    ensures { Scans head.now result }
{
    let mut found = Findings {
        ioam: false,
        limit: None,
    };
    let mut at = 2;
    while at < head.len() {
        let Some(next) = option_end(head, at) else {
            return Scan::Unfit(at);
        };
        found = found.with(head, at);
        at = next;
    }
    Scan::Fills(found)
}

// Where the option at a place ends, if it lies within the header.
pub(crate) fn option_end(head: &[u8], at: usize) -> Option<usize>
    requires { at < length head.now }
    ensures { MatchOption result (length head.now < option_end head.now at)
        (λ next. (next ≡ option_end head.now at) × OptionFits head.now at) }
{
    if head[at] == 0 {
        return Some(at + 1);
    }
    if head.len() - at < 2 {
        return None;
    }
    let size = head[at + 1] as usize + 2;
    if head.len() - at < size {
        return None;
    }
    Some(at + size)
}

impl Findings {
    // What is found, once the option at a place is looked at too.
    fn with(self, head: &[u8], at: usize) -> Findings
        requires { OptionFits head.now at }
        ensures ioam { result.ioam ≡ (self.ioam || is_ioam (item_at head.now at)) }
        ensures limit { result.limit ≡ option_or self.limit (first_limit (item_at head.now at ∷ [])) }
    {
        let kind = head[at];
        let ioam = self.ioam || is_ioam_type(kind);
        let limit = self.limit.or(limit_at(head, at));
        Findings { ioam, limit }
    }
}

// The encapsulation limit that the option at a place is, if it is one.
fn limit_at(head: &[u8], at: usize) -> Option<u8>
    requires { OptionFits head.now at }
    ensures { result ≡ first_limit (item_at head.now at ∷ []) }
{
    if head[at] == ENCAPSULATION_LIMIT && head[at + 1] == 1 {
        Some(head[at + 2])
    } else {
        None
    }
}

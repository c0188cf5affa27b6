//! A pair of addresses between which packets leak, and how.
ghost use Rattle.std.specs.Prelude.{◌≡◌};
ghost use Rattle.ioam_leak_flows.specs.Lines.{leak_name};

/// A pair of addresses between which packets leak, and how.
#[derive(Clone, Copy, Debug, PartialEq, Eq, Hash)]
pub struct Flow {
    /// Source Address of the packets, its first octet the most significant.
    pub source: u128,
    /// Destination Address of the packets, its first octet the most significant.
    pub target: u128,
    /// Whether the packets quote IOAM data; otherwise they carry it themselves.
    pub quotes: bool,
}

/// The word for how packets leak.
pub fn leak_word(quotes: bool) -> &'static str
    ensures { result.now ≡ leak_name quotes }
{
    if quotes { "quotes" } else { "carries" }
}

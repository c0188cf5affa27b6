//! The words for formats of time stamps.
ghost use Rattle.std.specs.Prelude.{◌≡◌, MatchOption};
ghost use Rattle.ioam_words.specs.Formats.{format_name};

use ioam_base::name::Name;
use ioam_topo::Format;

/// The word for a format.
pub fn format_word(format: Format) -> &'static str
    ensures { result.now ≡ format_name format }
{
    match format {
        Format::Ptp => "ptp",
        Format::Ntp => "ntp",
        Format::Posix => "posix",
    }
}

/// The format that a word stands for.
pub(crate) fn format_of(word: &Name) -> Option<Format>
    ensures { MatchOption result ((format : Format) → word.now ≡ format_name format → ⊥) (λ format. word.now ≡ format_name format) }
{
    match word.text() {
        "ptp" => Some(Format::Ptp),
        "ntp" => Some(Format::Ntp),
        "posix" => Some(Format::Posix),
        _ => None,
    }
}

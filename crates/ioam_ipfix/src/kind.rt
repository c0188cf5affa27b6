//! What a set holds, by its id (RFC 7011 section 3.3.2).

ghost use Rattle.std.specs.Prelude.{◌≡◌};
ghost use Rattle.ioam_ipfix.specs.Sets.{set_kind, IsOfKind};

/// The ids of the templates of the profile, one for each choice of the three parts that an export may have.
pub(crate) const FIRST_TEMPLATE: u16 = 256;

pub(crate) const LAST_TEMPLATE: u16 = 263;

/// What a set holds.
#[derive(Clone, Copy)]
pub(crate) enum SetKind {
    Templates,
    Data,
    /// Templates of options, and data sets of templates that aren't of the profile.
    Skipped,
    Reserved,
}

/// What a set of this id holds.
pub(crate) fn set_kind(id: u16) -> SetKind
    ensures value { result ≡ set_kind id }
    ensures data { IsOfKind result id }
{
    match id {
        2 => SetKind::Templates,
        3 => SetKind::Skipped,
        0..=255 => SetKind::Reserved,
        FIRST_TEMPLATE..=LAST_TEMPLATE => SetKind::Data,
        _ => SetKind::Skipped,
    }
}

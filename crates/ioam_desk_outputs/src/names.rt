//! Names of outputs that are equal.
ghost use Rattle.std.specs.Prelude.{◌↔◌, Contains, IsTrue, MatchOption};
ghost use Rattle.ioam_desk_outputs.specs.Names.{AreApart, IsFirstRepeat};

use ioam_base::name::Name;

/// The place of the first name that equals an earlier one.
pub fn first_repeat(names: &[Name]) -> Option<usize>
    ensures { MatchOption result (AreApart names.now) (IsFirstRepeat names.now) }
{
    for (at, name) in names.iter().enumerate() {
        if stands_in(&names[..at], name) {
            return Some(at);
        }
    }
    None
}

// Whether a name is one of these.
fn stands_in(names: &[Name], name: &Name) -> bool
    ensures { IsTrue result ↔ Contains names.now name.now }
{
    names.iter().any(|other| other.is(name))
}

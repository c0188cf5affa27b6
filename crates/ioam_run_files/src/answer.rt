//! The answers to refused files.
ghost use Rattle.std.specs.Prelude.{◌≡◌};
ghost use Rattle.ioam_run_files.specs.Answer.{refused_as};

use crate::setting::Refusal;
use ioam_run_answer::Outcome;

/// The answer to a refusal of the domain file or of the readings.
pub fn refused(refusal: Refusal) -> Outcome
    ensures { result ≡ refused_as refusal }
{
    match refusal {
        Refusal::Domain(fault) => Outcome::Domain { fault },
        Refusal::Readings(fault) => Outcome::Readings { fault },
        Refusal::ReadFault => Outcome::ReadFault,
        Refusal::NoMemory => Outcome::NoMemory,
    }
}

//! What `run` leaves and what `collect` makes of it, joined: a law of the two commands.
#![tactic(auto)]

ghost use Rattle.ioam_run_measured.specs.Measured.{RunThenCollect};

/// Says that what a run leaves in EXPORTS is all records of its arrivals, and that of these octets, wherever it reads them
/// later, `collect` tells the whole path of each packet that was exported of (RFC 9326 section 3.2). Where the run ended in a
/// write fault or found no memory, they are a front of the records of some first arrivals, and `collect` tells of those that
/// are there whole.
pub fn runs_are_collected()
    ensures { RunThenCollect }
{}

//! Export records as a run writes them, as they are read again, and regrouped: laws of a run's records, whatever the domain.
#![tactic(auto)]

ghost use Rattle.std.specs.Prelude.{List, ℕ};
ghost use Rattle.ioam_dex.specs.Record.{Record};
ghost use Rattle.ioam_collect_laws.specs.Exported.{ExportsAreRead, FrontsAreRead, TellsRun};
ghost use Rattle.ioam_collect_laws.specs.Flows.{AreOfFlows};
ghost use Rattle.ioam_collect_laws.specs.Paths.{Regroups};

/// Says that the records of a run regroup to the paths of its packets (RFC 9326 section 3.2).
pub fn records_regroup()
    ensures { (read : List Record) → Regroups read }
{}

/// Says that the octets that a run exports read as its records, each once, in their order and to the end, and as nothing else.
pub fn exports_are_read()
    ensures { ExportsAreRead }
{}

/// Says that a front of these octets reads as the first of its records, each whole, and at most the front of the next one, and as nothing else.
pub fn fronts_are_read()
    ensures { FrontsAreRead }
{}

/// Says that what is read of the octets that a run exports regroups to the whole paths of its packets (RFC 9326 section 3.2).
pub fn exports_tell_paths()
    ensures { (octets : List ℕ) (read : List Record) → TellsRun octets read }
{}

/// Says that each enclosed packet of a run carries the direct export option of its flow, with its own number, and that the
/// records of its visits have the flow's fields and that number (RFC 9326 section 3.2).
pub fn records_are_of_flows()
    ensures { AreOfFlows }
{}

//! Laws of messages, each the contract of a function that does nothing.

ghost use Rattle.std.specs.Prelude.{◌≡◌, ℕ, List, [], ◌∷◌};
ghost use Rattle.ioam_dex.specs.Record.{Record};
ghost use Rattle.ioam_ipfix.specs.Messages.{IpfixOf, joined};
ghost use Rattle.ioam_ipfix.specs.Reads.{Ending, Whole, Reads, ReadsOnly};
ghost use Rattle.ioam_ipfix.specs.Sets.{Spot};
ghost use Rattle.ioam_ipfix.specs.Written.{AreRuns, AreLongest, runs_of, messages_text};

/// Says that octets are messages and a rest in one way, and read as messages up to one ending.
pub fn reads_one_way()
    ensures messages { (octets : List ℕ) (xs ys : List (List Record)) (r s : Spot) → IpfixOf octets xs r → IpfixOf octets ys s
        → (xs ≡ ys) × (r ≡ s) }
    ensures endings { (octets : List ℕ) (xs : List (List Record)) (d : Ending) → Reads octets xs d → ReadsOnly octets xs d }
{}

/// Says that records are cut into longest runs of 1 to 32 of one template in one way.
pub fn runs_are_one()
    ensures { (runs others : List (ℕ × List Record)) → AreRuns runs → AreLongest runs → AreRuns others → AreLongest others
        → joined (runs_of runs) ≡ joined (runs_of others) → runs ≡ others }
{}

/// Says that what is written of records, cut into runs of 1 to 32 of one template, is read as one
/// message without a record and then these runs, a message each, to the end.
pub fn written_is_read()
    ensures reads { (runs : List (ℕ × List Record)) → AreRuns runs → Reads (messages_text runs) ([] ∷ runs_of runs) Whole }
    ensures only { (runs : List (ℕ × List Record)) → AreRuns runs → ReadsOnly (messages_text runs) ([] ∷ runs_of runs) Whole }
{}

//! The law of the two commands, as the contract of a function that does nothing.
ghost use Rattle.std.specs.Prelude.{ℕ, List};
ghost use Rattle.ioam_dex.specs.Record.{Record};
ghost use Rattle.ioam_dex.specs.Reads.{Reads, Whole};
ghost use Rattle.ioam_ipfix.specs.Written.{messages_text};
ghost use Rattle.ioam_run_ipfix.specs.Exports.{AreFew};
ghost use Rattle.ioam_run_ipfix.specs.Promise.{BringsBack};
ghost use Rattle.ioam_run_ipfix.specs.Texts.{AreCut};

/// Says that of octets that are export records to their end, 67,108,864 at most, the messages that `ipfix` writes
/// read as exactly these records, run by run, and that `records` over these messages is asked for Done alone, and
/// leaves these octets.
pub fn messages_bring_back()
    ensures { (octets : List ℕ) (records : List Record) (runs : List (ℕ × List Record)) → Reads octets records Whole → AreFew records
        → AreCut records runs → BringsBack (messages_text runs) octets }
{}

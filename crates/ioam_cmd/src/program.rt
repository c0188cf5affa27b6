//! The top call: one run of a command over a desk.
ghost use Rattle.std.specs.Prelude.{true, ◌≡◌, ◌≢◌, ◌↔◌, ◌⊎◌, IsTrue};
ghost use Rattle.ioam_cmd.specs.Promise.{Asked, Keeps};
ghost use Rattle.ioam_words.specs.Words.{IsForm, IsNoForm};
ghost use Rattle.ioam_words.specs.declared.command.Command.{Command};
ghost use Rattle.ioam_desk.specs.Desk.{Rose};
ghost use Rattle.ioam_desk.specs.Kept.{KeepsInputs, KeepsOutputs};
ghost use Rattle.ioam_desk.specs.SureDesk.{reading_of, writing_of};
ghost use Rattle.ioam_run_answer.specs.Desks.{around};
ghost use Rattle.ioam_run_answer.specs.Failures.{AnswersFailures};
ghost use Rattle.ioam_run_answer.specs.declared.outcome.Outcome.{Outcome};

use ioam_base::name::Name;
use ioam_desk::{Desk, SureDesk};
use ioam_run_answer::Outcome;
use ioam_run_audit::{AuditFiles, run_audit};
use ioam_run_bulk::run_bulk;
use ioam_run_capture::{CaptureFiles, run_filter, run_paths, run_save, run_show};
use ioam_run_collect::{CollectFiles, run_collect};
use ioam_run_delays::run_delays;
use ioam_run_domain::{Gate, RunFiles, run_domain};
use ioam_run_ipfix::{IpfixFiles, RecordsFiles, run_ipfix, run_records};
use ioam_run_leaks::run_leaks;
use ioam_run_node::{NodeFiles, run_node};
use ioam_run_part::{MergeFiles, PartFiles, PartsFiles, run_merge, run_part, run_parts};
use ioam_words::{Command, parse};
use std::alloc::Global;
use std::thread::Threads;

/// Runs the command that the words ask for over a desk, and answers. The workers of `run` and `bulk` are threads,
/// and ask the gate before each chunk of packets.
pub fn ioam<R: Threads + Sync, D: Desk, G: Gate>(
    rt: &R,
    alloc: Global,
    words: &[Name],
    desk: &mut D,
    gate: &G,
) -> Outcome
    // Usage comes exactly where the words are of no command's form, and nothing was opened then.
    ensures usage { (result ≡ Outcome.Usage) ↔ IsNoForm words.now }
    ensures unopened { result ≡ Outcome.Usage → (D.reading desk.new ≡ D.reading desk.old) × (D.writing desk.new ≡ D.writing desk.old) }

    // A fault of reading or writing comes only where the desk's count of such faults rose.
    ensures read_fault { result ≡ Outcome.ReadFault → Rose (D.reading desk.old).side.faults (D.reading desk.new).side.faults }
    ensures write_fault { result ≡ Outcome.WriteFault → Rose (D.writing desk.old).side.faults (D.writing desk.new).side.faults }

    // What failed is answered: each input that was asked for was opened where the answer is any but ReadFault, no call of an input
    // failed where the words and the files decided it, and none of an output where it is any but WriteFault.
    ensures failures { AnswersFailures (around D.tells (D.reading desk.old) (D.reading desk.new) (D.writing desk.old) (D.writing desk.new)) result }

    // The command of the words keeps its promise.
    ensures keeps { (command : Command) → IsForm command words.now
        → Keeps G.opens (around D.tells (D.reading desk.old) (D.reading desk.new) (D.writing desk.old) (D.writing desk.new)) words.now command result }

    // Slots that were there before are as they were, and so is each name that wasn't given to the opening of outputs in this call.
    ensures kept_in { KeepsInputs (D.reading desk.old) (D.reading desk.new) }
    ensures kept_out { IsTrue D.tells → KeepsOutputs (D.writing desk.old) (D.writing desk.new) }
{
    match parse(words) {
        Some(command) => run_command(rt, alloc, command, words, desk, gate),
        None => Outcome::Usage,
    }
}

// Runs the command that the words ask for.
fn run_command<R: Threads + Sync, D: Desk, G: Gate>(
    rt: &R,
    alloc: Global,
    command: Command,
    words: &[Name],
    desk: &mut D,
    gate: &G,
) -> Outcome
    requires form { IsForm command words.now }
    ensures keeps { Keeps G.opens (around D.tells (D.reading desk.old) (D.reading desk.new) (D.writing desk.old) (D.writing desk.new)) words.now command result }
{
    match command {
        Command::Filter => run_filter(alloc, &CaptureFiles::of(words), desk),
        Command::Leaks => run_leaks(alloc, &CaptureFiles::of(words), desk),
        Command::Paths => run_paths(alloc, &CaptureFiles::of(words), desk),
        Command::Delays { format } => {
            run_delays(alloc, format, &CaptureFiles::of(&words[1..]), desk)
        }
        Command::Show => run_show(alloc, &CaptureFiles::of(words), desk),
        Command::Save => run_save(alloc, &CaptureFiles::of(words), desk),
        Command::Node => run_node(alloc, &NodeFiles::of(words), desk),
        Command::Audit => run_audit(alloc, &AuditFiles::of(words), desk),
        Command::Run { workers } => {
            run_domain(rt, alloc, workers, &RunFiles::of(words), desk, gate)
        }
        Command::Bulk {
            seed,
            count,
            workers,
        } => run_bulk(rt, alloc, seed, count, workers, &words[4], desk, gate),
        Command::Collect => run_collect(alloc, &CollectFiles::of(words), desk),
        Command::Ipfix => run_ipfix(alloc, &IpfixFiles::of(words), desk),
        Command::Records => run_records(alloc, &RecordsFiles::of(words), desk),
        Command::Part => run_part(alloc, &PartFiles::of(words), desk),
        Command::Merge => run_merge(alloc, &MergeFiles::of(words), desk),
        Command::Parts => run_parts(alloc, &PartsFiles::of(words), desk),
    }
}

/// The same over a desk none of whose calls fails: then no fault of reading or writing is answered.
pub fn ioam_surely<R: Threads + Sync, G: Gate>(
    rt: &R,
    alloc: Global,
    words: &[Name],
    desk: &mut SureDesk,
    gate: &G,
) -> Outcome
    ensures no_read_fault { result ≢ Outcome.ReadFault }
    ensures no_write_fault { result ≢ Outcome.WriteFault }
    ensures usage { (result ≡ Outcome.Usage) ↔ IsNoForm words.now }
    ensures unopened { result ≡ Outcome.Usage → (reading_of desk.new ≡ reading_of desk.old) × (writing_of desk.new ≡ writing_of desk.old) }

    // What is asked for is answered, unless no memory could be had.
    ensures exact { (command : Command) → IsForm command words.now → (asked : Outcome)
        → Asked (around true (reading_of desk.old) (reading_of desk.new) (writing_of desk.old) (writing_of desk.new)) words.now command asked
        → (result ≡ asked) ⊎ (result ≡ Outcome.NoMemory) }

    // The command of the words keeps its promise.
    ensures keeps { (command : Command) → IsForm command words.now
        → Keeps G.opens (around true (reading_of desk.old) (reading_of desk.new) (writing_of desk.old) (writing_of desk.new)) words.now command result }
    ensures kept_in { KeepsInputs (reading_of desk.old) (reading_of desk.new) }
    ensures kept_out { KeepsOutputs (writing_of desk.old) (writing_of desk.new) }
{
    ioam(rt, alloc, words, desk, gate)
}

//! `merge ONE TWO PART`: two parts joined.
ghost use Rattle.std.specs.Prelude.{◌≡◌, List, MatchOption};
ghost use Rattle.ioam_run_answer.specs.Desks.{around};
ghost use Rattle.ioam_run_part.specs.Files.{AreApart, IsRepeat};
ghost use Rattle.ioam_run_part.specs.MergePromise.{MergeKeeps};

use crate::joined::write_joined;
use crate::names::MergeFiles;
use crate::two::read_two;
use ioam_base::name::Name;
use ioam_desk::Desk;
use ioam_run_answer::{Outcome, names_outcome};
use std::alloc::Global;

/// Runs `merge ONE TWO PART`: PART becomes the part of the records that ONE or TWO has, each once.
///
/// Two names that are equal are refused; then ONE is opened and read, and then TWO, each in pieces, at most its first
/// 300,000,000 octets; then PART is opened. Where one of the two is no part, or both have more than 1,048,576 records,
/// PART isn't opened.
pub fn run_merge<D: Desk>(alloc: Global, files: &MergeFiles<'_>, desk: &mut D) -> Outcome
    ensures keeps { MergeKeeps (around D.tells (D.reading desk.old) (D.reading desk.new) (D.writing desk.old) (D.writing desk.new)) files.now result }
{
    match repeat(files) {
        Some(name) => names_outcome(alloc, name),
        None => run_apart(alloc, files, desk),
    }
}

// The first of the names that equals an earlier one.
fn repeat<'a>(files: &MergeFiles<'a>) -> Option<&'a Name>
    ensures { MatchOption result (AreApart files.now.one files.now.two files.now.part)
        (λ name. IsRepeat files.now.one files.now.two files.now.part name.now) }
{
    if files.one.is(files.two) {
        return Some(files.two);
    }
    if files.one.is(files.part) || files.two.is(files.part) {
        return Some(files.part);
    }
    None
}

// The same where the names differ.
fn run_apart<D: Desk>(alloc: Global, files: &MergeFiles<'_>, desk: &mut D) -> Outcome
    requires { AreApart files.now.one files.now.two files.now.part }
    ensures { MergeKeeps (around D.tells (D.reading desk.old) (D.reading desk.new) (D.writing desk.old) (D.writing desk.new)) files.now result }
{
    match read_two(alloc, files.one, files.two, desk) {
        Ok((first, second)) => write_joined(alloc, &first, &second, files.part, desk),
        Err(answer) => answer,
    }
}

//! Plays a case over a desk in memory.
use crate::case::{Case, Step};
use crate::check::{check_absent, check_answer, check_begins, check_file, check_same};
use crate::each_call::play_each_call;
use ioam_base::memory::NoMemory;
use ioam_base::name::Name;
use ioam_cmd::{OpenGate, ioam, line};
use ioam_desk::MemoryDesk;
use std::alloc::Global;
use std::thread::Threads;

/// The desk after a case, and the line of its last run.
#[derive(Drop)]
pub(crate) struct Played {
    pub(crate) desk: MemoryDesk,
    pub(crate) line: String,
}

/// Plays a case in pieces of each of its sizes, and says what differs.
pub(crate) fn play<R: Threads + Sync>(
    rt: &R,
    alloc: Global,
    case: &Case,
    said: &mut String,
) -> Result<(), NoMemory> {
    if case.pieces.is_empty() {
        return play_in(rt, alloc, case, usize::MAX, said);
    }
    for piece in case.pieces.iter() {
        let mut differences = String::new(alloc);
        play_in(rt, alloc, case, *piece, &mut differences)?;
        if !differences.is_empty() {
            write!(said, "  in pieces of {piece}\n{differences}")?;
        }
    }
    Ok(())
}

fn play_in<R: Threads + Sync>(
    rt: &R,
    alloc: Global,
    case: &Case,
    piece: usize,
    said: &mut String,
) -> Result<(), NoMemory> {
    match &case.each_call {
        Some(each_call) => play_each_call(rt, alloc, case, each_call, piece, said),
        None => {
            play_once(rt, alloc, case, piece, case.call, said)?;
            Ok(())
        }
    }
}

/// Plays a case once, with the numbered call failing, and says what differs.
pub(crate) fn play_once<R: Threads + Sync>(
    rt: &R,
    alloc: Global,
    case: &Case,
    piece: usize,
    call: u64,
    said: &mut String,
) -> Result<Played, NoMemory> {
    let mut desk = MemoryDesk::new(alloc)?;
    desk.set_piece(piece.max(1));
    desk.fail_call(call)?;
    let mut line = String::new(alloc);
    for step in case.steps.iter() {
        match step {
            Step::Put(file) => desk.put_file(file.name.text(), &file.octets)?,
            Step::Run(words) => line = line_of(rt, alloc, words, &mut desk)?,
            _ => check(said, &desk, line.as_str(), step)?,
        }
    }
    Ok(Played { desk, line })
}

// The answer's line of a run.
fn line_of<R: Threads + Sync>(
    rt: &R,
    alloc: Global,
    words: &[Name],
    desk: &mut MemoryDesk,
) -> Result<String, NoMemory> {
    line(alloc, &ioam(rt, alloc, words, desk, &OpenGate))
}

fn check(said: &mut String, desk: &MemoryDesk, line: &str, step: &Step) -> Result<(), NoMemory> {
    match step {
        Step::Answer(wanted) => check_answer(said, line, wanted.as_str()),
        Step::Output(file) => check_file(said, desk, file),
        Step::Begins(file) => check_begins(said, desk, file),
        Step::Same(name, other) => check_same(said, desk, name.text(), other.text()),
        Step::Absent(name) => check_absent(said, desk, name.text()),
        Step::Put(_) | Step::Run(_) => Ok(()),
    }
}

//! `ioam_cases`: plays the cases of files over a desk in memory, and prints what came of each.
//!
//! The words of its command line name the files; docs/CASES.md says what stands in them. Cases are tests, and no
//! part of `ioam`.
#![tactic(auto)]

mod block;
mod case;
mod check;
mod each_call;
mod fault;
mod fill;
mod parser;
mod play;
mod suite;

use crate::suite::{Counts, play_text};
use ioam_base::memory::NoMemory;
use std::alloc::Global;
use std::process::ExitCode;
use std::rt::Files;
use std::thread::Threads;
use std::{env, fs, io};

/// Plays the cases of each file that the command line names. The last line counts them; the status is 1 if one
/// failed.
fn main(rt: HostRuntime) -> io::Result<ExitCode> {
    let mut counts = Counts::new();
    for name in env::args(&rt)?.skip(1) {
        let mut said = String::new(rt.alloc());
        play_file(&rt, rt.alloc(), name.as_str(), &mut counts, &mut said).map_err(
            |_| out_of_memory(),
        )?;
        print!(rt; "{said}")?;
    }
    println!(rt; "{counts}")?;
    Ok(ExitCode::from(u8::from(counts.has_failed())))
}

// Plays the cases of a file. One that can't be read, or isn't UTF-8, counts as a case that failed.
fn play_file<R: Files + AllocGlobal + Threads + Sync>(
    rt: &R,
    alloc: Global,
    name: &str,
    counts: &mut Counts,
    said: &mut String,
) -> Result<(), NoMemory> {
    match fs::read_to_string(rt, name) {
        Ok(text) => play_text(rt, alloc, name, text.as_str(), counts, said),
        Err(_) => counts.count(said, name, "    no file of text\n"),
    }
}

fn out_of_memory() -> io::Error {
    io::Error::from(io::ErrorKind::OutOfMemory)
}

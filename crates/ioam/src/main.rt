//! `ioam`: packets with In Situ OAM (RFC 9197), read from and written to packet captures.
#![tactic(auto)]

use ioam_base::memory::NoMemory;
use ioam_base::name::Name;
use ioam_cmd::{OpenGate, Outcome, ioam, line, status};
use ioam_desk::{Fault, FileSystem, HostDesk, MachineFiles};
use ioam_words::say_usage;
use std::alloc::Global;
use std::env;
use std::io::ErrorKind;
use std::process::ExitCode;

/// Runs the words of the command line over the files of the machine, prints the answer's line and
/// ends with its status. Of a fault of reading or writing it says on standard error which file it
/// was, and what the system said; where the words are of no command's form, which forms there are.
fn main(rt: HostRuntime) -> ExitCode {
    let mut desk = HostDesk::new(MachineFiles(&rt), rt.alloc());
    let words = words_of(&rt);
    let outcome = match &words {
        Ok(words) => ioam(&rt, rt.alloc(), words, &mut desk, &OpenGate),
        Err(Unread::Word) => Outcome::Usage,
        Err(Unread::NoMemory) => Outcome::NoMemory,
    };
    let fault = fault_line(rt.alloc(), &desk, &outcome);
    // The files are closed before anything is printed: one of them may stand where standard output was
    // closed.
    drop(desk);
    if let Ok(line) = line(rt.alloc(), &outcome) {
        let _ = println!(rt; "{line}");
    }
    if let Some(line) = fault {
        let _ = eprintln!(rt; "ioam: {line}");
    }
    if let Outcome::Usage = outcome {
        say_usage(&rt, first_of(&words));
    }
    ExitCode::from(status(&outcome))
}

// Which file an answer is about, and what the system said of it.
fn fault_line<R: FileSystem>(
    alloc: Global,
    desk: &HostDesk<R>,
    outcome: &Outcome,
) -> Option<String> {
    match outcome {
        Outcome::ReadFault => line_of(alloc, desk.read_fault()),
        Outcome::WriteFault => line_of(alloc, desk.write_fault()),
        _ => None,
    }
}

fn line_of(alloc: Global, fault: Option<Fault<'_>>) -> Option<String> {
    let fault = fault?;
    match format!(in alloc; "{fault}") {
        Ok(line) => Some(line),
        Err(_) => None,
    }
}

// Why the words of the command line aren't there: one isn't UTF-8, which no command's word is, or no
// memory could be had.
#[derive(Clone, Copy)]
enum Unread {
    Word,
    NoMemory,
}

// The words behind the program's name.
fn words_of<R: std::rt::Env + AllocGlobal>(rt: &R) -> Result<Vec<Name>, Unread> {
    let args = match env::args(rt) {
        Ok(args) => args,
        Err(error) if error.kind() == ErrorKind::OutOfMemory => return Err(Unread::NoMemory),
        Err(_) => return Err(Unread::Word),
    };
    let mut words = Vec::new(rt.alloc());
    for arg in args.skip(1) {
        let Ok(word) = Name::new(rt.alloc(), arg.as_str()) else {
            return Err(Unread::NoMemory);
        };
        if words.push(word).is_err() {
            return Err(Unread::NoMemory);
        }
    }
    Ok(words)
}

// The first word; none where there is no word, or some word couldn't be read.
fn first_of(words: &Result<Vec<Name>, Unread>) -> &str {
    match words {
        Ok(words) => match words.first() {
            Some(word) => word.text(),
            None => "",
        },
        Err(_) => "",
    }
}

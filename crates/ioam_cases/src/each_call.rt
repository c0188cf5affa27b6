//! Runs each of whose calls fails once.
use crate::case::{Case, EachCall, State, Step};
use crate::play::play_once;
use ioam_base::memory::NoMemory;
use ioam_desk::MemoryDesk;
use std::alloc::Global;
use std::thread::Threads;

// The greatest number of a call that is tried.
const MOST_CALLS: u64 = 2000;

// The kinds of failed calls that are counted.
const KINDS: [&str; 3] = [
    "failed reads that leave no output",
    "failed reads that leave a state",
    "failed writes",
];

// What became of the runs so far.
#[derive(Drop)]
struct Tally {
    // How many calls failed of each kind.
    faults: [u64; 3],
    // The states that a read left, in order.
    left: Vec<usize>,
}

/// Plays a case with the first call failing, the second, and so on to the run in which none does, and says what
/// differs.
pub(crate) fn play_each_call<R: Threads + Sync>(
    rt: &R,
    alloc: Global,
    case: &Case,
    each_call: &EachCall,
    piece: usize,
    said: &mut String,
) -> Result<(), NoMemory> {
    let mut tally = Tally {
        faults: [0; 3],
        left: Vec::new(alloc),
    };
    for call in 1..MOST_CALLS {
        let mut differences = String::new(alloc);
        let played = play_once(rt, alloc, case, piece, call, &mut differences)?;
        let is_so = match played.line.as_str() {
            "read fault" => is_read_fault(case, each_call, &mut tally, piece, call, &played.desk)?,
            "write fault" => is_write_fault(case, &mut tally, &played.desk),
            _ => {
                said.push_str(differences.as_str())?;
                return check_tally(said, each_call, &tally);
            }
        };
        if !is_so {
            let line = played.line;
            writeln!(said, "    {line} at call {call}, which may not leave this")?;
            return Ok(());
        }
    }
    writeln!(said, "    a call failed in each of {MOST_CALLS} runs")?;
    Ok(())
}

// Whether no output of a case is there.
fn are_absent(case: &Case, desk: &MemoryDesk) -> bool {
    for step in case.steps.iter() {
        if let Step::Output(file) = step {
            if desk.file(file.name.text()).is_some() {
                return false;
            }
        }
    }
    true
}

// Whether each output of a case that is there is a prefix of what it has to be.
fn are_begun(case: &Case, desk: &MemoryDesk) -> bool {
    for step in case.steps.iter() {
        if let Step::Output(file) = step {
            let held = desk.file(file.name.text()).unwrap_or(b"");
            if !file.octets.as_slice().starts_with(held) {
                return false;
            }
        }
    }
    true
}

// Whether the outputs of a state are what they have to be.
fn are_held(state: &State, desk: &MemoryDesk) -> bool {
    for file in state.outputs.iter() {
        if desk.file(file.name.text()) != Some(file.octets.as_slice()) {
            return false;
        }
    }
    true
}

// Whether some number of reads, no more than these calls, hands out the octets of a state, and fewer than the next
// one wants.
fn is_handed(states: &[State], index: usize, piece: usize, calls: u64) -> bool {
    let from = states.get(index).map_or(0, |state| state.from);
    let piece = (piece as u64).max(1);
    let reads = from.div_ceil(piece);
    let next = states.get(index.saturating_add(1));
    reads <= calls && next.is_none_or(|next| reads.saturating_mul(piece) < next.from)
}

// The state that is left, no earlier than the last one that was.
fn state_of(
    each_call: &EachCall,
    tally: &Tally,
    piece: usize,
    call: u64,
    desk: &MemoryDesk,
) -> Option<usize> {
    let first = tally.left.last().copied().unwrap_or(0);
    let calls = call.saturating_sub(each_call.opens).saturating_sub(1);
    for (index, state) in each_call.states.iter().enumerate().skip(first) {
        let is_handed = each_call.opens == 0 || is_handed(&each_call.states, index, piece, calls);
        if is_handed && are_held(state, desk) {
            return Some(index);
        }
    }
    None
}

// Counts a read that failed. It leaves no output as long as files are opened, and a state of the case afterwards.
fn is_read_fault(
    case: &Case,
    each_call: &EachCall,
    tally: &mut Tally,
    piece: usize,
    call: u64,
    desk: &MemoryDesk,
) -> Result<bool, NoMemory> {
    if are_absent(case, desk) {
        tally.faults[0] = tally.faults[0].saturating_add(1);
        return Ok(tally.left.is_empty() && (each_call.opens == 0 || call <= each_call.opens));
    }
    match state_of(each_call, tally, piece, call, desk) {
        Some(index) if call > each_call.opens => {
            tally.faults[1] = tally.faults[1].saturating_add(1);
            tally.left.push(index)?;
            Ok(true)
        }
        _ => Ok(false),
    }
}

// Counts a write that failed. It leaves a prefix of each output.
fn is_write_fault(case: &Case, tally: &mut Tally, desk: &MemoryDesk) -> bool {
    tally.faults[2] = tally.faults[2].saturating_add(1);
    are_begun(case, desk)
}

// Says which faults there were too few of, and which states were to be left and weren't.
fn check_tally(said: &mut String, each_call: &EachCall, tally: &Tally) -> Result<(), NoMemory> {
    for (kind, (count, least)) in KINDS
        .iter()
        .zip(tally.faults.iter().zip(each_call.least.iter()))
    {
        if count < least {
            writeln!(said, "    {kind}: {count}, not {least}")?;
        }
    }
    for (index, state) in each_call.states.iter().enumerate() {
        if state.is_reached && !tally.left.contains(&index) {
            writeln!(said, "    state {index} wasn't left")?;
        }
    }
    Ok(())
}

//! What differs from what has to be.
use crate::case::File;
use ioam_base::memory::NoMemory;
use ioam_desk::MemoryDesk;

// How many octets that differ are shown of a file.
const SHOWN: u32 = 8;

/// Says how the line of a run differs from what it has to be.
pub(crate) fn check_answer(said: &mut String, line: &str, wanted: &str) -> Result<(), NoMemory> {
    if line != wanted {
        writeln!(said, "    answer {line}, not {wanted}")?;
    }
    Ok(())
}

/// Says how a file of the desk differs from these octets, octet by octet.
pub(crate) fn check_file(
    said: &mut String,
    desk: &MemoryDesk,
    wanted: &File,
) -> Result<(), NoMemory> {
    match desk.file(wanted.name.text()) {
        Some(held) => check_octets(said, wanted.name.text(), held, &wanted.octets),
        None => say_missing(said, wanted.name.text()),
    }
}

/// Says where a file of the desk doesn't begin with these octets.
pub(crate) fn check_begins(
    said: &mut String,
    desk: &MemoryDesk,
    wanted: &File,
) -> Result<(), NoMemory> {
    match desk.file(wanted.name.text()) {
        Some(held) => {
            let begin = held.get(..wanted.octets.len()).unwrap_or(held);
            check_octets(said, wanted.name.text(), begin, &wanted.octets)
        }
        None => say_missing(said, wanted.name.text()),
    }
}

/// Says where two files of the desk differ.
pub(crate) fn check_same(
    said: &mut String,
    desk: &MemoryDesk,
    name: &str,
    other: &str,
) -> Result<(), NoMemory> {
    match (desk.file(name), desk.file(other)) {
        (Some(held), Some(wanted)) => check_octets(said, name, held, wanted),
        (None, _) => say_missing(said, name),
        (_, None) => say_missing(said, other),
    }
}

/// Says that there is a file of this name, if there is.
pub(crate) fn check_absent(
    said: &mut String,
    desk: &MemoryDesk,
    name: &str,
) -> Result<(), NoMemory> {
    if desk.file(name).is_some() {
        writeln!(said, "    {name} is there")?;
    }
    Ok(())
}

fn say_missing(said: &mut String, name: &str) -> Result<(), NoMemory> {
    writeln!(said, "    {name} isn't there")?;
    Ok(())
}

fn check_octets(said: &mut String, name: &str, held: &[u8], wanted: &[u8]) -> Result<(), NoMemory> {
    let mut shown = 0u32;
    for (offset, (octet, other)) in held.iter().zip(wanted).enumerate() {
        if octet != other && shown < SHOWN {
            writeln!(
                said,
                "    {name} octet {offset} is {octet:02x}, not {other:02x}"
            )?;
            shown = shown.saturating_add(1);
        }
    }
    let (size, other) = (held.len(), wanted.len());
    if size != other {
        writeln!(said, "    {name} has {size} octets, not {other}")?;
    }
    Ok(())
}

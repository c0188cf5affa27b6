//! Domain files at their limits.
use crate::domains::{NODES, is_read_so};
use crate::faults::has_fault;
use crate::node_data::repeated;
use ioam_base::memory::NoMemory;
use std::alloc::Global;

// A file as far as a node's name, and the rest of it.
const BEFORE_NAME: &str = "node = [{ name = \"";

const BEHIND_NAME: &str = "\", id = 1, address = \"::\" }]";

// A file as far as the name of a port's output, and the rest of it.
const BEFORE_OUT: &str =
    "node = [{ name = \"a\", id = 1, address = \"::\" }]\nport = [{ name = \"p\", node = \"a\", id = 1, out = \"";

const BEHIND_OUT: &str = "\" }]";

// The keys of a link behind its name.
const TAPPED: &str =
    "from = \"a\", to = \"b\", out_id = 1, in_id = 1, delay = 0, mtu = 1280, tap = \"t\" }, ";

// 16 octets of comment.
const COMMENT: &str = "# no table here\n";

// Whether a text that repeats a part so often is read.
fn is_read(alloc: Global, front: &str, part: &str, count: u32, back: &str) -> bool {
    match repeated(alloc, front, part, count, back) {
        Ok(file) => is_read_so(alloc, file.as_str(), |_| true),
        Err(NoMemory) => false,
    }
}

// Whether a text that repeats a part so often has this fault.
fn is_refused(
    alloc: Global,
    front: &str,
    part: &str,
    count: u32,
    back: &str,
    wanted: &str,
) -> bool {
    match repeated(alloc, front, part, count, back) {
        Ok(file) => has_fault(alloc, file.as_str(), wanted),
        Err(NoMemory) => false,
    }
}

// Whether a name has 32 letters at most.
fn has_names_of_32(alloc: Global) -> bool {
    let wanted = "table: NodeTable, place: 1, field: Field(\"name\"), why: Range";
    is_read(alloc, BEFORE_NAME, "a", 32, BEHIND_NAME)
        && is_refused(alloc, BEFORE_NAME, "a", 33, BEHIND_NAME, wanted)
}

// Whether the name of a file has 255 octets at most.
fn has_outs_of_255(alloc: Global) -> bool {
    let wanted = "table: PortTable, place: 1, field: Field(\"out\"), why: Range";
    is_read(alloc, BEFORE_OUT, "/", 255, BEHIND_OUT)
        && is_refused(alloc, BEFORE_OUT, "/", 256, BEHIND_OUT, wanted)
}

// Whether a file has 1 MiB at most: files of comments.
fn has_files_of_1_mib(alloc: Global) -> bool {
    let wanted = "table: Top, place: 0, field: Field(\"-\"), why: Long";
    is_read(alloc, "", COMMENT, 65_536, "") && is_refused(alloc, "#", COMMENT, 65_536, "", wanted)
}

// A link with a tap.
fn put_link(alloc: Global, file: &mut String, at: u32) -> Result<(), NoMemory> {
    let name = format!(in alloc; "{{ name = \"{at}\", ")?;
    file.push_str(name.as_str())?;
    file.push_str(TAPPED)?;
    Ok(())
}

// A file of two nodes and so many links, each with a tap.
fn tapped(alloc: Global, count: u32) -> Result<String, NoMemory> {
    let mut file = String::new(alloc);
    file.push_str(NODES)?;
    file.push_str("link = [")?;
    for at in 0..count {
        put_link(alloc, &mut file, at)?;
    }
    file.push_str("]")?;
    Ok(file)
}

// Whether so many links may have a tap.
fn are_tapped(alloc: Global, count: u32) -> bool {
    match tapped(alloc, count) {
        Ok(file) => is_read_so(alloc, file.as_str(), |_| true),
        Err(NoMemory) => false,
    }
}

// Whether so many links have a tap too many.
fn are_too_many(alloc: Global, count: u32) -> bool {
    let wanted = "table: LinkTable, place: 65, field: Field(\"tap\"), why: TooMany";
    match tapped(alloc, count) {
        Ok(file) => has_fault(alloc, file.as_str(), wanted),
        Err(NoMemory) => false,
    }
}

#[test]
fn names_have_their_lengths(rt: HostRuntime) {
    let alloc = rt.alloc();
    assert!(rt; has_names_of_32(alloc) && has_outs_of_255(alloc));
}

#[test]
fn links_have_64_taps(rt: HostRuntime) {
    let alloc = rt.alloc();
    assert!(rt; are_tapped(alloc, 64) && are_too_many(alloc, 65));
}

#[test]
fn a_file_has_1_mib(rt: HostRuntime) {
    assert!(rt; has_files_of_1_mib(rt.alloc()));
}

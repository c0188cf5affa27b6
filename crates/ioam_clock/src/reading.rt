//! A file of readings that is read, or refused by its first fault.
ghost use Rattle.std.specs.Prelude.{◌≡◌, ◌↔◌, ◌≤◌, ◌<◌, ℕ, List, length, replicate, [], Ok, IfOk, vec_len};
ghost use Rattle.ioam_topo.specs.Domain.{nodes};
ghost use Rattle.ioam_clock.specs.Lines.{lines};
ghost use Rattle.ioam_clock.specs.Reading.{node_of, node_names, line_added, lines_added, readings_of, IsReading};
ghost use Rattle.ioam_clock.specs.Adding.{Adds, AddsLines, refused_at};
ghost use Rattle.ioam_clock.specs.File.{line_says, IsFileRead};
ghost use Rattle.ioam_clock.specs.Spelled.{SpellsLine};
ghost use Rattle.ioam_clock.specs.declared.sample.Sample.{Sample};

use crate::adding::{add_sample, sample_of};
use crate::fault::{ReadWhy, ReadingsFault, ReadingsRefused};
use crate::line::split_line;
use crate::readings::Readings;
use crate::refused::Refused;
use crate::track::Track;
use ioam_base::memory::NoMemory;
use ioam_topo::Domain;
use std::alloc::Global;

/// The most octets of a file of readings: 64 MiB.
pub const MOST_OCTETS: usize = 67_108_864;

// The place of the node that a word names.
fn node_of(domain: &Domain, word: &[u8]) -> Result<usize, ReadWhy>
    ensures value { result ≡ node_of (node_names domain.now) word.now }
    ensures inside { IfOk result (λ node. node < length (node_names domain.now)) }
{
    let Ok(name) = std::str::from_utf8(word) else {
        return Err(ReadWhy::Node);
    };
    match domain.node_named(name) {
        Some(node) => Ok(node.0 as usize),
        None => Err(ReadWhy::Node),
    }
}

// Adds the sample that a line says.
fn add_line(domain: &Domain, tracks: &mut Vec<Track>, line: &[u8]) -> Result<(), Refused>
    requires { vec_len tracks.old ≡ length (node_names domain.now) }
    ensures adds { Adds result tracks.new.items (line_added (node_names domain.now) tracks.old.items line.now) }
    ensures len { vec_len tracks.new ≡ vec_len tracks.old }
{
    if line.is_empty() {
        return Ok(());
    }
    let words = match split_line(line) {
        Ok(words) => words,
        Err(why) => return Err(Refused::Because(why)),
    };
    let node = match node_of(domain, words.node) {
        Ok(node) => node,
        Err(why) => return Err(Refused::Because(why)),
    };
    let sample = match sample_of(&words) {
        Ok(sample) => sample,
        Err(why) => return Err(Refused::Because(why)),
    };
    add_sample(tracks, node, sample)
}

// Why a line wasn't read, at its number.
fn refused_at(line: u32, refused: Refused) -> ReadingsRefused
    ensures { result ≡ refused_at line refused }
{
    match refused {
        Refused::Because(why) => ReadingsRefused::Fault(ReadingsFault { line, why }),
        Refused::NoMemory => ReadingsRefused::NoMemory,
    }
}

// Adds the samples of the lines of a file.
fn add_lines(domain: &Domain, tracks: &mut Vec<Track>, octets: &[u8]) -> Result<(), ReadingsRefused>
    requires len { vec_len tracks.old ≡ length (node_names domain.now) }
    requires few { length octets.now ≤ 67108864 }
    ensures len { vec_len tracks.new ≡ vec_len tracks.old }
    ensures adds { AddsLines result tracks.new.items (lines_added (node_names domain.now) 1 tracks.old.items (lines octets.now)) }
{
    let mut number: u32 = 0;
    for line in octets.split(|octet| *octet == b'\n') {
        number += 1;
        match add_line(domain, tracks, line) {
            Ok(()) => {}
            Err(refused) => return Err(refused_at(number, refused)),
        }
    }
    Ok(())
}

// No samples for so many nodes.
fn no_samples(alloc: Global, nodes: usize) -> Result<Vec<Track>, NoMemory>
    ensures { IfOk result (λ tracks. tracks.items ≡ replicate nodes []) }
{
    let mut tracks = Vec::new(alloc);
    for _ in 0..nodes {
        tracks.push(Track::new(alloc))?;
    }
    Ok(tracks)
}

/// Reads the samples of a domain's nodes. A file has lines that end with a line feed, which the last
/// may lack. An empty line holds nothing; any other has six words with one space between each two:
///
/// ```text
/// NODE TIME CLOCK DELAY QUEUE BUFFER
/// ```
///
/// NODE is the name of a node. TIME, CLOCK and DELAY are nanoseconds below 2^63, QUEUE and BUFFER are
/// below 2^32, in decimal digits without a zero in front save `0` itself; the last three may be `-`
/// where the node can't fill the field. Each line's TIME is after that of the same node's line before.
/// The samples of a node are those of the lines that name it, in their order.
///
/// Of the faults of a file the first line's is answered, and of that line's the first in the order
/// Words, Node, Number, Order; before all of them Long, for more than 64 MiB. Where there is no
/// memory, NoMemory may be answered in place of anything else.
pub fn read_readings(
    alloc: Global,
    domain: &Domain,
    octets: &[u8],
) -> Result<Readings, ReadingsRefused>
    ensures reads { IsReading result (readings_of (node_names domain.now) octets.now) }
    ensures nodes { IfOk result (λ readings. length readings ≡ length (nodes domain.now)) }
    ensures file { IsFileRead (node_names domain.now) octets.now result }
    ensures spelled { (line : List ℕ) (node : ℕ) (sample : Sample) → (line_says (node_names domain.now) line ≡ Ok (node, sample)) ↔ SpellsLine (node_names domain.now) line node sample }
{
    if octets.len() > MOST_OCTETS {
        return Err(ReadingsRefused::Fault(ReadingsFault {
            line: 0,
            why: ReadWhy::Long,
        }));
    }
    let mut tracks = match no_samples(alloc, domain.nodes().len()) {
        Ok(tracks) => tracks,
        Err(_) => return Err(ReadingsRefused::NoMemory),
    };
    match add_lines(domain, &mut tracks, octets) {
        Ok(()) => Ok(Readings { tracks }),
        Err(refused) => Err(refused),
    }
}

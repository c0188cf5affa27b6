//! Messages, written: one with the templates, then one for each run of records of one template.

ghost use Rattle.std.specs.Prelude.{◌≡◌, ℕ, ◌+◌, ◌-◌, ◌≤◌, ◌<◌, List, ◌++◌, length, replicate, flat_map, OnOk, OnErr, vec_len, vec_capacity};
ghost use Rattle.std.specs.List.{AllByRecursion};
ghost use Rattle.ioam_dex.specs.Record.{Record, IsRecord, Rec, record_octets};
ghost use Rattle.ioam_dex.specs.Reads.{records_octets};
ghost use Rattle.ioam_ipfix.specs.Data.{template_of, data_octets};
ghost use Rattle.ioam_ipfix.specs.Templates.{template_octets, all_ids};
ghost use Rattle.ioam_ipfix.specs.Written.{message_octets, templates_message, IsRun, run_message, BeginsRecord, AreRecords, IsRunText};

use crate::data::{put, put_moved, template_of};
use crate::kind::{FIRST_TEMPLATE, LAST_TEMPLATE};
use crate::message::HEAD;
use crate::template::template;
use ioam_base::buffer::Buffer;
use ioam_base::memory::NoMemory;
use ioam_base::octets::{put_at, u16_at};
use ioam_dex::element_in;
use ioam_dex::fields::LENGTH;

/// The octets of the heads of a message and of its one set.
const HEADS: usize = 20;

/// The most octets of the eight templates.
const TEMPLATES_MOST: usize = 608;

// Takes room for a message with so many octets in its set, and leaves its heads open.
fn reserve_heads(content: usize, out: &mut Vec<u8>) -> Result<(), NoMemory>
    requires { content ≤ 65535 }
    ensures ok { OnOk result (out.new.items ≡ out.old.items ++ replicate 20 0) }
    ensures len { OnOk result (vec_len out.new ≡ vec_len out.old + 20) }
    ensures room { OnOk result (vec_len out.new + content ≤ vec_capacity out.new) }
    ensures err { OnErr result (out.new.items ≡ out.old.items) }
{
    out.reserve(HEADS + content)?;
    put(&[0; HEADS], out);
    Ok(())
}

// Writes the heads of the message that begins at a place and reaches to the end.
fn write_heads(start: usize, count: u64, id: u16, out: &mut Vec<u8>)
    requires open { start + 20 ≤ vec_len out.old }
    requires small { vec_len out.old ≤ start + 65535 }
    ensures { (front content : List ℕ) → length front ≡ start → out.old.items ≡ front ++ (replicate 20 0 ++ content)
        → out.new.items ≡ front ++ message_octets count id content }
{
    let size = out.len() - start;
    let mut heads = Buffer::new();
    heads.two(10);
    heads.two(size as u16);
    heads.four(0);
    heads.four((count % (1 << 32)) as u32);
    heads.four(0);
    heads.two(id);
    heads.two((size - HEAD) as u16);
    put_at(out.as_mut_slice(), start, heads.octets());
}

// Appends the eight templates, for which there is room.
fn put_all(out: &mut Vec<u8>)
    requires { vec_len out.old + 608 ≤ vec_capacity out.old }
    ensures items { out.new.items ≡ out.old.items ++ flat_map template_octets all_ids }
    ensures len { (vec_len out.old ≤ vec_len out.new) × (vec_len out.new ≤ vec_len out.old + 608) }
{
    'templates: for id in FIRST_TEMPLATE..LAST_TEMPLATE + 1 {
        put(template(id).octets(), out);
    }
}

/// Appends the message with the eight templates, the first of a stream. Without memory `out` is as
/// before.
pub fn put_templates(out: &mut Vec<u8>) -> Result<(), NoMemory>
    ensures ok { OnOk result (out.new.items ≡ out.old.items ++ templates_message) }
    ensures err { OnErr result (out.new.items ≡ out.old.items) }
{
    let start = out.len();
    reserve_heads(TEMPLATES_MOST, out)?;
    put_all(out);
    write_heads(start, 0, 2, out);
    Ok(())
}

// The octets in front of a record's element.
fn front_in(octets: &[u8]) -> usize
    requires { (x : Record) × Rec octets.now x }
    ensures { (x : Record) → Rec octets.now x → result + length x.element ≡ length octets.now }
{
    let kind_and_element = element_in(octets);
    octets.len() - kind_and_element.1.len()
}

// Appends the data record of the record in front of octets, for which there is room, and answers how
// many of them that takes.
fn put_first(rest: &[u8], out: &mut Vec<u8>) -> usize
    requires begins { BeginsRecord rest.now }
    requires room { vec_len out.old + length rest.now ≤ vec_capacity out.old }
    ensures taken { (x : Record) (behind : List ℕ) → IsRecord x → rest.now ≡ record_octets x ++ behind
        → (result ≡ length (record_octets x)) × (out.new.items ≡ out.old.items ++ data_octets x) }
    ensures size { (0 < result) × (result ≤ length rest.now) }
    ensures len { (vec_len out.old ≤ vec_len out.new) × (vec_len out.new ≤ vec_len out.old + result) }
    ensures capacity { vec_capacity out.old ≤ vec_capacity out.new }
{
    let size = usize::from(u16_at(rest, LENGTH));
    let first = &rest[..size];
    put_moved(first, front_in(first), out);
    size
}

// Appends the data records of records, for which there is room.
fn put_records(run: &[u8], out: &mut Vec<u8>)
    requires records { AreRecords run.now }
    requires room { vec_len out.old + length run.now ≤ vec_capacity out.old }
    ensures items { (xs : List Record) → AllByRecursion IsRecord xs → run.now ≡ records_octets xs
        → out.new.items ≡ out.old.items ++ flat_map data_octets xs }
    ensures len { (vec_len out.old ≤ vec_len out.new) × (vec_len out.new ≤ vec_len out.old + length run.now) }
{
    let mut at = 0;
    'records: while at < run.len() {
        at += put_first(&run[at..], out);
    }
}

// The template of the first record.
fn first_template(run: &[u8]) -> u16
    requires { BeginsRecord run.now }
    ensures { (x : Record) (behind : List ℕ) → IsRecord x → run.now ≡ record_octets x ++ behind → result ≡ template_of x }
{
    let size = usize::from(u16_at(run, LENGTH));
    template_of(&run[..size])
}

/// Appends the message of a run: 1 to 32 records of one template, one behind the other as
/// `put_export` of ioam_dex writes them, behind so many records in earlier messages. Without memory
/// `out` is as before.
pub fn put_message(count: u64, run: &[u8], out: &mut Vec<u8>) -> Result<(), NoMemory>
    requires { IsRunText run.now }
    ensures ok { OnOk result ((id : ℕ) (xs : List Record) → IsRun id xs → run.now ≡ records_octets xs
        → out.new.items ≡ out.old.items ++ run_message count id xs) }
    ensures err { OnErr result (out.new.items ≡ out.old.items) }
{
    let start = out.len();
    reserve_heads(run.len(), out)?;
    put_records(run, out);
    write_heads(start, count, first_template(run), out);
    Ok(())
}

//! What two collectors hold, joined, and what one holds, as a part that is read back.
ghost use Rattle.std.specs.Prelude.{◌<◌, ◌^◌};

use crate::groups::{FIRST, LATER, SECOND, add, has_lines};
use ioam_collect::{Collector, Joined};
use ioam_part::{PartFault, PartRefused, put_part, read_part};
use ioam_test_rows::digits::octets;
use std::alloc::Global;
use std::test::Fail;

// The mark, and that one record follows.
const HEAD_OF_ONE: &str = "494f414d50415254 00000001";

const ONE: &str = "group 7 9 0 1
  800000 hop=64 node=1
records 1 kept 1 repeats 0 unkeyed 0
";

const ONE_TWICE: &str = "group 7 9 0 1
  800000 hop=64 node=1
records 2 kept 1 repeats 1 unkeyed 0
";

const ONE_VISITED: &str = "group 7 9 0 1
  800000 hop=64 node=1 at=1000000000 from=10
records 2 kept 1 repeats 1 unkeyed 0
";

// A collector of one record at most, which holds that of these digits.
fn of_one(alloc: Global, digits: &str) -> Result<Collector, Fail> {
    let mut collector = Collector::new(alloc, 1)?;
    let _added = add(alloc, &mut collector, &[digits])?;
    Ok(collector)
}

// What a collector holds, as a part.
fn part_of(alloc: Global, collector: &Collector) -> Result<Vec<u8>, Fail> {
    let mut part = Vec::new(alloc);
    put_part(collector, &mut part)?;
    Ok(part)
}

// Whether a collector that takes another in answers so.
fn answers(collector: &mut Collector, other: &Collector, wanted: Joined) -> Result<bool, Fail> {
    Ok(collector.join(other)? == wanted)
}

// Whether a collector of this record, joined to one of that, answers so and has these lines.
fn joins(alloc: Global, to: &str, joined: &str, wanted: Joined, lines: &str) -> Result<bool, Fail> {
    let mut collector = of_one(alloc, to)?;
    let other = of_one(alloc, joined)?;
    Ok(answers(&mut collector, &other, wanted)? && has_lines(alloc, &collector, lines)?)
}

// What a collector holds, read back from its part.
fn copied(alloc: Global, collector: &Collector) -> Result<Collector, Fail> {
    let part = part_of(alloc, collector)?;
    Ok(read_part(alloc, &part, 1)?)
}

// Whether a collector takes its own part in, and holds no more then.
fn takes_its_part_in(alloc: Global) -> Result<bool, Fail> {
    let mut collector = of_one(alloc, FIRST)?;
    let copy = copied(alloc, &collector)?;
    Ok(answers(&mut collector, &copy, Joined::Joined)? && has_lines(alloc, &collector, ONE_TWICE)?)
}

#[test]
fn collectors_that_are_joined(rt: HostRuntime) -> Result<(), Fail> {
    let alloc = rt.alloc();
    assert!(rt; joins(alloc, FIRST, LATER, Joined::Full, ONE)?);
    assert!(rt; joins(alloc, FIRST, FIRST, Joined::Joined, ONE_TWICE)?);
    assert!(rt; joins(alloc, FIRST, SECOND, Joined::Joined, ONE_VISITED)?);
    assert!(rt; joins(alloc, SECOND, FIRST, Joined::Joined, ONE_VISITED)?);
    assert!(rt; takes_its_part_in(alloc)?);
    Ok(())
}

// Why these octets are no part of at most so many records, if they are none.
fn refused(alloc: Global, digits: &[&str], limit: u32) -> Result<Option<PartRefused>, Fail>
    requires { limit < 2 ^ 31 }
{
    let part = octets(alloc, digits)?;
    Ok(read_part(alloc, &part, limit).err())
}

#[test]
fn a_part_and_octets_that_are_none(rt: HostRuntime) -> Result<(), Fail> {
    let alloc = rt.alloc();
    let part = part_of(alloc, &of_one(alloc, FIRST)?)?;
    assert!(rt; part == octets(alloc, &[HEAD_OF_ONE, FIRST])?);
    let rest = PartRefused::Fault(34, PartFault::Rest);
    assert!(rt; refused(alloc, &[HEAD_OF_ONE, FIRST], 1)? == None);
    assert!(rt; refused(alloc, &[HEAD_OF_ONE, FIRST], 0)? == Some(PartRefused::Full));
    assert!(rt; refused(alloc, &[HEAD_OF_ONE, FIRST, "01"], 0)? == Some(rest));
    Ok(())
}

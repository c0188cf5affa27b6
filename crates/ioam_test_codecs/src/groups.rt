//! Export records regrouped.
ghost use Rattle.std.specs.Prelude.{◌<◌, ◌^◌};

use ioam_collect::{Added, Collector};
use ioam_dex::{RecordRef, export_of};
use ioam_report_groups::put_groups;
use ioam_test_rows::digits::octets;
use std::alloc::Global;
use std::test::Fail;

// Adds the record of these octets.
fn add_record(collector: &mut Collector, octets: &[u8]) -> Result<Added, Fail> {
    match export_of(octets) {
        Some(_) => Ok(collector.add(&RecordRef::new(octets))?),
        None => Err(Fail::from("no record")),
    }
}

// Adds the record of these digits.
pub(crate) fn add(
    alloc: Global,
    collector: &mut Collector,
    digits: &[&str],
) -> Result<Added, Fail> {
    let octets = octets(alloc, digits)?;
    add_record(collector, &octets)
}

// Whether the collector's groups have these lines.
pub(crate) fn has_lines(alloc: Global, collector: &Collector, lines: &str) -> Result<bool, Fail> {
    let mut out = Vec::new(alloc);
    put_groups(collector, &mut out)?;
    Ok(out.as_slice() == lines.as_bytes())
}

// Whether the collector answers so for each of these.
fn all_answer(
    alloc: Global,
    collector: &mut Collector,
    rows: &[(&str, Added)],
) -> Result<bool, Fail> {
    for (digits, wanted) in rows {
        if add(alloc, collector, &[*digits])? != *wanted {
            return Ok(false);
        }
    }
    Ok(true)
}

// Whether a collector of so many records answers so for each, and then has these lines.
fn answers(alloc: Global, limit: u32, rows: &[(&str, Added)], lines: &str) -> Result<bool, Fail>
    requires { limit < 2 ^ 31 }
{
    let mut collector = Collector::new(alloc, limit)?;
    Ok(all_answer(alloc, &mut collector, rows)? && has_lines(alloc, &collector, lines)?)
}

// Adds each of these records.
fn add_all(alloc: Global, collector: &mut Collector, rows: &[[&str; 5]]) -> Result<(), Fail> {
    for row in rows {
        let _added = add(alloc, collector, row)?;
    }
    Ok(())
}

// Whether these records, each added so often, have these lines.
fn regroup(alloc: Global, rows: &[[&str; 5]], times: u32, lines: &str) -> Result<bool, Fail> {
    let mut collector = Collector::new(alloc, 1000)?;
    for _ in 0..times {
        add_all(alloc, &mut collector, rows)?;
    }
    has_lines(alloc, &collector, lines)
}

// One record of namespace 7, flow 9 and sequence number 0, without its visit and with it.
pub(crate) const FIRST: &str = "01c00016 0007 00 800000 00000009 00000000 40000001";

pub(crate) const SECOND: &str =
    "02c00022 0007 00 800000 000000003b9aca00 0000000a 00000009 00000000 40000001";

const ONE: &str = "group 7 9 0 1
  800000 hop=64 node=1 at=1000000000 from=10
records 3 kept 1 repeats 2 unkeyed 0
";

// Three records, and one without numbers.
pub(crate) const LATER: &str = "01c00016 0007 00 800000 00000009 00000000 3f000002";

const OTHER: &str = "01c00016 0006 00 800000 00000009 00000001 3e000003";

const UNKEYED: &str = "0100000e 0007 00 800000 3f000002";

const TWO: &str = "group 7 9 0 2
  800000 hop=64 node=1
  800000 hop=63 node=2
records 4 kept 2 repeats 1 unkeyed 1
";

fn visits_rows() -> [(&'static str, Added); 3] {
    [
        (FIRST, Added::Kept),
        (SECOND, Added::Replaced),
        (FIRST, Added::Repeat),
    ]
}

fn full_rows() -> [(&'static str, Added); 5] {
    [
        (LATER, Added::Kept),
        (FIRST, Added::Kept),
        (OTHER, Added::Full),
        (LATER, Added::Repeat),
        (UNKEYED, Added::Unkeyed),
    ]
}

#[test]
fn a_record_that_tells_its_visit_takes_the_place(rt: HostRuntime) -> Result<(), Fail> {
    assert!(rt; answers(rt.alloc(), 1000, &visits_rows(), ONE)?);
    assert!(rt; answers(rt.alloc(), 1, &visits_rows(), ONE)?);
    assert!(rt; answers(rt.alloc(), 2, &full_rows(), TWO)?);
    Ok(())
}

const HEAD: &str = "02c00022 0007 00 800000";

const FLOW: &str = "00000009";

const AT_A: &str = "000000003b9aca00 0000000a";

const AT_B: &str = "000000003b9acde8 00000015";

const AT_C: &str = "000000003b9ad1d0 00000020";

// Three packets of one flow over three nodes, the last record first.
fn paths() -> [[&'static str; 5]; 9] {
    [
        [HEAD, AT_C, FLOW, "00000002", "3e000003"],
        [HEAD, AT_B, FLOW, "00000002", "3f000002"],
        [HEAD, AT_A, FLOW, "00000002", "40000001"],
        [HEAD, AT_C, FLOW, "00000001", "3e000003"],
        [HEAD, AT_B, FLOW, "00000001", "3f000002"],
        [HEAD, AT_A, FLOW, "00000001", "40000001"],
        [HEAD, AT_C, FLOW, "00000000", "3e000003"],
        [HEAD, AT_B, FLOW, "00000000", "3f000002"],
        [HEAD, AT_A, FLOW, "00000000", "40000001"],
    ]
}

const PATHS: &str = "group 7 9 0 3
  800000 hop=64 node=1 at=1000000000 from=10
  800000 hop=63 node=2 at=1000001000 from=21
  800000 hop=62 node=3 at=1000002000 from=32
group 7 9 1 3
  800000 hop=64 node=1 at=1000000000 from=10
  800000 hop=63 node=2 at=1000001000 from=21
  800000 hop=62 node=3 at=1000002000 from=32
group 7 9 2 3
  800000 hop=64 node=1 at=1000000000 from=10
  800000 hop=63 node=2 at=1000001000 from=21
  800000 hop=62 node=3 at=1000002000 from=32
records 18 kept 9 repeats 9 unkeyed 0
";

// One packet that two nodes send to one another until its hop limit ends.
fn loop_rows() -> [[&'static str; 5]; 5] {
    [
        [
            HEAD,
            "000000003b9ad5b8 00000015",
            FLOW,
            "00000000",
            "02000002",
        ],
        [
            HEAD,
            "000000003b9ad9a0 0000000d",
            FLOW,
            "00000000",
            "01000001",
        ],
        [
            HEAD,
            "000000003b9ad1d0 0000000d",
            FLOW,
            "00000000",
            "03000001",
        ],
        [HEAD, AT_A, FLOW, "00000000", "05000001"],
        [HEAD, AT_B, FLOW, "00000000", "04000002"],
    ]
}

const LOOP: &str = "group 7 9 0 5
  800000 hop=5 node=1 at=1000000000 from=10
  800000 hop=4 node=2 at=1000001000 from=21
  800000 hop=3 node=1 at=1000002000 from=13
  800000 hop=2 node=2 at=1000003000 from=21
  800000 hop=1 node=1 at=1000004000 from=13
records 5 kept 5 repeats 0 unkeyed 0
";

#[test]
fn records_in_any_order_are_paths(rt: HostRuntime) -> Result<(), Fail> {
    assert!(rt; regroup(rt.alloc(), &paths(), 2, PATHS)?);
    assert!(rt; regroup(rt.alloc(), &loop_rows(), 1, LOOP)?);
    Ok(())
}

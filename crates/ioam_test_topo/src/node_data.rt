//! Data of nodes in a domain file.
use crate::domains::{NODES, is_read_so};
use crate::faults::{has_fault, joined};
use ioam_base::memory::NoMemory;
use ioam_data::Namespace;
use ioam_topo::{Domain, NodeData, NodeId};
use std::alloc::Global;

// The data of two nodes: their greatest numbers, digits in either case, and a snapshot of nothing.
const DATA: &str = "data = [
  { node = \"a\", namespace = 7, short = 4294967295, wide = 9223372036854775807 },
  { node = \"b\", namespace = 7, schema = 16777214, snapshot = \"0123456789ABCDEFabcdefAB\" },
  { snapshot = \"\", schema = 0, namespace = 65535, node = \"a\" },
  { node = \"a\", namespace = 0, short = 0, wide = 0 },
]
";

// Each row is a fault, and behind ` # ` node data of two nodes of which it is the first.
pub(crate) const OF_DATA: &str =
    "table: DataTable, place: 1, field: Field(\"other\"), why: Unknown # data = [{ colour = 1 }]|\
table: DataTable, place: 1, field: Field(\"other\"), why: Unknown # data = [{ node = 1, namespaces = [7] }]|\
table: DataTable, place: 1, field: Field(\"node\"), why: Missing # data = [{ namespace = -1 }]|\
table: DataTable, place: 1, field: Field(\"node\"), why: Kind # data = [{ node = 1 }]|\
table: DataTable, place: 1, field: Field(\"node\"), why: Range # data = [{ node = \"a b\" }]|\
table: DataTable, place: 1, field: Field(\"node\"), why: Unknown # data = [{ node = \"c\", namespace = 7 }, { node = \"c\", namespace = 7 }]|\
table: DataTable, place: 1, field: Field(\"namespace\"), why: Missing # data = [{ node = \"a\", short = -1 }]|\
table: DataTable, place: 1, field: Field(\"namespace\"), why: Kind # data = [{ node = \"a\", namespace = [7] }]|\
table: DataTable, place: 1, field: Field(\"namespace\"), why: Range # data = [{ node = \"a\", namespace = -1 }]|\
table: DataTable, place: 1, field: Field(\"namespace\"), why: Range # data = [{ node = \"a\", namespace = 65536 }]|\
table: DataTable, place: 2, field: Field(\"namespace\"), why: Twice # data = [{ node = \"a\", namespace = 7 }, { node = \"a\", namespace = 7, short = -1 }]|\
table: DataTable, place: 4, field: Field(\"namespace\"), why: Twice # data = [{ node = \"a\", namespace = 7 }, { node = \"b\", namespace = 7 }, { node = \"a\", namespace = 8 }, { node = \"b\", namespace = 7 }]|\
table: DataTable, place: 1, field: Field(\"short\"), why: Kind # data = [{ node = \"a\", namespace = 7, short = \"1\" }]|\
table: DataTable, place: 1, field: Field(\"short\"), why: Range # data = [{ node = \"a\", namespace = 7, short = -1 }]|\
table: DataTable, place: 1, field: Field(\"short\"), why: Range # data = [{ node = \"a\", namespace = 7, short = 4294967296 }]|\
table: DataTable, place: 1, field: Field(\"wide\"), why: Kind # data = [{ node = \"a\", namespace = 7, wide = 1.0 }]|\
table: DataTable, place: 1, field: Field(\"wide\"), why: Range # data = [{ node = \"a\", namespace = 7, wide = -1 }]|\
table: Top, place: 0, field: Field(\"-\"), why: Text # data = [{ node = \"a\", namespace = 7, wide = 9223372036854775808 }]|\
table: DataTable, place: 1, field: Field(\"schema\"), why: Missing # data = [{ node = \"a\", namespace = 7, snapshot = \"\" }]|\
table: DataTable, place: 1, field: Field(\"schema\"), why: Kind # data = [{ node = \"a\", namespace = 7, schema = \"1\" }]|\
table: DataTable, place: 1, field: Field(\"schema\"), why: Range # data = [{ node = \"a\", namespace = 7, schema = -1 }]|\
table: DataTable, place: 1, field: Field(\"schema\"), why: Range # data = [{ node = \"a\", namespace = 7, schema = 16777215, snapshot = \"\" }]|\
table: DataTable, place: 1, field: Field(\"snapshot\"), why: Missing # data = [{ node = \"a\", namespace = 7, schema = 1 }]|\
table: DataTable, place: 1, field: Field(\"snapshot\"), why: Kind # data = [{ node = \"a\", namespace = 7, schema = 1, snapshot = 1 }]|\
table: DataTable, place: 1, field: Field(\"snapshot\"), why: Range # data = [{ node = \"a\", namespace = 7, schema = 1, snapshot = \"0123456789ab\" }]|\
table: DataTable, place: 1, field: Field(\"snapshot\"), why: Range # data = [{ node = \"a\", namespace = 7, schema = 1, snapshot = \"0123456g\" }]|\
table: DataTable, place: 1, field: Field(\"snapshot\"), why: Range # data = [{ node = \"a\", namespace = 7, schema = 1, snapshot = \"0x012345\" }]|\
table: DataTable, place: 1, field: Field(\"schema\"), why: Missing # data = [{ node = \"a\", namespace = 7, snapshot = 1 }]|\
table: DataTable, place: 1, field: Field(\"short\"), why: Range # data = [{ wide = -1, short = -1, namespace = 7, node = \"a\" }]|\
table: DataTable, place: 1, field: Field(\"short\"), why: Range # data = [{ node = \"a\", namespace = 7, short = -1, wide = -1 }]|\
table: DataTable, place: 1, field: Field(\"wide\"), why: Range # data = [{ node = \"a\", namespace = 7, wide = -1 }, { node = \"c\" }]|\
table: DataTable, place: 1, field: Field(\"node\"), why: Unknown # data = [{ node = \"c\" }, { node = \"a\", namespace = 7, wide = -1 }]|\
table: DataTable, place: 1, field: Field(\"node\"), why: Missing # flow = 1\ndata = [{}]";

// A table as far as its first entry, its most entries, the fault of an entry without keys, and that
// of one entry too many.
const ROOMS: [(&str, u16, &str, &str); 7] = [
    (
        "node = [",
        256,
        "NodeTable, place: 1, field: Field(\"name\"), why: Missing",
        "NodeTable, place: 0, field: Field(\"-\"), why: TooMany",
    ),
    (
        "link = [",
        1024,
        "LinkTable, place: 1, field: Field(\"name\"), why: Missing",
        "LinkTable, place: 0, field: Field(\"-\"), why: TooMany",
    ),
    (
        "port = [",
        64,
        "PortTable, place: 1, field: Field(\"name\"), why: Missing",
        "PortTable, place: 0, field: Field(\"-\"), why: TooMany",
    ),
    (
        "route = [",
        16384,
        "RouteTable, place: 1, field: Field(\"node\"), why: Missing",
        "RouteTable, place: 0, field: Field(\"-\"), why: TooMany",
    ),
    (
        "data = [",
        4096,
        "DataTable, place: 1, field: Field(\"node\"), why: Missing",
        "DataTable, place: 0, field: Field(\"-\"), why: TooMany",
    ),
    (
        "flow = [",
        256,
        "FlowTable, place: 1, field: Field(\"name\"), why: Missing",
        "FlowTable, place: 0, field: Field(\"-\"), why: TooMany",
    ),
    (
        "extra = [",
        512,
        "ExtraTable, place: 1, field: Field(\"flow\"), why: Missing",
        "ExtraTable, place: 0, field: Field(\"-\"), why: TooMany",
    ),
];

// The data of a node as far as its snapshot, and the fault of one of too many digits.
const SNAPSHOT: &str =
    "node = [{ name = \"a\", id = 1, address = \"::\" }]\ndata = [{ node = \"a\", namespace = 7, schema = 1, snapshot = \"";

const LONG_SNAPSHOT: &str = "DataTable, place: 1, field: Field(\"snapshot\"), why: Range";

// The octets of the snapshot of the second node.
const SPELLED: [u8; 12] = [
    0x01, 0x23, 0x45, 0x67, 0x89, 0xab, 0xcd, 0xef, 0xab, 0xcd, 0xef, 0xab,
];

// The first text, the second so often, and the third.
pub(crate) fn repeated(
    alloc: Global,
    front: &str,
    part: &str,
    count: u32,
    back: &str,
) -> Result<String, NoMemory> {
    let mut file = String::new(alloc);
    file.push_str(front)?;
    for _ in 0..count {
        file.push_str(part)?;
    }
    file.push_str(back)?;
    Ok(file)
}

// Whether a table of so many empty entries has this fault.
fn has_fault_of(alloc: Global, table: &str, count: u32, wanted: &str) -> bool {
    match repeated(alloc, table, "{},", count, "]") {
        Ok(file) => has_fault(alloc, file.as_str(), wanted),
        Err(NoMemory) => false,
    }
}

// Whether a table has room for so many entries and no more: with so many empty ones the first has
// this fault, and with one more the table has that one.
fn is_most(alloc: Global, table: &str, most: u16, missing: &str, many: &str) -> bool {
    has_fault_of(alloc, table, u32::from(most), missing)
        && has_fault_of(alloc, table, u32::from(most) + 1, many)
}

// A node whose data have a snapshot of so many words.
fn with_words(alloc: Global, words: u32) -> Result<String, NoMemory> {
    repeated(alloc, SNAPSHOT, "00c0ffee", words, "\" }]\n")
}

// Whether tables have room for so many entries and no more.
fn are_most(alloc: Global, rooms: &[(&str, u16, &str, &str)]) -> bool {
    for room in rooms {
        if !is_most(alloc, room.0, room.1, room.2, room.3) {
            return false;
        }
    }
    true
}

// Whether the first node's snapshot in namespace 7 has so many octets.
fn has_octets(alloc: Global, file: &str, count: usize) -> bool {
    is_read_so(alloc, file, |domain| {
        size_of(domain.node_data(NodeId(0), Namespace(7))) == count
    })
}

// How many octets a snapshot has.
fn size_of(row: Option<&NodeData>) -> usize {
    match row {
        Some(row) => match &row.snapshot {
            Some(octets) => octets.list().len(),
            None => 0,
        },
        None => 0,
    }
}

// Whether a snapshot of so many words is read.
fn is_read(alloc: Global, words: u32) -> bool {
    match with_words(alloc, words) {
        Ok(file) => has_octets(alloc, file.as_str(), words as usize * 4),
        Err(NoMemory) => false,
    }
}

// Whether a snapshot of so many words is too long.
fn is_long(alloc: Global, words: u32) -> bool {
    match with_words(alloc, words) {
        Ok(file) => has_fault(alloc, file.as_str(), LONG_SNAPSHOT),
        Err(NoMemory) => false,
    }
}

// Whether node data have these numbers: narrow and wide data, and the schema.
fn has_numbers(row: Option<&NodeData>, wanted: (Option<u32>, Option<u64>, Option<u32>)) -> bool {
    match row {
        Some(row) => (row.short, row.wide, row.schema) == wanted,
        None => false,
    }
}

// Whether node data have a snapshot of these octets.
fn has_snapshot(row: Option<&NodeData>, wanted: &[u8]) -> bool {
    match row {
        Some(row) => match &row.snapshot {
            Some(octets) => octets.list() == wanted,
            None => false,
        },
        None => false,
    }
}

// Whether the nodes have these data, and no others.
fn has_data(domain: &Domain) -> bool {
    let greatest = domain.node_data(NodeId(0), Namespace(7));
    let spelled = domain.node_data(NodeId(1), Namespace(7));
    let empty = domain.node_data(NodeId(0), Namespace(65535));
    let least = domain.node_data(NodeId(0), Namespace(0));
    has_numbers(
        greatest,
        (Some(4_294_967_295), Some(9_223_372_036_854_775_807), None),
    ) && has_numbers(spelled, (None, None, Some(16_777_214)))
        && has_snapshot(spelled, &SPELLED)
        && has_numbers(empty, (None, None, Some(0)))
        && has_snapshot(empty, &[])
        && has_numbers(least, (Some(0), Some(0), None))
        && has_no_others(domain)
}

// Whether no node has data besides those.
fn has_no_others(domain: &Domain) -> bool {
    domain.data().len() == 4
        && domain.node_data(NodeId(0), Namespace(8)).is_none()
        && domain.node_data(NodeId(1), Namespace(0)).is_none()
        && domain.node_data(NodeId(2), Namespace(7)).is_none()
}

// Whether the file of node data is read, and has them.
fn reads_data(alloc: Global) -> bool {
    match joined(alloc, [NODES, DATA, "", ""]) {
        Ok(file) => is_read_so(alloc, file.as_str(), has_data),
        Err(NoMemory) => false,
    }
}

#[test]
fn reads_node_data(rt: HostRuntime) {
    let alloc = rt.alloc();
    assert!(rt;
        reads_data(alloc) && are_most(alloc, &ROOMS) && is_read(alloc, 45) && is_long(alloc, 46)
    );
}

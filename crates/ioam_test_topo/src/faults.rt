//! Faults of domain files.
use crate::domains::{LINKS, NODES, PORTS, refusal_of};
use crate::flow_rows::{FLOW_NODES, OF_EXTRAS, OF_FLOWS};
use crate::node_data::OF_DATA;
use ioam_base::memory::NoMemory;
use ioam_topo_file::DomainRefused;
use std::alloc::Global;

// Each row is a fault, and behind ` # ` a file of which it is the first.
// The file as a whole.
const OF_FILES: &str = "table: Top, place: 0, field: Field(\"-\"), why: Text # format|\
table: Top, place: 0, field: Field(\"other\"), why: Unknown # colour = 1|\
table: Top, place: 0, field: Field(\"format\"), why: Kind # format = 1|\
table: Top, place: 0, field: Field(\"format\"), why: Range # format = \"utc\"|\
table: Top, place: 0, field: Field(\"packets\"), why: Kind # packets = \"1\"|\
table: Top, place: 0, field: Field(\"packets\"), why: Range # packets = 0|\
table: Top, place: 0, field: Field(\"packets\"), why: Range # packets = 16777217|\
table: Top, place: 0, field: Field(\"-\"), why: Text # packets = 9223372036854775808|\
table: NodeTable, place: 0, field: Field(\"-\"), why: Kind # node = 1|\
table: LinkTable, place: 0, field: Field(\"-\"), why: Kind # link = [1]|\
table: PortTable, place: 0, field: Field(\"-\"), why: Kind # port = {}|\
table: RouteTable, place: 0, field: Field(\"-\"), why: Kind # route = \"\"|\
table: FlowTable, place: 1, field: Field(\"name\"), why: Missing # flow = [{}]|\
table: DataTable, place: 0, field: Field(\"-\"), why: Kind # data = 1|\
table: FlowTable, place: 0, field: Field(\"-\"), why: Kind # flow = [[]]|\
table: Top, place: 0, field: Field(\"format\"), why: Kind # packets = 0\nformat = 1|\
table: NodeTable, place: 0, field: Field(\"-\"), why: Kind # link = 1\nnode = 1|\
table: Top, place: 0, field: Field(\"packets\"), why: Range # node = 1\npackets = 0|\
table: DataTable, place: 1, field: Field(\"node\"), why: Missing # flow = [{}]\ndata = [{}]";

// Nodes.
const OF_NODES: &str =
    "table: NodeTable, place: 1, field: Field(\"other\"), why: Unknown # node = [{ colour = 1, id = -1 }]|\
table: NodeTable, place: 1, field: Field(\"name\"), why: Missing # node = [{ id = -1 }]|\
table: NodeTable, place: 1, field: Field(\"name\"), why: Kind # node = [{ name = 1, id = -1 }]|\
table: NodeTable, place: 1, field: Field(\"name\"), why: Range # node = [{ name = \"a b\" }]|\
table: NodeTable, place: 1, field: Field(\"id\"), why: Missing # node = [{ name = \"a\" }]|\
table: NodeTable, place: 1, field: Field(\"id\"), why: Kind # node = [{ name = \"a\", id = \"1\" }]|\
table: NodeTable, place: 1, field: Field(\"id\"), why: Range # node = [{ name = \"a\", id = 72057594037927936 }]|\
table: NodeTable, place: 1, field: Field(\"address\"), why: Missing # node = [{ name = \"a\", id = 1 }]|\
table: NodeTable, place: 1, field: Field(\"address\"), why: Kind # node = [{ name = \"a\", id = 1, address = 1 }]|\
table: NodeTable, place: 1, field: Field(\"namespaces\"), why: Kind # node = [{ name = \"a\", id = 1, address = \"::\", namespaces = 7 }]|\
table: NodeTable, place: 1, field: Field(\"namespaces\"), why: Kind # node = [{ name = \"a\", id = 1, address = \"::\", namespaces = [65536, \"7\"] }]|\
table: NodeTable, place: 1, field: Field(\"namespaces\"), why: Range # node = [{ name = \"a\", id = 1, address = \"::\", namespaces = [7, 7, 65536] }]|\
table: NodeTable, place: 1, field: Field(\"namespaces\"), why: Twice # node = [{ name = \"a\", id = 1, address = \"::\", namespaces = [1, 2, 3, 4, 5, 6, 7, 8, 9, 10, 11, 12, 13, 14, 15, 16, 16] }]|\
table: NodeTable, place: 1, field: Field(\"namespaces\"), why: TooMany # node = [{ name = \"a\", id = 1, address = \"::\", namespaces = [1, 2, 3, 4, 5, 6, 7, 8, 9, 10, 11, 12, 13, 14, 15, 16, 17] }]|\
table: NodeTable, place: 2, field: Field(\"name\"), why: Twice # node = [{ name = \"a\", id = 1, address = \"::\" }, { name = \"a\", id = -1 }]|\
table: NodeTable, place: 2, field: Field(\"id\"), why: Twice # node = [{ name = \"a\", id = 1, address = \"::\" }, { name = \"b\", id = 1, address = \"::\" }]|\
table: NodeTable, place: 2, field: Field(\"address\"), why: Twice # node = [{ name = \"a\", id = 1, address = \"::\" }, { name = \"b\", id = 2, address = \"0:0:0:0:0:0:0:0\" }]|\
table: NodeTable, place: 1, field: Field(\"address\"), why: Range # node = [{ name = \"a\", id = 1, address = \":::\" }, { name = \"a\" }]|\
table: NodeTable, place: 1, field: Field(\"address\"), why: Range # node = [{ name = \"a\", id = 1, address = \":::\" }]|\
table: NodeTable, place: 1, field: Field(\"address\"), why: Range # node = [{ name = \"a\", id = 1, address = \"1::2::3\" }]|\
table: NodeTable, place: 1, field: Field(\"address\"), why: Range # node = [{ name = \"a\", id = 1, address = \"12345::\" }]|\
table: NodeTable, place: 1, field: Field(\"address\"), why: Range # node = [{ name = \"a\", id = 1, address = \"::ffff:1.2.3.4\" }]|\
table: NodeTable, place: 1, field: Field(\"address\"), why: Range # node = [{ name = \"a\", id = 1, address = \"fe80::1%a\" }]|\
table: NodeTable, place: 1, field: Field(\"address\"), why: Range # node = [{ name = \"a\", id = 1, address = \"\" }]|\
table: NodeTable, place: 1, field: Field(\"address\"), why: Range # node = [{ name = \"a\", id = 1, address = \"1:2:3:4:5:6:7:8:9\" }]|\
table: NodeTable, place: 1, field: Field(\"address\"), why: Range # node = [{ name = \"a\", id = 1, address = \"1:2:3:4:5:6:7\" }]|\
table: NodeTable, place: 1, field: Field(\"address\"), why: Range # node = [{ name = \"a\", id = 1, address = \"1::2:3:4:5:6:7:8\" }]|\
table: NodeTable, place: 1, field: Field(\"address\"), why: Range # node = [{ name = \"a\", id = 1, address = \"::1 \" }]";

// Links between two nodes.
const OF_LINKS: &str =
    "table: LinkTable, place: 1, field: Field(\"name\"), why: Kind # link = [{ name = 1 }]|\
table: LinkTable, place: 1, field: Field(\"name\"), why: Range # link = [{ name = \"\" }]|\
table: LinkTable, place: 1, field: Field(\"to\"), why: Kind # link = [{ name = \"l\", from = \"a\", to = 1 }]|\
table: LinkTable, place: 1, field: Field(\"to\"), why: Range # link = [{ name = \"l\", from = \"a\", to = \"a b\" }]|\
table: LinkTable, place: 1, field: Field(\"out_id\"), why: Kind # link = [{ name = \"l\", from = \"a\", to = \"b\", out_id = \"1\" }]|\
table: LinkTable, place: 1, field: Field(\"in_id\"), why: Missing # link = [{ name = \"l\", from = \"a\", to = \"b\", out_id = 1 }]|\
table: LinkTable, place: 1, field: Field(\"in_id\"), why: Range # link = [{ name = \"l\", from = \"a\", to = \"b\", out_id = 1, in_id = -1 }]|\
table: LinkTable, place: 1, field: Field(\"delay\"), why: Missing # link = [{ name = \"l\", from = \"a\", to = \"b\", out_id = 1, in_id = 1 }]|\
table: LinkTable, place: 1, field: Field(\"delay\"), why: Kind # link = [{ name = \"l\", from = \"a\", to = \"b\", out_id = 1, in_id = 1, delay = \"1\" }]|\
table: LinkTable, place: 1, field: Field(\"mtu\"), why: Missing # link = [{ name = \"l\", from = \"a\", to = \"b\", out_id = 1, in_id = 1, delay = 0 }]|\
table: LinkTable, place: 1, field: Field(\"mtu\"), why: Kind # link = [{ name = \"l\", from = \"a\", to = \"b\", out_id = 1, in_id = 1, delay = 0, mtu = \"1\" }]|\
table: LinkTable, place: 1, field: Field(\"other\"), why: Unknown # link = [{ colour = 1 }]|\
table: LinkTable, place: 1, field: Field(\"name\"), why: Missing # link = [{ from = \"c\" }]|\
table: LinkTable, place: 1, field: Field(\"from\"), why: Missing # link = [{ name = \"l\" }]|\
table: LinkTable, place: 1, field: Field(\"from\"), why: Kind # link = [{ name = \"l\", from = 1 }]|\
table: LinkTable, place: 1, field: Field(\"from\"), why: Range # link = [{ name = \"l\", from = \"a b\" }]|\
table: LinkTable, place: 1, field: Field(\"from\"), why: Unknown # link = [{ name = \"l\", from = \"c\", to = \"c\" }]|\
table: LinkTable, place: 1, field: Field(\"to\"), why: Missing # link = [{ name = \"l\", from = \"a\" }]|\
table: LinkTable, place: 1, field: Field(\"to\"), why: Unknown # link = [{ name = \"l\", from = \"a\", to = \"c\" }]|\
table: LinkTable, place: 1, field: Field(\"to\"), why: Range # link = [{ name = \"l\", from = \"a\", to = \"a\" }]|\
table: LinkTable, place: 1, field: Field(\"out_id\"), why: Missing # link = [{ name = \"l\", from = \"a\", to = \"b\" }]|\
table: LinkTable, place: 1, field: Field(\"out_id\"), why: Range # link = [{ name = \"l\", from = \"a\", to = \"b\", out_id = 4294967296 }]|\
table: LinkTable, place: 1, field: Field(\"in_id\"), why: Kind # link = [{ name = \"l\", from = \"a\", to = \"b\", out_id = 1, in_id = \"1\" }]|\
table: LinkTable, place: 1, field: Field(\"delay\"), why: Range # link = [{ name = \"l\", from = \"a\", to = \"b\", out_id = 1, in_id = 1, delay = 1000000001 }]|\
table: LinkTable, place: 1, field: Field(\"mtu\"), why: Range # link = [{ name = \"l\", from = \"a\", to = \"b\", out_id = 1, in_id = 1, delay = 0, mtu = 1279 }]|\
table: LinkTable, place: 1, field: Field(\"mtu\"), why: Range # link = [{ name = \"l\", from = \"a\", to = \"b\", out_id = 1, in_id = 1, delay = 0, mtu = 65576 }]|\
table: LinkTable, place: 1, field: Field(\"tap\"), why: Kind # link = [{ name = \"l\", from = \"a\", to = \"b\", out_id = 1, in_id = 1, delay = 0, mtu = 1280, tap = 1 }]|\
table: LinkTable, place: 1, field: Field(\"tap\"), why: Range # link = [{ name = \"l\", from = \"a\", to = \"b\", out_id = 1, in_id = 1, delay = 0, mtu = 1280, tap = \"\" }]|\
table: LinkTable, place: 2, field: Field(\"name\"), why: Twice # link = [{ name = \"l\", from = \"a\", to = \"b\", out_id = 1, in_id = 1, delay = 0, mtu = 1280 }, { name = \"l\" }]";

// Ports of two nodes.
const OF_PORTS: &str =
    "table: PortTable, place: 1, field: Field(\"name\"), why: Missing # port = [{ node = \"c\" }]|\
table: PortTable, place: 1, field: Field(\"name\"), why: Kind # port = [{ name = 1 }]|\
table: PortTable, place: 1, field: Field(\"node\"), why: Kind # port = [{ name = \"p\", node = 1 }]|\
table: PortTable, place: 1, field: Field(\"node\"), why: Range # port = [{ name = \"p\", node = \"\" }]|\
table: PortTable, place: 1, field: Field(\"id\"), why: Kind # port = [{ name = \"p\", node = \"a\", id = \"1\" }]|\
table: PortTable, place: 1, field: Field(\"in\"), why: Range # port = [{ name = \"p\", node = \"a\", id = 1, in = \"\" }]|\
table: PortTable, place: 1, field: Field(\"out\"), why: Kind # port = [{ name = \"p\", node = \"a\", id = 1, out = 1 }]|\
table: PortTable, place: 1, field: Field(\"other\"), why: Unknown # port = [{ colour = 1 }]|\
table: PortTable, place: 1, field: Field(\"name\"), why: Range # port = [{ name = \"\", node = \"c\" }]|\
table: PortTable, place: 1, field: Field(\"node\"), why: Missing # port = [{ name = \"p\" }]|\
table: PortTable, place: 1, field: Field(\"node\"), why: Unknown # port = [{ name = \"p\", node = \"c\" }]|\
table: PortTable, place: 1, field: Field(\"id\"), why: Missing # port = [{ name = \"p\", node = \"a\" }]|\
table: PortTable, place: 1, field: Field(\"id\"), why: Range # port = [{ name = \"p\", node = \"a\", id = -1 }]|\
table: PortTable, place: 1, field: Field(\"in\"), why: Kind # port = [{ name = \"p\", node = \"a\", id = 1, in = 1 }]|\
table: PortTable, place: 1, field: Field(\"out\"), why: Missing # port = [{ name = \"p\", node = \"a\", id = 1 }]|\
table: PortTable, place: 1, field: Field(\"out\"), why: Range # port = [{ name = \"p\", node = \"a\", id = 1, out = \"\" }]|\
table: PortTable, place: 2, field: Field(\"name\"), why: Twice # port = [{ name = \"p\", node = \"a\", id = 1, out = \"o\" }, { name = \"p\" }]";

// Routes of two nodes, with a link and two ports.
const OF_ROUTES: &str =
    "table: RouteTable, place: 1, field: Field(\"node\"), why: Kind # route = [{ node = 1 }]|\
table: RouteTable, place: 1, field: Field(\"node\"), why: Range # route = [{ node = \"\" }]|\
table: RouteTable, place: 1, field: Field(\"link\"), why: Kind # route = [{ node = \"a\", prefix = \"::/0\", link = 1 }]|\
table: RouteTable, place: 1, field: Field(\"link\"), why: Range # route = [{ node = \"a\", prefix = \"::/0\", link = \"\" }]|\
table: RouteTable, place: 1, field: Field(\"port\"), why: Kind # route = [{ node = \"a\", prefix = \"::/0\", port = 1 }]|\
table: RouteTable, place: 1, field: Field(\"port\"), why: Range # route = [{ node = \"a\", prefix = \"::/0\", port = \"\" }]|\
table: RouteTable, place: 1, field: Field(\"other\"), why: Unknown # route = [{ colour = 1 }]|\
table: RouteTable, place: 1, field: Field(\"node\"), why: Missing # route = [{ prefix = \"::/129\" }]|\
table: RouteTable, place: 1, field: Field(\"node\"), why: Unknown # route = [{ node = \"c\" }]|\
table: RouteTable, place: 1, field: Field(\"prefix\"), why: Missing # route = [{ node = \"a\" }]|\
table: RouteTable, place: 1, field: Field(\"prefix\"), why: Kind # route = [{ node = \"a\", prefix = 1 }]|\
table: RouteTable, place: 1, field: Field(\"prefix\"), why: Range # route = [{ node = \"a\", prefix = \"::\" }]|\
table: RouteTable, place: 1, field: Field(\"prefix\"), why: Range # route = [{ node = \"a\", prefix = \"::/129\" }]|\
table: RouteTable, place: 1, field: Field(\"prefix\"), why: Range # route = [{ node = \"a\", prefix = \"::/064\" }]|\
table: RouteTable, place: 1, field: Field(\"link\"), why: Missing # route = [{ node = \"a\", prefix = \"::/0\" }]|\
table: RouteTable, place: 1, field: Field(\"link\"), why: Unknown # route = [{ node = \"a\", prefix = \"::/0\", link = \"cd\" }]|\
table: RouteTable, place: 1, field: Field(\"link\"), why: Range # route = [{ node = \"b\", prefix = \"::/0\", link = \"ab\" }]|\
table: RouteTable, place: 1, field: Field(\"port\"), why: Twice # route = [{ node = \"a\", prefix = \"::/0\", link = \"ab\", port = \"west\" }]|\
table: RouteTable, place: 1, field: Field(\"port\"), why: Unknown # route = [{ node = \"a\", prefix = \"::/128\", port = \"up\" }]|\
table: RouteTable, place: 1, field: Field(\"port\"), why: Range # route = [{ node = \"a\", prefix = \"::/128\", port = \"east\" }]|\
table: RouteTable, place: 2, field: Field(\"prefix\"), why: Twice # route = [{ node = \"a\", prefix = \"1::/8\", link = \"ab\" }, { node = \"a\", prefix = \"2::/8\", link = \"ab\" }]";

// The four texts, one behind the other.
pub(crate) fn joined(alloc: Global, parts: [&str; 4]) -> Result<String, NoMemory> {
    let mut file = String::new(alloc);
    for part in parts {
        file.push_str(part)?;
    }
    Ok(file)
}

// The first fault of a file, in words.
fn fault_of(alloc: Global, file: &str) -> Result<String, NoMemory> {
    match refusal_of(alloc, file) {
        Some(DomainRefused::Fault(fault)) => Ok(format!(in alloc; "{fault:?}")?),
        _ => Err(NoMemory),
    }
}

// Whether a file has this fault.
pub(crate) fn has_fault(alloc: Global, file: &str, wanted: &str) -> bool {
    match fault_of(alloc, file) {
        Ok(fault) => fault.as_str().contains(wanted),
        Err(NoMemory) => false,
    }
}

// Whether the file of a row, behind others, has the row's fault.
fn is_so(alloc: Global, nodes: &str, links: &str, ports: &str, row: &str) -> bool {
    let Some((wanted, file)) = row.split_once(" # ") else {
        return false;
    };
    match joined(alloc, [nodes, links, ports, file]) {
        Ok(file) => has_fault(alloc, file.as_str(), wanted),
        Err(NoMemory) => false,
    }
}

// Whether each row's fault is so.
fn are_so(alloc: Global, nodes: &str, links: &str, ports: &str, rows: &str) -> bool {
    for row in rows.split('|') {
        if !is_so(alloc, nodes, links, ports, row) {
            return false;
        }
    }
    true
}

// Whether the faults of the file as a whole are. Each text is named by a function of its own, since the
// proof of one that names several takes long.
fn of_files(alloc: Global) -> bool {
    are_so(alloc, "", "", "", OF_FILES)
}

// Those of nodes.
fn of_nodes(alloc: Global) -> bool {
    are_so(alloc, "", "", "", OF_NODES)
}

// Those of links.
fn of_links(alloc: Global) -> bool {
    are_so(alloc, NODES, "", "", OF_LINKS)
}

// Those of ports.
fn of_ports(alloc: Global) -> bool {
    are_so(alloc, NODES, "", "", OF_PORTS)
}

// Those of routes.
fn of_routes(alloc: Global) -> bool {
    are_so(alloc, NODES, LINKS, PORTS, OF_ROUTES)
}

// Those of node data.
fn of_data(alloc: Global) -> bool {
    are_so(alloc, NODES, "", "", OF_DATA)
}

// Those of flows.
fn of_flows(alloc: Global) -> bool {
    are_so(alloc, FLOW_NODES, "", "", OF_FLOWS)
}

// Those of further traces.
fn of_extras(alloc: Global) -> bool {
    are_so(alloc, FLOW_NODES, "", "", OF_EXTRAS)
}

#[test]
fn names_the_first_fault(rt: HostRuntime) {
    let alloc = rt.alloc();
    assert!(rt; of_files(alloc) && of_nodes(alloc) && of_links(alloc) && of_ports(alloc));
    assert!(rt; of_routes(alloc) && of_data(alloc) && of_flows(alloc) && of_extras(alloc));
}

//! The nodes, links and ports of a generated run.
ghost use Rattle.std.specs.Prelude.{◌≡◌, ◌+◌, ◌<◌, ◌≤◌, IfOk};
ghost use Rattle.ioam_topo_generated.specs.Bulk.{node_of, link_of, port_of, listed, bulk_nodes, bulk_links, bulk_ports};

use ioam_base::memory::NoMemory;
use ioam_base::name::Name;
use ioam_data::Namespace;
use ioam_topo::{Link, Node, NodeId, Port, Spaces};
use std::alloc::Global;

// 2001:db8::
const ADDRESSES: u128 = 0x2001_0db8_0000_0000_0000_0000_0000_0000;

// The namespaces of a node that knows 7, or that lists none.
fn listed(alloc: Global, knows: bool) -> Result<Spaces, NoMemory>
    ensures { IfOk result (λ spaces. spaces ≡ listed knows) }
{
    let mut spaces = Vec::new(alloc);
    if knows {
        spaces.push(Namespace(7))?;
    }
    Ok(Spaces::new(spaces))
}

// A node of a number.
fn node_of(alloc: Global, name: &str, id: u64, knows: bool) -> Result<Node, NoMemory>
    ensures { IfOk result (λ node. node ≡ node_of name.now id (listed knows)) }
{
    let name = Name::new(alloc, name)?;
    let namespaces = listed(alloc, knows)?;
    Ok(Node {
        name,
        id,
        address: ADDRESSES + id as u128,
        namespaces,
    })
}

// The nodes n1 to n5.
pub(crate) fn bulk_nodes(alloc: Global) -> Result<Vec<Node>, NoMemory>
    ensures { IfOk result (λ nodes. nodes.items ≡ bulk_nodes) }
{
    let one = node_of(alloc, "n1", 1, true)?;
    let two = node_of(alloc, "n2", 2, true)?;
    let three = node_of(alloc, "n3", 3, false)?;
    let four = node_of(alloc, "n4", 4, true)?;
    let five = node_of(alloc, "n5", 5, true)?;
    let nodes = vec![in alloc; one, two, three, four, five]?;
    Ok(nodes)
}

// The link from the node of a place to the next one.
fn link_of(alloc: Global, name: &str, at: u32) -> Result<Link, NoMemory>
    requires { at < 4 }
    ensures { IfOk result (λ link. link ≡ link_of name.now at) }
{
    let name = Name::new(alloc, name)?;
    Ok(Link {
        name,
        from: NodeId(at),
        to: NodeId(at + 1),
        out_id: 2,
        in_id: 1,
        delay: 1_000,
        mtu: 1_500,
        tap: None,
    })
}

// The links from each node to the next.
pub(crate) fn bulk_links(alloc: Global) -> Result<Vec<Link>, NoMemory>
    ensures { IfOk result (λ links. links.items ≡ bulk_links) }
{
    let one = link_of(alloc, "n1n2", 0)?;
    let two = link_of(alloc, "n2n3", 1)?;
    let three = link_of(alloc, "n3n4", 2)?;
    let four = link_of(alloc, "n4n5", 3)?;
    let links = vec![in alloc; one, two, three, four]?;
    Ok(links)
}

// A port of the node of a place, at which packets leave.
fn port_of(alloc: Global, name: &str, at: u32, id: u32, file: &str) -> Result<Port, NoMemory>
    ensures { IfOk result (λ port. port ≡ port_of name.now at id file.now) }
{
    let name = Name::new(alloc, name)?;
    let output = Name::new(alloc, file)?;
    Ok(Port {
        name,
        node: NodeId(at),
        id,
        input: None,
        output,
    })
}

// The ports west and east.
pub(crate) fn bulk_ports(alloc: Global) -> Result<Vec<Port>, NoMemory>
    ensures { IfOk result (λ ports. ports.items ≡ bulk_ports) }
{
    let west = port_of(alloc, "west", 0, 1, "west-out.pcap")?;
    let east = port_of(alloc, "east", 4, 2, "east-out.pcap")?;
    let ports = vec![in alloc; west, east]?;
    Ok(ports)
}

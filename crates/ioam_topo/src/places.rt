//! Where the nodes, the routes and the data of a domain are, by what they are looked up by.
ghost use Rattle.std.specs.Prelude.{◌≡◌, ◌≤◌, length, map, IfOk};
ghost use Rattle.ioam_topo.specs.Keyed.{address_of_node, key_of_route, key_of_data};
ghost use Rattle.ioam_topo.specs.Places.{ArePlaces};

use crate::parts::{Node, NodeData, Route};
use crate::prefix::Prefix;
use ioam_base::memory::NoMemory;
use std::alloc::Global;
use std::collections::HashMap;
use std::hash::Hash;

// The place of each of these keys, of equal ones that of the first.
pub(crate) fn places_of<K: Hash + Copy + Drop>(
    alloc: Global,
    keys: &[K],
) -> Result<HashMap<K, u32>, NoMemory>
    requires { length keys.now ≤ 16384 }
    ensures { IfOk result (λ places. ArePlaces K.eq keys.now places) }
{
    let mut places = HashMap::with_capacity(alloc, keys.len())?;
    let mut left = keys.len();
    'keys: while left > 0 {
        left -= 1;
        places.insert(keys[left], left as u32)?;
    }
    Ok(places)
}

// The addresses of nodes.
pub(crate) fn addresses_of(alloc: Global, nodes: &[Node]) -> Result<Vec<u128>, NoMemory>
    ensures { IfOk result (λ keys. keys.items ≡ map address_of_node nodes.now) }
{
    Ok(nodes.iter().map(|node| node.address).collect(alloc)?)
}

// The nodes and the prefixes of routes.
pub(crate) fn prefixes_of(alloc: Global, routes: &[Route]) -> Result<Vec<(u32, Prefix)>, NoMemory>
    ensures { IfOk result (λ keys. keys.items ≡ map key_of_route routes.now) }
{
    Ok(
        routes
            .iter()
            .map(|route| (route.node.0, route.prefix))
            .collect(alloc)?,
    )
}

// The nodes and the namespaces of data.
pub(crate) fn namespaces_of(alloc: Global, rows: &[NodeData]) -> Result<Vec<(u32, u16)>, NoMemory>
    ensures { IfOk result (λ keys. keys.items ≡ map key_of_data rows.now) }
{
    Ok(
        rows.iter()
            .map(|row| (row.node.0, row.namespace.0))
            .collect(alloc)?,
    )
}

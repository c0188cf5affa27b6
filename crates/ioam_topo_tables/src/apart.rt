//! What no two entries share: a set has no key twice, and says so where it is asked for its length.
ghost use Rattle.std.specs.Prelude.{◌≡◌, map};
ghost use Rattle.ioam_topo_tables.specs.Kept.{NodesKept};
ghost use Rattle.ioam_topo.specs.Apart.{AreApart, NodesApart, FlowsApart};
ghost use Rattle.ioam_topo.specs.Keyed.{name_of_link, name_of_port, key_of_route, key_of_data};
ghost use Rattle.ioam_topo_tables.specs.Flows.{name_of_flow, ids_of_flows};

use crate::data_rows::DataRows;
use crate::flows::Flows;
use crate::links::Links;
use crate::nodes::Nodes;
use crate::ports::Ports;
use crate::routes::Routes;

// No two nodes share a name, an id or an address.
pub(crate) fn nodes_differ(nodes: &Nodes)
    requires { NodesKept nodes.now }
    ensures { NodesApart nodes.now.items.items }
{
    prove!(nodes.names.len() == nodes.items.len());
    prove!(nodes.ids.len() == nodes.items.len());
    prove!(nodes.addresses.len() == nodes.items.len());
}

// No two links share a name.
pub(crate) fn links_differ(links: &Links)
    requires { links.now.names ≡ map name_of_link links.now.items.items }
    ensures { AreApart name_of_link links.now.items.items }
{
    prove!(links.names.len() == links.items.len());
}

// No two ports share a name.
pub(crate) fn ports_differ(ports: &Ports)
    requires { ports.now.names ≡ map name_of_port ports.now.items.items }
    ensures { AreApart name_of_port ports.now.items.items }
{
    prove!(ports.names.len() == ports.items.len());
}

// No two routes of one node share a prefix.
pub(crate) fn routes_differ(routes: &Routes)
    requires { routes.now.taken.keys ≡ map key_of_route routes.now.items.items }
    ensures { AreApart key_of_route routes.now.items.items }
{
    prove!(routes.taken.len() == routes.items.len());
}

// No two entries of node data share a node and a namespace.
pub(crate) fn rows_differ(rows: &DataRows)
    requires { rows.now.taken.keys ≡ map key_of_data rows.now.items.items }
    ensures { AreApart key_of_data rows.now.items.items }
{
    prove!(rows.taken.len() == rows.items.len());
}

// No two flows share a name or, in one namespace, an id.
pub(crate) fn flows_differ(flows: &Flows)
    requires named { flows.now.names ≡ map name_of_flow flows.now.items.items }
    requires keyed { flows.now.taken.keys ≡ ids_of_flows flows.now.items.items }
    ensures { FlowsApart flows.now.items.items }
{
    prove!(flows.names.len() == flows.items.len());
    prove!(flows.taken.len() <= flows.items.len());
}

//! The table `link`.
ghost use Rattle.std.specs.Prelude.{◌≡◌, ◌∷◌, [], Ok, option_map};
ghost use Rattle.toml.specs.View.{table_view};
ghost use Rattle.std.specs.Prelude.{codes, IfOk};
ghost use Rattle.toml.specs.Data.{get_member};
ghost use Rattle.ioam_topo_values.specs.Reads.{Reads, ◌▷◌, needed};
ghost use Rattle.ioam_topo_values.specs.Texts.{name};
ghost use Rattle.ioam_topo_entries.specs.Goods.{known, differs};
ghost use Rattle.ioam_topo_network.specs.LinkTable.{link_from, link_to, link_tap, end_keys, link_with, link_keys};
ghost use Rattle.ioam_topo_entries.specs.Keys.{link_rows};
ghost use Rattle.ioam_topo_entries.specs.Rows.{row_numbers, row_faults};
ghost use Rattle.ioam_topo_entries.specs.Faults.{Gives};
ghost use Rattle.ioam_topo_network.specs.LinkRead.{IsNewLink};

use crate::before::AmongNodes;
use ioam_base::memory::NoMemory;
use ioam_base::name::Name;
use ioam_topo::{Link, NodeId};
use ioam_topo_entries::{Collects, DomainRefused, Spot, Table};
use ioam_topo_tables::{Links, Nodes};
use ioam_topo_values::{Why, maybe_file_name};
use std::alloc::Global;

// The least MTU of a link (RFC 8200 section 5), and the greatest: an IPv6 packet of the longest payload.
const LEAST_MTU: u64 = 1280;

const MOST_MTU: u64 = 65575;

// The ends of a link.
#[derive(Clone, Copy)]
struct Ends {
    from: u32,
    to: u32,
}

// The numbers of a link.
#[derive(Clone, Copy)]
struct Numbers {
    out_id: u32,
    in_id: u32,
    delay: u32,
    mtu: u32,
}

fn link_ends(spot: Spot, nodes: &Nodes, entry: &toml::Table) -> Result<Ends, DomainRefused>
    requires { spot.table ≡ Table.LinkTable }
    ensures { Gives result (end_keys nodes.now.names spot.place (table_view entry.now))
        (λ ends. (link_from nodes.now.names (table_view entry.now) ≡ Ok ends.from) × (link_to nodes.now.names (table_view entry.now) ≡ Ok ends.to)) }
{
    let from = spot.known(&nodes.names, entry, "from")?;
    let to = spot.known_other(&nodes.names, entry, "to", from)?;
    Ok(Ends { from, to })
}

fn link_numbers(spot: Spot, entry: &toml::Table) -> Result<Numbers, DomainRefused>
    requires { spot.table ≡ Table.LinkTable }
    ensures { Gives result (row_faults Table.LinkTable spot.place link_rows (table_view entry.now))
        (λ n. row_numbers link_rows (table_view entry.now) ≡ Ok (n.out_id ∷ n.in_id ∷ n.delay ∷ n.mtu ∷ [])) }
{
    let out_id = spot.number32(entry, "out_id", 0, 4_294_967_295)?;
    let in_id = spot.number32(entry, "in_id", 0, 4_294_967_295)?;
    let delay = spot.number32(entry, "delay", 0, 1_000_000_000)?;
    let mtu = spot.number32(entry, "mtu", LEAST_MTU, MOST_MTU)?;
    Ok(Numbers {
        out_id,
        in_id,
        delay,
        mtu,
    })
}

// The tap of an entry behind so many, of no more than the most.
fn tap<'a>(most: u32, taps: u32, entry: &'a toml::Table) -> Result<Option<&'a str>, Why>
    ensures { Reads (option_map (λ t. t.now)) result (link_tap most taps (table_view entry.now)) }
{
    match maybe_file_name(entry, "tap") {
        Ok(Some(_)) if taps >= most => Err(Why::TooMany),
        other => other,
    }
}

// A copy of a name that may be there.
pub(crate) fn maybe_copied(alloc: Global, text: Option<&str>) -> Result<Option<Name>, NoMemory>
    ensures { IfOk result (λ name. name ≡ option_map (λ t. t.now) text.entry) }
{
    match text {
        Some(text) => Ok(Some(Name::new(alloc, text)?)),
        None => Ok(None),
    }
}

// A link of these parts.
fn link_of(
    alloc: Global,
    name: &str,
    ends: Ends,
    numbers: Numbers,
    tap: Option<&str>,
) -> Result<Link, NoMemory>
    ensures { IfOk result (λ link. link ≡ link_with name.now (ends.from, ends.to)
        (numbers.out_id ∷ numbers.in_id ∷ numbers.delay ∷ numbers.mtu ∷ []) (option_map (λ t. t.now) tap.entry)) }
{
    Ok(Link {
        name: Name::new(alloc, name)?,
        from: NodeId(ends.from),
        to: NodeId(ends.to),
        out_id: numbers.out_id,
        in_id: numbers.in_id,
        delay: numbers.delay,
        mtu: numbers.mtu,
        tap: maybe_copied(alloc, tap)?,
    })
}

// The link of an entry, with its name.
fn read_link<'a>(
    alloc: Global,
    links: &Links,
    nodes: &Nodes,
    most_taps: u32,
    place: u32,
    entry: &'a toml::Table,
) -> Result<(&'a str, Link), DomainRefused>
    ensures { Gives result (link_keys nodes.now.names most_taps place links.now.names links.now.taps (table_view entry.now))
        (λ row. IsNewLink nodes.now.names most_taps links.now (table_view entry.now) row.0.now row.1) }
{
    let spot = Spot {
        table: Table::LinkTable,
        place,
    };
    spot.own_keys(entry)?;
    let text = spot.new_name(&links.names, entry, "name")?;
    let ends = link_ends(spot, nodes, entry)?;
    let numbers = link_numbers(spot, entry)?;
    let tap = spot.key("tap", tap(most_taps, links.taps, entry))?;
    match link_of(alloc, text, ends, numbers, tap) {
        Ok(link) => Ok((text, link)),
        Err(_) => Err(DomainRefused::NoMemory),
    }
}

impl<'a> Collects<AmongNodes<'a>> for Links {
    ghost use Rattle.ioam_topo_network.specs.LinkTable.{link_faults};
    ghost use Rattle.ioam_topo_network.specs.LinkRead.{HoldsLinks};

    ghost faults = { λ before. link_faults before.nodes.now.names before.taps };

    ghost Holds = { λ before. HoldsLinks before.nodes.now.names before.taps };

    fn take(
        &mut self,
        alloc: Global,
        before: &AmongNodes<'a>,
        place: u32,
        entry: &toml::Table,
    ) -> Result<(), DomainRefused> {
        let read = read_link(alloc, self, before.nodes, before.taps, place, entry);
        let (text, link) = match read {
            Ok(row) => row,
            Err(refused) => return Err(refused),
        };
        match self.add(alloc, text, link) {
            Ok(()) => Ok(()),
            Err(_) => Err(DomainRefused::NoMemory),
        }
    }
}

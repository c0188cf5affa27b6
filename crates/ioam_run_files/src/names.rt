//! The names of a run's files.
ghost use Rattle.std.specs.Prelude.{◌≡◌, ◌<◌, ◌∷◌, ◌++◌, [], length, map, Some, All, IfOk, OnOk};
ghost use Rattle.std.specs.List.{flat_map};
ghost use Rattle.ioam_run_outputs.specs.Outlets.{outlet_count};
ghost use Rattle.ioam_topo.specs.Domain.{links, ports};
ghost use Rattle.ioam_run_files.specs.Names.{input_of, input_names, port_with, input_ports, inputs_at, tap_name, tap_names, output_names, file_names};

use ioam_base::memory::NoMemory;
use ioam_base::name::{Name, push_name};
use ioam_topo::{Domain, Link, Port, PortId};
use std::alloc::Global;

// Puts a copy of the name of a port's arrivals behind these, if it has one.
fn push_input(alloc: Global, names: &mut Vec<Name>, input: &Option<Name>) -> Result<(), NoMemory>
    ensures { OnOk result (names.new.items ≡ names.old.items ++ input_of input.now) }
{
    match input {
        Some(name) => push_name(alloc, names, name),
        None => Ok(()),
    }
}

// Puts the port at a place behind these, if it has arrivals.
fn push_port(ids: &mut Vec<PortId>, place: u32, input: &Option<Name>) -> Result<(), NoMemory>
    ensures { OnOk result (ids.new.items ≡ ids.old.items ++ port_with place input.now) }
{
    match input {
        Some(_) => {
            ids.push(PortId(place))?;
            Ok(())
        }
        None => Ok(()),
    }
}

/// The captures of the packets that arrive at the domain's ports, in file order.
pub fn input_names(alloc: Global, domain: &Domain) -> Result<Vec<Name>, NoMemory>
    ensures { IfOk result (λ names. names.items ≡ input_names (ports domain.now)) }
{
    let mut names = Vec::new(alloc);
    'ports: for port in domain.ports() {
        push_input(alloc, &mut names, &port.input)?;
    }
    Ok(names)
}

/// The ports that have a capture of arriving packets (`in`), in file order: the k-th is the port of the
/// k-th of [`input_names`].
pub fn input_ports(alloc: Global, domain: &Domain) -> Result<Vec<PortId>, NoMemory>
    ensures value { IfOk result (λ ids. ids.items ≡ input_ports (ports domain.now)) }
    ensures inside { IfOk result (λ ids. All (λ port. port.0 < length (ports domain.now)) ids.items) }
    ensures named { IfOk result (λ ids. inputs_at (ports domain.now) ids.items
        ≡ map (λ name. Some name) (input_names (ports domain.now))) }
    ensures sized { IfOk result (λ ids. length ids.items ≡ length (input_names (ports domain.now))) }
{
    let mut ids = Vec::new(alloc);
    'ports: for (place, port) in domain.ports().iter().enumerate() {
        push_port(&mut ids, place as u32, &port.input)?;
    }
    Ok(ids)
}

// Puts a copy of the name of a link's tap behind these, if it has one.
fn push_tap(alloc: Global, names: &mut Vec<Name>, link: &Link) -> Result<(), NoMemory>
    ensures { OnOk result (names.new.items ≡ names.old.items ++ tap_name link.now.tap) }
{
    match &link.tap {
        Some(name) => push_name(alloc, names, name),
        None => Ok(()),
    }
}

// Puts copies of the names of the links' taps behind these.
fn push_taps(alloc: Global, names: &mut Vec<Name>, links: &[Link]) -> Result<(), NoMemory>
    ensures { OnOk result (names.new.items ≡ names.old.items ++ tap_names links.now) }
{
    'links: for link in links {
        push_tap(alloc, names, link)?;
    }
    Ok(())
}

// Copies of the names of the captures of what leaves by these ports.
fn outputs_of(alloc: Global, ports: &[Port]) -> Result<Vec<Name>, NoMemory>
    ensures { IfOk result (λ names. names.items ≡ map (λ port. port.output) ports.now) }
{
    let mut names = Vec::new(alloc);
    'ports: for port in ports {
        push_name(alloc, &mut names, &port.output)?;
    }
    Ok(names)
}

// The names of the files that are written.
fn written_names(
    alloc: Global,
    domain: &Domain,
    report: &Name,
    exports: &Name,
) -> Result<Vec<Name>, NoMemory>
    ensures { IfOk result (λ names. names.items ≡ output_names (ports domain.now) (links domain.now) report.now exports.now) }
{
    let mut names = outputs_of(alloc, domain.ports())?;
    push_taps(alloc, &mut names, domain.links())?;
    push_name(alloc, &mut names, report)?;
    push_name(alloc, &mut names, exports)?;
    Ok(names)
}

/// The files that are written, in the order in which they are opened, which is that of the run's
/// outputs (`ioam_run_outputs`): the captures of the packets that leave by the ports, in file order, those
/// of the links' taps, in file order, the report and the exports.
pub fn output_names(
    alloc: Global,
    domain: &Domain,
    report: &Name,
    exports: &Name,
) -> Result<Vec<Name>, NoMemory>
    ensures value { IfOk result (λ names. names.items ≡ output_names (ports domain.now) (links domain.now) report.now exports.now) }
    ensures sized { IfOk result (λ names. length names.items ≡ outlet_count domain.now) }
{
    written_names(alloc, domain, report, exports)
}

// Copies of the names that the words have.
fn word_names(
    alloc: Global,
    domain_file: &Name,
    readings_file: &Name,
    report: &Name,
    exports: &Name,
) -> Result<Vec<Name>, NoMemory>
    ensures { IfOk result (λ names. names.items ≡ domain_file.now ∷ readings_file.now ∷ report.now ∷ exports.now ∷ []) }
{
    let mut words = Vec::new(alloc);
    push_name(alloc, &mut words, domain_file)?;
    push_name(alloc, &mut words, readings_file)?;
    push_name(alloc, &mut words, report)?;
    push_name(alloc, &mut words, exports)?;
    Ok(words)
}

// Puts copies of the names of these ports' captures behind these, for each port that of what arrives, if it has one,
// and that of what leaves.
fn push_captures(alloc: Global, names: &mut Vec<Name>, ports: &[Port]) -> Result<(), NoMemory>
    ensures { OnOk result (names.new.items ≡ names.old.items ++ flat_map (λ port. input_of port.input ++ port.output ∷ []) ports.now) }
{
    'ports: for port in ports {
        push_input(alloc, names, &port.input)?;
        push_name(alloc, names, &port.output)?;
    }
    Ok(())
}

/// All files, in the order in which equal ones are looked for: those of the words, those of each port,
/// those of the links' taps.
pub fn file_names(
    alloc: Global,
    domain: &Domain,
    domain_file: &Name,
    readings_file: &Name,
    report: &Name,
    exports: &Name,
) -> Result<Vec<Name>, NoMemory>
    ensures { IfOk result (λ names. names.items
        ≡ file_names (ports domain.now) (links domain.now) (domain_file.now ∷ readings_file.now ∷ report.now ∷ exports.now ∷ [])) }
{
    let mut names = word_names(alloc, domain_file, readings_file, report, exports)?;
    push_captures(alloc, &mut names, domain.ports())?;
    push_taps(alloc, &mut names, domain.links())?;
    Ok(names)
}

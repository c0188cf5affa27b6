//! What the words of the command name.
ghost use Rattle.std.specs.Prelude.{◌≡◌, IfOk, OnOk, ◌∷◌, ◌++◌, [], length};
ghost use Rattle.ioam_run_node.specs.Promise.{inward_of, node_files, node_names, output_files};

use ioam_base::memory::NoMemory;
use ioam_base::name::{Name, push_name};
use ioam_topo::{Domain, NodeId};
use std::alloc::Global;
use std::marker::Model;

// The places of the files that are written, among these.
pub(crate) const OUT: usize = 0;

pub(crate) const REPORT: usize = 1;

pub(crate) const EXPORTS: usize = 2;

/// What the words of `node DOMAIN READINGS NODE LINK IN OUT REPORT EXPORTS` name.
#[derive(Drop)]
pub struct NodeFiles<'a> {
    pub(crate) domain: &'a Name,
    pub(crate) readings: &'a Name,
    pub(crate) node: &'a Name,
    pub(crate) link: &'a Name,
    pub(crate) input: &'a Name,
    // by OUT, REPORT and EXPORTS
    written: &'a [Name],
}

impl<'a> Model for NodeFiles<'a> {
    ghost use Rattle.std.specs.Prelude.{◌≡◌, length};
    ghost use Rattle.ioam_desk_outputs.specs.Names.{name_at};
    ghost use Rattle.ioam_run_node.specs.Promise.{NodeNames};

    ghost Value = { NodeNames };

    ghost view = { λ files. record {
      domain = files.domain.now;
      readings = files.readings.now;
      node = files.node.now;
      link = files.link.now;
      input = files.input.now;
      out = name_at files.written.now 0;
      report = name_at files.written.now 1;
      exports = name_at files.written.now 2;
    } };

    ghost invariant = { λ files. length files.written.now ≡ 3 };
}

impl<'a> NodeFiles<'a> {
    /// What these words name, behind the command's own name.
    pub fn of(words: &'a [Name]) -> NodeFiles<'a>
        requires { length words.now ≡ 9 }
        ensures { result ≡ node_names words.now }
    {
        NodeFiles {
            domain: &words[1],
            readings: &words[2],
            node: &words[3],
            link: &words[4],
            input: &words[5],
            written: &words[6..],
        }
    }

    /// The files that are written, in the order in which they are opened.
    pub(crate) fn outputs(&self) -> &'a [Name]
        ensures value { result.now ≡ output_files self.now }
        ensures width { length result.now ≡ 3 }
    {
        self.written
    }
}

/// The id of the interface by which a node receives from the link of a name: none where the link isn't
/// there or ends at another node.
pub fn inward_of(domain: &Domain, node: NodeId, name: &Name) -> Option<u32>
    ensures { result ≡ inward_of domain.now node name.now }
{
    let id = domain.link_named(name.text())?;
    let link = domain.link(id);
    if link.to.0 == node.0 {
        Some(link.in_id)
    } else {
        None
    }
}

// Copies of the names of the files that are read.
fn read_files(
    alloc: Global,
    domain: &Name,
    readings: &Name,
    input: &Name,
) -> Result<Vec<Name>, NoMemory>
    ensures { IfOk result (λ files. files.items ≡ domain.now ∷ readings.now ∷ input.now ∷ []) }
{
    let mut names = Vec::new(alloc);
    push_name(alloc, &mut names, domain)?;
    push_name(alloc, &mut names, readings)?;
    push_name(alloc, &mut names, input)?;
    Ok(names)
}

// Puts copies of the names of the files that are written behind these.
fn push_written(
    alloc: Global,
    names: &mut Vec<Name>,
    out: &Name,
    report: &Name,
    exports: &Name,
) -> Result<(), NoMemory>
    ensures { OnOk result (names.new.items ≡ names.old.items ++ out.now ∷ report.now ∷ exports.now ∷ []) }
{
    push_name(alloc, names, out)?;
    push_name(alloc, names, report)?;
    push_name(alloc, names, exports)
}

/// The names of all files, in the order in which equal ones are looked for: DOMAIN, READINGS, IN, OUT,
/// REPORT and EXPORTS.
pub fn node_files(alloc: Global, files: &NodeFiles<'_>) -> Result<Vec<Name>, NoMemory>
    ensures { IfOk result (λ names. names.items ≡ node_files files.now) }
{
    let mut names = read_files(alloc, files.domain, files.readings, files.input)?;
    let written = files.outputs();
    push_written(
        alloc,
        &mut names,
        &written[OUT],
        &written[REPORT],
        &written[EXPORTS],
    )?;
    Ok(names)
}

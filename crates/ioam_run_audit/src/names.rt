//! What the words of the command name.
ghost use Rattle.std.specs.Prelude.{◌≡◌, ◌<◌, IfOk, IfSome, length};
ghost use Rattle.ioam_run_audit.specs.Promise.{audit_files, audit_names, link_to};
ghost use Rattle.ioam_topo.specs.Domain.{links};

use ioam_base::memory::NoMemory;
use ioam_base::name::{Name, push_name};
use ioam_topo::{Domain, LinkId, NodeId};
use std::alloc::Global;
use std::marker::Model;

/// What the words of `audit DOMAIN NODE LINK BEFORE AFTER REPORT` name.
#[derive(Drop)]
pub struct AuditFiles<'a> {
    pub(crate) domain: &'a Name,
    pub(crate) node: &'a Name,
    pub(crate) link: &'a Name,
    pub(crate) before: &'a Name,
    pub(crate) after: &'a Name,
    pub(crate) report: &'a Name,
}

impl<'a> Model for AuditFiles<'a> {
    ghost use Rattle.ioam_run_audit.specs.Promise.{AuditNames};

    ghost Value = { AuditNames };

    ghost view = { λ files. record {
      domain = files.domain.now;
      node = files.node.now;
      link = files.link.now;
      before = files.before.now;
      after = files.after.now;
      report = files.report.now;
    } };
}

impl<'a> AuditFiles<'a> {
    /// What these words name, behind the command's own name.
    pub fn of(words: &'a [Name]) -> AuditFiles<'a>
        requires { length words.now ≡ 7 }
        ensures { result ≡ audit_names words.now }
    {
        AuditFiles {
            domain: &words[1],
            node: &words[2],
            link: &words[3],
            before: &words[4],
            after: &words[5],
            report: &words[6],
        }
    }
}

/// A link of a name, where it ends at a node.
pub(crate) fn link_to(domain: &Domain, node: NodeId, name: &Name) -> Option<LinkId>
    ensures value { result ≡ link_to domain.now node name.now }
    ensures inside { IfSome result (λ link. link.0 < length (links domain.now)) }
{
    let id = domain.link_named(name.text())?;
    let link = domain.link(id);
    if link.to.0 == node.0 { Some(id) } else { None }
}

/// The names of all files, in the order in which equal ones are looked for: DOMAIN, BEFORE, AFTER and REPORT.
pub(crate) fn audit_files(alloc: Global, files: &AuditFiles<'_>) -> Result<Vec<Name>, NoMemory>
    ensures { IfOk result (λ names. names.items ≡ audit_files files.now) }
{
    let mut names = Vec::new(alloc);
    push_name(alloc, &mut names, files.domain)?;
    push_name(alloc, &mut names, files.before)?;
    push_name(alloc, &mut names, files.after)?;
    push_name(alloc, &mut names, files.report)?;
    Ok(names)
}

//! Records that are gathered into runs of one template, each put as a message.
ghost use Rattle.std.specs.Prelude.{◌≡◌, ◌+◌, ◌<◌, ◌≤◌, ◌++◌, [], IfOk, OnOk, length};
ghost use Rattle.ioam_dex.specs.Record.{Rec, Record};

use ioam_base::memory::NoMemory;
use ioam_dex::{ExportRoom, MOST_RECORD};
use ioam_ipfix::{put_message, template_of};
use std::alloc::Global;
use std::marker::Model;

/// The most records of a run.
const MOST_OF_RUN: u32 = 32;

/// Records that are gathered into runs: the last run, which isn't put yet, and how many records stand in the messages
/// that were put.
#[derive(Drop)]
pub(crate) struct Packing {
    run: ExportRoom,
    // how many records the run has, and their template
    held: u32,
    template: u16,
    // how many records stand in earlier messages
    before: u64,
}

impl Model for Packing {
    ghost use Rattle.std.specs.Prelude.{◌≡◌, ◌+◌, ◌*◌, ◌≤◌, length};
    ghost use Rattle.ioam_run_ipfix.specs.Packing.{Packed};

    ghost Value = { Packed };

    ghost view = { λ p. record { octets = p.run.octets; held = p.held; template = p.template; before = p.before } };

    ghost invariant = { λ p. (p.run.spare + length p.run.octets ≡ 8768) × (length p.run.octets ≤ 274 * p.held) × (p.held ≤ 32) };
}

impl Packing {
    ghost use Rattle.ioam_run_ipfix.specs.Packing.{Closes, Ends, HasPacked, IsPacked, Packs, Puts};

    /// No record was packed yet.
    pub(crate) fn new(alloc: Global) -> Result<Packing, NoMemory>
        ensures { IfOk result (λ packing. IsPacked [] [] packing) }
    {
        Ok(Packing {
            run: ExportRoom::new(alloc, MOST_OF_RUN as usize * MOST_RECORD)?,
            held: 0,
            template: 0,
            before: 0,
        })
    }

    /// How many records were packed.
    pub(crate) fn taken(&self) -> u64
        requires { self.now.before + self.now.held ≤ 67108864 }
        ensures { result ≡ self.now.before + self.now.held }
    {
        self.before + u64::from(self.held)
    }

    // Puts the run as a message, and begins none.
    fn put_run(&mut self, out: &mut Vec<u8>) -> Result<(), NoMemory>
        requires packed { HasPacked self.old }
        requires some { 0 < self.old.held }
        requires few { self.old.before + self.old.held ≤ 67108864 }
        ensures { OnOk result (Puts self.old self.new out.old.items out.new.items) }
    {
        put_message(self.before, self.run.octets(), out)?;
        self.run.clear();
        self.before += u64::from(self.held);
        self.held = 0;
        Ok(())
    }

    // Puts the run where a record of this template can't be one more of it.
    fn close(&mut self, template: u16, out: &mut Vec<u8>) -> Result<(), NoMemory>
        requires packed { HasPacked self.old }
        requires few { self.old.before + self.old.held ≤ 67108864 }
        ensures { OnOk result (Closes self.old self.new template out.old.items out.new.items) }
    {
        if self.held == 0 || (self.held < MOST_OF_RUN && self.template == template) {
            return Ok(());
        }
        self.put_run(out)
    }

    // Takes the octets of a record into the run.
    fn push(&mut self, octets: &[u8], template: u16)
        requires short { length octets.now ≤ 274 }
        requires room { self.old.held < 32 }
        ensures { self.new ≡ record {
          octets = self.old.octets ++ octets.now;
          held = self.old.held + 1;
          template = template;
          before = self.old.before;
        } }
    {
        self.run.append(octets);
        self.held += 1;
        self.template = template;
    }

    /// Takes the octets of a record, of which there are at most 67,108,864 in all. The run that it can't belong to is put before.
    pub(crate) fn add(&mut self, octets: &[u8], out: &mut Vec<u8>) -> Result<(), NoMemory>
        requires whole { (x : Record) × Rec octets.now x }
        requires packed { HasPacked self.old }
        requires few { self.old.before + self.old.held < 67108864 }
        ensures { OnOk result ((x : Record) → Rec octets.now x → Packs self.old self.new x out.old.items out.new.items) }
    {
        let template = template_of(octets);
        self.close(template, out)?;
        self.push(octets, template);
        Ok(())
    }

    /// Puts the last run, if it has a record.
    pub(crate) fn put_rest(&mut self, out: &mut Vec<u8>) -> Result<(), NoMemory>
        requires packed { HasPacked self.old }
        requires few { self.old.before + self.old.held ≤ 67108864 }
        ensures { OnOk result (Ends self.old out.old.items out.new.items) }
    {
        if self.held == 0 {
            return Ok(());
        }
        self.put_run(out)
    }
}

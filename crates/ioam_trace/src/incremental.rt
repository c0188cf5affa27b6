//! Incremental traces.
ghost use Rattle.ioam_trace.specs.Read.{Decodes};

use crate::elements::Elements;
use crate::fault::TraceFault;
use crate::head::{HEAD_OCTETS, TraceHead};
use crate::survey::survey;
use ioam_base::memory::NoMemory;
use ioam_base::text::append;

/// The data of an incremental trace option: its header and the elements behind it, with no free
/// words between.
#[derive(Clone, Copy, Debug)]
pub struct Incremental<'a> {
    /// The header. RemainingLen is not compared with the octets present.
    pub head: TraceHead,
    /// The elements, the newest first.
    pub area: &'a [u8],
}

impl<'a> Incremental<'a> {
    ghost use Rattle.std.specs.Prelude.{◌≡◌, ◌++◌, IfOk, OnOk, OnErr, All};
    ghost use Rattle.ioam_data.specs.Elements.{IsElement};
    ghost use Rattle.ioam_trace.specs.Incremental.{incremental_octets, DecodesAgain};
    ghost use Rattle.ioam_trace.specs.Read.{Decodes, incremental_elements, fault_of, fault_in, elements_behind};
    ghost use Rattle.ioam_trace.specs.Left.{left};

    /// Reads the octets behind the IOAM-Option-Type of an incremental trace option. The faults are
    /// tested in the order in which [`TraceFault`] has them; `Space` never comes.
    pub fn decode(octets: &'a [u8]) -> Result<Incremental<'a>, TraceFault>
        ensures decodes { Decodes octets.now result }
        // The same as functions.
        ensures fault { fault_in result ≡ fault_of 0 octets.now }
        ensures elements { IfOk result
            (λ trace. incremental_elements trace ≡ elements_behind 0 octets.now) }
        // What `encode` wrote is read as the same value.
        ensures again { DecodesAgain octets.now result }
    {
        decode_octets(octets)
    }

    /// Appends the octets of the header and the area. Without memory nothing is appended.
    pub fn encode(&self, out: &mut Vec<u8>) -> Result<(), NoMemory>
        ensures ok { OnOk result (out.new.items ≡ out.old.items ++ incremental_octets self.now) }
        ensures err { OnErr result (out.new.items ≡ out.old.items) }
    {
        let before = out.len();
        append(out, self.head.in_octets().octets())?;
        match append(out, self.area) {
            Ok(()) => Ok(()),
            Err(error) => {
                out.truncate(before);
                Err(error)
            }
        }
    }

    /// The elements in visit order, the oldest first. Of a value that was not read by
    /// [`Incremental::decode`]: those that stand one behind the other from the first word on.
    pub fn elements(&self) -> Elements<'a>
        ensures value { left result ≡ incremental_elements self.now }
        ensures whole { All (IsElement self.now.head.kind self.now.head.node_len) (left result) }
    {
        Elements::new(self.head.kind, self.head.node_len, self.area)
    }
}

// Reads the octets, by the rules alone.
fn decode_octets(octets: &[u8]) -> Result<Incremental<'_>, TraceFault>
    ensures { Decodes octets.now result }
{
    let head = survey(octets, true)?;
    Ok(Incremental {
        head,
        area: &octets[HEAD_OCTETS..],
    })
}

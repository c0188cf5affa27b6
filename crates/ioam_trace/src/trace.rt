//! Pre-allocated traces.
ghost use Rattle.ioam_trace.specs.Read.{Reads};

use crate::elements::Elements;
use crate::fault::TraceFault;
use crate::head::{HEAD_OCTETS, TraceHead};
use crate::survey::survey;

/// The data of a pre-allocated trace option: its header and the words behind it.
#[derive(Clone, Copy, Debug)]
pub struct Trace<'a> {
    /// The header.
    pub head: TraceHead,
    /// What follows the header: the free words and the elements, the newest first.
    pub area: &'a [u8],
}

impl<'a> Trace<'a> {
    ghost use Rattle.std.specs.Prelude.{◌≡◌, IfOk, All};
    ghost use Rattle.ioam_data.specs.Elements.{IsElement};
    ghost use Rattle.ioam_trace.specs.Head.{remaining_of};
    ghost use Rattle.ioam_trace.specs.Read.{Reads, elements_in, fault_of, fault_in, elements_behind};
    ghost use Rattle.ioam_trace.specs.Left.{left};
    ghost use Rattle.ioam_trace.specs.Recorded.{ReadsAgain};

    /// Reads the octets behind the IOAM-Option-Type of a trace option. The faults are tested in
    /// the order in which [`TraceFault`] has them.
    pub fn read(octets: &'a [u8]) -> Result<Trace<'a>, TraceFault>
        ensures reads { Reads octets.now result }
        // The same as functions.
        ensures fault { fault_in result ≡ fault_of (remaining_of octets.now) octets.now }
        ensures elements { IfOk result
            (λ trace. elements_in trace ≡ elements_behind (remaining_of octets.now) octets.now) }
        // What nodes filled is read as what they recorded.
        ensures again { ReadsAgain octets.now result }
    {
        read_octets(octets)
    }

    /// The elements in visit order, the oldest first. Of a value that was not read by
    /// [`Trace::read`]: those that stand one behind the other from the first used word on.
    pub fn elements(&self) -> Elements<'a>
        ensures value { left result ≡ elements_in self.now }
        ensures whole { All (IsElement self.now.head.kind self.now.head.node_len) (left result) }
    {
        let start = 4 * usize::from(self.head.remaining);
        let used = if start <= self.area.len() {
            &self.area[start..]
        } else {
            &[]
        };
        Elements::new(self.head.kind, self.head.node_len, used)
    }
}

// Reads the octets, by the rules alone.
fn read_octets(octets: &[u8]) -> Result<Trace<'_>, TraceFault>
    ensures { Reads octets.now result }
{
    let head = survey(octets, false)?;
    Ok(Trace {
        head,
        area: &octets[HEAD_OCTETS..],
    })
}

//! What the elements of a trace say.
ghost use Rattle.std.specs.Prelude.{◌≡◌, ◌≤◌, ◌^◌, OnOk};
ghost use Rattle.ioam_delay_traces.specs.Traces.{sights_in};

use ioam_base::memory::NoMemory;
use ioam_data::fields;
use ioam_delays::{Sight, read_sight};
use ioam_trace::Trace;

/// Makes it what the elements of a trace say, the oldest first, where fractions are in units of `1/units` seconds.
pub fn read_sights(units: u64, trace: &Trace<'_>, sights: &mut Vec<Sight>) -> Result<(), NoMemory>
    requires { units ≤ 2 ^ 32 }
    ensures { OnOk result (sights.new.items ≡ sights_in units trace.now) }
{
    sights.clear();
    for element in trace.elements() {
        let fields = fields(trace.head.kind, trace.head.node_len, element);
        sights.push(read_sight(&fields, units))?;
    }
    Ok(())
}

//! The traffic of a domain: its files, and how it ends.
ghost use Rattle.std.specs.Prelude.{◌≡◌, ◌≢◌, ◌⊎◌, ◌+◌, ◌<◌, ◌≤◌, ◌^◌, ◌++◌, All, IsTrue, List, OnOk, Result, length};
ghost use Rattle.std.specs.Borrow.{MutBor};
ghost use Rattle.ioam_base.specs.declared.memory.NoMemory.{NoMemory};
ghost use Rattle.ioam_desk.specs.Asked.{AsksFront, HaveSlots};
ghost use Rattle.ioam_desk.specs.Kept.{KeepsOutputs};
ghost use Rattle.ioam_capture_merge.specs.Merging.{AreUnread, EndsKept, start_of};
ghost use Rattle.ioam_desk_outputs.specs.Names.{AreApart};
ghost use Rattle.ioam_desk_outputs.specs.declared.output.Output.{Output};
ghost use Rattle.ioam_run_arrivals.specs.Forwarding.{IsOf, taken};
ghost use Rattle.ioam_run_arrivals.specs.Outlets.{outlet_count};
ghost use Rattle.ioam_run_arrivals.specs.declared.forwarding.Forwarding.{Forwarding};
ghost use Rattle.ioam_topo.specs.Domain.{ports as ports_of};
ghost use Rattle.ioam_run_traffic.specs.Progress.{Tells};
ghost use Rattle.ioam_run_traffic.specs.Stage.{halt_of};
ghost use Rattle.ioam_run_traffic.specs.Traffic.{AllOpened, Finishes, IsEnd, begun};
ghost use Rattle.ioam_run_traffic.specs.declared.halt.Halt.{Halt};

use crate::halt::Halt;
use crate::stage::Traffic;
use crate::terms::Terms;
use ioam_base::memory::NoMemory;
use ioam_base::name::Name;
use ioam_clock::Readings;
use ioam_desk::Desk;
use ioam_desk_outputs::Output;
use ioam_run_arrivals::{Forwarding, Gate};
use ioam_stream::{Stop, run};
use ioam_topo::{Domain, PortId};
use std::alloc::Global;
use std::thread::Threads;

/// Sends what arrives at the ports of a domain through it.
///
/// `ports` are the ports that have a capture and `inputs` the names of these captures, which are
/// merged by time; of equal times the first in this order comes first. `readings` are those of the
/// domain's nodes. `outputs` are the names of the outputs: the captures of what leaves by each port of
/// the domain and of what crosses each link with a tap, in file order, the report and the exports.
/// First all captures are opened, then all outputs, and only then are the captures read, in pieces.
/// Arrivals wait in batches, which so many `workers` run, each asking `gate` before its jobs; what a batch
/// leaves is told the outputs in the order of arrival, and written in pieces. All that waits is run, told
/// and written also before a faulty capture, a failing read or the domain's limit ends the traffic. Where
/// the gate may stay shut nothing is said of what the outputs hold.
pub fn run_traffic<R: Threads + Sync, D: Desk, G: Gate>(
    rt: &R,
    alloc: Global,
    workers: u32,
    desk: &mut D,
    domain: &Domain,
    readings: &Readings,
    ports: &[PortId],
    inputs: &[Name],
    outputs: &[Name],
    gate: &G,
) -> Halt
    requires staffed { (1 ≤ workers) × (workers ≤ 64) }
    requires sized { length ports.now ≡ length inputs.now }
    requires inside { All (λ port. port.0 < length (ports_of domain.now)) ports.now }
    requires width { length outputs.now ≡ outlet_count domain.now }
    requires apart { AreApart outputs.now }
    ensures finishes { Finishes (begun G.opens domain.now readings.now ports.now inputs.now outputs.now (D.reading desk.old) (D.writing desk.old)) D.tells
        (D.reading desk.old) (D.reading desk.new) (D.writing desk.old) (D.writing desk.new) result }
    // What failed is answered: no read where the captures decided the end, and no write but where the answer says so.
    ensures faults_in { IsEnd result → (D.reading desk.new).side.faults ≡ (D.reading desk.old).side.faults }
    ensures faults_out { result ≢ Halt.WriteFault → (D.writing desk.new).side.faults ≡ (D.writing desk.old).side.faults }
    // Each capture that was asked for was opened, where the end is any but a fault of reading.
    ensures opens { result ≢ Halt.ReadFault → HaveSlots (D.reading desk.old).side (D.reading desk.new).side }
    ensures asked_in { AsksFront (D.reading desk.old).side.asked (D.reading desk.new).side.asked inputs.now }
    ensures asked_out { AsksFront (D.writing desk.old).side.asked (D.writing desk.new).side.asked outputs.now }
    ensures all_in { IsEnd result → AllOpened (D.reading desk.old).side (D.reading desk.new).side inputs.now }
    ensures all_out { IsEnd result → (D.writing desk.new).side.asked ≡ (D.writing desk.old).side.asked ++ outputs.now }
    ensures inputs_first { (D.writing desk.new ≡ D.writing desk.old) ⊎ AllOpened (D.reading desk.old).side (D.reading desk.new).side inputs.now }
    ensures unread { IsTrue D.tells → (D.writing desk.new).side.slots < (D.writing desk.old).side.slots + length outputs.now
        → AreUnread (start_of (D.reading desk.old).side.slots (D.writing desk.old) inputs.now) (D.reading desk.new) }
    ensures kept { EndsKept (D.reading desk.old).side.slots (D.reading desk.old) (D.reading desk.new) }
    ensures kept_out { IsTrue D.tells → KeepsOutputs (D.writing desk.old) (D.writing desk.new) }
{
    let tell = |gathered: &mut Forwarding, outputs: &mut [Output]| -> Result<(), NoMemory>
        requires { (1 ≤ workers) × (workers ≤ 64) × IsOf domain.now gathered.old × (taken gathered.old < 2 ^ 33) × (length outputs.old ≡ outlet_count domain.now) }
        ensures { OnOk result (Tells G.opens domain.entry.now readings.entry.now outputs.old outputs.new gathered.old gathered.new) }
    { gathered.tell(rt, workers, gate, domain, readings, outputs) };
    run_by(
        &tell, alloc, desk, domain, readings, ports, inputs, outputs, gate,
    )
}

// The same, with a closure that runs the jobs that wait.
fn run_by<F: Fn(&mut Forwarding, &mut [Output]) -> Result<(), NoMemory>, D: Desk, G: Gate>(
    tell: &F,
    alloc: Global,
    desk: &mut D,
    domain: &Domain,
    readings: &Readings,
    ports: &[PortId],
    inputs: &[Name],
    outputs: &[Name],
    gate: &G,
) -> Halt
    requires may_run { (p : MutBor Forwarding) (q : MutBor (List Output)) → IsOf domain.now p.now → taken p.now < 2 ^ 33
        → length q.now ≡ outlet_count domain.now → F.pre tell.now p q }
    requires runs { (p : MutBor Forwarding) (q : MutBor (List Output)) (done : Result (Unit {0}) NoMemory) (s : MutBor Forwarding) (t : MutBor (List Output))
        → IsOf domain.now p.now → length q.now ≡ outlet_count domain.now → F.post tell.now p q done s t
        → OnOk done (Tells G.opens domain.now readings.now q.now t.now p.now s.now) }
    requires sized { length ports.now ≡ length inputs.now }
    requires inside { All (λ port. port.0 < length (ports_of domain.now)) ports.now }
    requires width { length outputs.now ≡ outlet_count domain.now }
    requires apart { AreApart outputs.now }
    ensures finishes { Finishes (begun G.opens domain.now readings.now ports.now inputs.now outputs.now (D.reading desk.old) (D.writing desk.old)) D.tells
        (D.reading desk.old) (D.reading desk.new) (D.writing desk.old) (D.writing desk.new) result }
    // What failed is answered: no read where the captures decided the end, and no write but where the answer says so.
    ensures faults_in { IsEnd result → (D.reading desk.new).side.faults ≡ (D.reading desk.old).side.faults }
    ensures faults_out { result ≢ Halt.WriteFault → (D.writing desk.new).side.faults ≡ (D.writing desk.old).side.faults }
    // Each capture that was asked for was opened, where the end is any but a fault of reading.
    ensures opens { result ≢ Halt.ReadFault → HaveSlots (D.reading desk.old).side (D.reading desk.new).side }
    ensures asked_in { AsksFront (D.reading desk.old).side.asked (D.reading desk.new).side.asked inputs.now }
    ensures asked_out { AsksFront (D.writing desk.old).side.asked (D.writing desk.new).side.asked outputs.now }
    ensures all_in { IsEnd result → AllOpened (D.reading desk.old).side (D.reading desk.new).side inputs.now }
    ensures all_out { IsEnd result → (D.writing desk.new).side.asked ≡ (D.writing desk.old).side.asked ++ outputs.now }
    ensures inputs_first { (D.writing desk.new ≡ D.writing desk.old) ⊎ AllOpened (D.reading desk.old).side (D.reading desk.new).side inputs.now }
    ensures unread { IsTrue D.tells → (D.writing desk.new).side.slots < (D.writing desk.old).side.slots + length outputs.now
        → AreUnread (start_of (D.reading desk.old).side.slots (D.writing desk.old) inputs.now) (D.reading desk.new) }
    ensures kept { EndsKept (D.reading desk.old).side.slots (D.reading desk.old) (D.reading desk.new) }
    ensures kept_out { IsTrue D.tells → KeepsOutputs (D.writing desk.old) (D.writing desk.new) }
{
    let terms = Terms {
        tell,
        gate,
        domain,
        readings,
        ports,
    };
    let Ok(mut stage) = Traffic::new(alloc, terms) else {
        return Halt::NoMemory;
    };
    let stop = run(alloc, desk, inputs, outputs, &mut stage);
    halted(stop, stage.end)
}

// How the traffic ends, by the answer of the machine.
fn halted(stop: Stop, end: Halt) -> Halt
    ensures { result ≡ halt_of stop end }
{
    match stop {
        Stop::Ended => end,
        Stop::ReadFault => Halt::ReadFault,
        Stop::WriteFault => Halt::WriteFault,
        Stop::NoMemory => Halt::NoMemory,
    }
}

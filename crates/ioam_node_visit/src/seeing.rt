//! What a node knows of a packet that it visits.
ghost use Rattle.std.specs.Prelude.{◌≡◌, ◌<◌, ◌≤◌, ◌^◌, length, option_map, option_and_then, IfSome, None, if◌then◌else◌};
ghost use Rattle.std.specs.Option.{ForSome, option_copied};
ghost use Rattle.ioam_clock.specs.Reading.{samples_of};
ghost use Rattle.ioam_clock.specs.Samples.{IsSmall, elapsed, sample_at};
ghost use Rattle.ioam_clock.specs.Stamp.{stamp};
ghost use Rattle.ioam_data.specs.Elements.{IsFilled};
ghost use Rattle.ioam_data.specs.Kind.{words};
ghost use Rattle.ioam_data.specs.Snapshot.{IsSnapshot};
ghost use Rattle.ioam_data.specs.View.{seen, snapshot_data};
ghost use Rattle.ioam_data.specs.Written.{element_of, most_exported};
ghost use Rattle.ioam_topo.specs.Domain.{nodes, node_data};
ghost use Rattle.ioam_topo.specs.Finding.{data_at};
ghost use Rattle.ioam_topo.specs.Sound.{IsNodeData};
ghost use Rattle.ioam_trace.specs.Filled.{answer_of, filled};
ghost use Rattle.ioam_node_visit.specs.Seeing.{AreAlike, asks_data, asks_reading, snapshot_in, view_of};

use crate::visit::NodeVisit;
use ioam_clock::{Sample, stamp};
use ioam_data::{ElementBuf, Namespace, TraceType, View, bit, put_exported};
use ioam_topo::{Format, NodeData};
use ioam_trace::{Filled, TRACE_TYPE, fill};

// The timestamp of a node's clock at a time, by the sample in force there.
fn stamp_in(format: Format, sample: Option<Sample>, time: u64) -> Option<(u32, u32)>
    requires time { time < 2 ^ 63 }
    requires small { IfSome sample IsSmall }
    requires before { IfSome sample (λ sample. sample.time ≤ time) }
    ensures { result ≡ option_map (stamp format) (option_map (elapsed time) sample) }
{
    let sample = sample?;
    Some(stamp(format, sample.clock + (time - sample.time)))
}

// The snapshot of a node's data, with its schema.
fn snapshot_of(row: Option<&NodeData>) -> Option<(u32, &[u8])>
    requires { IfSome row (λ r. IsNodeData r.now) }
    ensures value { snapshot_data result ≡ snapshot_in (option_copied row.entry) }
    ensures fits { ForSome result (λ given. IsSnapshot given.0 given.1.now) }
{
    let Some(row) = row else {
        return None;
    };
    match (row.schema, &row.snapshot) {
        (Some(schema), Some(octets)) => Some((schema, octets.list())),
        _ => None,
    }
}

fn delay_in(sample: Option<Sample>) -> Option<u64>
    ensures { result ≡ option_and_then (λ s. s.delay) sample }
{
    sample?.delay
}

fn queue_in(sample: Option<Sample>) -> Option<u32>
    ensures { result ≡ option_and_then (λ s. s.queue) sample }
{
    sample?.queue
}

fn buffer_in(sample: Option<Sample>) -> Option<u32>
    ensures { result ≡ option_and_then (λ s. s.buffer) sample }
{
    sample?.buffer
}

fn short_in(row: Option<&NodeData>) -> Option<u32>
    ensures { result ≡ option_and_then (λ r. r.short) (option_copied row.entry) }
{
    row?.short
}

fn wide_in(row: Option<&NodeData>) -> Option<u64>
    ensures { result ≡ option_and_then (λ r. r.wide) (option_copied row.entry) }
{
    row?.wide
}

// Whether a type asks for what a node reads at a time: its clock, its delay, its queue or its buffer.
fn asks_reading(kind: TraceType) -> bool
    ensures { result ≡ asks_reading kind }
{
    kind.has(bit::SECONDS)
        || kind.has(bit::FRACTION)
        || kind.has(bit::DELAY)
        || kind.has(bit::QUEUE)
        || kind.has(bit::BUFFER)
}

// Whether a type asks for what a node's data say of a namespace.
fn asks_data(kind: TraceType) -> bool
    ensures { result ≡ asks_data kind }
{
    kind.has(bit::SHORT_DATA) || kind.has(bit::WIDE_DATA) || kind.has_snapshot()
}

impl NodeVisit<'_> {
    // The sample in force at the node, where a type asks for what it tells.
    fn sample_for(&self, kind: TraceType) -> Option<Sample>
        ensures value { let sample = sample_at (samples_of self.now.readings.now self.now.place.node.0) self.now.time in
            result ≡ (if asks_reading kind then sample else None) }
        ensures small { IfSome result IsSmall }
        ensures before { IfSome result (λ sample. sample.time ≤ self.now.time) }
    {
        if asks_reading(kind) {
            self.readings.view(self.place.node, self.time)
        } else {
            None
        }
    }

    // The data of the node in a namespace, where a type asks for what they say.
    fn data_for(&self, kind: TraceType, namespace: Namespace) -> Option<&NodeData>
        ensures value { let row = data_at (node_data self.now.domain.now) self.now.place.node.0 namespace.0 in
            option_copied result ≡ (if asks_data kind then row else None) }
        ensures sound { IfSome result (λ row. IsNodeData row.now) }
    {
        if asks_data(kind) {
            self.domain.node_data(self.place.node, namespace)
        } else {
            None
        }
    }

    // What the node knows, of a namespace, as far as a type asks for it.
    #[inline(always)]
    fn view(&self, kind: TraceType, namespace: Namespace) -> View<'_>
        requires node { self.now.place.node.0 < length (nodes self.now.domain.now) }
        requires time { self.now.time < 2 ^ 63 }
        ensures { AreAlike kind (seen result) (view_of self.now.domain.now self.now.readings.now self.now.place self.now.time self.now.hops namespace.0) }
    {
        let node = self.place.node;
        let sample = self.sample_for(kind);
        let row = self.data_for(kind, namespace);
        View {
            hops: self.hops,
            id: self.domain.node(node).id,
            inward: Some(self.place.inward),
            outward: self.place.outward,
            stamp: stamp_in(self.domain.format(), sample, self.time),
            delay: delay_in(sample),
            queue: queue_in(sample),
            buffer: buffer_in(sample),
            short: short_in(row),
            wide: wide_in(row),
            snapshot: snapshot_of(row),
        }
    }

    // Adds what the node knows, of a namespace, to the octets of a trace.
    pub(crate) fn fill_seen(&self, namespace: Namespace, octets: &mut [u8]) -> Filled
        requires node { self.now.place.node.0 < length (nodes self.now.domain.now) }
        requires time { self.now.time < 2 ^ 63 }
        requires begins { 8 ≤ length octets.old }
        ensures octets { octets.new ≡ filled octets.old (view_of self.now.domain.now self.now.readings.now self.now.place self.now.time self.now.hops namespace.0) }
        ensures answer { result ≡ answer_of octets.old (view_of self.now.domain.now self.now.readings.now self.now.place self.now.time self.now.hops namespace.0) }
    {
        let kind = TraceType::at(octets, TRACE_TYPE);
        let view = self.view(kind, namespace);
        fill(octets, &view)
    }

    // Writes into a buffer what the node exports, of a namespace, under a type.
    pub(crate) fn put_seen(&self, kind: TraceType, namespace: Namespace, into: &mut ElementBuf)
        requires node { self.now.place.node.0 < length (nodes self.now.domain.now) }
        requires time { self.now.time < 2 ^ 63 }
        ensures octets { let view = view_of self.now.domain.now self.now.readings.now self.now.place self.now.time self.now.hops namespace.0 in
            into.new ≡ element_of kind (words kind) view }
        ensures whole { IsFilled kind into.new }
        ensures size { length into.new ≤ most_exported }
    {
        let view = self.view(kind, namespace);
        put_exported(kind, &view, into);
    }
}

//! What a node knows of a packet when it records its data.
ghost use Rattle.std.specs.Prelude.{◌≡◌, IsTrue};
ghost use Rattle.std.specs.Option.{ForSome};
ghost use Rattle.ioam_data.specs.Snapshot.{IsSnapshot};
ghost use Rattle.ioam_data.specs.View.{seen, snapshot_data};
ghost use Rattle.ioam_c.specs.Part.{if_set};
ghost use Rattle.ioam_c.specs.Fill.{given_snapshot, is_snapshot, is_view, seen_of};

use crate::part::{if_set, wide_if_set};
use ioam_data::View;

// The most words of a snapshot's opaque data.
const MOST_WORDS: u8 = 45;

/// What a node knows of a packet (RFC 9197 section 4.4.2). A field whose flag is 0 isn't known, and is written as all ones; any other flag
/// says that it is known.
#[repr(C)]
#[derive(Clone, Copy, Debug)]
pub struct IoamView {
    /// The node id, below 2^56. From 2^24 on it is all ones in the field of bit 0.
    pub node_id: u64,
    /// The transit delay in nanoseconds. Above 2^31 - 1 it is written 0x80000000.
    pub delay: u64,
    /// Namespace data of 64 bits.
    pub wide_data: u64,
    /// The interface by which the packet came. From 65,536 on it is all ones in the field of bit 1.
    pub ingress: u32,
    /// The interface by which it leaves, likewise.
    pub egress: u32,
    /// The seconds of the time at which the packet came, in the domain's format.
    pub seconds: u32,
    /// The fraction of that time.
    pub fraction: u32,
    /// The queue depth.
    pub queue: u32,
    /// The buffer occupancy.
    pub buffer: u32,
    /// Namespace data of 32 bits.
    pub short_data: u32,
    /// The schema of the snapshot, below 2^24.
    pub schema: u32,
    /// The hop limit with which the packet is sent on.
    pub hop_limit: u8,
    pub has_ingress: u8,
    pub has_egress: u8,
    pub has_timestamp: u8,
    pub has_delay: u8,
    pub has_queue: u8,
    pub has_buffer: u8,
    pub has_short_data: u8,
    pub has_wide_data: u8,
    pub has_snapshot: u8,
    /// The words of 4 octets of the snapshot's opaque data, at most 45.
    pub opaque_words: u8,
    /// The opaque data, of which the first words count.
    pub opaque: [u8; 180],
}

// Whether the numbers of a view are within their limits.
pub(crate) fn is_view(view: &IoamView) -> bool
    ensures { result ≡ is_view view.now }
{
    view.node_id < 1 << 56 && is_snapshot(view)
}

// Whether those of its snapshot are, if it has one.
fn is_snapshot(view: &IoamView) -> bool
    ensures { result ≡ is_snapshot view.now }
{
    view.has_snapshot == 0 || (view.schema < 1 << 24 && view.opaque_words <= MOST_WORDS)
}

// The view as the codecs take it.
pub(crate) fn seen_by(view: &IoamView) -> View<'_>
    requires { IsTrue (is_view view.now) }
    ensures { seen result ≡ seen_of view.now }
{
    let stamp = if view.has_timestamp == 0 {
        None
    } else {
        Some((view.seconds, view.fraction))
    };
    View {
        hops: view.hop_limit,
        id: view.node_id,
        inward: if_set(view.has_ingress, view.ingress),
        outward: if_set(view.has_egress, view.egress),
        stamp,
        delay: wide_if_set(view.has_delay, view.delay),
        queue: if_set(view.has_queue, view.queue),
        buffer: if_set(view.has_buffer, view.buffer),
        short: if_set(view.has_short_data, view.short_data),
        wide: wide_if_set(view.has_wide_data, view.wide_data),
        snapshot: snapshot_in(view),
    }
}

// The snapshot of a view.
fn snapshot_in(view: &IoamView) -> Option<(u32, &[u8])>
    requires { IsTrue (is_snapshot view.now) }
    ensures value { snapshot_data result ≡ given_snapshot view.now }
    ensures fits { ForSome result (λ given. IsSnapshot given.0 given.1.now) }
{
    if view.has_snapshot == 0 {
        return None;
    }
    Some((
        view.schema,
        &view.opaque[..4 * usize::from(view.opaque_words)],
    ))
}

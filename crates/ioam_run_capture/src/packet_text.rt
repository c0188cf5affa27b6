//! What a command writes of each packet.
ghost use Rattle.std.specs.Prelude.{◌≡◌, ◌++◌, List, ℕ, OnOk};
ghost use Rattle.ioam_ip.specs.Chain.{IsSound};
ghost use Rattle.ioam_ip.specs.Packet.{IsPacket};

use ioam_base::memory::NoMemory;
use ioam_report_lines::put_traces;
use ioam_report_options::put_counted_options;

/// What a command writes of each packet whose header chain is whole.
pub trait PacketText: Drop {
    // this text is written of a packet, behind its number
    ghost tells: { List ℕ → List ℕ → Type 0 };

    // and no other
    ghost one: { (packet text other : List ℕ) → tells packet text → tells packet other → text ≡ other };

    /// Appends it.
    fn put(packet: &[u8], out: &mut Vec<u8>) -> Result<(), NoMemory>
        requires packet { IsPacket packet.now }
        requires sound { IsSound packet.now }
        ensures { OnOk result ((text : List ℕ) × tells packet.now text × (out.new.items ≡ out.old.items ++ text)) };
}

/// The pre-allocated traces in front of any nested IPv6 header.
#[derive(Drop)]
pub struct TraceList;

impl PacketText for TraceList {
    ghost use Rattle.ioam_report_lines.specs.TracesText.{TracesText};
    ghost use Rattle.ioam_run_capture.specs.PathsText.{one_of_traces};

    ghost tells = { TracesText };

    ghost one = { one_of_traces };

    fn put(packet: &[u8], out: &mut Vec<u8>) -> Result<(), NoMemory> {
        put_traces(packet, out)
    }
}

/// All IOAM options on the chain.
#[derive(Drop)]
pub struct OptionList;

impl PacketText for OptionList {
    ghost use Rattle.ioam_report_options.specs.OptionsText.{CountedText};
    ghost use Rattle.ioam_run_capture.specs.ShowText.{one_of_options};

    ghost tells = { CountedText };

    ghost one = { one_of_options };

    fn put(packet: &[u8], out: &mut Vec<u8>) -> Result<(), NoMemory> {
        put_counted_options(packet, out)
    }
}

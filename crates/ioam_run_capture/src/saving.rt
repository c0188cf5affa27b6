//! The capture that `save` writes, gathered record by record.
use ioam_base::memory::NoMemory;
use ioam_desk_outputs::Output;
use ioam_ng::{put_ng_head, put_ng_packet};
use ioam_pcap::{Link, Packet};
use ioam_run_stream::Gather;

/// How many packets were saved so far. Its output is the capture.
#[derive(Drop)]
pub struct Saving {
    pub packets: u64,
}

impl Gather for Saving {
    ghost use Rattle.ioam_run_capture.specs.SaveText.{SaveTexts};
    ghost use Rattle.ioam_run_capture.specs.Saving.{Saves, heads, sums, saved, IsFresh, IsFresh-none, Saves-begins, Saves-ends, heads-sized, sums-sized};

    ghost width = { 1 };

    ghost gathers = { λ begun. Saves };

    ghost count = { saved };

    ghost fresh = { IsFresh };

    ghost heads = { heads };

    ghost sums = { sums };

    ghost texts = { λ begun. SaveTexts };

    fn begin(&self, outputs: &mut [Output]) -> Result<(), NoMemory> {
        put_ng_head(&mut outputs[0].gathered)?;
        Ok(())
    }

    fn taken(&self) -> u64 {
        self.packets
    }

    fn take(
        &mut self,
        link: Link,
        captured: &Packet<'_>,
        outputs: &mut [Output],
    ) -> Result<(), NoMemory> {
        // It is read, so that it is known to be a number of 32 bits.
        let _original = captured.original;
        put_ng_packet(link, captured, &mut outputs[0].gathered)?;
        self.packets += 1;
        Ok(())
    }

    fn put_sums(&self, _outputs: &mut [Output]) -> Result<(), NoMemory> {
        Ok(())
    }

    ghost begins = { Saves-begins };

    ghost none = { IsFresh-none };

    ghost ends = { λ begun. Saves-ends };

    ghost heads_sized = { heads-sized };

    ghost sized = { sums-sized };
}

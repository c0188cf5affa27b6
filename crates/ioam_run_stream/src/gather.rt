//! Texts that are gathered of the records of a capture, each for its output.
ghost use Rattle.std.specs.Prelude.{◌≡◌, ◌<◌, ◌≤◌, ◌+◌, ◌^◌, ◌∷◌, ◌++◌, [], List, ℕ, OnOk, length};
ghost use Rattle.ioam_capture.specs.Reader.{taken_of};
ghost use Rattle.ioam_desk_outputs.specs.Told.{Adds, GathersFew, GathersNothing, said_more};
ghost use Rattle.ioam_pcap.specs.Entries.{Taken, most};

use ioam_base::memory::NoMemory;
use ioam_desk_outputs::Output;
use ioam_pcap::{Link, Packet};

/// Texts that are gathered of the records of a capture, each for its output. What they are of besides the
/// records stands in the value that takes no record yet, of which a ghost member speaks as `begun`.
pub trait Gather: Drop {
    // how many outputs there are
    ghost width: { ℕ };

    // the texts so far are those of these records
    ghost gathers: { Self → List Taken → List (List ℕ) → Self → Type 0 };

    // how many records were taken
    ghost count: { Self → ℕ };

    // no record was taken yet
    ghost fresh: { Self → Type 0 };

    // the texts of no records
    ghost heads: { List (List ℕ) };

    // what is added behind the last record
    ghost sums: { Self → List (List ℕ) };

    // the texts of these records, with what is added behind the last
    ghost texts: { Self → List Taken → List (List ℕ) → Type 0 };

    /// Begins the texts.
    fn begin(&self, outputs: &mut [Output]) -> Result<(), NoMemory>
        requires width { length outputs.old ≡ width }
        requires nothing { GathersNothing outputs.old }
        ensures adds { OnOk result (Adds outputs.old outputs.new heads) }
        ensures waiting { OnOk result (GathersFew outputs.new) };

    /// How many records were taken.
    fn taken(&self) -> u64
        requires { count self.now < 2 ^ 32 }
        ensures { result ≡ count self.now };

    /// Takes the next record, whose octets begin at this layer, where less than a piece waits to be written to
    /// each output.
    fn take(
        &mut self,
        link: Link,
        captured: &Packet<'_>,
        outputs: &mut [Output],
    ) -> Result<(), NoMemory>
        requires short { length captured.now.octets.now ≤ most }
        requires time { captured.now.time < 2 ^ 62 }
        requires few { count self.old < 2 ^ 32 }
        requires bound { count self.old < 2 ^ 24 }
        requires width { length outputs.old ≡ width }
        requires waiting { GathersFew outputs.old }
        ensures counted { OnOk result (count self.new ≡ count self.old + 1) }
        ensures gathers { OnOk result ((added : List (List ℕ)) × Adds outputs.old outputs.new added
            × ((begun : Self) (taken : List Taken) (so_far : List (List ℕ)) → gathers begun taken so_far self.old
            → gathers begun (taken ++ taken_of link captured.now ∷ []) (said_more so_far added) self.new)) };

    /// Adds what stands behind the last record.
    fn put_sums(&self, outputs: &mut [Output]) -> Result<(), NoMemory>
        requires few { count self.now < 2 ^ 32 }
        requires width { length outputs.old ≡ width }
        ensures { OnOk result (Adds outputs.old outputs.new (sums self.now)) };

    // before the first record they are those of none
    ghost begins: { (begun : Self) → fresh begun → gathers begun [] heads begun };

    ghost none: { (begun : Self) → fresh begun → count begun ≡ 0 };

    // the texts are whole with what is added behind the last record
    ghost ends: { (begun : Self) (taken : List Taken) (so_far : List (List ℕ)) (gathered : Self)
        → gathers begun taken so_far gathered → texts begun taken (said_more so_far (sums gathered)) };

    // there is one for each output, and something is added to each
    ghost heads_sized: { length heads ≡ width };

    ghost sized: { (gathered : Self) → length (sums gathered) ≡ width };
}

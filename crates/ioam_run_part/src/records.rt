//! The part of regrouped records.
ghost use Rattle.std.specs.Prelude.{◌≡◌, ◌+◌, ◌<◌, ◌++◌, IfOk, OnOk, length};
ghost use Rattle.ioam_part.specs.Rest.{Leaves};

use ioam_base::memory::NoMemory;
use ioam_base::text::append;
use ioam_collect::Collector;
use ioam_collect_stream::Report;
use ioam_desk::PIECE;
use ioam_part::PartRecords;
use ioam_part_merge::head_of;
use ioam_stream::Tail;

/// The part of regrouped records: its head, and then the records, a piece at a time.
#[derive(Drop)]
pub(crate) struct Part<'a> {
    records: PartRecords<'a>,
}

// Gathers the next records of a part, until there is a full piece or no record is left, and says whether there is one. Without
// memory a front of them may be left.
fn put_records(records: &mut PartRecords<'_>, out: &mut Vec<u8>) -> Result<bool, NoMemory>
    // less than a piece waits to be written where the next records are gathered
    requires { length out.old.items < 65536 }
    ensures octets { OnOk result (out.new.items ++ records.new ≡ out.old.items ++ records.old) }
    ensures leaves { IfOk result (λ full. Leaves full 65536 out.new.items records.new) }
    ensures few { OnOk result (length out.new.items < 65536 + 274) }
{
    records.put(PIECE, out)
}

impl<'a> Report<'a> for Part<'a> {
    ghost use Rattle.std.specs.Prelude.{◌*◌, length};
    ghost use Rattle.ioam_part.specs.Part.{head_octets};
    ghost use Rattle.ioam_run_part.specs.PartReport.{no_part};
    ghost use Rattle.ioam_run_part.specs.Records.{IsPartOfAll};

    ghost tells = { IsPartOfAll };

    ghost none = { head_octets 0 };

    ghost of_none = { no_part };

    ghost rest = { λ part. part.records };

    ghost left = { λ part. length part.records };

    ghost most = { 274 * 1048576 };

    fn begin(collector: &'a Collector, out: &mut Vec<u8>) -> Result<Part<'a>, NoMemory> {
        append(out, head_of(collector.held()).octets())?;
        Ok(Part {
            records: PartRecords::new(collector),
        })
    }

    fn put(&mut self, out: &mut Vec<u8>) -> Result<Tail, NoMemory> {
        if put_records(&mut self.records, out)? {
            return Ok(Tail::Rest);
        }
        Ok(Tail::End)
    }
}

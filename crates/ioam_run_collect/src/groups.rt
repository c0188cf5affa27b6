//! The report of regrouped records.
ghost use Rattle.std.specs.Prelude.{◌≡◌, ◌++◌, []};

use ioam_base::memory::NoMemory;
use ioam_collect::Collector;
use ioam_collect_stream::Report;
use ioam_report_groups::put_groups;
use ioam_stream::Tail;

/// The report, which is said at once.
#[derive(Drop)]
pub(crate) struct Groups;

impl<'a> Report<'a> for Groups {
    ghost use Rattle.std.specs.Prelude.{◌≡◌, [], refl};
    ghost use Rattle.ioam_report_groups.specs.GroupsText.{records_text};

    ghost tells = { λ records text. text ≡ records_text records };

    ghost none = { records_text [] };

    ghost of_none = { refl };

    ghost rest = { λ groups. [] };

    ghost left = { λ groups. 0 };

    ghost most = { 0 };

    fn begin(collector: &'a Collector, out: &mut Vec<u8>) -> Result<Groups, NoMemory> {
        put_groups(collector, out)?;
        Ok(Groups)
    }

    fn put(&mut self, _out: &mut Vec<u8>) -> Result<Tail, NoMemory> {
        Ok(Tail::End)
    }
}

//! What is said of regrouped records.
ghost use Rattle.std.specs.Prelude.{◌<◌, ℕ, List, [], IfOk, length};
ghost use Rattle.ioam_dex.specs.Record.{Record};
ghost use Rattle.ioam_collect_stream.specs.Report.{Begins, Puts};

use ioam_base::memory::NoMemory;
use ioam_collect::Collector;
use ioam_stream::Tail;

/// What is said of a collector once no more records are regrouped: a first part, and then what follows, in parts.
pub trait Report<'a>: Drop {
    // which text is that of records
    ghost tells: { List Record → List ℕ → Type 0 };

    // there is a text of no records
    ghost none: { List ℕ };

    ghost of_none: { tells [] none };

    // what is still to be said
    ghost rest: { Self → List ℕ };

    // how many parts may still be said, and the most that may be said of any records
    ghost left: { Self → ℕ };

    ghost most: { ℕ };

    /// Says the first part.
    fn begin(collector: &'a Collector, out: &mut Vec<u8>) -> Result<Self, NoMemory>
        ensures { IfOk result (Begins tells rest left most collector.now out.old.items out.new.items) };

    /// Says the next part, where less than a piece waits to be written.
    fn put(&mut self, out: &mut Vec<u8>) -> Result<Tail, NoMemory>
        requires { length out.old.items < 65536 }
        ensures { IfOk result (Puts rest left self.old self.new out.old.items out.new.items) };
}

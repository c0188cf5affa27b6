//! What is counted of traces, and of what is no trace.
ghost use Rattle.std.specs.Prelude.{◌≡◌, ◌≤◌, ◌<◌, ◌^◌, ◌+◌, ◌++◌, ◌∷◌, [], List, ℕ, Option, OnOk, length, option_to_list};

use crate::sights::read_sights;
use ioam_base::memory::NoMemory;
use ioam_delay_counts::Sums;
use ioam_delays::Sight;
use ioam_trace::Trace;
use std::alloc::Global;

/// The fractions of time stamps that aren't all ones.
#[derive(Clone, Copy, Debug, Drop)]
pub struct Fractions {
    /// How many.
    pub count: u64,
    /// The greatest.
    pub most: u32,
}

/// What is counted of traces, and how many options are no trace.
#[derive(Drop)]
pub struct Totals {
    /// What is counted of all traces.
    pub sums: Sums,
    /// How many traces there are.
    pub traces: u64,
    /// How many of them have Overflow.
    pub overflow: u64,
    /// How many options are no trace.
    pub bad: u64,
    /// The fractions of the time stamps.
    pub fractions: Fractions,
    // What the elements of the trace that is counted say, in memory that is kept.
    pub(crate) sights: Vec<Sight>,
}

impl Totals {
    ghost use Rattle.ioam_delay_counts.specs.Counted.{weight};
    ghost use Rattle.ioam_delay_counts.specs.Courses.{Course};
    ghost use Rattle.ioam_delay_traces.specs.Totals.{AreTotals, courses_of};
    ghost use Rattle.ioam_delay_traces.specs.Traces.{course_of};

    /// Before the first trace.
    pub fn new(alloc: Global) -> Totals
        ensures { AreTotals [] result }
    {
        Totals {
            sums: Sums::new(alloc),
            traces: 0,
            overflow: 0,
            bad: 0,
            fractions: Fractions { count: 0, most: 0 },
            sights: Vec::new(alloc),
        }
    }

    /// Counts what the octets after the IOAM-Option-Type of a trace option are, in a packet of this hop limit.
    pub fn count(
        &mut self,
        alloc: Global,
        units: u64,
        limit: u8,
        octets: &[u8],
    ) -> Result<(), NoMemory>
        requires { units ≤ 2 ^ 32 }
        ensures { OnOk result ((seen : List (Option Course)) → weight (courses_of (seen ++ course_of units limit octets.now ∷ [])) < 2 ^ 48
            → length seen < 2 ^ 48 → AreTotals seen self.old → AreTotals (seen ++ course_of units limit octets.now ∷ []) self.new) }
    {
        let trace = match Trace::read(octets) {
            Ok(trace) => trace,
            Err(_) => {
                self.bad = self.bad.saturating_add(1);
                return Ok(());
            }
        };
        read_sights(units, &trace, &mut self.sights)?;
        let overflow = trace.head.has_overflow();
        self.sums.count(alloc, trace.head.namespace.0, overflow, limit, &self.sights)?;
        self.fractions.add(&self.sights);
        self.traces = self.traces.saturating_add(1);
        self.overflow = self.overflow.saturating_add(u64::from(overflow));
        Ok(())
    }
}

impl Fractions {
    ghost use Rattle.ioam_delays.specs.declared.sight.Sight.{Sight};
    ghost use Rattle.ioam_delay_traces.specs.Totals.{AreFractions, fractions_in};

    // Counts those of a trace.
    fn add(&mut self, sights: &[Sight])
        ensures { (seen : List ℕ) → length seen + length sights.now < 2 ^ 48 → AreFractions seen self.old → AreFractions (seen ++ fractions_in sights.now) self.new }
    {
        'sights: for sight in sights.iter() {
            self.add_one(sight.fraction);
        }
    }

    // Counts that of an element, if there is one.
    fn add_one(&mut self, fraction: Option<u32>)
        ensures { (seen : List ℕ) → length seen < 2 ^ 48 → AreFractions seen self.old → AreFractions (seen ++ option_to_list fraction) self.new }
    {
        if let Some(fraction) = fraction {
            self.count = self.count.saturating_add(1);
            self.most = self.most.max(fraction);
        }
    }
}

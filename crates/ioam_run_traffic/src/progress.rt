//! The records of merged captures, taken one by one.
ghost use Rattle.std.specs.Prelude.{◌≡◌, ◌+◌, ◌<◌, ◌≤◌, ◌^◌, ◌++◌, ◌∷◌, [], ℕ, All, Bool, IfOk, IsTrue, List, OnOk, length};
ghost use Rattle.ioam_capture.specs.Merge.{Arrival as Record};
ghost use Rattle.ioam_capture_merge.specs.Merge.{Comes, Merging, room_of};
ghost use Rattle.ioam_run_arrivals.specs.Forwarding.{IsOf, has_room, taken};
ghost use Rattle.ioam_stream.specs.Stage.{Seen};
ghost use Rattle.ioam_topo.specs.Domain.{ports as ports_of};
ghost use Rattle.ioam_run_traffic.specs.Progress.{IsComing, IsTaking, NextOf, PausedSo, Runs, Taking, left_in, left_next};

use crate::halt::Halt;
use crate::terms::Terms;
use ioam_base::memory::NoMemory;
use ioam_capture::{Due, Step, Turn};
use ioam_capture_merge::Merge;
use ioam_run_arrivals::{Arrival, Forwarding};
use std::alloc::Global;

/// The captures that are merged, and what is gathered of their records.
#[derive(Drop)]
pub(crate) struct Progress {
    pub(crate) merge: Merge,
    pub(crate) gathered: Forwarding,
}

/// Why no record was taken.
#[derive(Clone, Copy)]
pub(crate) enum Pause {
    /// No more may wait before the batch is run.
    Full,
    /// More is needed of the capture with this index.
    Short { input: usize },
    /// None comes, or none may be taken.
    Stopped { halt: Halt },
}

impl Progress {
    // Takes the record that comes next, of the capture with this index, if one more may wait.
    fn take_from<F, G>(
        &mut self,
        alloc: Global,
        terms: &Terms<'_, F, G>,
        place: usize,
    ) -> Result<(), NoMemory>
        requires coming { IsComing self.old.merge place }
        requires of { IsOf terms.now.domain.now self.old.gathered }
        requires room { IsTrue (has_room self.old.gathered) }
        requires inside { All (λ port. port.0 < length (ports_of terms.now.domain.now)) terms.now.ports.now }
        requires below { place < length terms.now.ports.now }
        requires few { taken self.old.gathered < terms.now.domain.now.packets }
        ensures counted { OnOk result (taken self.new.gathered ≡ taken self.old.gathered + 1) }
        ensures room { OnOk result (room_of self.new.merge.captures.items ≡ room_of self.old.merge.captures.items) }
        ensures takes { OnOk result ((opens : Bool) (n : ℕ) (fed : ℕ → List ℕ) (ended : ℕ → Bool) (before : List Record) (so_far : List (List ℕ)) (time : ℕ)
            → Comes n fed ended before self.old.merge place time → Runs opens terms.now before so_far self.old.gathered
            → (one : Record) × Merging n fed ended (before ++ one ∷ []) self.new.merge × Runs opens terms.now (before ++ one ∷ []) so_far self.new.gathered) }
    {
        let port = terms.ports[place];
        self.merge.dues[place] = Due::More;
        let capture = &mut self.merge.captures[place];
        match capture.reader.next() {
            Step::Packet { link, packet } => {
                let arrival = Arrival {
                    port,
                    layer: link,
                    captured: packet,
                };
                self.gathered
                    .take(alloc, terms.domain, terms.readings, &arrival)
            }
            Step::NoMemory => Err(NoMemory),
            _ => unreachable!(),
        }
    }

    // Takes the record that comes next, of the capture with this index, unless as many as may be were taken.
    fn pass<F, G>(
        &mut self,
        alloc: Global,
        terms: &Terms<'_, F, G>,
        place: usize,
    ) -> Result<Option<Pause>, NoMemory>
        requires coming { IsComing self.old.merge place }
        requires of { IsOf terms.now.domain.now self.old.gathered }
        requires room { IsTrue (has_room self.old.gathered) }
        requires inside { All (λ port. port.0 < length (ports_of terms.now.domain.now)) terms.now.ports.now }
        requires below { place < length terms.now.ports.now }
        ensures next { IfOk result (λ next. (opens : Bool) (seen : Seen) (before : List Record) (so_far : List (List ℕ)) (time : ℕ)
            → Comes (length terms.now.ports.now) seen.fed seen.ended before self.old.merge place time → Runs opens terms.now before so_far self.old.gathered
            → (now : List Record) × NextOf opens terms.now seen now so_far self.new next) }
        ensures left { IfOk result (λ next. left_next next + left_in terms.now self.new.gathered ≤ left_in terms.now self.old.gathered) }
        ensures room { OnOk result (room_of self.new.merge.captures.items ≡ room_of self.old.merge.captures.items) }
    {
        if self.gathered.taken() >= u64::from(terms.domain.packets()) {
            return Ok(Some(Pause::Stopped { halt: Halt::Limit }));
        }
        match self.take_from(alloc, terms, place) {
            Ok(()) => Ok(None),
            Err(NoMemory) => Err(NoMemory),
        }
    }

    // Takes the next record, or says why none is taken.
    fn take_next<F, G>(
        &mut self,
        alloc: Global,
        terms: &Terms<'_, F, G>,
    ) -> Result<Option<Pause>, NoMemory>
        requires taking { IsTaking terms.now self.old }
        requires inside { All (λ port. port.0 < length (ports_of terms.now.domain.now)) terms.now.ports.now }
        ensures next { IfOk result (λ next. (opens : Bool) (seen : Seen) (before : List Record) (so_far : List (List ℕ))
            → Taking opens terms.now seen before so_far self.old → (now : List Record) × NextOf opens terms.now seen now so_far self.new next) }
        ensures left { IfOk result (λ next. left_next next + left_in terms.now self.new.gathered ≤ left_in terms.now self.old.gathered) }
        ensures room { OnOk result (room_of self.new.merge.captures.items ≡ room_of self.old.merge.captures.items) }
    {
        if !self.gathered.has_room() {
            return Ok(Some(Pause::Full));
        }
        match self.merge.show() {
            Ok(None) => {}
            Ok(Some(input)) => return Ok(Some(Pause::Short { input })),
            Err(NoMemory) => return Err(NoMemory),
        }
        let halt = match self.merge.turn() {
            Turn::Next { place, .. } => return self.pass(alloc, terms, place),
            Turn::Over => Halt::Over,
            Turn::Broken { place, at, fault } => Halt::Broken { place, at, fault },
            Turn::Unshown => unreachable!(),
        };
        Ok(Some(Pause::Stopped { halt }))
    }

    /// Takes the records that are shown, in the order of their times, while more may wait. The answer is why no more is taken.
    pub(crate) fn take_shown<F, G>(
        &mut self,
        alloc: Global,
        terms: &Terms<'_, F, G>,
    ) -> Result<Pause, NoMemory>
        requires taking { IsTaking terms.now self.old }
        requires inside { All (λ port. port.0 < length (ports_of terms.now.domain.now)) terms.now.ports.now }
        ensures paused { IfOk result (λ pause. (opens : Bool) (seen : Seen) (before : List Record) (so_far : List (List ℕ))
            → Taking opens terms.now seen before so_far self.old → (now : List Record) × PausedSo opens terms.now seen now so_far self.new pause) }
        ensures left { OnOk result (left_in terms.now self.new.gathered ≤ left_in terms.now self.old.gathered) }
        ensures room { OnOk result (room_of self.new.merge.captures.items ≡ room_of self.old.merge.captures.items) }
    {
        'records: loop {
            match self.take_next(alloc, terms) {
                Ok(None) => {}
                Ok(Some(pause)) => return Ok(pause),
                Err(NoMemory) => return Err(NoMemory),
            }
        }
    }
}

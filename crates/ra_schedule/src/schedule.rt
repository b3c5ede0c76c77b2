ghost use Rattle.std.specs.Prelude.{◌&&◌, ◌≡◌, ◌≤◌, ◌<◌, ℕ, true, None, length, slice_index, slice_index_or, IfOk, IfSome};
ghost use Rattle.ra_memref.specs.Flags.{NoneSet, IsFirstSet};
ghost use Rattle.ra_schedule.specs.Schedules.{Begins, MayBegin, ScheduleSeen, as_hits_tell, next_count, no_truths, noted_at, nothing_owed, owed_at};

use crate::paying::owed;
use crate::readers::Readers;
use crate::signals::Signals;
use crate::waking::{many_changed, wake};
use ra_memref::Table;
use ra_text::OutOfMemory;
use ra_truths::Truths;
use std::alloc::Global;
use std::marker::Model;

// How hot it is where frames are passed over: many signals changed at some three frames more than at others.
const HOT: u32 = 6;

// How many frames are passed over before one is looked at, after which as many are where many signals changed at it.
const PASSED_OVER: u32 = 60;

/// Which places are due at a frame, and since when each other one rests: docs/INTERNALS.md, "Schedules".
///
/// Its owner lets a frame begin by a table, takes the places that are due one by one, pays what
/// each owes, steps it and notes whether it rests, and ends the frame. Only `new` takes memory.
#[derive(Drop)]
pub struct Schedule {
    readers: Readers,
    // the comparisons among the signals, by the frame that began last
    truths: Truths,
    since: Vec<Option<u64>>,
    // a count of frames that only goes on
    clock: u64,
    // two more at each frame at which many signals changed, and one less at each other one
    heat: u32,
    // at how many frames no truth is computed
    passed_over: u32,
}

impl Model for Schedule {
    ghost use Rattle.std.specs.Prelude.{◌≡◌, ◌+◌, ◌≤◌, length};
    ghost use Rattle.ra_schedule.specs.Schedules.{ScheduleSeen};

    ghost Value = { ScheduleSeen };

    ghost view = { λ s. record { readers = s.readers; truths = s.truths; since = s.since.items; clock = s.clock } };

    ghost invariant = { λ s. record {
      many : length s.since.items ≡ length s.readers.due;
      rows : s.truths.nodes + length s.truths.comparisons ≤ length s.readers.rows;
    } };
}

impl Schedule {
    /// No place rests, and each is due, by which place reads which signal. Memory is the only refusal.
    pub fn new(alloc: Global, signals: Signals, places: usize) -> Result<Schedule, OutOfMemory>
        requires { length signals.readers.due ≡ places }
        ensures { IfOk result (λ s. s ≡ nothing_owed signals.readers (no_truths signals.nodes signals.comparisons) 0) }
    {
        let Signals {
            nodes,
            comparisons,
            readers,
            ..
        } = signals;
        let readers = Readers::new(alloc, readers)?;
        let truths = Truths::of(alloc, comparisons, nodes)?;
        let since = vec![in alloc; None; places]?;
        Ok(Schedule {
            readers,
            truths,
            since,
            clock: 0,
            heat: 0,
            passed_over: 0,
        })
    }

    /// Begins a frame by the table's last sample: who reads a comparison that came out otherwise, or a node that
    /// changed, is due. Where more than a quarter of all signals did, or the count of frames is at its end, all are.
    /// No memory is taken.
    ///
    /// It tells whether it looks as if few places would come to rest. After some frames in a row at which many signals changed
    /// all places are due at most of those that follow, and no truth is known. No clause says when.
    pub fn begin(&mut self, table: &Table) -> bool
        requires { MayBegin table.now self.old }
        ensures { Begins table.now self.old self.new }
    {
        if self.passed_over > 0 {
            self.passed_over -= 1;
            self.truths.skip();
            self.readers.wake_all();
            return true;
        }
        self.truths.take(table);
        let many = many_changed(&self.readers, table, &self.truths);
        let all = many || self.clock == u64::MAX;
        wake(&mut self.readers, table, &self.truths, all);
        self.note_many(many)
    }

    // Notes whether many signals changed, and tells whether they did at many of the last frames: then the next frames are
    // passed over. No clause speaks of it.
    fn note_many(&mut self, many: bool) -> bool
        ensures { self.new ≡ self.old }
    {
        self.heat = if many {
            self.heat.saturating_add(2)
        } else {
            self.heat.saturating_sub(1)
        };
        if self.heat < HOT {
            return false;
        }
        self.heat = HOT - 2;
        self.passed_over = PASSED_OVER;
        true
    }

    /// The first place from one on that is due. None exactly where none is.
    pub fn next_due(&mut self, from: usize) -> Option<usize>
        ensures first { IfSome result (λ place. IsFirstSet self.old.readers.due from place) }
        ensures none { result ≡ None → NoneSet self.old.readers.due from (length self.old.readers.due) }
        ensures same { self.new ≡ self.old }
    {
        self.readers.next_due(from)
    }

    /// How many frames a place owes, as far as hits can tell: at most 4,294,967,295. None where it does not rest.
    pub fn owed(&self, place: usize) -> Option<u32>
        ensures { result ≡ as_hits_tell (owed_at self.now place) }
    {
        match self.since.get(place) {
            Some(Some(since)) => Some(owed(*since, self.clock)),
            _ => None,
        }
    }

    /// Notes that a place that was due is stepped, and whether it rests from the next count of frames on, which nothing does
    /// whose truths are not known.
    pub fn note(&mut self, place: usize, rests: bool)
        requires here { place < length self.old.readers.due }
        requires due { slice_index_or self.old.readers.due place true ≡ true }
        ensures { self.new ≡ noted_at place (rests && self.old.truths.known) self.old }
    {
        if rests && self.truths.is_known() {
            self.since[place] = Some(self.clock.saturating_add(1));
            self.readers.put(place, false);
        } else {
            self.since[place] = None;
        }
    }

    /// Ends a frame: the count of frames goes on.
    pub fn end(&mut self)
        ensures { self.new ≡ record self.old { clock = next_count self.old.clock } }
    {
        self.clock = self.clock.saturating_add(1);
    }

    /// No place rests any longer, and each is due. What they owe is given up; the truths stay.
    pub fn forget(&mut self)
        ensures { self.new ≡ nothing_owed self.old.readers self.old.truths self.old.clock }
    {
        self.since.fill(None);
        self.readers.wake_all();
    }
}

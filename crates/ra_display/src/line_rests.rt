//! The lines of a display, of which those that rest are not stepped: docs/INTERNALS.md, "Lines at rest".

ghost use Rattle.std.specs.Prelude.{◌≡◌, ◌≤◌, ◌<◌, ◌^◌, ℕ, ◌&&◌, true, None, List, length, map, replicate, slice_index_or, IfOk};
ghost use Rattle.ra_indirect.specs.declared.node.Node.{Node};
ghost use Rattle.ra_richpresence.specs.Contents.{LineContents, line_contents};
ghost use Rattle.ra_member.specs.MemberRuns.{StaysMember, kept_by};
ghost use Rattle.ra_schedule.specs.Counted.{CountsFit};
ghost use Rattle.ra_schedule.specs.Counts.{counts_of};
ghost use Rattle.ra_member.specs.declared.member.Member.{Member};
ghost use Rattle.ra_schedule.specs.Schedules.{as_hits_tell, owed_at};
ghost use Rattle.ra_schedule.specs.Signals.{AreSignals};
ghost use Rattle.ra_schedule.specs.Waking.{IsSomeFrame};
ghost use Rattle.ra_meaning.specs.Presence.{first_true};
ghost use Rattle.ra_display.specs.PresenceRuns.{AreLineRuns, IsLineRun, StepsLine};
ghost use Rattle.ra_display.specs.LineRests.{AreLineRests, AreLinesSeen, AreLinesTold, HasLinePlace, HasLineRoom, IsLineSteppedAt, LineRested, WereLineRests, seen_line, seen_lines};

use crate::line_counts::counts_of_lines;
use crate::line_reads::note_line;
use crate::line_run::step_line;
use ra_member::Member;
use ra_memref::{Flags, Table};
use ra_richpresence::Line;
use ra_schedule::{Judged, MemberCounts, Room, Schedule, Signals, pay_member};
use ra_text::OutOfMemory;
use std::alloc::Global;

/// Which conditions of each line counted at its last step, who is due, and which lines hold.
#[derive(Drop)]
pub struct LineRests {
    pub each: Vec<MemberCounts>,
    pub schedule: Schedule,
    /// Whether each line held at its last step.
    pub holds: Flags,
    /// What the line that is stepped kept before its step.
    pub room: Room,
}

// Whether a line holds at a frame, and whether it rested at it.
#[derive(Clone, Copy)]
struct Stepped {
    holds: bool,
    rests: bool,
}

impl LineRests {
    // No line rests, and each is due. Memory is the only refusal.
    pub(crate) fn new(
        alloc: Global,
        runs: &[Member],
        lines: &[Line],
        table: &Table,
        nodes: usize,
    ) -> Result<LineRests, OutOfMemory>
        requires runs { AreLineRuns table.now.nodes (map line_contents lines.now) runs.now }
        requires nodes { length table.now.nodes ≡ nodes }
        requires few_nodes { nodes ≤ 2 ^ 30 }
        requires few { length lines.now < 2 ^ 32 }
        ensures rests { IfOk result (λ rests. (values : List ℕ) → AreLineRests table.now.nodes values (map line_contents lines.now) runs.now rests) }
        ensures kept { IfOk result (λ rests. seen_lines runs.now rests ≡ map kept_by runs.now) }
    {
        let signals = signals_of(alloc, runs, lines, table, nodes)?;
        let schedule = Schedule::new(alloc, signals, lines.len())?;
        let each = counts_of_lines(alloc, lines)?;
        let holds = Flags::new(alloc, lines.len())?;
        let room = room_for(alloc, runs)?;
        Ok(LineRests {
            each,
            schedule,
            holds,
            room,
        })
    }

    // Nothing beside no lines. Memory is the only refusal.
    pub(crate) fn none(alloc: Global) -> Result<LineRests, OutOfMemory> {
        let signals = Signals::new(alloc, 0, 0)?;
        let schedule = Schedule::new(alloc, signals, 0)?;
        let holds = Flags::new(alloc, 0)?;
        Ok(LineRests {
            each: Vec::new(alloc),
            schedule,
            holds,
            room: Room::new(alloc),
        })
    }

    // Steps each line that is due or reads what changed, by the frame of the table's last sample.
    pub(crate) fn step(&mut self, runs: &mut [Member], lines: &[Line], table: &Table)
        requires runs { AreLineRuns table.now.nodes (map line_contents lines.now) runs.old }
        requires rests { WereLineRests table.now (map line_contents lines.now) runs.old self.old }
        requires frame { IsSomeFrame table.now }
        requires sampled { table.now.sampled ≡ true }
        requires few { length lines.now < 2 ^ 32 }
        ensures runs { AreLineRuns table.now.nodes (map line_contents lines.now) runs.new }
        ensures rests { AreLineRests table.now.nodes table.now.values (map line_contents lines.now) runs.new self.new }
        ensures stepped { AreLinesSeen table.now (map line_contents lines.now) (seen_lines runs.old self.old) (seen_lines runs.new self.new) self.new.holds }
    {
        let crowded = self.schedule.begin(table);
        self.room.closed = crowded;
        let mut at = 0;
        while let Some(place) = self.schedule.next_due(at) {
            self.step_at(runs, lines, table, place);
            at = place + 1;
        }
        self.schedule.end();
    }

    // Steps the line at a place, which rests from the next count of frames on where it is seen to have rested at this one.
    fn step_at(&mut self, runs: &mut [Member], lines: &[Line], table: &Table, place: usize)
        requires here { place < length lines.now }
        requires due { slice_index_or self.old.schedule.readers.due place true ≡ true }
        requires runs { AreLineRuns table.now.nodes (map line_contents lines.now) runs.old }
        requires place { HasLinePlace (map line_contents lines.now) self.old place }
        requires sampled { table.now.sampled ≡ true }
        ensures { IsLineSteppedAt table.now (map line_contents lines.now) place runs.old runs.new self.old self.new }
    {
        let owed = self.schedule.owed(place);
        let run = &mut runs[place];
        let counts = &mut self.each[place];
        pay_owed(run, counts, owed);
        let stepped = step_noted(run, counts, &lines[place], table, &mut self.room);
        self.holds.put(place, stepped.holds);
        self.schedule.note(place, stepped.rests);
    }

    // The place of the first line that holds; as many as there are where none does.
    pub(crate) fn first(&mut self) -> usize
        requires { length self.old.holds ≡ length self.old.each.items }
        ensures first { result ≡ first_true self.old.holds }
        ensures same { self.new ≡ self.old }
    {
        match self.holds.first() {
            Some(place) => place,
            None => self.each.len(),
        }
    }

    /// No line rests any longer, and each is due. What they owe is given up.
    pub fn forget(&mut self)
        ensures each { (nodes : List Node) (values : List ℕ) (lines : List LineContents) (before runs : List Member)
            → AreLineRests nodes values lines before self.old → AreLineRests nodes values lines runs self.new }
        ensures kept { (runs : List Member) → length runs ≡ length self.old.each.items → seen_lines runs self.new ≡ map kept_by runs }
    {
        self.schedule.forget();
    }
}

// What each of the lines reads, and all are due. Memory is the only refusal.
fn signals_of(
    alloc: Global,
    runs: &[Member],
    lines: &[Line],
    table: &Table,
    nodes: usize,
) -> Result<Signals, OutOfMemory>
    requires runs { AreLineRuns table.now.nodes (map line_contents lines.now) runs.now }
    requires nodes { length table.now.nodes ≡ nodes }
    requires few_nodes { nodes ≤ 2 ^ 30 }
    requires few { length lines.now < 2 ^ 32 }
    ensures { IfOk result (λ signals. AreSignals table.now.nodes
        (AreLinesTold table.now.nodes (map line_contents lines.now)) (length lines.now) signals (length lines.now)) }
{
    let mut signals = Signals::new(alloc, nodes as u32, lines.len())?;
    for (place, line) in lines.iter().enumerate() {
        note_line(&mut signals, line, &runs[place], table, place as u32)?;
    }
    Ok(signals)
}

// Room for what any of these lines keeps, so that a frame takes no memory. Memory is the only refusal.
fn room_for(alloc: Global, runs: &[Member]) -> Result<Room, OutOfMemory> {
    let mut room = Room::new(alloc);
    for run in runs {
        room.fit(alloc, run)?;
    }
    Ok(room)
}

// Steps a line, notes which of its conditions counted, and says whether it holds, and whether it rested.
fn step_noted(
    run: &mut Member,
    counts: &mut MemberCounts,
    line: &Line,
    table: &Table,
    room: &mut Room,
) -> Stepped
    requires run { IsLineRun table.now.nodes (line_contents line.now) run.old }
    requires room { HasLineRoom (line_contents line.now) counts.old }
    requires sampled { table.now.sampled ≡ true }
    ensures run { IsLineRun table.now.nodes (line_contents line.now) run.new }
    ensures room { HasLineRoom (line_contents line.now) counts.new }
    ensures steps { StepsLine table.now (line_contents line.now) run.old run.new result.holds }
    ensures rests { result.rests ≡ true → LineRested (line_contents line.now) counts.new (kept_by run.old) (kept_by run.new) }
{
    let noted = room.note(run);
    let holds = step_line(run, line, table);
    let rests = noted && keep_all(counts.judge(room, run));
    Stepped { holds, rests }
}

// Whether tests and values kept all but free hits.
fn keep_all(judged: Judged) -> bool
    ensures { result ≡ (judged.tests && judged.values) }
{
    judged.tests && judged.values
}

// Pays what a line owes, where it rests.
fn pay_owed(run: &mut Member, counts: &MemberCounts, owed: Option<u32>)
    requires { CountsFit (counts_of counts.now) (kept_by run.old) }
    ensures stays { StaysMember run.old run.new }
    ensures kept { kept_by run.new ≡ seen_line run.old counts.now owed }
{
    if let Some(frames) = owed {
        pay_member(run, counts, frames);
    }
}

//! Which conditions of a member counted a hit at a frame, and what they owe: docs/INTERNALS.md, "Members at rest".

ghost use Rattle.std.specs.Prelude.{◌≡◌, ◌≤◌, ◌++◌, ◌∷◌, [], true, length, map, take, IfOk, OnOk};
ghost use Rattle.ra_condition.specs.Contents.{trigger_contents, value_contents};
ghost use Rattle.ra_member.specs.Members.{MemberContents};
ghost use Rattle.ra_member.specs.MemberRuns.{StaysMember, StayTests, StayValues, kept_by};
ghost use Rattle.ra_schedule.specs.Counted.{CountsFit, bits_in, owed_member_by, owed_rows_by, owed_values_by};
ghost use Rattle.ra_schedule.specs.Counts.{AreFor, FitRows, JudgesRows, Judges, MayJudge, bit_rows, counts_of, held, value_held};
ghost use Rattle.ra_schedule.specs.Owing.{AreAsLong};
ghost use Rattle.std.specs.List.{flat_map};

use crate::counts::{Counts, pay};
use crate::room::{Room, ValueRoom};
use ra_condition::{TriggerText, ValueText};
use ra_member::{Member, TriggerRun, ValueRun};
use ra_text::OutOfMemory;
use std::alloc::Global;

/// A bit for each condition of the tests and the values of a member: whether it counted a hit at the last step.
#[derive(Drop)]
pub struct MemberCounts {
    pub tests: Vec<Counts>,
    pub values: Vec<Counts>,
}

/// Whether the tests of a member, and its values, kept all but free hits at a step.
#[derive(Clone, Copy)]
pub struct Judged {
    pub tests: bool,
    pub values: bool,
}

impl MemberCounts {
    /// Those of no tests and no values.
    pub fn new(alloc: Global) -> MemberCounts
        ensures { AreFor (record { tests = []; values = [] }) result }
    {
        MemberCounts {
            tests: Vec::new(alloc),
            values: Vec::new(alloc),
        }
    }

    /// Adds those of a test, none of which counted. Memory is the only refusal.
    pub fn add_test(&mut self, alloc: Global, text: &TriggerText) -> Result<(), OutOfMemory>
        ensures { OnOk result ((m : MemberContents) → AreFor m self.old
            → AreFor (record m { tests = m.tests ++ trigger_contents text.now ∷ [] }) self.new) }
    {
        let counts = Counts::of_trigger(alloc, text)?;
        self.tests.push(counts)?;
        Ok(())
    }

    /// Adds those of a value, none of which counted. Memory is the only refusal.
    pub fn add_value(&mut self, alloc: Global, text: &ValueText) -> Result<(), OutOfMemory>
        ensures { OnOk result ((m : MemberContents) → AreFor m self.old
            → AreFor (record m { values = m.values ++ value_contents text.now ∷ [] }) self.new) }
    {
        let counts = Counts::of_value(alloc, text)?;
        self.values.push(counts)?;
        Ok(())
    }

    /// Notes which hits of a member changed at a step, by what it kept before, which a room holds, and says whether its
    /// tests and its values kept all but free hits. No memory is taken.
    #[inline(never)]
    pub fn judge(&mut self, room: &Room, member: &Member) -> Judged
        requires { MayJudge self.old room.now (kept_by member.now) }
        ensures { Judges self.old self.new (held room.now (kept_by member.now)) (kept_by member.now) result }
    {
        Judged {
            tests: judge_tests(&mut self.tests, &room.tests, &member.tests),
            values: judge_values(&mut self.values, &room.values, &member.values),
        }
    }
}

// Notes which hits of tests changed, and says whether each stayed, or is free and one more.
fn judge_tests(counts: &mut [Counts], rows: &[Vec<u32>], tests: &[TriggerRun]) -> bool
    requires rows { AreAsLong (take (length tests.now) (map (λ row. row.items) rows.now)) (map (λ test. test.trigger.hits) tests.now) }
    requires fit { FitRows counts.old (map (λ test. test.trigger.hits) tests.now) }
    ensures { JudgesRows counts.old counts.new (take (length tests.now) (map (λ row. row.items) rows.now))
        (map (λ test. test.trigger.hits) tests.now) result }
{
    let mut keeps = true;
    for place in 0..tests.len() {
        let stay = counts[place].judge(&rows[place], tests[place].trigger.hits());
        keeps &= stay;
    }
    keeps
}

// Notes which hits of values changed, and says whether each stayed, or is free and one more, and all numbers stayed.
fn judge_values(counts: &mut [Counts], rows: &[ValueRoom], values: &[ValueRun]) -> bool
    requires rows { AreAsLong (take (length values.now) (map (λ row. row.hits.items) rows.now)) (map (λ value. value.value.hits) values.now) }
    requires fit { FitRows counts.old (map (λ value. value.value.hits) values.now) }
    ensures hits { JudgesRows counts.old counts.new (take (length values.now) (map (λ row. row.hits.items) rows.now))
        (map (λ value. value.value.hits) values.now) result }
    ensures numbers { result ≡ true
        → take (length values.now) (map (λ row. row.numbers.items) rows.now) ≡ map (λ value. value.value.numbers) values.now }
{
    let mut keeps = true;
    for place in 0..values.len() {
        let stay = counts[place].judge(&rows[place].hits, values[place].value.hits());
        let same = are_same(&rows[place].numbers, values[place].value.kept());
        keeps &= stay & same;
    }
    keeps
}

// Whether two rows have the same numbers.
fn are_same(one: &[u32], other: &[u32]) -> bool
    ensures { result ≡ true → one.now ≡ other.now }
{
    one == other
}

/// Adds the hits that the tests and the values of a member owe for this many frames at rest. No memory is taken.
pub fn pay_member(member: &mut Member, counts: &MemberCounts, frames: u32)
    requires { CountsFit (counts_of counts.now) (kept_by member.old) }
    ensures stays { StaysMember member.old member.new }
    ensures paid { kept_by member.new ≡ owed_member_by frames (counts_of counts.now) (kept_by member.old) }
{
    pay_tests(&mut member.tests, &counts.tests, frames);
    pay_values(&mut member.values, &counts.values, frames);
}

// Adds the hits that tests owe.
fn pay_tests(tests: &mut [TriggerRun], rows: &[Counts], frames: u32)
    requires { map length (bit_rows rows.now) ≡ map length (map (λ test. test.trigger.hits) tests.old) }
    ensures stay { StayTests tests.old tests.new }
    ensures paid { map (λ test. test.trigger.hits) tests.new
        ≡ owed_rows_by frames (bit_rows rows.now) (map (λ test. test.trigger.hits) tests.old) }
{
    for place in 0..tests.len() {
        pay(
            tests[place].trigger.hits_mut(),
            rows[place].counted(),
            frames,
        );
    }
}

// Adds the hits that values owe.
fn pay_values(values: &mut [ValueRun], rows: &[Counts], frames: u32)
    requires { map length (bit_rows rows.now) ≡ map length (map (λ value. value.value.hits) values.old) }
    ensures stay { StayValues values.old values.new }
    ensures paid { map (λ value. value.value) values.new
        ≡ owed_values_by frames (bit_rows rows.now) (map (λ value. value.value) values.old) }
{
    for place in 0..values.len() {
        pay(
            values[place].value.hits_mut(),
            rows[place].counted(),
            frames,
        );
    }
}

/// Which conditions of a member counted, those of its tests first, in one row. Memory is the only refusal.
pub fn counted_row(alloc: Global, counts: &MemberCounts) -> Result<Vec<bool>, OutOfMemory>
    ensures { IfOk result (λ row. row.items ≡ bits_in (counts_of counts.now)) }
{
    let mut row = Vec::new(alloc);
    put_counted(&mut row, &counts.tests)?;
    put_counted(&mut row, &counts.values)?;
    Ok(row)
}

// Puts which conditions counted after others.
fn put_counted(row: &mut Vec<bool>, counts: &[Counts]) -> Result<(), OutOfMemory>
    ensures { OnOk result (row.new.items ≡ row.old.items ++ flat_map (λ c. c.counted) counts.now) }
{
    for own in counts {
        row.extend_from_slice(own.counted())?;
    }
    Ok(())
}

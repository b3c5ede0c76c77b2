//! Room for what a member keeps before a step, one for all members of a set: docs/INTERNALS.md, "Members at rest".

ghost use Rattle.std.specs.Prelude.{◌≡◌, [], true, length, map, take, OnOk};
ghost use Rattle.ra_member.specs.MemberRuns.{kept_by};
ghost use Rattle.ra_schedule.specs.Counts.{Holds, value_held};
ghost use Rattle.ra_schedule.specs.Owing.{AreSmall, AreTestsSmall, AreValuesSmall};

use ra_member::{Member, TriggerRun, ValueRun};
use ra_text::OutOfMemory;
use std::alloc::Global;

/// The hits of a value's conditions, and the number of each of its parts.
#[derive(Drop)]
pub struct ValueRoom {
    pub hits: Vec<u32>,
    pub numbers: Vec<u32>,
}

/// Room for what any member of a set keeps. Which rows are more than a member has is left as it was. Where it is closed it
/// takes up nothing.
#[derive(Drop)]
pub struct Room {
    pub closed: bool,
    /// The hits of each test.
    pub tests: Vec<Vec<u32>>,
    pub values: Vec<ValueRoom>,
}

impl Room {
    /// No room yet.
    pub fn new(alloc: Global) -> Room
        ensures tests { result.tests.items ≡ [] }
        ensures values { result.values.items ≡ [] }
    {
        Room {
            closed: false,
            tests: Vec::new(alloc),
            values: Vec::new(alloc),
        }
    }

    /// Makes room for a member, so that `note` takes no memory for it. Memory is the only refusal.
    pub fn fit(&mut self, alloc: Global, member: &Member) -> Result<(), OutOfMemory>
        ensures { OnOk result (Holds self.new (kept_by member.now)) }
    {
        for _ in self.tests.len()..member.tests.len() {
            self.tests.push(Vec::new(alloc))?;
        }
        for _ in self.values.len()..member.values.len() {
            self.values.push(ValueRoom {
                hits: Vec::new(alloc),
                numbers: Vec::new(alloc),
            })?;
        }
        if self.note(member) {
            Ok(())
        } else {
            Err(OutOfMemory)
        }
    }

    /// Takes up what a member keeps now, and says whether there is room for it, as there is once it was fitted.
    #[inline(never)]
    pub fn note(&mut self, member: &Member) -> bool
        ensures { result ≡ true → Holds self.new (kept_by member.now) }
    {
        if self.closed {
            return false;
        }
        note_tests(&mut self.tests, &member.tests) && note_values(&mut self.values, &member.values)
    }
}

// Takes up the hits of each test, where there is room.
fn note_tests(rows: &mut [Vec<u32>], tests: &[TriggerRun]) -> bool
    ensures noted { result ≡ true → take (length tests.now) (map (λ row. row.items) rows.new) ≡ map (λ test. test.trigger.hits) tests.now }
    ensures small { result ≡ true → AreTestsSmall (map (λ test. test.trigger.hits) tests.now) }
{
    if rows.len() < tests.len() {
        return false;
    }
    for place in 0..tests.len() {
        if !note_row(&mut rows[place], tests[place].trigger.hits()) {
            return false;
        }
    }
    true
}

// Takes up what each value keeps, where there is room.
fn note_values(rows: &mut [ValueRoom], values: &[ValueRun]) -> bool
    ensures noted { result ≡ true → take (length values.now) (map value_held rows.new) ≡ map (λ value. value.value) values.now }
    ensures small { result ≡ true → AreValuesSmall (map (λ value. value.value) values.now) }
{
    if rows.len() < values.len() {
        return false;
    }
    for place in 0..values.len() {
        if !note_value(&mut rows[place], &values[place]) {
            return false;
        }
    }
    true
}

// Takes up what a value keeps, where there is room.
fn note_value(row: &mut ValueRoom, value: &ValueRun) -> bool
    ensures noted { result ≡ true → value_held row.new ≡ value.now.value }
    ensures small { result ≡ true → AreSmall value.now.value.hits }
{
    note_row(&mut row.hits, value.value.hits()) && note_row(&mut row.numbers, value.value.kept())
}

/// Takes up a row of numbers, and says whether there is room for it.
pub fn note_row(row: &mut Vec<u32>, numbers: &[u32]) -> bool
    ensures noted { result ≡ true → row.new.items ≡ numbers.now }
    ensures small { AreSmall numbers.now }
{
    if row.len() == numbers.len() {
        row.copy_from_slice(numbers);
        return true;
    }
    row.clear();
    row.extend_from_slice(numbers).is_ok()
}

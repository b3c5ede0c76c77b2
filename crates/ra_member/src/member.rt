ghost use Rattle.std.specs.Prelude.{◌≡◌, ◌+◌, ◌*◌, ◌≤◌, ◌^◌, ◌++◌, ◌∷◌, [], true, length, map};
ghost use Rattle.std.specs.Result.{OnOk};
ghost use Rattle.ra_condition.specs.Contents.{trigger_contents, trigger_hits, value_contents};
ghost use Rattle.ra_condition.specs.Spelled.{IsTrigger, IsValue};
ghost use Rattle.ra_set.specs.Limits.{value_conditions};
ghost use Rattle.ra_value.specs.Kept.{cleared};
ghost use Rattle.ra_member.specs.MemberRuns.{AddsTest, AddsValue, HasTest, HasValue, StepsTestAt, StepsValueAt, StaysMember, StayTests, StayValues, kept_by};
ghost use Rattle.ra_member.specs.Members.{cleared_member};
ghost use Rattle.ra_trigger.specs.Steps.{cleared as cleared_hits};

use crate::trigger_run::TriggerRun;
use crate::value_run::ValueRun;
use ra_condition::{TriggerText, ValueText};
use ra_indirect::Pool;
use ra_memref::Table;
use ra_text::OutOfMemory;
use std::alloc::Global;

/// Tests and values that are kept together: docs/DEFINITIONS.md, "Members".
#[derive(Drop)]
pub struct Member {
    pub tests: Vec<TriggerRun>,
    pub values: Vec<ValueRun>,
}

impl Member {
    /// A member without tests and values.
    pub fn new(alloc: Global) -> Self
        ensures tests { result.tests.items ≡ [] }
        ensures values { result.values.items ≡ [] }
    {
        Member {
            tests: Vec::new(alloc),
            values: Vec::new(alloc),
        }
    }

    /// Puts a test after the others, of which nothing is kept yet, with its trees in the pool. A
    /// member's tests come before its values.
    pub fn add_test(
        &mut self,
        alloc: Global,
        text: &TriggerText,
        pool: &mut Pool,
    ) -> Result<(), OutOfMemory>
        requires spelled { IsTrigger (trigger_contents text.now) }
        requires room { length pool.old + 13 * trigger_hits (trigger_contents text.now) + 2 ≤ 2 ^ 31 }
        ensures { OnOk result (AddsTest pool.old pool.new (trigger_contents text.now) self.old self.new) }
    {
        let run = TriggerRun::new(alloc, text, pool)?;
        push_alone(&mut self.tests, run)?;
        Ok(())
    }

    /// Puts a value after the others, with all numbers 0, and its trees in the pool.
    pub fn add_value(
        &mut self,
        alloc: Global,
        text: &ValueText,
        pool: &mut Pool,
    ) -> Result<(), OutOfMemory>
        requires spelled { IsValue (value_contents text.now) }
        requires room { length pool.old + 13 * value_conditions (value_contents text.now) + 2 ≤ 2 ^ 31 }
        ensures { OnOk result (AddsValue pool.old pool.new (value_contents text.now) self.old self.new) }
    {
        let run = ValueRun::new(alloc, text, pool)?;
        push_alone(&mut self.values, run)?;
        Ok(())
    }

    /// Steps the test at this place, counted from 0, by the frame of the table's last sample, and says
    /// whether it is true: docs/DEFINITIONS.md, "Triggers over frames".
    pub fn step_test(&mut self, place: usize, text: &TriggerText, table: &Table) -> bool
        requires test { HasTest table.now.nodes (trigger_contents text.now) place self.old }
        requires sampled { table.now.sampled ≡ true }
        ensures { StepsTestAt table.now (trigger_contents text.now) place self.old self.new result }
    {
        let run = &mut self.tests[place];
        run.truth(text, table)
    }

    /// Steps the value at this place, counted from 0, by the frame of the table's last sample:
    /// docs/DEFINITIONS.md, "Values over frames".
    pub fn step_value(&mut self, place: usize, text: &ValueText, table: &Table)
        requires value { HasValue table.now.nodes (value_contents text.now) place self.old }
        requires sampled { table.now.sampled ≡ true }
        ensures { StepsValueAt table.now (value_contents text.now) place self.old self.new }
    {
        let run = &mut self.values[place];
        run.step(text, table);
    }

    /// All values begin anew: their hits and numbers are 0. The tests stay.
    pub fn reset_values(&mut self)
        ensures stays { StaysMember self.old self.new }
        ensures kept { kept_by self.new ≡ record (kept_by self.old) {
          values = map cleared (kept_by self.old).values;
        } }
    {
        reset_each(&mut self.values);
    }

    /// Brings the member to its start: all hits and numbers are 0.
    pub fn clear(&mut self)
        ensures stays { StaysMember self.old self.new }
        ensures kept { kept_by self.new ≡ cleared_member (kept_by self.old) }
    {
        clear_each(&mut self.tests);
        reset_each(&mut self.values);
    }
}

// Puts one after others. The first gets room for itself alone, since most lines of a display have
// one test and one value.
fn push_alone<T: Drop>(row: &mut Vec<T>, last: T) -> Result<(), OutOfMemory>
    ensures { OnOk result (row.new.items ≡ row.old.items ++ last ∷ []) }
{
    if row.is_empty() {
        row.reserve_exact(1)?;
    }
    row.push(last)?;
    Ok(())
}

// Each test comes to its start.
fn clear_each(tests: &mut [TriggerRun])
    ensures stay { StayTests tests.old tests.new }
    ensures kept { map (λ t. t.trigger.hits) tests.new ≡ map (λ t. cleared_hits t.trigger.hits) tests.old }
{
    for place in 0..tests.len() {
        tests[place].trigger.clear();
    }
}

// Each value begins anew.
fn reset_each(values: &mut [ValueRun])
    ensures stay { StayValues values.old values.new }
    ensures kept { map (λ v. v.value) values.new ≡ map (λ v. cleared v.value) values.old }
{
    for place in 0..values.len() {
        values[place].value.reset();
    }
}

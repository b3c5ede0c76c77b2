ghost use Rattle.std.specs.Prelude.{◌≡◌, ◌+◌, ◌*◌, ◌≤◌, ◌^◌, true, length, IfOk};
ghost use Rattle.ra_condition.specs.Contents.{value_contents};
ghost use Rattle.ra_condition.specs.Spelled.{IsValue};
ghost use Rattle.ra_set.specs.Limits.{value_conditions};
ghost use Rattle.ra_member.specs.Readings.{AreValuedSums};
ghost use Rattle.ra_member.specs.Runs.{HasRoom, IsValueRun, IsNewValue, StepsValue, MayFill, IsRead};

use crate::laid::{Few, Laid, value_ops};
use crate::planning::value_plan;
use crate::reading::read_sums;
use ra_condition::ValueText;
use ra_indirect::Pool;
use ra_memref::Table;
use ra_text::OutOfMemory;
use ra_value::Value;
use std::alloc::Global;

/// A value between frames: what is kept of it, its plan, and room for the sum of each legacy part.
#[derive(Drop)]
pub struct ValueRun {
    pub laid: Laid,
    /// The node of each legacy sum; none for a condition part.
    pub nodes: Vec<Option<u32>>,
    pub sums: Vec<u32>,
    pub value: Value,
}

impl ValueRun {
    /// A value with all numbers 0, with its trees in the pool.
    pub fn new(alloc: Global, text: &ValueText, pool: &mut Pool) -> Result<Self, OutOfMemory>
        requires spelled { IsValue (value_contents text.now) }
        requires room { length pool.old + 13 * value_conditions (value_contents text.now) + 2 ≤ 2 ^ 31 }
        ensures { IfOk result (IsNewValue pool.old pool.new (value_contents text.now)) }
    {
        let plan = value_plan(alloc, text, pool)?;
        let ops = value_ops(alloc, text)?;
        let laid = Laid::new(alloc, plan.groups, ops)?;
        let sums = vec![in alloc; 0; text.parts.len()]?;
        let value = Value::new(alloc, text)?;
        Ok(ValueRun {
            laid,
            nodes: plan.sums,
            sums,
            value,
        })
    }

    // Takes up the values of a table.
    fn read(&mut self, table: &Table, few: &mut Few)
        requires valued { MayFill table.now.nodes self.old.laid }
        requires room { HasRoom (length self.old.laid.ops) self.old.laid.room }
        requires valued_sums { AreValuedSums table.now.nodes self.old.nodes.items }
        requires sums { length self.old.sums.items ≡ length self.old.nodes.items }
        requires sampled { table.now.sampled ≡ true }
        ensures { IsRead table.now.values self.old self.new few.new }
    {
        self.laid.fill(table, few);
        read_sums(table, &self.nodes, &mut self.sums);
    }

    /// Steps the value by the frame of the table's last sample: docs/DEFINITIONS.md, "Values over frames".
    pub fn step(&mut self, text: &ValueText, table: &Table)
        requires run { IsValueRun table.now.nodes (value_contents text.now) self.old }
        requires sampled { table.now.sampled ≡ true }
        ensures run { IsValueRun table.now.nodes (value_contents text.now) self.new }
        ensures steps { StepsValue table.now (value_contents text.now) self.old self.new }
    {
        let mut few = Few::new();
        self.step_in(text, table, &mut few);
    }

    // Does so, with room for what few conditions read.
    fn step_in(&mut self, text: &ValueText, table: &Table, few: &mut Few)
        requires run { IsValueRun table.now.nodes (value_contents text.now) self.old }
        requires sampled { table.now.sampled ≡ true }
        ensures run { IsValueRun table.now.nodes (value_contents text.now) self.new }
        ensures steps { StepsValue table.now (value_contents text.now) self.old self.new }
    {
        self.read(table, few);
        let reads = self.laid.reads(few);
        let _greatest = self.value.step(
            text,
            reads.orders,
            reads.pauses,
            reads.truths,
            reads.lefts,
            &self.sums,
        );
    }
}

ghost use Rattle.std.specs.Prelude.{◌≡◌, ◌+◌, ◌*◌, ◌≤◌, ◌^◌, true, length, IfOk};
ghost use Rattle.ra_condition.specs.Contents.{trigger_contents, trigger_hits};
ghost use Rattle.ra_condition.specs.Spelled.{IsTrigger};
ghost use Rattle.ra_member.specs.Runs.{IsTriggerRun, IsNewTrigger, StepsTest, StepsAchievement};

use crate::laid::{Few, Laid, trigger_ops};
use crate::planning::trigger_plan;
use ra_condition::TriggerText;
use ra_indirect::Pool;
use ra_memref::Table;
use ra_text::OutOfMemory;
use ra_trigger::{Change, State, Trigger};
use std::alloc::Global;

/// A trigger between frames: what is kept of it, and its plan.
#[derive(Drop)]
pub struct TriggerRun {
    pub laid: Laid,
    pub trigger: Trigger,
}

impl TriggerRun {
    /// A trigger of which nothing is kept yet, with its trees in the pool.
    pub fn new(alloc: Global, text: &TriggerText, pool: &mut Pool) -> Result<Self, OutOfMemory>
        requires spelled { IsTrigger (trigger_contents text.now) }
        requires room { length pool.old + 13 * trigger_hits (trigger_contents text.now) + 2 ≤ 2 ^ 31 }
        ensures { IfOk result (IsNewTrigger pool.old pool.new (trigger_contents text.now)) }
    {
        let plan = trigger_plan(alloc, text, pool)?;
        let ops = trigger_ops(alloc, text)?;
        let laid = Laid::new(alloc, plan, ops)?;
        let trigger = Trigger::new(alloc, text)?;
        Ok(TriggerRun { laid, trigger })
    }

    /// Steps a trigger without states by the frame of the table's last sample, and says whether it is
    /// true: docs/DEFINITIONS.md, "Triggers over frames".
    pub fn truth(&mut self, text: &TriggerText, table: &Table) -> bool
        requires run { IsTriggerRun table.now.nodes (trigger_contents text.now) self.old }
        requires sampled { table.now.sampled ≡ true }
        ensures run { IsTriggerRun table.now.nodes (trigger_contents text.now) self.new }
        ensures steps { StepsTest table.now (trigger_contents text.now) self.old self.new result }
    {
        let mut few = Few::new();
        self.truth_in(text, table, &mut few)
    }

    // Does so, with room for what few conditions read.
    #[inline]
    fn truth_in(&mut self, text: &TriggerText, table: &Table, few: &mut Few) -> bool
        requires run { IsTriggerRun table.now.nodes (trigger_contents text.now) self.old }
        requires sampled { table.now.sampled ≡ true }
        ensures run { IsTriggerRun table.now.nodes (trigger_contents text.now) self.new }
        ensures steps { StepsTest table.now (trigger_contents text.now) self.old self.new result }
    {
        self.laid.fill(table, few);
        let reads = self.laid.reads(few);
        self.trigger.truth(text, reads.orders, reads.pauses, reads.truths, reads.lefts)
    }

    /// Steps an achievement by the frame of the table's last sample, and tells what changed:
    /// docs/DEFINITIONS.md, "Achievement states".
    pub fn step(&mut self, text: &TriggerText, table: &Table) -> Change
        requires run { IsTriggerRun table.now.nodes (trigger_contents text.now) self.old }
        requires sampled { table.now.sampled ≡ true }
        ensures run { IsTriggerRun table.now.nodes (trigger_contents text.now) self.new }
        ensures steps { StepsAchievement table.now (trigger_contents text.now) self.old self.new result }
    {
        // A triggered achievement looks at no condition.
        if matches!(self.trigger.state(), State::Triggered) {
            return Change {
                before: State::Triggered,
                after: State::Triggered,
                measured: None,
            };
        }
        let mut few = Few::new();
        self.step_in(text, table, &mut few)
    }

    // Does so, with room for what few conditions read.
    #[inline]
    fn step_in(&mut self, text: &TriggerText, table: &Table, few: &mut Few) -> Change
        requires run { IsTriggerRun table.now.nodes (trigger_contents text.now) self.old }
        requires sampled { table.now.sampled ≡ true }
        ensures run { IsTriggerRun table.now.nodes (trigger_contents text.now) self.new }
        ensures steps { StepsAchievement table.now (trigger_contents text.now) self.old self.new result }
    {
        self.laid.fill(table, few);
        let reads = self.laid.reads(few);
        self.trigger.step(text, reads.orders, reads.pauses, reads.truths, reads.lefts)
    }
}

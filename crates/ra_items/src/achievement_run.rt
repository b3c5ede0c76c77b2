ghost use Rattle.std.specs.Prelude.{◌≡◌, ◌+◌, ◌*◌, ◌≤◌, ◌^◌, true, length, IfOk};
ghost use Rattle.ra_condition.specs.Contents.{trigger_contents, trigger_hits};
ghost use Rattle.ra_condition.specs.Spelled.{IsTrigger};
ghost use Rattle.ra_member.specs.Runs.{IsTriggerRun};
ghost use Rattle.ra_items.specs.Runs.{StepsAchievement, IsNewAchievement, earned_by};

use ra_condition::TriggerText;
use ra_indirect::Pool;
use ra_member::TriggerRun;
use ra_memref::Table;
use ra_text::OutOfMemory;
use ra_trigger::{Change, State};
use std::alloc::Global;

/// An achievement: its trigger, what its last frame did, whether it was earned before that frame or was given since, and
/// whether it was earned before that frame, which is silent then.
#[derive(Drop)]
pub struct AchievementRun {
    pub run: TriggerRun,
    pub change: Change,
    pub earned: bool,
    pub silent: bool,
}

impl AchievementRun {
    // An achievement that waits, with its trees in the pool.
    pub(crate) fn new(
        alloc: Global,
        text: &TriggerText,
        pool: &mut Pool,
    ) -> Result<Self, OutOfMemory>
        requires spelled { IsTrigger (trigger_contents text.now) }
        requires room { length pool.old + 13 * trigger_hits (trigger_contents text.now) + 2 ≤ 2 ^ 31 }
        ensures { IfOk result (IsNewAchievement pool.old pool.new (trigger_contents text.now)) }
    {
        let run = TriggerRun::new(alloc, text, pool)?;
        Ok(AchievementRun {
            run,
            change: Change {
                before: State::Waiting,
                after: State::Waiting,
                measured: None,
            },
            earned: false,
            silent: false,
        })
    }

    // Whether the achievement is earned: it was before its last frame, was given since, or is triggered.
    pub(crate) fn is_earned(&self) -> bool
        ensures { result ≡ earned_by self.now }
    {
        self.earned || matches!(self.run.trigger.state(), State::Triggered)
    }

    // Steps the achievement by the frame of the table's last sample.
    pub(crate) fn step(&mut self, text: &TriggerText, table: &Table)
        requires run { IsTriggerRun table.now.nodes (trigger_contents text.now) self.old.run }
        requires sampled { table.now.sampled ≡ true }
        ensures run { IsTriggerRun table.now.nodes (trigger_contents text.now) self.new.run }
        ensures steps { StepsAchievement table.now (trigger_contents text.now) self.old self.new }
    {
        self.silent = self.is_earned();
        self.earned = self.silent;
        self.change = self.run.step(text, table);
    }
}

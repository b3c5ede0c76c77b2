ghost use Rattle.std.specs.Prelude.{◌≡◌, ◌+◌, ◌*◌, ◌≤◌, ◌^◌, true, length, IfOk};
ghost use Rattle.ra_set.specs.Contents.{item_contents};
ghost use Rattle.ra_set.specs.Limits.{item_conditions};
ghost use Rattle.ra_set.specs.Spelled.{IsItem};
ghost use Rattle.ra_items.specs.ItemRuns.{IsItemRun, IsNewItem, StepsItem};
ghost use Rattle.ra_items.specs.ItemStates.{run_state};

use crate::achievement_run::AchievementRun;
use crate::board_run::BoardRun;
use crate::item_state::ItemState;
use ra_indirect::Pool;
use ra_memref::Table;
use ra_set::Item;
use ra_text::OutOfMemory;
use std::alloc::Global;

/// An item between frames.
#[derive(Drop)]
pub enum ItemRun {
    Achievement(AchievementRun),
    Leaderboard(BoardRun),
}

impl ItemRun {
    // An item that waits, with its trees in the pool.
    pub(crate) fn new(alloc: Global, item: &Item, pool: &mut Pool) -> Result<Self, OutOfMemory>
        requires spelled { IsItem (item_contents item.now) }
        requires room { length pool.old + 13 * item_conditions (item_contents item.now) + 2 ≤ 2 ^ 31 }
        ensures { IfOk result (IsNewItem pool.old pool.new (item_contents item.now)) }
    {
        match item {
            Item::Achievement { text, .. } => {
                let run = AchievementRun::new(alloc, text, pool)?;
                Ok(ItemRun::Achievement(run))
            }
            Item::Leaderboard { text, .. } => {
                let run = BoardRun::new(alloc, text, pool)?;
                Ok(ItemRun::Leaderboard(run))
            }
        }
    }

    // Steps the item by the frame of the table's last sample.
    pub(crate) fn step(&mut self, item: &Item, table: &Table)
        requires run { IsItemRun table.now.nodes (item_contents item.now) self.old }
        requires sampled { table.now.sampled ≡ true }
        ensures run { IsItemRun table.now.nodes (item_contents item.now) self.new }
        ensures steps { StepsItem table.now (item_contents item.now) self.old self.new }
    {
        match (self, item) {
            (ItemRun::Achievement(run), Item::Achievement { text, .. }) => run.step(text, table),
            (ItemRun::Leaderboard(run), Item::Leaderboard { text, .. }) => run.step(text, table),
            _ => unreachable!(),
        }
    }

    // Where the item stands.
    pub(crate) fn state(&self) -> ItemState
        ensures { result ≡ run_state self.now }
    {
        match self {
            ItemRun::Achievement(run) => ItemState::Achievement {
                state: run.run.trigger.state(),
                measured: run.run.trigger.measured(),
            },
            ItemRun::Leaderboard(run) => ItemState::Leaderboard {
                state: run.board.state(),
                tracked: run.tracked(),
            },
        }
    }
}

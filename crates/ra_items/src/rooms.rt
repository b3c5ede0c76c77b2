//! What the item that is stepped kept before its step: docs/INTERNALS.md, "Items at rest".

ghost use Rattle.std.specs.Prelude.{◌≡◌, true};
ghost use Rattle.ra_items.specs.declared.item_run.ItemRun.TheVariants.{Achievement, Leaderboard};
ghost use Rattle.ra_items.specs.Resting.{HoldsBoard, HoldsTrigger};

use crate::achievement_run::AchievementRun;
use crate::board_run::BoardRun;
use crate::item_run::ItemRun;
use ra_leaderboard::BoardState;
use ra_schedule::{Room, note_row};
use ra_text::OutOfMemory;
use ra_trigger::State;
use std::alloc::Global;

/// Room for what any item of a set keeps, for the one that is stepped. Where it is closed it takes up nothing.
#[derive(Drop)]
pub struct Rooms {
    pub closed: bool,
    pub state: State,
    pub measured: u32,
    pub hits: Vec<u32>,
    pub board: BoardState,
    pub member: Room,
}

impl Rooms {
    /// Room for each of these items, so that a frame takes no memory. Memory is the only refusal.
    pub fn new(alloc: Global, runs: &[ItemRun]) -> Result<Rooms, OutOfMemory> {
        let mut rooms = Rooms {
            closed: false,
            state: State::Waiting,
            measured: 0,
            hits: Vec::new(alloc),
            board: BoardState::Waiting,
            member: Room::new(alloc),
        };
        for run in runs {
            rooms.fit(alloc, run)?;
        }
        Ok(rooms)
    }

    // Makes room for an item. Memory is the only refusal.
    fn fit(&mut self, alloc: Global, run: &ItemRun) -> Result<(), OutOfMemory> {
        match run {
            ItemRun::Achievement(run) => {
                if self.note_trigger(run) {
                    Ok(())
                } else {
                    Err(OutOfMemory)
                }
            }
            ItemRun::Leaderboard(run) => self.member.fit(alloc, &run.member),
        }
    }

    // Closes the room or opens it.
    pub(crate) fn close(&mut self, closed: bool)
        ensures { self.new ≡ record self.old { closed = closed; member = record self.old.member { closed = closed } } }
    {
        self.closed = closed;
        self.member.closed = closed;
    }

    // Takes up what an achievement keeps now, and says whether there is room for it.
    pub(crate) fn note_trigger(&mut self, run: &AchievementRun) -> bool
        ensures { result ≡ true → HoldsTrigger self.new run.now }
    {
        if self.closed {
            return false;
        }
        self.state = run.run.trigger.state();
        self.measured = run.run.trigger.measured();
        note_row(&mut self.hits, run.run.trigger.hits())
    }

    // Takes up what a board keeps now, and says whether there is room for it.
    pub(crate) fn note_board(&mut self, run: &BoardRun) -> bool
        ensures { result ≡ true → HoldsBoard self.new run.now }
    {
        self.board = run.board.state();
        self.member.note(&run.member)
    }
}

ghost use Rattle.std.specs.Prelude.{◌≡◌, ◌≢◌, ◌⊎◌, ◌<◌, ◌≤◌, ◌^◌};
ghost use Rattle.std.specs.Prelude.{All, slice_set, true, None, Some, IsSomeAnd, IfOk, IfErr, OnOk, OnErr, length, option_map};
ghost use Rattle.ra_banks.specs.Banks.{bytes_of};
ghost use Rattle.ra_progress.specs.Layout.{length_of};
ghost use Rattle.ra_meaning.specs.Order.{shape_of};
ghost use Rattle.ra_set.specs.Refusals.{Refuses};
ghost use Rattle.ra_calls.specs.GameViews.{openings_of};
ghost use Rattle.ra_calls.specs.Most.{IsWithinMost};
ghost use Rattle.ra_calls.specs.Standing.{IsSlotOf};

use crate::bytes::are_bytes;
use crate::choosing::find_trigger;
use crate::held::Held;
use crate::recording::{Recorded, Told, follow_too};
use crate::told_cell::{ToldCell, find_cells};
use crate::told_event::ToldEvent;
use crate::told_item::ToldItem;
use ra_banks::{Bank, Banks, Row, size_of};
use ra_judge::codes::{DONE, MEMORY, RANGE};
use ra_memory::Steps;
use ra_progress::ProgressRefused;
use ra_runtime::Kept;
use ra_set::SetRefused;
use ra_text::OutOfMemory;
use std::alloc::Global;
use std::marker::{Brand, Model};
use std::sync::ledger::{Blank, Ledger};

// The most slots of a game.
const MOST_SLOTS: u32 = 65_536;

/// What a full handle holds: a course, a recording where an achievement is recorded, and states that are kept in slots.
#[derive(Drop)]
pub struct Game {
    held: Held,
    // the set's text, from which an achievement that is recorded is read once more
    text: Vec<u8>,
    recording: Option<Recorded>,
    slots: Vec<Kept>,
}

impl Model for Game {
    ghost use Rattle.ra_calls.specs.Games.{GameSeen};

    ghost Value = { GameSeen };

    ghost use Rattle.ra_calls.specs.GameViews.{game_seen, IsGame};

    ghost view = { game_seen };

    ghost invariant = { IsGame };
}

// A text once more.
fn copied(alloc: Global, text: &[u8]) -> Result<Vec<u8>, OutOfMemory>
    ensures { IfOk result (λ copy. copy.items ≡ text.now) }
{
    let copy = text.to_vec(alloc)?;
    Ok(copy)
}

impl Game {
    ghost use Rattle.ra_runtime.specs.Courses.{TakesImage};
    ghost use Rattle.ra_calls.specs.Answers.{AnswersEarn, AnswersFrame, AreEventsOf, AreLinesOf, BeginsAgain, IsSaveOf, RefusesProgress, TakesProgress};
    ghost use Rattle.ra_calls.specs.Games.{IsNew};
    ghost use Rattle.ra_calls.specs.Recordings.{AnswersRecord, IsOfId, RecordsCall, RecordsFrame};
    ghost use Rattle.ra_calls.specs.Shows.{IsShownBy};
    ghost use Rattle.ra_calls.specs.Slots.{AnswersKeep, AnswersSlots, AnswersTake};
    ghost use Rattle.ra_judge.specs.Codes.{done};
    ghost use Rattle.ra_calls.specs.Tellings.{TellsRecorded};
    ghost use Rattle.ra_calls.specs.ToldCells.{AreCellsOf};
    ghost use Rattle.ra_calls.specs.ToldItems.{AreItemsOf, number_in};

    /// The game of a set's text over memories of `size` bytes, in a box. Nothing is recorded.
    ///
    /// A text that is no set is refused for the first reason that comes, and one that is too long before it is copied;
    /// `Memory` tells that memory ran out.
    pub fn boxed(alloc: Global, text: &[u8], size: u32) -> Result<Box<Game>, SetRefused>
        requires { size ≤ 2 ^ 27 }
        ensures made { IfOk result (λ game. IsNew text.now size game.value) }
        ensures refused { IfErr result (λ why. why ≡ SetRefused.Memory ⊎ Refuses text.now why) }
    {
        let game = Game::made(alloc, text, size)?;
        match Box::new(alloc, game) {
            Ok(game) => Ok(game),
            Err(failed) => {
                drop(failed);
                Err(SetRefused::Memory)
            }
        }
    }

    // The same, without its box.
    fn made(alloc: Global, text: &[u8], size: u32) -> Result<Game, SetRefused>
        requires { size ≤ 2 ^ 27 }
        ensures made { IfOk result (IsNew text.now size) }
        ensures refused { IfErr result (λ why. why ≡ SetRefused.Memory ⊎ Refuses text.now why) }
    {
        let held = Held::new(alloc, text, size)?;
        match copied(alloc, text) {
            Ok(text) => Ok(Game {
                held,
                text,
                recording: None,
                slots: Vec::new(alloc),
            }),
            Err(_) => {
                drop(held);
                Err(SetRefused::Memory)
            }
        }
    }

    /// Takes one frame of the memory that the banks are together. `RANGE` where it is not of the size.
    pub fn frame(&mut self, banks: &[Bank<'_>]) -> u32
        ensures played { AnswersFrame banks.now result self.old.course self.new.course }
        ensures recorded { RecordsCall (bytes_of banks.now) result self.old.recording self.new.recording }
        ensures slots { self.new.slots ≡ self.old.slots }
    {
        let own = self.held.size();
        match size_of(banks) {
            Some(size) if size == own => {
                self.take_frame::<Brand>(banks, Blank::new(1));
                DONE
            }
            _ => RANGE,
        }
    }

    // Takes one frame, and counts what is read by this blank.
    fn take_frame<L: Ledger>(&mut self, banks: &[Bank<'_>], blank: Blank)
        requires size { length (bytes_of banks.now) ≡ self.old.course.size }
        requires name { blank.name ≡ L.name }
        requires parts { blank.parts ≡ L.parts }
        requires held { 0 < blank.parts }
        ensures played { TakesImage self.old.course self.new.course (bytes_of banks.now) }
        ensures recorded { RecordsFrame (bytes_of banks.now) self.old.recording self.new.recording }
        ensures slots { self.new.slots ≡ self.old.slots }
    {
        are_bytes(banks);
        let mut steps = Steps::<L>::open(blank);
        let mut image = Banks {
            row: Row::new(banks),
            steps: &mut steps,
        };
        self.held.follow(&mut image);
        follow_too(&mut self.recording, &mut image);
    }

    /// The events of the last frame.
    pub fn events(&self, alloc: Global) -> Result<Vec<ToldEvent>, OutOfMemory>
        ensures told { IfOk result (λ told. AreEventsOf self.now.course told.items) }
        ensures most { IfOk result (λ told. IsWithinMost (length told.items) self.now.course) }
    {
        self.held.events(alloc)
    }

    /// The lines of the last frame.
    pub fn lines(&self, alloc: Global) -> Result<Vec<u8>, OutOfMemory>
        ensures { IfOk result (λ text. AreLinesOf self.now.course text.items) }
    {
        self.held.lines(alloc)
    }

    /// How the items stand, in the order of the set.
    pub fn items(&self, alloc: Global) -> Result<Vec<ToldItem>, OutOfMemory>
        ensures { IfOk result (λ told. AreItemsOf self.now.course told.items) }
    {
        self.held.items(alloc)
    }

    /// The direct cells of the set, and whether each lies whole in the memory.
    pub fn cells(&self, alloc: Global) -> Result<Vec<ToldCell>, OutOfMemory>
        ensures { IfOk result (λ told. AreCellsOf self.now.course told.items) }
    {
        find_cells(alloc, &self.text, self.held.size())
    }

    /// Adds the achievements of these ids to what is earned. `MEMORY` where memory runs out, and then nothing changes.
    pub fn earn(&mut self, alloc: Global, ids: &[u32]) -> u32
        ensures earned { AnswersEarn ids.now result self.old.course self.new.course }
        ensures recording { self.new.recording ≡ self.old.recording }
        ensures slots { self.new.slots ≡ self.old.slots }
    {
        match self.held.earn(alloc, ids) {
            Ok(()) => DONE,
            Err(_) => MEMORY,
        }
    }

    /// The number in the format of the leaderboard of an id; none where no leaderboard has it.
    pub fn number(
        &self,
        alloc: Global,
        id: u32,
        number: i32,
    ) -> Result<Option<Vec<u8>>, OutOfMemory>
        ensures { IfOk result (λ text. option_map (λ t. t.items) text ≡ number_in self.now.course id number) }
    {
        self.held.number(alloc, id, number)
    }

    /// The presence text after the last frame.
    pub fn presence(&self, alloc: Global) -> Result<Vec<u8>, OutOfMemory>
        ensures { IfOk result (λ text. IsShownBy self.now.course text.items) }
    {
        self.held.presence(alloc)
    }

    /// How many bytes the progress of the set has.
    pub fn save_size(&self) -> usize
        ensures { result ≡ length_of (shape_of self.now.course.set) }
    {
        self.held.save_size()
    }

    /// The progress bytes.
    pub fn save(&self, alloc: Global) -> Result<Vec<u8>, OutOfMemory>
        ensures saved { IfOk result (λ bytes. IsSaveOf self.now.course bytes.items) }
        ensures long { IfOk result (λ bytes. length bytes.items ≡ length_of (shape_of self.now.course.set)) }
    {
        self.held.save(alloc)
    }

    /// Takes up what progress bytes say, and then nothing is recorded.
    pub fn restore(&mut self, bytes: &[u8]) -> Result<(), ProgressRefused>
        ensures ok { OnOk result (TakesProgress bytes.now self.old.course self.new.course) }
        ensures err { IfErr result (λ why. RefusesProgress bytes.now why self.old.course self.new.course) }
        ensures unrecorded { OnOk result (self.new.recording ≡ None) }
        ensures kept { OnErr result (self.new.recording ≡ self.old.recording) }
        ensures slots { self.new.slots ≡ self.old.slots }
    {
        match self.held.restore(bytes) {
            Ok(()) => {
                drop(self.recording.take());
                Ok(())
            }
            Err(why) => Err(why),
        }
    }

    /// Takes up the progress bytes before the first frame, which are never refused, and then nothing is recorded.
    pub fn reset(&mut self)
        ensures played { BeginsAgain self.old.course self.new.course }
        ensures unrecorded { self.new.recording ≡ None }
        ensures slots { self.new.slots ≡ self.old.slots }
    {
        self.held.reset();
        drop(self.recording.take());
    }

    /// Records the achievement of this id from now on. `RANGE` where frames were taken, or no achievement has the id.
    pub fn record(&mut self, alloc: Global, id: u32) -> u32
        ensures stays { self.new.course ≡ self.old.course }
        ensures recorded { AnswersRecord id self.old.course result self.old.recording self.new.recording }
        ensures slots { self.new.slots ≡ self.old.slots }
    {
        if !self.held.is_unplayed() {
            return RANGE;
        }
        match self.begun(alloc, id) {
            Ok(Some(recording)) => {
                self.recording = Some(recording);
                DONE
            }
            Ok(None) => RANGE,
            Err(_) => MEMORY,
        }
    }

    // A new recording of the achievement of this id.
    fn begun(&self, alloc: Global, id: u32) -> Result<Option<Recorded>, OutOfMemory>
        ensures { IfOk result (IsOfId id self.now.course) }
    {
        match find_trigger(alloc, &self.text, id)? {
            Some(text) => {
                let recording = Recorded::begun(alloc, text, self.held.size())?;
                Ok(Some(recording))
            }
            None => Ok(None),
        }
    }

    /// Why the recorded achievement unlocked at the last frame; none where it did not, or nothing is recorded.
    pub fn explain(&self, alloc: Global) -> Result<Option<Told>, OutOfMemory>
        ensures told { IfOk result (TellsRecorded self.now.recording) }
        ensures due { IfErr result (λ _. IsSomeAnd self.now.recording (λ r. r.unlocked ≡ true)) }
    {
        match &self.recording {
            Some(own) => own.explain(alloc),
            None => Ok(None),
        }
    }

    /// Makes this many slots in the place of those that were there, each with the present state. `RANGE` where they are
    /// too many; `MEMORY` where memory runs out, and then nothing changes.
    pub fn make_slots(&mut self, alloc: Global, count: u32) -> u32
        ensures stays { self.new.course ≡ self.old.course }
        ensures recording { self.new.recording ≡ self.old.recording }
        ensures made { AnswersSlots count self.old.course result self.old.slots self.new.slots }
    {
        if count > MOST_SLOTS {
            return RANGE;
        }
        match self.held.slots(alloc, count) {
            Ok(slots) => {
                self.slots = slots;
                DONE
            }
            Err(_) => MEMORY,
        }
    }

    /// Keeps the present state in a slot. `RANGE` where there is no such slot.
    pub fn keep(&mut self, slot: u32) -> u32
        ensures stays { self.new.course ≡ self.old.course }
        ensures recording { self.new.recording ≡ self.old.recording }
        ensures kept { AnswersKeep slot self.old.course result self.old.slots self.new.slots }
    {
        let place = slot as usize;
        if place < self.slots.len() {
            keep_at(&self.held, &mut self.slots, place);
            DONE
        } else {
            RANGE
        }
    }

    /// Takes up what was kept in a slot, and then nothing is recorded. `RANGE` where there is no such slot.
    pub fn take(&mut self, slot: u32) -> u32
        ensures taken { AnswersTake slot self.old.slots result self.old.course self.new.course }
        ensures slots { self.new.slots ≡ self.old.slots }
        ensures unrecorded { result ≡ done → self.new.recording ≡ None }
        ensures recording { result ≢ done → self.new.recording ≡ self.old.recording }
    {
        match self.slots.get(slot as usize) {
            Some(kept) => {
                self.held.take(kept);
                drop(self.recording.take());
                DONE
            }
            None => RANGE,
        }
    }
}

// Keeps the present state in one of these slots.
fn keep_at(held: &Held, slots: &mut [Kept], place: usize)
    requires within { place < length slots.old }
    requires of_set { All (IsSlotOf held.now.set) slots.old }
    ensures kept { openings_of slots.new ≡ slice_set (openings_of slots.old) place held.now.kept }
    ensures of_set { All (IsSlotOf held.now.set) slots.new }
{
    held.keep(&mut slots[place]);
}

ghost use Rattle.std.specs.Prelude.{◌≡◌, ◌+◌, ◌<◌, ◌≤◌, ◌^◌, ℕ, List, [], ◌∷◌, None, not, ◌&&◌, length, option_map, replicate, slice_index_or, IfOk, OnErr};
ghost use Rattle.std.specs.Result.{OnOk};
ghost use Rattle.ra_condition.specs.Contents.{trigger_contents, trigger_hits};
ghost use Rattle.ra_condition.specs.Spelled.{IsTrigger};
ghost use Rattle.ra_explain.specs.Making.{IsLaidOut};
ghost use Rattle.ra_explain.specs.Recorders.{unlocks_at};
ghost use Rattle.ra_memory.specs.Image.{History, written};
ghost use Rattle.ra_trigger.specs.States.{is_triggered};
ghost use Rattle.ra_why.specs.Watching.{IsFirst, IsMade, IsRoom, IsWatching, MayStep, Saves, Stands, StaysOut, TakesUp, trigger_in};

use crate::kept::Kept;
use crate::room::Room;
use crate::showing::{note_frame, take_frame};
use ra_account::TriggerAccount;
use ra_condition::TriggerText;
use ra_indirect::Pool;
use ra_member::TriggerRun;
use ra_memory::{Counted, Memory, Steps};
use ra_memref::Table;
use ra_text::OutOfMemory;
use ra_trigger::{Change, State};
use std::alloc::Global;
use std::sync::ledger::Ledger;

// How many save slots there are.
const SLOTS: usize = 16;

/// An achievement over a memory, with the account of the frames that lie behind: docs/DEFINITIONS.md, "Account of an
/// achievement". It has room for each condition and slot, and none for each frame.
#[derive(Drop)]
pub struct Watcher {
    /// The trigger that is watched.
    pub text: TriggerText,
    /// The image.
    pub memory: Memory,
    /// The kept numbers.
    pub table: Table,
    /// The achievement.
    pub run: TriggerRun,
    /// The account of the frames so far.
    pub account: TriggerAccount,
    /// Room for what a frame shows.
    pub room: Room,
    /// What each of the sixteen slots keeps.
    pub slots: Vec<Option<Kept>>,
}

impl Watcher {
    /// An achievement over a memory of `size` bytes, all 0, before the first frame.
    ///
    /// At most 65,536 conditions and 134,217,728 bytes. Where memory runs out the text is given up.
    pub fn new(alloc: Global, text: TriggerText, size: u32) -> Result<Watcher, OutOfMemory>
        requires few { trigger_hits (trigger_contents text) ≤ 65536 }
        requires spelled { IsTrigger (trigger_contents text) }
        requires size { size ≤ 2 ^ 27 }
        ensures made { IfOk result (IsMade (trigger_contents text) size) }
        ensures stands { IfOk result (λ w. Stands w []) }
        ensures watches { IfOk result (IsWatching 0) }
    {
        let slots = empty_slots(alloc)?;
        let (memory, room, account, table, run) = begun(alloc, &text, size)?;
        Ok(Watcher {
            text,
            memory,
            table,
            run,
            account,
            room,
            slots,
        })
    }

    /// Writes the bytes from the address `at` on.
    pub fn write(&mut self, at: u32, bytes: &[u8])
        requires within { at + length bytes.now ≤ length self.old.memory }
        ensures written { self.new ≡ record self.old { memory = written self.old.memory at bytes.now } }
        ensures watches { (most : ℕ) → IsWatching most self.old → IsWatching most self.new }
        ensures stands { (history : History) → Stands self.old history → Stands self.new history }
    {
        let _ = self.memory.write(at, bytes);
    }

    /// Takes one frame, and answers whether the achievement unlocks at it.
    ///
    /// Fewer than 2^60 frames lie behind.
    pub fn frame<L: Ledger>(&mut self, steps: &mut Steps<L>) -> bool
        requires watches { MayStep self.old }
        ensures watches { (most : ℕ) → IsWatching most self.old → IsWatching (most + 1) self.new }
        ensures stands { (history : History) → Stands self.old history → Stands self.new (self.old.memory ∷ history) }
        ensures answers { (history : History) → Stands self.old history
            → result ≡ unlocks_at (trigger_in self.old) self.old.memory history }
        ensures rest { StaysOut self.old self.new }
    {
        let size = self.memory.size();
        self.table.follow(&mut Counted {
            memory: &self.memory,
            steps,
        });
        let change = take_frame(&self.text, &self.table, &mut self.run, &mut self.room);
        note_frame(&self.text, size, change, &self.room, &mut self.account);
        unlocks(change)
    }

    /// Keeps the present moment in a slot, from 0 to 15. Where memory runs out nothing changes.
    pub fn save(&mut self, alloc: Global, slot: u8) -> Result<(), OutOfMemory>
        requires low { slot < 16 }
        requires sixteen { length self.old.slots.items ≡ 16 }
        ensures saved { OnOk result (Saves self.old self.new slot) }
        ensures watches { (most : ℕ) → IsWatching most self.old → OnOk result (IsWatching most self.new) }
        ensures err { OnErr result (self.new ≡ self.old) }
    {
        let kept = Kept::new(alloc, &self.table, &self.run, &self.account)?;
        self.slots[usize::from(slot)] = Some(kept);
        Ok(())
    }

    /// Takes up what a slot keeps, from 0 to 15, and answers whether it is filled. Where it is empty, or memory
    /// runs out, nothing changes.
    pub fn restore(&mut self, alloc: Global, slot: u8) -> Result<bool, OutOfMemory>
        requires low { slot < 16 }
        requires watches { MayStep self.old }
        ensures watches { (most : ℕ) → IsWatching most self.old → OnOk result (IsWatching most self.new) }
        ensures restored { IfOk result (TakesUp self.old self.new slot) }
        ensures rest { OnOk result (StaysOut self.old self.new) }
        ensures err { OnErr result (self.new ≡ self.old) }
    {
        let Some(kept) = kept_in(self.slots.as_slice(), slot) else {
            return Ok(false);
        };
        let account = kept.account.copy(alloc)?;
        self.table.put_back(&kept.numbers);
        self.run
            .trigger
            .put_back(kept.state, kept.measured, &kept.hits);
        self.account = account;
        Ok(true)
    }
}

// All but the slots, before the first frame.
fn begun(
    alloc: Global,
    text: &TriggerText,
    size: u32,
) -> Result<(Memory, Room, TriggerAccount, Table, TriggerRun), OutOfMemory>
    requires few { trigger_hits (trigger_contents text.now) ≤ 65536 }
    requires spelled { IsTrigger (trigger_contents text.now) }
    requires size { size ≤ 2 ^ 27 }
    ensures memory { IfOk result (λ made. made.0 ≡ replicate size 0) }
    ensures room { IfOk result (λ made. IsRoom (trigger_hits (trigger_contents text.now)) made.1) }
    ensures account { IfOk result (λ made. IsFirst (trigger_contents text.now) made.2) }
    ensures laid { IfOk result (λ made. IsLaidOut (trigger_contents text.now) size made.3 made.4) }
{
    let memory = Memory::new(alloc, size)?;
    let account = TriggerAccount::new(alloc, text)?;
    let room = Room::new(alloc, account.nearest.wants.len())?;
    let (table, run) = laid_out(alloc, text, size)?;
    Ok((memory, room, account, table, run))
}

// A table over the trees of a trigger, and the trigger's plan.
fn laid_out(
    alloc: Global,
    text: &TriggerText,
    size: u32,
) -> Result<(Table, TriggerRun), OutOfMemory>
    requires few { trigger_hits (trigger_contents text.now) ≤ 65536 }
    requires spelled { IsTrigger (trigger_contents text.now) }
    requires size { size ≤ 2 ^ 27 }
    ensures { IfOk result (λ laid. IsLaidOut (trigger_contents text.now) size laid.0 laid.1) }
{
    let mut pool = Pool::new(alloc);
    let run = TriggerRun::new(alloc, text, &mut pool)?;
    let table = Table::for_looks(alloc, pool, size)?;
    Ok((table, run))
}

// Sixteen empty slots.
fn empty_slots(alloc: Global) -> Result<Vec<Option<Kept>>, OutOfMemory>
    ensures { IfOk result (λ slots. slots.items ≡ replicate 16 None) }
{
    let mut slots = Vec::new(alloc);
    while slots.len() < SLOTS {
        slots.push(None)?;
    }
    Ok(slots)
}

// What a slot keeps; none where it is empty.
fn kept_in(slots: &[Option<Kept>], slot: u8) -> Option<&Kept>
    ensures { option_map (λ kept. kept.now) result ≡ slice_index_or slots.now slot None }
{
    match slots.get(usize::from(slot)) {
        Some(Some(kept)) => Some(kept),
        _ => None,
    }
}

// Whether a change is an unlock.
fn unlocks(change: Change) -> bool
    ensures { result ≡ (not (is_triggered change.before) && is_triggered change.after) }
{
    !matches!(change.before, State::Triggered) && matches!(change.after, State::Triggered)
}

//! A runtime that plays the records of a trace.

ghost use Rattle.std.specs.Prelude.{◌≡◌, ◌≤◌, ◌<◌, ◌+◌, ◌^◌, [], None, Some, length, option_map, slice_index_or, IfSome, IfOk, IfErr, OnOk, OnErr};
ghost use Rattle.ra_memory.specs.Image.{AreBytes, History};
ghost use Rattle.ra_progress.specs.Contents.{IsOpening, Opening};
ghost use Rattle.ra_progress.specs.Layout.{length_of};
ghost use Rattle.ra_progress.specs.Reading.{refusal};
ghost use Rattle.ra_set.specs.Contents.{SetContents, set_contents};
ghost use Rattle.ra_trace.specs.Entries.{entry_of, Saved, Restored};
ghost use Rattle.ra_trace.specs.Reading.{LiesWithin};
ghost use Rattle.ra_meaning.specs.Earned.{Earned};
ghost use Rattle.ra_meaning.specs.Order.{shape_of};
ghost use Rattle.ra_meaning.specs.Play.{Moment, moved, first_moment};
ghost use Rattle.ra_meaning.specs.Runtime.{IsWritten, ShowsKept, TakesFrame};
ghost use Rattle.ra_runtime.specs.Keeping.{IsKeptFor};
ghost use Rattle.ra_replay.specs.Left.{IsEmptySlot};
ghost use Rattle.ra_session.specs.Loading.{BeginsAt, MayBegin, progress_in};
ghost use Rattle.ra_session.specs.Playing.{HoldsState, StandsAt, StandsSomewhere, TakesUpFrom, Plays, kept_bytes};

use crate::beginning::Beginning;
use ra_memory::Steps;
use ra_runtime::{Kept, OtherSet, Playthrough};
use ra_text::OutOfMemory;
use ra_trace::Record;
use std::alloc::Global;
use std::marker::Brand;
use std::sync::ledger::{Blank, Ledger};

// How many save slots there are.
const SLOTS: usize = 16;

/// Why a record is not played.
#[derive(Clone, Copy, Debug, PartialEq, Eq)]
pub enum Unplayed {
    EmptySlot,
    Memory,
}

/// A runtime, and the state that is kept in each save slot: docs/DEFINITIONS.md, "Save slots".
#[derive(Drop)]
pub struct Player {
    runtime: Playthrough,
    slots: Vec<Option<Kept>>,
}

impl From<OutOfMemory> for Unplayed {
    ghost use Rattle.ra_session.specs.declared.player.Unplayed.TheVariants as unplayed;

    ghost from_gives = { λ _ e. e ≡ unplayed.Memory };

    fn from(_error: OutOfMemory) -> Unplayed {
        Unplayed::Memory
    }
}

// Takes one frame, and counts no steps.
#[inline(always)]
fn take_frame<L: Ledger>(runtime: &mut Playthrough, blank: Blank)
    requires name { blank.name ≡ L.name }
    requires parts { blank.parts ≡ L.parts }
    requires held { 0 < blank.parts }
    ensures { TakesFrame runtime.old runtime.new }
{
    let mut steps = Steps::<L>::open(blank);
    runtime.frame(&mut steps);
}

// Takes up progress bytes, where there are some. The own bytes of the runtime's set are no longer than a file may be.
fn take_up(runtime: &mut Playthrough, progress: &Option<Vec<u8>>)
    requires { IfSome progress.now (λ bytes. refusal (shape_of runtime.old.set) bytes.items ≡ None) }
    ensures taken { TakesUpFrom (option_map (λ bytes. bytes.items) progress.now) runtime.old runtime.new }
    ensures short { length_of (shape_of runtime.old.set) ≤ 8388608 }
{
    let _size = runtime.save_size();
    if let Some(bytes) = progress {
        let _ = runtime.restore(bytes.as_slice());
    }
}

// The state in a slot; none where it is empty.
fn state_in(slots: &[Option<Kept>], slot: u8) -> Option<&Kept>
    ensures { option_map (λ state. state.now) result ≡ slice_index_or slots.now slot None }
{
    match slots.get(usize::from(slot)) {
        Some(Some(state)) => Some(state),
        _ => None,
    }
}

// Keeps the state of a runtime in a slot, in the room that stands there, or in a new one where it is empty.
fn fill(alloc: Global, runtime: &Playthrough, slot: &mut Option<Kept>) -> Result<(), OutOfMemory>
    ensures { OnOk result (IsOpening (shape_of runtime.now.set) runtime.now.kept → IfSome slot.old (IsKeptFor (shape_of runtime.now.set)) → HoldsState runtime.now slot.new) }
{
    match slot {
        Some(state) => {
            let _ = runtime.keep(state);
        }
        None => *slot = Some(runtime.kept(alloc)?),
    }
    Ok(())
}

impl Player {
    /// The moment before the first record, over an image of zeros; every slot is empty.
    ///
    /// Before it came the frames whose progress bytes the run goes on from, where there are some.
    pub fn new(alloc: Global, beginning: Beginning, size: u32) -> Result<Player, OutOfMemory>
        requires begins { MayBegin beginning }
        requires size { size ≤ 2 ^ 27 }
        ensures stands { IfOk result (λ p. (o : Opening) (behind : History) (earned : Earned) → BeginsAt (set_contents beginning.set) (progress_in beginning) o behind earned
            → StandsAt (set_contents beginning.set) o (first_moment size behind) earned p.runtime p.slots.items) }
        ensures image { IfOk result (λ p. length p.runtime.image ≡ size) }
    {
        let mut slots = Vec::new(alloc);
        while slots.len() < SLOTS {
            slots.push(None)?;
        }
        let mut runtime = Playthrough::new(alloc, beginning.set, size)?;
        take_up(&mut runtime, &beginning.progress);
        Ok(Player { runtime, slots })
    }

    /// The progress bytes of what the runtime keeps.
    pub fn progress(&self, alloc: Global) -> Result<Vec<u8>, OutOfMemory>
        ensures { IfOk result (λ bytes. bytes.items ≡ kept_bytes self.now.runtime) }
    {
        self.runtime.save(alloc)
    }

    // Writes bytes into the image.
    fn write(&mut self, at: u32, bytes: &[u8])
        requires { at + length bytes.now ≤ length self.old.runtime.image }
        ensures written { IsWritten self.old.runtime self.new.runtime at bytes.now }
        ensures bytes { AreBytes bytes.now }
        ensures slots { self.new.slots ≡ self.old.slots }
    {
        self.runtime.write(at, bytes);
    }

    // Keeps the state in a slot.
    #[inline(never)]
    fn save(&mut self, alloc: Global, slot: u8) -> Result<(), Unplayed>
        ensures saved { OnOk result ((set : SetContents) (o : Opening) (m : Moment) (earned : Earned) → StandsAt set o m earned self.old.runtime self.old.slots.items
            → StandsAt set o (moved (Saved slot) m) earned self.new.runtime self.new.slots.items) }
        ensures image { self.new.runtime.image ≡ self.old.runtime.image }
        ensures only { IfErr result (λ e. e ≡ Unplayed.Memory) }
    {
        if let Some(state) = self.slots.get_mut(usize::from(slot)) {
            fill(alloc, &self.runtime, state)?;
        }
        Ok(())
    }

    // Takes up the state of a slot. The runtime never refuses it, since it is of its set.
    #[inline(never)]
    fn restore(&mut self, slot: u8) -> Result<(), Unplayed>
        requires { StandsSomewhere self.old.runtime self.old.slots.items }
        ensures restored { OnOk result ((set : SetContents) (o : Opening) (m : Moment) (earned : Earned) → StandsAt set o m earned self.old.runtime self.old.slots.items
            → StandsAt set o (moved (Restored slot) m) earned self.new.runtime self.new.slots.items × (IsEmptySlot (Restored slot) m → ⊥)) }
        ensures empty { OnErr result ((set : SetContents) (o : Opening) (m : Moment) (earned : Earned) → StandsAt set o m earned self.old.runtime self.old.slots.items → IsEmptySlot (Restored slot) m) }
        ensures image { self.new.runtime.image ≡ self.old.runtime.image }
        ensures only { IfErr result (λ e. e ≡ Unplayed.EmptySlot) }
    {
        let Some(state) = state_in(self.slots.as_slice(), slot) else {
            return Err(Unplayed::EmptySlot);
        };
        match self.runtime.take(state) {
            Ok(()) => Ok(()),
            Err(OtherSet) => unreachable!(),
        }
    }

    // Puts the presence line in the place of a text.
    #[inline(never)]
    fn show(&self, alloc: Global, text: &mut Vec<u8>) -> Result<(), OutOfMemory>
        ensures { OnOk result (ShowsKept self.now.runtime text.new.items) }
    {
        *text = self.runtime.show(alloc)?;
        Ok(())
    }

    /// Plays a record, and puts what it prints into an empty text, in the room that the text has. `EmptySlot` where it
    /// restores an empty slot.
    #[inline(always)]
    pub fn play(
        &mut self,
        alloc: Global,
        entry: &Record<'_>,
        text: &mut Vec<u8>,
    ) -> Result<(), Unplayed>
        requires lies { LiesWithin (length self.old.runtime.image) (entry_of entry.now) }
        requires stands { StandsSomewhere self.old.runtime self.old.slots.items }
        requires empty { text.old.items ≡ [] }
        ensures played { OnOk result ((set : SetContents) (o : Opening) (m : Moment) (earned : Earned) → StandsAt set o m earned self.old.runtime self.old.slots.items
            → Plays set o (entry_of entry.now) m earned self.new.runtime self.new.slots.items text.new.items) }
        ensures empty { IfErr result (λ e. e ≡ Unplayed.EmptySlot → (set : SetContents) (o : Opening) (m : Moment) (earned : Earned) → StandsAt set o m earned self.old.runtime self.old.slots.items → IsEmptySlot (entry_of entry.now) m) }
        ensures image { length self.new.runtime.image ≡ length self.old.runtime.image }
    {
        match entry {
            Record::Write { at, bytes } => self.write(*at, bytes),
            Record::Frame => {
                take_frame::<Brand>(&mut self.runtime, Blank::new(1));
                self.runtime.put_lines(text)?;
            }
            Record::Save { slot } => self.save(alloc, *slot)?,
            Record::Restore { slot } => self.restore(*slot)?,
            Record::Show => self.show(alloc, text)?,
            Record::End => {}
        }
        Ok(())
    }
}

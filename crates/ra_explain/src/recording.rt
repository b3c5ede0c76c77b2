ghost use Rattle.std.specs.Prelude.{◌≡◌, ◌↔◌, IsTrue, ◌+◌, ◌*◌, ◌<◌, ◌≤◌, ◌^◌, ◌&&◌, not, true, ℕ, List, [], None, count_by, length, replicate, option_map, slice_index_or, IfOk, IfErr, OnErr};
ghost use Rattle.std.specs.Result.{OnOk};
ghost use Rattle.ra_condition.specs.Contents.{trigger_contents, trigger_hits};
ghost use Rattle.ra_condition.specs.Spelled.{IsTrigger};
ghost use Rattle.ra_trigger.specs.States.{is_triggered};

use crate::beginning::explained;
use crate::compact::CompactExplanation;
use crate::explanation::Explanation;
use crate::laying::laid_out;
use crate::refused::ExplainRefused;
use crate::row_list::RowList;
use crate::slot::Slot;
use ra_condition::TriggerText;
use ra_member::TriggerRun;
use ra_memory::Image;
use ra_memref::Table;
use ra_text::OutOfMemory;
use ra_trigger::{Change, State};
use std::alloc::Global;
use std::marker::Model;

// How many save slots there are.
const SLOTS: usize = 16;

// The most rows and comparisons together.
const MOST_ROWS: u64 = 67_108_864;

/// An achievement over images that its caller holds, with the comparisons of its conditions at each frame:
/// docs/DEFINITIONS.md, "A frame that looks".
///
/// It is seen as a recorder is, but with the size of the images in place of one, and with the marked cells and
/// where each cell lies.
#[derive(Drop)]
pub struct Recording {
    alloc: Global,
    text: TriggerText,
    table: Table,
    run: TriggerRun,
    rows: RowList,
    // the place of the latest row of the history so far
    latest: u32,
    slots: Vec<Option<Slot>>,
    unlocked: bool,
}

impl Model for Recording {
    ghost use Rattle.ra_explain.specs.Recordings.{RecordingSeen};

    ghost Value = { RecordingSeen };

    ghost use Rattle.ra_explain.specs.Seen.{recording_seen, IsRecording};

    ghost view = { recording_seen };

    ghost invariant = { IsRecording };
}

impl Recording {
    ghost use Rattle.ra_explain.specs.Recorders.{KeepsHistories, KeepsSlots, KeepsOtherSlots, IsFilled, TakesUpSlot, product_of, rows_in_order};
    ghost use Rattle.ra_explain.specs.Recordings.{over, IsBegun, IsCurrent, IsTold, LooksAt, RefusesLooked, RefusesTold, SavesIn, StaysOver, TakesLooked, TakesTold, TakesUp};
    ghost use Rattle.ra_explain.specs.Explains.{explanation_contents};
    ghost use Rattle.ra_explain.specs.Compacts.{compact_contents};
    ghost use Rattle.ra_explain.specs.Unlocks.{ExplainsBehind, FitsRows};

    /// An achievement over images of `size` bytes, before the first frame.
    ///
    /// At most 65,536 conditions and 134,217,728 bytes. It is made to be told of writes: it has a list for each page
    /// of the image. When memory runs out, the text is given up.
    pub fn new(alloc: Global, text: TriggerText, size: u32) -> Result<Recording, OutOfMemory>
        requires few { trigger_hits (trigger_contents text) ≤ 65536 }
        requires spelled { IsTrigger (trigger_contents text) }
        requires size { size ≤ 2 ^ 27 }
        ensures { IfOk result (IsBegun (trigger_contents text) size) }
    {
        Recording::begun(alloc, text, size, false)
    }

    /// The same recording, made to look at images: what it takes of memory does not grow with their size.
    ///
    /// It has no lists, so a write that it is told goes over all cells.
    pub fn for_looks(alloc: Global, text: TriggerText, size: u32) -> Result<Recording, OutOfMemory>
        requires few { trigger_hits (trigger_contents text) ≤ 65536 }
        requires spelled { IsTrigger (trigger_contents text) }
        requires size { size ≤ 2 ^ 27 }
        ensures { IfOk result (IsBegun (trigger_contents text) size) }
    {
        Recording::begun(alloc, text, size, true)
    }

    // A recording before the first frame, made to look at images or to be told of writes.
    fn begun(
        alloc: Global,
        text: TriggerText,
        size: u32,
        looks: bool,
    ) -> Result<Recording, OutOfMemory>
        requires few { trigger_hits (trigger_contents text) ≤ 65536 }
        requires spelled { IsTrigger (trigger_contents text) }
        requires size { size ≤ 2 ^ 27 }
        ensures { IfOk result (IsBegun (trigger_contents text) size) }
    {
        let (table, run) = laid_out(alloc, &text, size, looks)?;
        let slots = empty_slots(alloc)?;
        let rows = RowList::new(alloc, run.trigger.hits().len());
        Ok(Recording {
            alloc,
            text,
            table,
            run,
            rows,
            latest: 0,
            slots,
            unlocked: false,
        })
    }

    /// Tells that `count` bytes from the address `at` on may have changed.
    pub fn tell(&mut self, at: u32, count: u32)
        requires { at + count ≤ self.old.size }
        ensures { IsTold self.old self.new at count }
    {
        self.table.write(at, count);
    }

    /// Looks at the image for what was not told: docs/DEFINITIONS.md, "A frame that looks".
    ///
    /// It reads each cell that is not marked, once, where it lay at the last frame, and marks those that have
    /// another number there. A frame of this image may follow, whatever was told or shown before.
    pub fn look<I: Image>(&mut self, image: &mut I)
        ensures looked { LooksAt self.old self.new (I.bytes image.old) }
        ensures reads { I.reads image.new ≡ I.reads image.old + count_by not self.old.marked }

        ensures bytes { I.bytes image.new ≡ I.bytes image.old }
        ensures counter { I.counter image.new ≡ I.counter image.old }
    {
        self.table.look(image);
    }

    /// Takes one frame from an image of which each change was told or looked for, and answers whether the
    /// achievement unlocks at it: docs/DEFINITIONS.md, "A frame that looks".
    ///
    /// `Rows` exactly where one frame more makes more than 67,108,864 rows and comparisons together. After a
    /// refusal the recording is unchanged, and nothing was read.
    pub fn frame<I: Image>(&mut self, image: &mut I) -> Result<bool, ExplainRefused>
        requires size { length (I.bytes image.old) ≡ self.old.size }
        requires current { IsCurrent self.old (I.bytes image.old) }

        ensures taken { IfOk result (TakesTold self.old self.new (I.bytes image.old) (I.reads image.old) (I.reads image.new)) }
        ensures refused { IfErr result (RefusesTold self.old self.new (I.bytes image.old) (I.reads image.old) (I.reads image.new)) }

        // what stays
        ensures stays { StaysOver self.old self.new (I.bytes image.old) }
        ensures bytes { I.bytes image.new ≡ I.bytes image.old }
        ensures counter { I.counter image.new ≡ I.counter image.old }
    {
        let found = self.product();
        if found > MOST_ROWS {
            return Err(ExplainRefused::Rows { found });
        }
        self.rows.add(self.latest)?;
        self.table.sample(image);
        let change = self.run.step(&self.text, &self.table);
        self.rows.fill(&self.run.laid, &self.table);
        self.latest = self.rows.len() as u32;
        self.unlocked = unlocks(change);
        Ok(self.unlocked)
    }

    // How many rows and comparisons one frame more makes.
    fn product(&self) -> u64
        ensures { result ≡ product_of (over self.now []) }
    {
        (self.rows.len() as u64 + 1) * (self.run.trigger.hits().len() as u64 + 1)
    }

    /// Takes one frame from any image of the size, whatever was told or shown before: a look, and then a frame.
    ///
    /// It reads each cell that is not marked, and then each one that is marked by then or has moved. After a refusal
    /// the look alone was done.
    pub fn follow<I: Image>(&mut self, image: &mut I) -> Result<bool, ExplainRefused>
        requires size { length (I.bytes image.old) ≡ self.old.size }

        ensures taken { IfOk result (TakesLooked self.old self.new (I.bytes image.old) (I.reads image.old) (I.reads image.new)) }
        ensures refused { IfErr result (RefusesLooked self.old self.new (I.bytes image.old) (I.reads image.old) (I.reads image.new)) }

        // what stays
        ensures stays { StaysOver self.old self.new (I.bytes image.old) }
        ensures bytes { I.bytes image.new ≡ I.bytes image.old }
        ensures counter { I.counter image.new ≡ I.counter image.old }
    {
        self.look(image);
        self.frame(image)
    }

    /// Keeps the present moment in a slot, from 0 to 15. When memory runs out, the recording is unchanged.
    pub fn save(&mut self, slot: u8) -> Result<(), OutOfMemory>
        requires { slot < 16 }
        ensures saved { OnOk result (SavesIn self.old self.new slot) }
        ensures err { OnErr result (self.new ≡ self.old) }
        ensures stands { (image : List ℕ) → KeepsHistories (over self.old image) (over self.new image) }
        ensures slots { (image : List ℕ) → KeepsOtherSlots (over self.old image) (over self.new image) slot }
    {
        let kept = Slot::new(self.alloc, &self.table, &self.run, self.latest)?;
        self.slots[usize::from(slot)] = Some(kept);
        Ok(())
    }

    /// Whether a slot, from 0 to 15, is filled.
    pub fn is_filled(&self, slot: u8) -> bool
        ensures { IsTrue result ↔ IsFilled (over self.now []) slot }
    {
        slot_in(self.slots.as_slice(), slot).is_some()
    }

    /// Takes up what a filled slot keeps, and marks each cell, so that every image is current; all slots stay.
    pub fn restore(&mut self, slot: u8)
        requires low { slot < 16 }
        requires filled { IsFilled (over self.old []) slot }
        ensures restored { TakesUp self.old self.new slot }
        ensures stands { (image : List ℕ) → TakesUpSlot (over self.old image) (over self.new image) slot }
        ensures slots { (image : List ℕ) → KeepsSlots (over self.old image) (over self.new image) }
        ensures current { (image : List ℕ) → IsCurrent self.new image }
    {
        let Some(kept) = slot_in(self.slots.as_slice(), slot) else {
            unreachable!()
        };
        self.table.put_back(&kept.numbers);
        self.run
            .trigger
            .put_back(kept.state, kept.measured, &kept.hits);
        self.latest = kept.latest;
        self.unlocked = false;
    }

    /// The comparisons at all frames of the history so far, row by row, core first.
    pub fn rows(&self, alloc: Global) -> Result<Vec<bool>, OutOfMemory>
        ensures { IfOk result (λ rows. rows.items ≡ rows_in_order self.now.kept) }
    {
        self.rows.behind(alloc, self.latest)
    }

    /// The trigger that it was made with.
    pub fn text(&self) -> &TriggerText
        ensures { trigger_contents result.now ≡ self.now.trigger }
    {
        &self.text
    }

    /// Why the unlock at the last frame came: docs/DEFINITIONS.md, "Explanations".
    ///
    /// The last frame answered true, and no restore came since. `verify` may be asked of the answer over `rows`.
    pub fn explain(&self, alloc: Global) -> Result<Explanation, OutOfMemory>
        requires { self.now.unlocked ≡ true }
        ensures explains { IfOk result (λ e. (image : List ℕ) →
            ExplainsBehind (over self.now image) (explanation_contents e)) }
        ensures fits { IfOk result (λ e. (image : List ℕ) →
            FitsRows (over self.now image) (explanation_contents e)) }
    {
        self.explain_compactly(alloc)?.expand(alloc)
    }

    /// The same explanation in a byte for each condition and row from its first one on.
    pub fn explain_compactly(&self, alloc: Global) -> Result<CompactExplanation, OutOfMemory>
        requires { self.now.unlocked ≡ true }
        ensures explains { IfOk result (λ e. (image : List ℕ) →
            ExplainsBehind (over self.now image) (compact_contents e)) }
        ensures fits { IfOk result (λ e. (image : List ℕ) →
            FitsRows (over self.now image) (compact_contents e)) }
    {
        let rows = self.rows.in_order(alloc, self.latest)?;
        let count = self.rows.count(self.latest);
        explained(alloc, &self.text, &rows, count - 1)
    }
}

// Sixteen empty slots.
fn empty_slots(alloc: Global) -> Result<Vec<Option<Slot>>, OutOfMemory>
    ensures { IfOk result (λ slots. slots.items ≡ replicate 16 None) }
{
    let mut slots = Vec::new(alloc);
    while slots.len() < SLOTS {
        slots.push(None)?;
    }
    Ok(slots)
}

// What a slot keeps; none where it is empty.
fn slot_in(slots: &[Option<Slot>], slot: u8) -> Option<&Slot>
    ensures { option_map (λ kept. kept.now) result ≡ slice_index_or slots.now slot None }
{
    match slots.get(usize::from(slot)) {
        Some(Some(kept)) => Some(kept),
        _ => None,
    }
}

// Whether a change is an unlock.
fn unlocks(change: Change) -> bool
    ensures { result ≡ (not (is_triggered change.before) && is_triggered change.after) }
{
    !matches!(change.before, State::Triggered) && matches!(change.after, State::Triggered)
}

ghost use Rattle.std.specs.Prelude.{◌≡◌, ◌↔◌, IsTrue, ◌+◌, ◌<◌, ◌≤◌, ◌^◌, true, length, IfOk, IfErr, OnErr};
ghost use Rattle.std.specs.Result.{OnOk};
ghost use Rattle.ra_condition.specs.Contents.{trigger_contents, trigger_hits};
ghost use Rattle.ra_condition.specs.Spelled.{IsTrigger};

use crate::compact::CompactExplanation;
use crate::explanation::Explanation;
use crate::recording::Recording;
use crate::refused::ExplainRefused;
use ra_condition::TriggerText;
use ra_memory::{Counted, Memory, Steps};
use ra_text::OutOfMemory;
use std::alloc::Global;
use std::marker::Model;
use std::sync::ledger::Ledger;

/// An achievement over a memory, with the comparisons of its conditions at each frame: docs/DEFINITIONS.md,
/// "Recorders".
///
/// It is seen as its trigger, the image, how many frames it has taken, what it keeps of the history so far,
/// what each slot keeps, and whether the last frame was an unlock.
#[derive(Drop)]
pub struct Recorder {
    memory: Memory,
    recording: Recording,
}

impl Model for Recorder {
    ghost use Rattle.ra_explain.specs.Recorders.{RecorderSeen};

    ghost Value = { RecorderSeen };

    ghost use Rattle.ra_explain.specs.Seen.{recorder_seen, IsRecorder};

    ghost view = { recorder_seen };

    ghost invariant = { IsRecorder };
}

impl Recorder {
    ghost use Rattle.ra_explain.specs.Recorders.{KeepsHistories, KeepsSlots, KeepsOtherSlots, IsNew, IsWritten, TakesFrame, RefusesFrame, IsSaved, IsFilled, IsRestored, TakesUpSlot, rows_in_order};
    ghost use Rattle.ra_explain.specs.Explains.{explanation_contents};
    ghost use Rattle.ra_explain.specs.Compacts.{compact_contents};
    ghost use Rattle.ra_explain.specs.Unlocks.{ExplainsBehind, FitsRows};

    /// An achievement over a memory of `size` bytes, all 0, before the first frame.
    ///
    /// At most 65,536 conditions and 134,217,728 bytes. When memory runs out, the text is given up.
    pub fn new(alloc: Global, text: TriggerText, size: u32) -> Result<Recorder, OutOfMemory>
        requires few { trigger_hits (trigger_contents text) ≤ 65536 }
        requires spelled { IsTrigger (trigger_contents text) }
        requires size { size ≤ 2 ^ 27 }
        ensures { IfOk result (IsNew (trigger_contents text) size) }
    {
        let memory = Memory::new(alloc, size)?;
        let recording = Recording::new(alloc, text, size)?;
        Ok(Recorder { memory, recording })
    }

    /// Writes the bytes from the address `at` on.
    pub fn write(&mut self, at: u32, bytes: &[u8])
        requires { at + length bytes.now ≤ length self.old.image }
        ensures written { IsWritten self.old self.new at bytes.now }
        ensures stands { KeepsHistories self.old self.new }
        ensures slots { KeepsSlots self.old self.new }
    {
        let _size = self.memory.size();
        let count = bytes.len() as u32;
        let _ = self.memory.write(at, bytes);
        self.recording.tell(at, count);
    }

    /// Takes one frame, and answers whether the achievement unlocks at it.
    ///
    /// `Rows` exactly where one frame more makes more than 67,108,864 rows and comparisons together. After a
    /// refusal the recorder is unchanged.
    pub fn frame<L: Ledger>(&mut self, steps: &mut Steps<L>) -> Result<bool, ExplainRefused>
        ensures taken { IfOk result (TakesFrame self.old self.new) }
        ensures slots { KeepsSlots self.old self.new }
        ensures refused { IfErr result (RefusesFrame self.old) }
        ensures err { OnErr result (self.new ≡ self.old) }
    {
        self.recording.frame(&mut Counted {
            memory: &self.memory,
            steps,
        })
    }

    /// Keeps the present moment in a slot, from 0 to 15. When memory runs out, the recorder is unchanged.
    pub fn save(&mut self, slot: u8) -> Result<(), OutOfMemory>
        requires { slot < 16 }
        ensures saved { OnOk result (IsSaved self.old self.new slot) }
        ensures err { OnErr result (self.new ≡ self.old) }
        ensures stands { KeepsHistories self.old self.new }
        ensures slots { KeepsOtherSlots self.old self.new slot }
    {
        self.recording.save(slot)
    }

    /// Whether a slot, from 0 to 15, is filled.
    pub fn is_filled(&self, slot: u8) -> bool
        ensures { IsTrue result ↔ IsFilled self.now slot }
    {
        self.recording.is_filled(slot)
    }

    /// Takes up what a filled slot keeps; the image and all slots stay.
    pub fn restore(&mut self, slot: u8)
        requires low { slot < 16 }
        requires filled { IsFilled self.old slot }
        ensures restored { IsRestored self.old self.new slot }
        ensures stands { TakesUpSlot self.old self.new slot }
        ensures slots { KeepsSlots self.old self.new }
    {
        self.recording.restore(slot);
    }

    /// The comparisons at all frames of the history so far, row by row, core first.
    pub fn rows(&self, alloc: Global) -> Result<Vec<bool>, OutOfMemory>
        ensures { IfOk result (λ rows. rows.items ≡ rows_in_order self.now.kept) }
    {
        self.recording.rows(alloc)
    }

    /// The trigger that it was made with.
    pub fn text(&self) -> &TriggerText
        ensures { trigger_contents result.now ≡ self.now.trigger }
    {
        self.recording.text()
    }

    /// Why the unlock at the last frame came: docs/DEFINITIONS.md, "Explanations".
    ///
    /// The last call but of `write`, `save`, `rows` and `explain` was a frame that answered true. `verify` may be asked
    /// of the answer over `rows`.
    pub fn explain(&self, alloc: Global) -> Result<Explanation, OutOfMemory>
        requires { self.now.unlocked ≡ true }
        ensures explains { IfOk result (λ e. ExplainsBehind self.now (explanation_contents e)) }
        ensures fits { IfOk result (λ e. FitsRows self.now (explanation_contents e)) }
    {
        self.recording.explain(alloc)
    }

    /// The same explanation in a byte for each condition and row from its first one on.
    pub fn explain_compactly(&self, alloc: Global) -> Result<CompactExplanation, OutOfMemory>
        requires { self.now.unlocked ≡ true }
        ensures explains { IfOk result (λ e. ExplainsBehind self.now (compact_contents e)) }
        ensures fits { IfOk result (λ e. FitsRows self.now (compact_contents e)) }
    {
        self.recording.explain_compactly(alloc)
    }
}

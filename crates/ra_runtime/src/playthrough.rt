ghost use Rattle.std.specs.Prelude.{◌≡◌, ◌++◌, ◌+◌, ◌-◌, ◌<◌, ◌≤◌, ◌^◌, [], None, Some, option_map, length, IfOk, IfErr, OnOk, OnErr};
ghost use Rattle.ra_set.specs.Contents.{set_contents};
ghost use Rattle.ra_set.specs.Limits.{IsWithinLimits};
ghost use Rattle.ra_set.specs.Names.{IsNamed};
ghost use Rattle.ra_progress.specs.Contents.{IsOpening};
ghost use Rattle.ra_progress.specs.Layout.{length_of};
ghost use Rattle.ra_progress.specs.Reading.{IsAccepted, refusal};
ghost use Rattle.ra_progress.specs.Spelling.{progress_bytes};
ghost use Rattle.ra_memref.specs.Marks.{reads_of};
ghost use Rattle.ra_items.specs.ItemStates.{state_at};
ghost use Rattle.ra_meaning.specs.Order.{shape_of};
ghost use Rattle.ra_meaning.specs.Play.{shown};
ghost use Rattle.ra_meaning.specs.Saving.{IsSaved};
ghost use Rattle.ra_set.specs.Spelled.{IsSpelled};

use crate::course::Course;
use crate::kept::{Kept, OtherSet};
use crate::tallied::Tallied;
use ra_items::{Events, ItemState};
use ra_memory::{Counted, Memory, Steps};
use ra_progress::{ProgressRefused, Shape};
use ra_set::Set;
use ra_text::OutOfMemory;
use std::alloc::Global;
use std::marker::{Brand, Model};
use std::sync::ledger::{Blank, Ledger};

/// A set over a memory, between frames, as a `Runtime` is, but for the names of its cells and tracked masks: they are
/// made where a restore or a save into a file first needs them.
///
/// It is seen as a runtime is: docs/DEFINITIONS.md, "What a runtime keeps".
#[derive(Drop)]
pub struct Playthrough {
    memory: Memory,
    course: Course,
}

impl Model for Playthrough {
    ghost use Rattle.ra_meaning.specs.Runtime.{RuntimeSeen};

    ghost Value = { RuntimeSeen };

    ghost use Rattle.ra_runtime.specs.Seen.{playthrough_seen, IsPlaythrough};

    ghost view = { playthrough_seen };

    ghost invariant = { IsPlaythrough };
}

impl Playthrough {
    ghost use Rattle.ra_meaning.specs.Lines.{IsTextOf};
    ghost use Rattle.ra_meaning.specs.Runtime.{IsMade, IsWritten, ReadsFew, ShowsKept, TakesFrame, TakesUp};
    ghost use Rattle.ra_runtime.specs.Keeping.{IsKeptFor, Takes, course_of};
    ghost use Rattle.ra_runtime.specs.Lazy.{IsWhole};
    ghost use Rattle.ra_runtime.specs.Told.{CountsReads, GrewByFront};

    /// A set over a memory of `size` bytes, all 0, before the first frame: docs/DEFINITIONS.md, "What a
    /// runtime keeps".
    ///
    /// When memory runs out, the set is given up.
    pub fn new(alloc: Global, set: Set, size: u32) -> Result<Playthrough, OutOfMemory>
        requires limits { IsWithinLimits (set_contents set) }
        requires spelled { IsSpelled (set_contents set) }
        requires named { IsNamed (set_contents set) }
        requires size { size ≤ 2 ^ 27 }
        ensures { IfOk result (IsMade (set_contents set) size) }
    {
        let memory = Memory::new(alloc, size)?;
        let course = Course::new(alloc, set, size)?;
        Ok(Playthrough { memory, course })
    }

    /// The shape of the set: docs/DEFINITIONS.md, "Shape of a set". Memory is the only refusal.
    pub fn shape(&self, alloc: Global) -> Result<Shape, OutOfMemory>
        ensures { IfOk result (IsWhole (shape_of self.now.set)) }
    {
        self.course.shape(alloc)
    }

    /// How many bytes a save takes: docs/DEFINITIONS.md, "Progress file".
    pub fn save_size(&self) -> u64
        ensures size { result ≡ length_of (shape_of self.now.set) }
        ensures short { result ≤ 8388608 }
    {
        self.course.save_size()
    }

    /// Writes the bytes from the address `at` on, and tells the table.
    pub fn write(&mut self, at: u32, bytes: &[u8])
        requires { at + length bytes.now ≤ length self.old.image }
        ensures { IsWritten self.old self.new at bytes.now }
    {
        let _size = self.memory.size();
        let count = bytes.len() as u32;
        let _ = self.memory.write(at, bytes);
        self.course.tell(at, count);
    }

    /// The progress bytes of the present state: docs/DEFINITIONS.md, "Progress file".
    pub fn save(&self, alloc: Global) -> Result<Vec<u8>, OutOfMemory>
        ensures bytes { IfOk result (λ bytes. bytes.items ≡ progress_bytes (shape_of self.now.set) self.now.kept) }
        ensures saved { IfOk result (λ bytes. IsSaved self.now.set bytes.items) }
        ensures opening { OnOk result (IsOpening (shape_of self.now.set) self.now.kept) }
    {
        self.course.save(alloc)
    }

    // The same bytes, by the shape of the set.
    pub(crate) fn save_by(&self, alloc: Global, shape: &Shape) -> Result<Vec<u8>, OutOfMemory>
        requires { IsWhole (shape_of self.now.set) shape.now }
        ensures bytes { IfOk result (λ bytes. bytes.items ≡ progress_bytes (shape_of self.now.set) self.now.kept) }
        ensures saved { IfOk result (λ bytes. IsSaved self.now.set bytes.items) }
        ensures opening { OnOk result (IsOpening (shape_of self.now.set) self.now.kept) }
    {
        self.course.save_by(alloc, shape)
    }

    /// Takes up what progress bytes say, of this set or of a changed one: docs/DEFINITIONS.md, "What a runtime keeps".
    ///
    /// What was earned before stays earned. Bytes that `check` refuses change nothing. No memory is taken.
    pub fn restore(&mut self, bytes: &[u8]) -> Result<(), ProgressRefused>
        ensures ok { OnOk result (TakesUp self.old self.new bytes.now) }
        ensures accepted { OnOk result (refusal (shape_of self.old.set) bytes.now ≡ None) }
        ensures refused { IfErr result (λ why. refusal (shape_of self.old.set) bytes.now ≡ Some why) }
        ensures err { OnErr result (self.new ≡ self.old) }
    {
        self.course.restore(bytes)
    }

    /// The state that it keeps now, with room for each later one of its set: docs/DEFINITIONS.md, "States kept in
    /// memory".
    pub fn kept(&self, alloc: Global) -> Result<Kept, OutOfMemory>
        ensures holds { IfOk result (λ kept. kept.opening ≡ self.now.kept) }
        ensures set { IfOk result (λ kept. IsKeptFor (shape_of self.now.set) kept) }
    {
        Kept::new(alloc, &self.course)
    }

    /// Keeps the present state in memory, in the place of the one that was kept there: docs/DEFINITIONS.md, "States kept in
    /// memory".
    ///
    /// It is refused exactly where the room is for another set, and then it stays as it was. No memory is taken.
    pub fn keep(&self, kept: &mut Kept) -> Result<(), OtherSet>
        ensures kept { OnOk result (kept.new ≡ record kept.old { opening = self.now.kept }) }
        ensures of_set { OnOk result (IsKeptFor (shape_of self.now.set) kept.old) }
        ensures other { OnErr result (IsKeptFor (shape_of self.now.set) kept.old → ⊥) }
        ensures err { OnErr result (kept.new ≡ kept.old) }
    {
        self.course.keep(kept)
    }

    /// Takes up a kept state, as a restore does: docs/DEFINITIONS.md, "States kept in memory". The image stays.
    ///
    /// What was earned stays earned. It is refused exactly where the state is of another set, and then nothing changes. No
    /// memory is taken.
    pub fn take(&mut self, kept: &Kept) -> Result<(), OtherSet>
        ensures taken { OnOk result (Takes (course_of self.old) (course_of self.new) kept.now.opening) }
        ensures image { self.new.image ≡ self.old.image }
        ensures other { OnErr result (IsKeptFor (shape_of self.old.set) kept.now → ⊥) }
        ensures err { OnErr result (self.new ≡ self.old) }
    {
        self.course.take(kept)
    }

    /// Takes one frame of every item: docs/DEFINITIONS.md, "What a runtime keeps". No memory is taken.
    pub fn frame<L: Ledger>(&mut self, steps: &mut Steps<L>)
        ensures taken { TakesFrame self.old self.new }
        ensures reads { ReadsFew self.old self.new (steps.new - steps.old) }
        ensures counts { steps.old ≤ steps.new }
    {
        self.course.frame(&mut Counted {
            memory: &self.memory,
            steps,
        });
    }

    /// Takes one frame, as `frame` does with a counter of its own, and answers how many reads it took, at most
    /// 18,446,744,073,709,551,615. No memory is taken.
    pub fn advance(&mut self) -> u64
        ensures taken { TakesFrame self.old self.new }
        ensures reads { ReadsFew self.old self.new (reads_of self.old.marked self.old.places self.new.places) }
        ensures counted { CountsReads self.old self.new result }
    {
        self.take_frame::<Brand>(Blank::new(1))
    }

    // Takes one frame, and counts what is read by this blank and by number.
    fn take_frame<L: Ledger>(&mut self, blank: Blank) -> u64
        requires name { blank.name ≡ L.name }
        requires parts { blank.parts ≡ L.parts }
        requires held { 0 < blank.parts }
        ensures taken { TakesFrame self.old self.new }
        ensures reads { ReadsFew self.old self.new (reads_of self.old.marked self.old.places self.new.places) }
        ensures counted { CountsReads self.old self.new result }
    {
        let mut steps = Steps::<L>::open(blank);
        let mut image = Tallied {
            memory: &self.memory,
            steps: &mut steps,
            count: 0,
        };
        self.course.frame(&mut image);
        image.count
    }

    /// The events of the last frame, items in set order: docs/DEFINITIONS.md, "Events". None where no
    /// frame came. No memory is taken.
    pub fn events(&self) -> Events<'_>
        ensures { result ≡ self.now.events }
    {
        self.course.events()
    }

    /// The lines of the events of the last frame: docs/DEFINITIONS.md, "Printed lines". None where no
    /// frame came.
    pub fn lines(&self, alloc: Global) -> Result<Vec<u8>, OutOfMemory>
        ensures lines { IfOk result (λ text. text.items ≡ self.now.lines) }
        ensures of_events { IfOk result (λ text. IsTextOf text.items self.now.events) }
    {
        let mut out = Vec::new(alloc);
        self.course.tell_lines(&mut out)?;
        Ok(out)
    }

    /// Puts the lines of the events of the last frame at the end of a text, in the room that it has:
    /// docs/DEFINITIONS.md, "Printed lines". None where no frame came. When memory runs out, the text grew by a front
    /// of them.
    pub fn put_lines(&self, text: &mut Vec<u8>) -> Result<(), OutOfMemory>
        ensures put { OnOk result (text.new.items ≡ text.old.items ++ self.now.lines) }
        ensures front { OnErr result (GrewByFront text.old.items text.new.items self.now.lines) }
    {
        self.course.tell_lines(text)
    }

    /// How many bytes the image has.
    pub fn size(&self) -> u32
        ensures { result ≡ length self.now.image }
    {
        self.memory.size()
    }

    /// The count of frames, which stops at 18,446,744,073,709,551,615.
    pub fn frames(&self) -> u64
        ensures { result ≡ self.now.kept.frames }
    {
        self.course.frames()
    }

    /// Where the item at a place of the set stands; none past the last one.
    pub fn item(&self, place: usize) -> Option<ItemState>
        ensures { result ≡ state_at self.now.set self.now.kept place }
    {
        self.course.item(place)
    }

    /// The index of the display line that is shown; none where the set has no script.
    pub fn shown(&self) -> Option<u32>
        ensures { result ≡ option_map (λ presence. presence.shown) self.now.kept.presence }
    {
        self.course.shown()
    }

    /// The presence line after the last frame, with the count of frames: docs/DEFINITIONS.md, "Presence
    /// over frames". Empty where the set has no script.
    pub fn show(&self, alloc: Global) -> Result<Vec<u8>, OutOfMemory>
        ensures shows { IfOk result (λ text. ShowsKept self.now text.items) }
        ensures now { IfOk result (λ text. text.items ≡ shown self.now.set self.now.kept []) }
    {
        self.course.show(alloc)
    }
}

ghost use Rattle.std.specs.Prelude.{◌≡◌, ◌++◌, ◌+◌, ◌-◌, ◌≤◌, ◌^◌, ℕ, List, [], None, Some, true, false, option_map, not, count_by, length, slice_index_or, IfOk, IfErr, OnOk, OnErr};
ghost use Rattle.ra_set.specs.Contents.{set_contents};
ghost use Rattle.ra_set.specs.Limits.{IsWithinLimits};
ghost use Rattle.ra_set.specs.Names.{IsNamed};
ghost use Rattle.ra_progress.specs.Contents.{IsOpening};
ghost use Rattle.ra_progress.specs.Layout.{length_of};
ghost use Rattle.ra_progress.specs.Reading.{IsAccepted, refusal};
ghost use Rattle.ra_progress.specs.Spelling.{progress_bytes};
ghost use Rattle.ra_items.specs.ItemStates.{state_at};
ghost use Rattle.ra_meaning.specs.Earned as earning;
ghost use Rattle.ra_meaning.specs.Order.{shape_of};
ghost use Rattle.ra_meaning.specs.Play.{shown};
ghost use Rattle.ra_meaning.specs.Saving.{IsSaved};
ghost use Rattle.ra_set.specs.Spelled.{IsSpelled};

use crate::kept::{Kept, OtherSet};
use crate::lazy_shape::LazyShape;
use crate::numbers::take_numbers;
use crate::shapes::{at_rest, shape_and_room};
use crate::written::put_events;
use ra_display::{
    LineRests, PresenceRun, put_back_presence, put_display, shown_line, step_presence,
};
use ra_items::{
    Events, ItemRun, ItemState, Rests, earn_runs, earned_in, put_back_runs, put_runs, state_in,
};
use ra_memory::Image;
use ra_memref::Table;
use ra_progress::{ProgressRefused, Said, Shape, begin, check, close, file_length, frames_at};
use ra_set::Set;
use ra_text::OutOfMemory;
use std::alloc::Global;
use std::marker::Model;

/// A set between frames, over images that its caller holds: docs/DEFINITIONS.md, "A frame that looks".
///
/// It is seen as a runtime is, but with the size of the images in place of one: as its set, the opening that
/// it keeps, the events and lines of the last frame, the marked cells, and where each cell lies.
#[derive(Drop)]
pub struct Course {
    set: Set,
    shape: LazyShape,
    // room for what a progress file says, so that a restore takes no memory
    said: Said,
    table: Table,
    runs: Vec<ItemRun>,
    rests: Rests,
    presence: Option<PresenceRun>,
    line_rests: LineRests,
    // the size of the images
    size: u32,
    // the count of frames, which stops at the last number
    count: u64,
    // the number of the last frame, where one came: the count before it
    last: Option<u64>,
}

impl Model for Course {
    ghost use Rattle.ra_runtime.specs.Courses.{CourseSeen};

    ghost Value = { CourseSeen };

    ghost use Rattle.ra_runtime.specs.Seen.{course_seen, IsCourse};

    ghost view = { course_seen };

    ghost invariant = { IsCourse };
}

impl Course {
    ghost use Rattle.ra_meaning.specs.Lines.{IsTextOf};
    ghost use Rattle.ra_meaning.specs.Runtime.{ReadsFew, ShowsKept, TakesUp};
    ghost use Rattle.ra_runtime.specs.Courses.{over, EarnsToo, IsBegun, IsCurrent, IsTold, LooksAt, ReadsLooked, TakesImage};
    ghost use Rattle.ra_runtime.specs.Keeping.{IsKeptFor, Takes};
    ghost use Rattle.ra_runtime.specs.Lazy.{IsWhole};
    ghost use Rattle.ra_runtime.specs.Told.{GrewByFront};

    /// A set over images of `size` bytes, before the first frame: docs/DEFINITIONS.md, "What a runtime keeps".
    ///
    /// It is made to be told of writes: it has a list for each page of the image. When memory runs out, the set is
    /// given up.
    pub fn new(alloc: Global, set: Set, size: u32) -> Result<Course, OutOfMemory>
        requires limits { IsWithinLimits (set_contents set) }
        requires spelled { IsSpelled (set_contents set) }
        requires named { IsNamed (set_contents set) }
        requires size { size ≤ 2 ^ 27 }
        ensures { IfOk result (IsBegun (set_contents set) size) }
    {
        Course::begun(alloc, set, size, false)
    }

    /// The same course, made to look at images: what it takes of memory does not grow with their size.
    ///
    /// It has no lists, so a write that it is told goes over all cells.
    pub fn for_looks(alloc: Global, set: Set, size: u32) -> Result<Course, OutOfMemory>
        requires limits { IsWithinLimits (set_contents set) }
        requires spelled { IsSpelled (set_contents set) }
        requires named { IsNamed (set_contents set) }
        requires size { size ≤ 2 ^ 27 }
        ensures { IfOk result (IsBegun (set_contents set) size) }
    {
        Course::begun(alloc, set, size, true)
    }

    // A course before the first frame, made to look at images or to be told of writes.
    fn begun(alloc: Global, set: Set, size: u32, looks: bool) -> Result<Course, OutOfMemory>
        requires limits { IsWithinLimits (set_contents set) }
        requires spelled { IsSpelled (set_contents set) }
        requires named { IsNamed (set_contents set) }
        requires size { size ≤ 2 ^ 27 }
        ensures { IfOk result (IsBegun (set_contents set) size) }
    {
        let (table, runs, rests, presence, line_rests) = at_rest(alloc, &set, size, looks)?;
        let (shape, said) = shape_and_room(alloc, &set, &runs, &presence, &table)?;
        Ok(Course {
            set,
            shape,
            said,
            table,
            runs,
            rests,
            presence,
            line_rests,
            size,
            count: 0,
            last: None,
        })
    }

    /// The shape of the set: docs/DEFINITIONS.md, "Shape of a set". Memory is the only refusal.
    pub fn shape(&self, alloc: Global) -> Result<Shape, OutOfMemory>
        ensures { IfOk result (IsWhole (shape_of self.now.set)) }
    {
        self.shape.whole(alloc, &self.table)
    }

    /// Makes the names of cells and tracked masks, where a restore has not made them: docs/INTERNALS.md, "Names are made
    /// where they are first needed".
    ///
    /// Each later save has them. Nothing that is seen changes, and no memory is taken.
    pub fn name(&mut self)
        ensures { self.new ≡ self.old }
    {
        self.shape.make(&self.table);
    }

    /// How many bytes a save takes: docs/DEFINITIONS.md, "Progress file".
    pub fn save_size(&self) -> u64
        ensures size { result ≡ length_of (shape_of self.now.set) }
        ensures short { result ≤ 8388608 }
    {
        let names = self.table.cells().len() as u64 + self.table.priors().len() as u64;
        file_length(&self.shape.shape, names)
    }

    /// Tells that `count` bytes from the address `at` on may have changed.
    pub fn tell(&mut self, at: u32, count: u32)
        requires { at + count ≤ self.old.size }
        ensures { IsTold self.old self.new at count }
    {
        self.table.write(at, count);
    }

    /// Looks at the image for what was not told: docs/DEFINITIONS.md, "A frame that looks".
    ///
    /// It reads each cell that is not marked, once, where it lay at the last frame, and marks those that have
    /// another number there. A frame of this image may follow, whatever was told or shown before.
    pub fn look<I: Image>(&mut self, image: &mut I)
        ensures looked { LooksAt self.old self.new (I.bytes image.old) }
        ensures reads { I.reads image.new ≡ I.reads image.old + count_by not self.old.marked }

        ensures bytes { I.bytes image.new ≡ I.bytes image.old }
        ensures counter { I.counter image.new ≡ I.counter image.old }
    {
        self.table.look(image);
    }

    /// The progress bytes of the present state: docs/DEFINITIONS.md, "Progress file".
    pub fn save(&self, alloc: Global) -> Result<Vec<u8>, OutOfMemory>
        ensures bytes { IfOk result (λ bytes. bytes.items ≡ progress_bytes (shape_of self.now.set) self.now.kept) }
        ensures saved { IfOk result (λ bytes. IsSaved self.now.set bytes.items) }
        ensures opening { OnOk result (IsOpening (shape_of self.now.set) self.now.kept) }
    {
        if self.shape.named {
            self.save_by(alloc, &self.shape.shape)
        } else {
            let shape = self.shape(alloc)?;
            self.save_by(alloc, &shape)
        }
    }

    // The same bytes, by the shape of the set.
    pub(crate) fn save_by(&self, alloc: Global, shape: &Shape) -> Result<Vec<u8>, OutOfMemory>
        requires { IsWhole (shape_of self.now.set) shape.now }
        ensures bytes { IfOk result (λ bytes. bytes.items ≡ progress_bytes (shape_of self.now.set) self.now.kept) }
        ensures saved { IfOk result (λ bytes. IsSaved self.now.set bytes.items) }
        ensures opening { OnOk result (IsOpening (shape_of self.now.set) self.now.kept) }
    {
        let cells = self.table.cells();
        let priors = self.table.priors();
        let mut bytes = begin(alloc, shape, self.count, cells, priors)?;
        put_runs(&mut bytes, &shape.item_names, &self.runs, &self.rests)?;
        put_display(
            alloc,
            &mut bytes,
            &shape.presence_name,
            &self.presence,
            &self.line_rests,
        )?;
        close(&mut bytes)?;
        Ok(bytes)
    }

    /// Takes up what progress bytes say, of this set or of a changed one: docs/DEFINITIONS.md, "What a runtime keeps".
    ///
    /// What was earned before stays earned. Bytes that `check` refuses change nothing. No memory is taken.
    pub fn restore(&mut self, bytes: &[u8]) -> Result<(), ProgressRefused>
        ensures ok { OnOk result ((image : List ℕ) → TakesUp (over self.old image) (over self.new image) bytes.now) }
        ensures current { OnOk result ((image : List ℕ) → IsCurrent (over self.new image)) }
        ensures size { self.new.size ≡ self.old.size }
        ensures accepted { OnOk result (refusal (shape_of self.old.set) bytes.now ≡ None) }
        ensures refused { IfErr result (λ why. refusal (shape_of self.old.set) bytes.now ≡ Some why) }
        ensures err { OnErr result (self.new ≡ self.old) }
    {
        self.accepts(bytes)?;
        self.take_up(bytes);
        Ok(())
    }

    // Whether progress bytes are accepted: the first check that refuses them.
    fn accepts(&mut self, bytes: &[u8]) -> Result<(), ProgressRefused>
        ensures same { self.new ≡ self.old }
        ensures accepted { OnOk result (IsAccepted (shape_of self.old.set) bytes.now) }
        ensures refused { IfErr result (λ why. refusal (shape_of self.old.set) bytes.now ≡ Some why) }
    {
        self.shape.make(&self.table);
        check(&self.shape.shape, bytes)
    }

    /// Adds to what is earned, by an answer for each item in set order: docs/DEFINITIONS.md, "Earned achievements".
    ///
    /// Nothing else changes: the events and lines of the last frame stay, and what is earned is silent from the next frame
    /// on. A leaderboard is never earned, whatever its answer. No memory is taken.
    pub fn earn(&mut self, earned: &[bool])
        requires { length self.old.set.items ≤ length earned.now }
        ensures { EarnsToo self.old self.new earned.now }
    {
        earn_runs(&mut self.runs, earned);
    }

    /// Whether the item at a place of the set is earned; none past the last one is, and no leaderboard.
    pub fn is_earned(&self, place: usize) -> bool
        ensures { result ≡ slice_index_or (earning.earned_in self.now.kept) place false }
    {
        earned_in(&self.runs, place)
    }

    // Takes up what accepted bytes say.
    fn take_up(&mut self, bytes: &[u8])
        requires { IsAccepted (shape_of self.old.set) bytes.now }
        ensures taken { (image : List ℕ) → TakesUp (over self.old image) (over self.new image) bytes.now }
        ensures current { (image : List ℕ) → IsCurrent (over self.new image) }
        ensures size { self.new.size ≡ self.old.size }
    {
        self.shape.make(&self.table);
        self.said.read(&self.shape.shape, bytes);
        take_numbers(&mut self.table, &self.said.cells, &self.said.priors);
        put_back_runs(&mut self.runs, bytes, &self.said.places);
        self.rests.forget();
        let display = self.said.place(self.runs.len());
        put_back_presence(
            &mut self.presence,
            &self.shape.shape.presence,
            bytes,
            display,
        );
        self.line_rests.forget();
        self.count = frames_at(bytes);
        self.last = None;
    }

    // Whether a kept state is of this set.
    fn has_kept(&self, kept: &Kept) -> bool
        ensures so { result ≡ true → IsKeptFor (shape_of self.now.set) kept.now }
        ensures only { IsKeptFor (shape_of self.now.set) kept.now → result ≡ true }
    {
        let (cells, priors) = (self.table.cells().len(), self.table.priors().len());
        kept.is_for(&self.shape.shape, cells, priors)
    }

    // Room for a kept state of this set.
    pub(crate) fn room(&self, alloc: Global) -> Result<Kept, OutOfMemory>
        ensures { IfOk result (IsKeptFor (shape_of self.now.set)) }
    {
        let (cells, priors) = (self.table.cells().len(), self.table.priors().len());
        Kept::room(alloc, &self.shape.shape, cells, priors)
    }

    /// Keeps the present state in memory, numbers alone, in the place of the one that was kept there: docs/DEFINITIONS.md,
    /// "States kept in memory".
    ///
    /// It is refused exactly where the room is for another set, and then it stays as it was. No memory is taken.
    pub fn keep(&self, kept: &mut Kept) -> Result<(), OtherSet>
        ensures kept { OnOk result (kept.new ≡ record kept.old { opening = self.now.kept }) }
        ensures opening { OnOk result (IsOpening (shape_of self.now.set) self.now.kept) }
        ensures of_set { OnOk result (IsKeptFor (shape_of self.now.set) kept.old) }
        ensures other { OnErr result (IsKeptFor (shape_of self.now.set) kept.old → ⊥) }
        ensures err { OnErr result (kept.new ≡ kept.old) }
    {
        if !self.has_kept(kept) {
            return Err(OtherSet);
        }
        kept.note_numbers(self.count, self.table.cells(), self.table.priors());
        kept.note_blocks(&self.runs, &self.rests, &self.presence, &self.line_rests);
        Ok(())
    }

    /// Takes up a kept state, as a restore does: docs/DEFINITIONS.md, "States kept in memory".
    ///
    /// What was earned stays earned. It is refused exactly where the state is of another set, and then nothing changes. No
    /// memory is taken.
    pub fn take(&mut self, kept: &Kept) -> Result<(), OtherSet>
        ensures taken { OnOk result (Takes self.old self.new kept.now.opening) }
        ensures of_set { OnOk result (IsKeptFor (shape_of self.old.set) kept.now) }
        ensures other { OnErr result (IsKeptFor (shape_of self.old.set) kept.now → ⊥) }
        ensures err { OnErr result (self.new ≡ self.old) }
    {
        if !self.has_kept(kept) {
            return Err(OtherSet);
        }
        self.take_kept(kept);
        Ok(())
    }

    // Takes up a kept state of the set.
    fn take_kept(&mut self, kept: &Kept)
        requires { IsKeptFor (shape_of self.old.set) kept.now }
        ensures { Takes self.old self.new kept.now.opening }
    {
        let (bytes, places, display) = kept.blocks();
        take_numbers(&mut self.table, kept.cells(), kept.priors());
        put_back_runs(&mut self.runs, bytes, places);
        self.rests.forget();
        put_back_presence(
            &mut self.presence,
            &self.shape.shape.presence,
            bytes,
            display,
        );
        self.line_rests.forget();
        self.count = kept.frames();
        let _last = self.last.take();
    }

    /// Takes one frame of every item from an image of which each change was told or looked for:
    /// docs/DEFINITIONS.md, "A frame that looks". No memory is taken.
    pub fn frame<I: Image>(&mut self, image: &mut I)
        requires size { length (I.bytes image.old) ≡ self.old.size }
        requires current { IsCurrent (over self.old (I.bytes image.old)) }
        ensures taken { TakesImage self.old self.new (I.bytes image.old) }
        ensures reads { ReadsFew (over self.old (I.bytes image.old)) (over self.new (I.bytes image.old)) (I.reads image.new - I.reads image.old) }
        ensures counts { I.reads image.old ≤ I.reads image.new }

        ensures bytes { I.bytes image.new ≡ I.bytes image.old }
        ensures counter { I.counter image.new ≡ I.counter image.old }
    {
        self.table.sample(image);
        self.rests
            .step(&mut self.runs, &self.set.items, &self.table);
        step_presence(
            &mut self.presence,
            &mut self.line_rests,
            &self.set.script,
            &self.table,
        );
        self.last = Some(self.count);
        self.count = self.count.saturating_add(1);
    }

    /// Takes one frame of every item from any image of the size, whatever was told or shown before: a look, and
    /// then a frame. No memory is taken.
    ///
    /// It reads each cell that is not marked, and then each one that is marked by then or has moved.
    pub fn follow<I: Image>(&mut self, image: &mut I)
        requires size { length (I.bytes image.old) ≡ self.old.size }
        ensures taken { TakesImage self.old self.new (I.bytes image.old) }
        ensures reads { ReadsLooked (over self.old (I.bytes image.old)) (over self.new (I.bytes image.old)) (I.reads image.new - I.reads image.old) }
        ensures counts { I.reads image.old ≤ I.reads image.new }

        ensures bytes { I.bytes image.new ≡ I.bytes image.old }
        ensures counter { I.counter image.new ≡ I.counter image.old }
    {
        self.look(image);
        self.frame(image);
    }

    /// The events of the last frame, items in set order: docs/DEFINITIONS.md, "Events". None where no
    /// frame came. No memory is taken.
    pub fn events(&self) -> Events<'_>
        ensures { result ≡ self.now.events }
    {
        match self.last {
            Some(_) => Events::new(&self.set.items, &self.runs, self.rests.stepped()),
            None => Events::new(&[], &[], &[]),
        }
    }

    /// Puts the lines of the events of the last frame, where one came, at the end of a text; they are the text of
    /// its events. When memory runs out, the text grew by a front of them.
    pub fn tell_lines(&self, text: &mut Vec<u8>) -> Result<(), OutOfMemory>
        ensures put { OnOk result (text.new.items ≡ text.old.items ++ self.now.lines) }
        ensures front { OnErr result (GrewByFront text.old.items text.new.items self.now.lines) }
        ensures of_events { IsTextOf self.now.lines self.now.events }
    {
        match self.last {
            Some(frame) if self.rests.count > 0 => put_events(text, frame, self.events()),
            _ => Ok(()),
        }
    }

    /// How many bytes the images have.
    pub fn size(&self) -> u32
        ensures { result ≡ self.now.size }
    {
        self.size
    }

    /// The count of frames, which stops at 18,446,744,073,709,551,615.
    pub fn frames(&self) -> u64
        ensures { result ≡ self.now.kept.frames }
    {
        self.count
    }

    /// Where the item at a place of the set stands; none past the last one.
    pub fn item(&self, place: usize) -> Option<ItemState>
        ensures { result ≡ state_at self.now.set self.now.kept place }
    {
        state_in(&self.runs, place)
    }

    /// The index of the display line that is shown; none where the set has no script.
    pub fn shown(&self) -> Option<u32>
        ensures { result ≡ option_map (λ presence. presence.shown) self.now.kept.presence }
    {
        match &self.presence {
            Some(run) => Some(run.shown),
            None => None,
        }
    }

    /// The presence line after the last frame, with the count of frames: docs/DEFINITIONS.md, "Presence
    /// over frames". Empty where the set has no script.
    pub fn show(&self, alloc: Global) -> Result<Vec<u8>, OutOfMemory>
        ensures shows { IfOk result (λ text. (image : List ℕ) → ShowsKept (over self.now image) text.items) }
        ensures now { IfOk result (λ text. text.items ≡ shown self.now.set self.now.kept []) }
    {
        shown_line(alloc, self.count, &self.set.script, &self.presence)
    }
}

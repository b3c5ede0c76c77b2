ghost use Rattle.std.specs.Prelude.{◌≡◌, ◌+◌, ◌*◌, ◌<◌, ◌≤◌, ◌^◌, ◌∷◌, ◌++◌, [], Bool, ℕ, List, length, replicate, slice_index_or, IfOk};
ghost use Rattle.ra_account.specs.declared.mark.Mark.TheVariants.{Never};
ghost use Rattle.ra_account.specs.Marks.{HasColumns, IsSound, IsTimeline, IsWidth, joined, mark_more};

use crate::mark::Mark;
use ra_text::OutOfMemory;
use std::alloc::Global;

// How many columns a timeline has at most.
const COLUMNS: u64 = 60;

/// A timeline: at which frames a condition counts, in at most 60 columns of the same width.
/// docs/DEFINITIONS.md, "Account of an achievement".
#[derive(Drop)]
pub struct Columns {
    /// How many frames a column has.
    pub width: u64,
    /// How many columns have all their frames.
    pub full: u64,
    /// How many frames there are after these, in a column that is begun.
    pub begun: u64,
    /// The mark of each column that has a frame, and room for the others.
    pub marks: Vec<Mark>,
}

impl Columns {
    /// Before the first frame.
    pub fn new(alloc: Global) -> Result<Columns, OutOfMemory>
        ensures sound { IfOk result IsSound }
        ensures begun { IfOk result (IsTimeline []) }
    {
        Ok(Columns {
            width: 1,
            full: 0,
            begun: 0,
            marks: vec![in alloc; Mark::Never; COLUMNS as usize]?,
        })
    }

    /// Notes whether the condition counts at one frame more.
    pub fn note(&mut self, now: bool)
        requires sound { IsSound self.old }
        requires few { self.old.full * self.old.width + self.old.begun < 2 ^ 60 }
        ensures sound { IsSound self.new }
        ensures noted { (earlier : List Bool) → IsTimeline earlier self.old → IsTimeline (now ∷ earlier) self.new }
    {
        self.note_run(now, 1);
    }

    /// Notes that the condition counts, or not, at each of this many frames more.
    pub fn note_run(&mut self, now: bool, frames: u64)
        requires sound { IsSound self.old }
        requires few { self.old.full * self.old.width + self.old.begun + frames ≤ 2 ^ 60 }
        ensures sound { IsSound self.new }
        ensures noted { (earlier : List Bool) → IsTimeline earlier self.old
            → IsTimeline (replicate frames now ++ earlier) self.new }
    {
        let mut left = frames;
        while left != 0 {
            left -= self.note_some(now, left);
        }
    }

    // Notes the first of this many frames more, as many as one column has room for, and tells how many these are.
    fn note_some(&mut self, now: bool, frames: u64) -> u64
        requires sound { IsSound self.old }
        requires some { 0 < frames }
        requires few { self.old.full * self.old.width + self.old.begun + frames ≤ 2 ^ 60 }
        ensures sound { IsSound self.new }
        ensures some { 0 < result }
        ensures most { result ≤ frames }
        ensures long { self.new.full * self.new.width + self.new.begun
            ≡ self.old.full * self.old.width + self.old.begun + result }
        ensures noted { (earlier : List Bool) → IsTimeline earlier self.old
            → IsTimeline (replicate result now ++ earlier) self.new }
    {
        self.make_room();
        let some = frames.min(self.width - self.begun);
        self.put(now, some);
        some
    }

    // Joins the columns if all are full, so that there is room for a frame more.
    fn make_room(&mut self)
        requires sound { IsSound self.old }
        requires few { self.old.full * self.old.width + self.old.begun < 2 ^ 60 }
        ensures sound { IsSound self.new }
        ensures room { self.new.full < 60 }
        ensures long { self.new.full * self.new.width + self.new.begun
            ≡ self.old.full * self.old.width + self.old.begun }
        ensures ready { (earlier : List Bool) → IsTimeline earlier self.old → HasColumns earlier self.new }
        ensures width { (earlier : List Bool) → IsTimeline earlier self.old → (more : ℕ) → length earlier < more
            → more ≤ 60 * self.new.width → IsWidth more self.new.width }
    {
        if self.full == COLUMNS {
            self.fold();
        }
    }

    // Joins the columns two by two.
    fn fold(&mut self)
        requires sound { IsSound self.old }
        requires full { self.old.full ≡ 60 }
        requires few { self.old.width < 2 ^ 60 }
        ensures sound { IsSound self.new }
        ensures half { self.new.full ≡ 30 }
        ensures none_begun { self.new.begun ≡ self.old.begun }
        ensures width { self.new.width ≡ self.old.width + self.old.width }
        ensures joined { (counts : List Bool) → HasColumns counts self.old → HasColumns counts self.new }
    {
        join_pairs(&mut self.marks);
        self.full = 30;
        self.width += self.width;
    }

    // Notes frames for which the column that is begun, or a new one, has room.
    fn put(&mut self, now: bool, frames: u64)
        requires sound { IsSound self.old }
        requires room { self.old.full < 60 }
        requires some { 0 < frames }
        requires within { self.old.begun + frames ≤ self.old.width }
        requires few { self.old.full * self.old.width + self.old.begun + frames ≤ 2 ^ 60 }
        ensures sound { IsSound self.new }
        ensures width { self.new.width ≡ self.old.width }
        ensures long { self.new.full * self.new.width + self.new.begun
            ≡ self.old.full * self.old.width + self.old.begun + frames }
        ensures put { (earlier : List Bool) → HasColumns earlier self.old
            → HasColumns (replicate frames now ++ earlier) self.new }
    {
        let mark = self.mark_with(now);
        self.marks[self.full as usize] = mark;
        self.begun += frames;
        if self.begun == self.width {
            self.full += 1;
            self.begun = 0;
        }
    }

    // The mark of the column that is begun, or of a new one, with one frame more.
    fn mark_with(&self, now: bool) -> Mark
        requires sound { IsSound self.now }
        requires room { self.now.full < 60 }
        ensures { result ≡ mark_more self.now.begun (slice_index_or self.now.marks.items self.now.full Never) now }
    {
        let mark = Mark::of(now);
        if self.begun == 0 {
            mark
        } else {
            self.marks[self.full as usize].join(mark)
        }
    }
}

// Joins sixty marks two by two.
fn join_pairs(marks: &mut [Mark])
    requires { length marks.old ≡ 60 }
    ensures { (k : ℕ) → k < 30 → slice_index_or marks.new k Never
        ≡ joined (slice_index_or marks.old (k * 2) Never) (slice_index_or marks.old (k * 2 + 1) Never) }
{
    for column in 0..30 {
        marks[column] = marks[column * 2].join(marks[column * 2 + 1]);
    }
}

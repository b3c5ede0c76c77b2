ghost use Rattle.std.specs.Prelude.{◌≡◌, ◌+◌, ◌<◌, ◌≤◌, ◌^◌, ◌==◌, ◌||◌, not, ℕ, true, None, length, replicate, slice_index, slice_index_or, slice_set, false, IfOk, IfSome, count_by};
ghost use Rattle.ra_memory.specs.Image.{IsReadWidth};
ghost use Rattle.ra_memref.specs.Flags.{NoneSet, IsFirstSet};
ghost use Rattle.ra_memref.specs.LateWatches.{Joins, with_told};
ghost use Rattle.ra_memref.specs.Watches.{MarksWatchers, MarksOthers};

use crate::told_bytes::ToldBytes;
use crate::watches::Watches;
use ra_memory::Image;
use ra_text::OutOfMemory;
use std::alloc::Global;
use std::marker::Model;

/// Watches that mark the cells of a large write late: where several large writes lie side by side, all are marked together:
/// docs/INTERNALS.md, "Large writes are marked late".
///
/// They are seen as if each write had been marked at once. Only `new` takes memory.
#[derive(Drop)]
pub struct LateWatches {
    watches: Watches,
    told: Option<ToldBytes>,
}

impl Model for LateWatches {
    ghost use Rattle.ra_memref.specs.Watches.{WatchesSeen};
    ghost use Rattle.ra_memref.specs.LateWatches.{AreLate, with_told};

    ghost Value = { WatchesSeen };

    ghost view = { λ w. with_told w.told w.watches };

    ghost invariant = { λ w. AreLate w.told w.watches };
}

impl LateWatches {
    ghost use Rattle.ra_memref.specs.Watches.{WatchesSeen};

    /// Cells of these widths at these places, all marked, over an image of `size` bytes, with the lists of
    /// the pages of one of `listed` bytes. Memory is the only refusal.
    pub fn new(
        alloc: Global,
        size: u32,
        listed: u32,
        places: Vec<u32>,
        widths: Vec<u8>,
    ) -> Result<LateWatches, OutOfMemory>
        requires listed { listed ≤ 2 ^ 27 }
        requires few { length places.items < 2 ^ 30 }
        requires widths { length widths.items ≡ length places.items }
        requires wide { (k : ℕ) → k < length places.items → IsReadWidth (slice_index widths.items k) }
        ensures { IfOk result (λ w. w ≡ record { size = size; widths = widths.items; places = places.items; marked = replicate (length places.items) true }) }
    {
        let watches = Watches::new(alloc, size, listed, places, widths)?;
        Ok(LateWatches {
            watches,
            told: None,
        })
    }

    /// How many cells there are.
    pub fn len(&self) -> usize
        ensures { result ≡ length self.now.places }
    {
        self.watches.len()
    }

    /// The first marked cell from one on. None exactly where none is.
    pub fn next_marked(&mut self, from: usize) -> Option<usize>
        ensures first { IfSome result (λ n. IsFirstSet self.old.marked from n) }
        ensures none { result ≡ None → NoneSet self.old.marked from (length self.old.marked) }
        ensures same { self.new ≡ self.old }
    {
        mark_told(&mut self.watches, self.told);
        self.told = None;
        self.watches.next_marked(from)
    }

    /// Unmarks a cell and moves it to a place, in either of two passes, and tells whether it was marked or
    /// lay at another place.
    pub fn settle<const ALL: bool>(&mut self, cell: usize, place: u32) -> bool
        requires { cell < length self.old.places }
        ensures due { result ≡ (slice_index_or self.old.marked cell true || not (slice_index self.old.places cell == place)) }
        ensures settled { self.new ≡ record self.old {
          places = slice_set self.old.places cell place;
          marked = slice_set self.old.marked cell false;
        } }
    {
        mark_told(&mut self.watches, self.told);
        self.told = None;
        self.watches.settle::<ALL>(cell, place)
    }

    /// Marks all cells, in constant time.
    pub fn mark_all(&mut self)
        ensures { self.new ≡ record self.old { marked = replicate (length self.old.places) true } }
    {
        self.told = None;
        self.watches.mark_all();
    }

    /// Marks the cells that watch a page of one of `count` bytes from the address `at` on. A large write is marked before
    /// the next question.
    #[inline]
    pub fn tell(&mut self, at: u32, count: u32)
        requires within { at + count ≤ self.old.size }
        requires small { self.old.size ≤ 2 ^ 27 }
        ensures { MarksWatchers self.old self.new at count }
    {
        if self.watches.len() == 0 {
            return;
        }
        if count > self.watches.size() / 8 {
            self.tell_large(at, count);
            return;
        }
        mark_told(&mut self.watches, self.told);
        self.told = None;
        self.watches.tell(at, count);
    }

    // Does so for a large write.
    #[inline(never)]
    fn tell_large(&mut self, at: u32, count: u32)
        requires some { 0 < count }
        requires within { at + count ≤ self.old.size }
        requires small { self.old.size ≤ 2 ^ 27 }
        ensures { MarksWatchers self.old self.new at count }
    {
        if let Some(bytes) = joined(self.told, at, count) {
            self.told = Some(bytes);
            return;
        }
        mark_told(&mut self.watches, self.told);
        self.told = Some(ToldBytes { at, count });
    }

    /// Marks each cell that is not marked and has another number in the image, at its place, than this one.
    ///
    /// It reads each cell that is not marked, once, and no other.
    pub fn look<I: Image>(&mut self, image: &mut I, numbers: &[u32])
        requires numbers { length numbers.now ≡ length self.old.places }
        ensures marks { MarksOthers self.old self.new (I.bytes image.old) numbers.now }
        ensures reads { I.reads image.new ≡ I.reads image.old + count_by not self.old.marked }
        ensures bytes { I.bytes image.new ≡ I.bytes image.old }
        ensures counter { I.counter image.new ≡ I.counter image.old }
    {
        mark_told(&mut self.watches, self.told);
        self.told = None;
        self.watches.look(image, numbers);
    }

    /// More than half of the cells were marked by looks since this was asked last, which have another number
    /// then, or more cells than this many are marked: a write marks cells that may have the kept one.
    ///
    /// It chooses between two ways to the same numbers, so no clause says what it answers.
    pub fn saw_many(&mut self, many: usize) -> bool
        ensures { self.new ≡ self.old }
    {
        mark_told(&mut self.watches, self.told);
        self.told = None;
        self.watches.saw_many(many)
    }
}

// Marks the cells that watch a page of what is told.
#[inline(always)]
fn mark_told(watches: &mut Watches, told: Option<ToldBytes>)
    requires many { length watches.old.marked ≡ length watches.old.places }
    requires within { IfSome told (λ bytes. bytes.at + bytes.count ≤ watches.old.size) }
    requires small { IfSome told (λ bytes. watches.old.size ≤ 2 ^ 27) }
    ensures { watches.new ≡ with_told told watches.old }
{
    if let Some(bytes) = told {
        watches.tell(bytes.at, bytes.count);
    }
}

// What is told and a write, where they touch or nothing is told.
fn joined(told: Option<ToldBytes>, at: u32, count: u32) -> Option<ToldBytes>
    requires some { 0 < count }
    requires fits { at + count < 2 ^ 32 }
    requires told { IfSome told (λ bytes. bytes.at + bytes.count < 2 ^ 32) }
    ensures { IfSome result (Joins told at count) }
{
    let Some(bytes) = told else {
        return Some(ToldBytes { at, count });
    };
    let (end, told_end) = (at + count, bytes.at + bytes.count);
    if bytes.count == 0 || told_end < at || end < bytes.at {
        return None;
    }
    let first = at.min(bytes.at);
    Some(ToldBytes {
        at: first,
        count: end.max(told_end) - first,
    })
}

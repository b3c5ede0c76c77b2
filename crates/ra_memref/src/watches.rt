ghost use Rattle.std.specs.Prelude.{◌≡◌, ◌≢◌, ◌+◌, ◌-◌, ◌*◌, ◌<◌, ◌≤◌, ◌^◌, ◌==◌, ◌&&◌, ◌||◌, not, ℕ, [], true, false, length, replicate, slice_index, slice_index_or, slice_set, IfOk, IfSome, None, count_by};
ghost use Rattle.ra_memref.specs.Flags.{NoneSet, IsFirstSet};
ghost use Rattle.ra_memory.specs.Image.{IsReadWidth};
ghost use Rattle.ra_links.specs.Rows.{holder_of};
ghost use Rattle.ra_memref.specs.Watches.{IsOrder, order_by, one_unmarked, MarksWatchers, MarksOthers, marked_by, pages_of, first_page, second_page, reaches, watches_between};
ghost use Rattle.ra_memref.specs.Marks.{page_of};
ghost use Rattle.ra_memref.specs.Marking as spec;
ghost use Rattle.ra_memref.specs.Marking.{is_at, is_before, is_other};

use crate::cell_places::CellPlaces;
use crate::flags::Flags;
use crate::kept_cell::KeptCell;
use ra_links::Links;
use ra_memory::Image;
use ra_text::OutOfMemory;
use std::alloc::Global;
use std::marker::Model;

/// How many bytes stand on a page.
const PAGE: u32 = 16;

/// Where the cells lie, which are marked, and by lists which of them watch each page:
/// docs/INTERNALS.md, "Marked and moved cells".
///
/// A cell stands on the list of the page of its first byte, so a cell that watches a page stands on the list
/// of that page or of the one before it. The lists are those of an image of `listed` bytes: of the whole one,
/// or of none. Each cell from `marked_from` on is marked, and each before it by its own mark. A look goes
/// through the cells in an order in which each stands once: where there are lists in theirs, which takes no
/// row, else by their first places, so that neighbours are read one after another. How many cells a look
/// marked is counted, and seen by none. Only `new` takes memory.
#[derive(Drop)]
pub struct Watches {
    size: u32,
    listed: u32,
    widths: Vec<u8>,
    places: Vec<u32>,
    marks: Flags,
    marked_from: usize,
    pages: Links,
    order: Vec<u32>,
    seen: usize,
}

impl Model for Watches {
    ghost use Rattle.ra_memref.specs.Watches.{WatchesSeen, AreWatched, marked_by};

    ghost Value = { WatchesSeen };

    ghost view = { λ w. record { size = w.size; widths = w.widths.items; places = w.places.items; marked = marked_by w.marked_from w.marks } };

    ghost invariant = { λ w. AreWatched w.listed w.widths.items w.places.items w.marks w.pages w.order.items };
}

impl Watches {
    ghost use Rattle.ra_memref.specs.Watches.{WatchesSeen};

    /// Cells of these widths at these places, all marked, over an image of `size` bytes, with the lists of
    /// the pages of one of `listed` bytes. Memory is the only refusal.
    pub fn new(
        alloc: Global,
        size: u32,
        listed: u32,
        places: Vec<u32>,
        widths: Vec<u8>,
    ) -> Result<Watches, OutOfMemory>
        requires listed { listed ≤ 2 ^ 27 }
        requires few { length places.items < 2 ^ 30 }
        requires widths { length widths.items ≡ length places.items }
        requires wide { (k : ℕ) → k < length places.items → IsReadWidth (slice_index widths.items k) }
        ensures { IfOk result (λ w. w ≡ record { size = size; widths = widths.items; places = places.items; marked = replicate (length places.items) true }) }
    {
        let marks = Flags::new(alloc, places.len())?;
        let order = order_of(alloc, &places, listed != size)?;
        let mut pages = Links::new(alloc, listed.div_ceil(PAGE), places.len() as u32)?;
        for cell in 0..places.len() {
            stand(&mut pages, listed, cell as u32, places[cell]);
        }
        Ok(Watches {
            size,
            listed,
            widths,
            places,
            marks,
            marked_from: 0,
            pages,
            order,
            seen: 0,
        })
    }

    /// The size of the image.
    pub fn size(&self) -> u32
        ensures { result ≡ self.now.size }
    {
        self.size
    }

    /// How many cells there are.
    pub fn len(&self) -> usize
        ensures { result ≡ length self.now.places }
    {
        self.places.len()
    }

    /// The first marked cell from one on. None exactly where none is.
    pub fn next_marked(&mut self, from: usize) -> Option<usize>
        ensures first { IfSome result (λ n. IsFirstSet self.old.marked from n) }
        ensures none { result ≡ None → NoneSet self.old.marked from (length self.old.marked) }
        ensures same { self.new ≡ self.old }
    {
        self.marked_from = own_marks(&mut self.marks, self.marked_from, self.places.len());
        self.marks.next_from(from)
    }

    /// Unmarks a cell and moves it to a place, in either of two passes, and tells whether it was marked or
    /// lay at another place.
    pub fn settle<const ALL: bool>(&mut self, cell: usize, place: u32) -> bool
        requires { cell < length self.old.places }
        ensures due { result ≡ (slice_index_or self.old.marked cell true || not (slice_index self.old.places cell == place)) }
        ensures settled { self.new ≡ record self.old {
          places = slice_set self.old.places cell place;
          marked = slice_set self.old.marked cell false;
        } }
    {
        if self.places[cell] == place {
            return unmark(&mut self.marks, &mut self.marked_from, cell);
        }
        stand(&mut self.pages, self.listed, cell as u32, place);
        self.places[cell] = place;
        unmark(&mut self.marks, &mut self.marked_from, cell);
        true
    }

    /// Marks all cells, in constant time.
    pub fn mark_all(&mut self)
        ensures { self.new ≡ record self.old { marked = replicate (length self.old.places) true } }
    {
        self.marked_from = 0;
    }

    /// Marks the cells that watch a page of one of `count` bytes from the address `at` on: by the lists of
    /// these pages and of the page before them, and where there are none or the pages are many, cell by cell.
    #[inline(never)]
    pub fn tell(&mut self, at: u32, count: u32)
        requires within { at + count ≤ self.old.size }
        requires small { self.old.size ≤ 2 ^ 27 }
        ensures { MarksWatchers self.old self.new at count }
    {
        if count == 0 {
            return;
        }
        let first = at / PAGE;
        let end = (at + count - 1) / PAGE + 1;
        if self.listed != self.size {
            self.tell_cells(at, count);
            return;
        }
        let pages = end - first;
        if pages >= self.size / PAGE {
            self.tell_cells(at, count);
            return;
        }
        if pages > self.size / PAGE / 2 || pages as usize > self.places.len() {
            self.tell_each(at, count);
            return;
        }
        for page in first..end {
            mark_listed(&self.pages, &mut self.marks, page);
        }
        let cells = CellPlaces {
            places: &self.places,
            widths: &self.widths,
        };
        mark_reaching(&self.pages, &mut self.marks, &cells, self.size, first, end);
    }

    // Does so cell by cell, for some bytes.
    #[inline(never)]
    fn tell_cells(&mut self, at: u32, count: u32)
        requires within { at + count ≤ self.old.size }
        requires small { self.old.size ≤ 2 ^ 27 }
        requires some { 0 < count }
        ensures { MarksWatchers self.old self.new at count }
    {
        if count == self.size && are_within(&self.places, self.size) {
            self.marked_from = 0;
            return;
        }
        let first = at / PAGE;
        let end = (at + count - 1) / PAGE + 1;
        let cells = CellPlaces {
            places: &self.places,
            widths: &self.widths,
        };
        self.marked_from = mark_watchers(
            &mut self.marks,
            self.marked_from,
            &cells,
            self.size,
            first,
            end,
        );
    }

    // Does so cell by cell, for some bytes, so that no cell is marked together with others that was not.
    #[inline(never)]
    fn tell_each(&mut self, at: u32, count: u32)
        requires within { at + count ≤ self.old.size }
        requires small { self.old.size ≤ 2 ^ 27 }
        requires some { 0 < count }
        ensures { MarksWatchers self.old self.new at count }
    {
        let first = at / PAGE;
        let end = (at + count - 1) / PAGE + 1;
        let cells = CellPlaces {
            places: &self.places,
            widths: &self.widths,
        };
        mark_each(&mut self.marks, &cells, self.size, first, end);
    }

    /// Marks each cell that is not marked and has another number in the image, at its place, than this one.
    ///
    /// It reads each cell that is not marked, once, and no other.
    pub fn look<I: Image>(&mut self, image: &mut I, numbers: &[u32])
        requires numbers { length numbers.now ≡ length self.old.places }
        ensures marks { MarksOthers self.old self.new (I.bytes image.old) numbers.now }
        ensures reads { I.reads image.new ≡ I.reads image.old + count_by not self.old.marked }
        ensures bytes { I.bytes image.new ≡ I.bytes image.old }
        ensures counter { I.counter image.new ≡ I.counter image.old }
    {
        if self.marked_from == 0 {
            return;
        }
        self.marked_from = own_marks(&mut self.marks, self.marked_from, self.places.len());
        let cells = CellPlaces {
            places: &self.places,
            widths: &self.widths,
        };
        let anew = mark_anew(image, &mut self.marks, &self.order, &cells, numbers);
        self.seen = self.seen.saturating_add(anew);
    }

    /// More than half of the cells were marked by looks since this was asked last, which have another number
    /// then, or more cells than this many are marked: a write marks cells that may have the kept one.
    ///
    /// It chooses between two ways to the same numbers, so no clause says what it answers.
    pub fn saw_many(&mut self, many: usize) -> bool
        ensures { self.new ≡ self.old }
    {
        let seen = self.seen;
        self.seen = 0;
        let count = self.places.len();
        seen > count / 2 || count > many && self.are_more(many)
    }

    // More cells than this many may be marked. No clause speaks of what it tells.
    fn are_more(&self, many: usize) -> bool {
        self.places.len().saturating_sub(self.marked_from) > many || self.marks.may_be_more(many)
    }
}

// Unmarks a cell, and tells whether it was marked. A pass in order takes the first of those that are marked
// together, which leaves them; what is passed over by another one gets its own mark.
#[inline(always)]
fn unmark(marks: &mut Flags, marked_from: &mut usize, cell: usize) -> bool
    requires cell { cell < length marks.old }
    requires few { length marks.old < 2 ^ 30 }
    ensures was { result ≡ slice_index_or (marked_by marked_from.old marks.old) cell true }
    ensures long { length marks.new ≡ length marks.old }
    ensures unmarked { marked_by marked_from.new marks.new ≡ slice_set (marked_by marked_from.old marks.old) cell false }
{
    if cell < *marked_from {
        return take_back(marks, cell);
    }
    unmark_together(marks, *marked_from, cell);
    *marked_from = cell + 1;
    true
}

// Unmarks one of the cells that are marked together from one on: those before it get their own marks, and those after it
// stay together.
#[inline(always)]
fn unmark_together(marks: &mut Flags, marked_from: usize, cell: usize)
    requires together { marked_from ≤ cell }
    requires cell { cell < length marks.old }
    ensures long { length marks.new ≡ length marks.old }
    ensures unmarked { marked_by (cell + 1) marks.new ≡ slice_set (marked_by marked_from marks.old) cell false }
    ensures later { (k : ℕ) → cell < k → slice_index_or marks.new k true ≡ slice_index_or marks.old k true }
{
    marks.set_between(marked_from, cell);
    take_back(marks, cell);
}

// Takes the own mark of a cell back, and tells whether it was set.
#[inline(always)]
fn take_back(marks: &mut Flags, cell: usize) -> bool
    requires { cell < length marks.old }
    ensures was { result ≡ slice_index_or marks.old cell true }
    ensures unset { marks.new ≡ slice_set marks.old cell false }
{
    let own = marks.is_set(cell);
    if own {
        marks.put(cell, false);
    }
    own
}

// Gives each of the cells, which are this many, its own mark, and tells from where on they are marked together.
fn own_marks(marks: &mut Flags, marked_from: usize, count: usize) -> usize
    requires { count ≡ length marks.old }
    ensures own { marks.new ≡ marked_by marked_from marks.old }
    ensures long { length marks.new ≡ length marks.old }
    ensures past { count ≤ result }
{
    if count <= marked_from {
        return marked_from;
    }
    marks.set_between(marked_from, count);
    count
}

// Marks the cells on a list.
fn mark_listed(lists: &Links, marks: &mut Flags, list: u32)
    requires list { list < length lists.now.lists }
    requires nodes { lists.now.nodes ≤ length marks.old }
    ensures long { length marks.new ≡ length marks.old }
    ensures marked { (k : ℕ) → k < length marks.old → slice_index_or marks.new k true
        ≡ (slice_index_or marks.old k true || is_at (holder_of lists.now.lists k) list) }
{
    let mut next = lists.first(list);
    while let Some(cell) = next {
        marks.put(cell as usize, true);
        next = lists.next(cell);
    }
}

// Marks the cells on the list of the page before the first one whose last byte stands on a page from the
// first one on and before the end. No page is before page 0.
fn mark_reaching(
    lists: &Links,
    marks: &mut Flags,
    cells: &CellPlaces<'_>,
    size: u32,
    first: u32,
    end: u32,
)
    requires list { first ≤ length lists.now.lists }
    requires nodes { lists.now.nodes ≤ length marks.old }
    requires places { length cells.now.places.now ≡ length marks.old }
    requires widths { length cells.now.widths.now ≡ length marks.old }
    requires wide { (k : ℕ) → k < length marks.old → IsReadWidth (slice_index cells.now.widths.now k) }
    ensures long { length marks.new ≡ length marks.old }
    ensures marked { (k : ℕ) → k < length marks.old → slice_index_or marks.new k true
        ≡ (slice_index_or marks.old k true || (is_before (holder_of lists.now.lists k) first
        && reaches size first end (slice_index cells.now.places.now k) (slice_index cells.now.widths.now k))) }
{
    if first == 0 {
        return;
    }
    let (places, widths) = (cells.places, cells.widths);
    let mut next = lists.first(first - 1);
    while let Some(node) = next {
        let cell = node as usize;
        let last = page_of_last(size, places[cell], widths[cell]);
        if is_between(first, end, last) {
            marks.put(cell, true);
        }
        next = lists.next(node);
    }
}

// Whether the first byte of each cell lies in an image of this size.
fn are_within(places: &[u32], size: u32) -> bool
    ensures { result ≡ true → (k : ℕ) → k < length places.now → slice_index places.now k < size }
{
    let mut most: u32 = 0;
    for cell in 0..places.len() {
        if most < places[cell] {
            most = places[cell];
        }
    }
    most < size
}

// Marks the cells that watch one of the pages from the first one on and before the end, those side by side at once.
fn mark_each(marks: &mut Flags, cells: &CellPlaces<'_>, size: u32, first: u32, end: u32)
    requires places { length cells.now.places.now ≡ length marks.old }
    requires widths { length cells.now.widths.now ≡ length marks.old }
    requires wide { (k : ℕ) → k < length marks.old → IsReadWidth (slice_index cells.now.widths.now k) }
    ensures long { length marks.new ≡ length marks.old }
    ensures marked { (k : ℕ) → k < length marks.old → slice_index_or marks.new k true
        ≡ (slice_index_or marks.old k true
        || watches_between size first end (slice_index cells.now.places.now k) (slice_index cells.now.widths.now k)) }
{
    let (places, widths) = (cells.places, cells.widths);
    let mut from: usize = 0;
    for cell in 0..places.len() {
        if !is_watcher(size, first, end, places[cell], widths[cell]) {
            marks.set_between(from, cell);
            from = cell + 1;
        }
    }
    marks.set_between(from, places.len());
}

// Marks the cells that watch one of the pages from the first one on and before the end, and tells from where on cells are
// marked together: all are at first, and each that is to stay unmarked is taken out of them.
fn mark_watchers(
    marks: &mut Flags,
    marked_from: usize,
    cells: &CellPlaces<'_>,
    size: u32,
    first: u32,
    end: u32,
) -> usize
    requires few { length marks.old < 2 ^ 30 }
    requires places { length cells.now.places.now ≡ length marks.old }
    requires widths { length cells.now.widths.now ≡ length marks.old }
    requires wide { (k : ℕ) → k < length marks.old → IsReadWidth (slice_index cells.now.widths.now k) }
    ensures long { length marks.new ≡ length marks.old }
    ensures marked { (k : ℕ) → k < length marks.old → slice_index_or (marked_by result marks.new) k true
        ≡ (slice_index_or (marked_by marked_from marks.old) k true
        || watches_between size first end (slice_index cells.now.places.now k) (slice_index cells.now.widths.now k)) }
{
    let (places, widths) = (cells.places, cells.widths);
    let mut together: usize = 0;
    for cell in 0..places.len() {
        let watched = is_watcher(size, first, end, places[cell], widths[cell]);
        if !is_marked(marks, marked_from, cell, watched) {
            unmark_together(marks, together, cell);
            together = cell + 1;
        }
    }
    together
}

// Whether a cell watches a page, or is marked.
#[inline(always)]
fn is_marked(marks: &Flags, marked_from: usize, cell: usize, watched: bool) -> bool
    requires { cell < length marks.now }
    ensures { result ≡ (slice_index_or (marked_by marked_from marks.now) cell true || watched) }
{
    if watched {
        return true;
    }
    if marked_from <= cell {
        return true;
    }
    marks.is_set(cell)
}

// A cell of this width at this place watches one of the pages from the first one on and before the end.
fn is_watcher(size: u32, first: u32, end: u32, place: u32, width: u8) -> bool
    requires wide { IsReadWidth width }
    ensures { result ≡ watches_between size first end place width }
{
    is_between(first, end, page_of_first(size, place))
        || is_between(first, end, page_of_last(size, place, width))
}

// A page is one from the first on and before the end.
fn is_between(first: u32, end: u32, page: Option<u32>) -> bool
    ensures { result ≡ spec.is_between first end page }
{
    match page {
        Some(page) => first <= page && page < end,
        None => false,
    }
}

// Each cell once: by their places, or with no row in their own order.
fn order_of(alloc: Global, places: &[u32], by_place: bool) -> Result<Vec<u32>, OutOfMemory>
    requires few { length places.now < 2 ^ 30 }
    ensures { IfOk result (λ order. IsOrder (length places.now) (order_by (length places.now) order.items)) }
{
    if !by_place {
        return Ok(Vec::new(alloc));
    }
    let mut order = Vec::with_capacity(alloc, places.len())?;
    for cell in 0..places.len() {
        order.push(cell as u32)?;
    }
    order.sort_unstable_by_key(|cell| place_of(places, *cell));
    Ok(order)
}

// Where a cell lies, or 0.
fn place_of(places: &[u32], cell: u32) -> u32 {
    match places.get(cell as usize) {
        Some(place) => *place,
        None => 0,
    }
}

// Marks what is not marked and has another number in the image than this one, cell by cell in this order,
// and counts it: where some are marked, or where none is, and by a row, or without one. No clause speaks of
// the count.
fn mark_others<I: Image, const SOME: bool, const ROW: bool>(
    image: &mut I,
    marks: &mut Flags,
    order: &[u32],
    cells: &CellPlaces<'_>,
    numbers: &[u32],
) -> usize
    requires some { SOME ≡ false → NoneSet marks.old 0 (length marks.old) }
    requires row { ROW ≡ false → order.now ≡ [] }
    requires row_too { ROW ≡ true → 0 < length order.now }
    requires order { IsOrder (length cells.now.places.now) (order_by (length cells.now.places.now) order.now) }
    requires places { length cells.now.places.now ≡ length marks.old }
    requires widths { length cells.now.widths.now ≡ length marks.old }
    requires numbers { length numbers.now ≡ length marks.old }
    requires wide { (k : ℕ) → k < length marks.old → IsReadWidth (slice_index cells.now.widths.now k) }
    ensures long { length marks.new ≡ length marks.old }
    ensures marked { (k : ℕ) → k < length marks.old → slice_index_or marks.new k true
        ≡ (slice_index_or marks.old k true || is_other (I.bytes image.old) (slice_index cells.now.widths.now k)
        (slice_index cells.now.places.now k) (slice_index numbers.now k)) }
    ensures reads { I.reads image.new ≡ I.reads image.old + count_by not marks.old }
    ensures bytes { I.bytes image.new ≡ I.bytes image.old }
    ensures counter { I.counter image.new ≡ I.counter image.old }
{
    let (places, widths) = (cells.places, cells.widths);
    let mut anew: usize = 0;
    let count = places.len();
    for turn in 0..count {
        let cell = cell_at::<ROW>(order, turn, count);
        let kept = KeptCell {
            place: places[cell],
            width: widths[cell],
            number: numbers[cell],
        };
        if mark_other::<I, SOME>(image, marks, cell, kept) {
            anew = anew.saturating_add(1);
        }
    }
    anew
}

// The same, where it is not known whether some are marked.
fn mark_anew<I: Image>(
    image: &mut I,
    marks: &mut Flags,
    order: &[u32],
    cells: &CellPlaces<'_>,
    numbers: &[u32],
) -> usize
    requires order { IsOrder (length cells.now.places.now) (order_by (length cells.now.places.now) order.now) }
    requires places { length cells.now.places.now ≡ length marks.old }
    requires widths { length cells.now.widths.now ≡ length marks.old }
    requires numbers { length numbers.now ≡ length marks.old }
    requires wide { (k : ℕ) → k < length marks.old → IsReadWidth (slice_index cells.now.widths.now k) }
    ensures long { length marks.new ≡ length marks.old }
    ensures marked { (k : ℕ) → k < length marks.old → slice_index_or marks.new k true
        ≡ (slice_index_or marks.old k true || is_other (I.bytes image.old) (slice_index cells.now.widths.now k)
        (slice_index cells.now.places.now k) (slice_index numbers.now k)) }
    ensures reads { I.reads image.new ≡ I.reads image.old + count_by not marks.old }
    ensures bytes { I.bytes image.new ≡ I.bytes image.old }
    ensures counter { I.counter image.new ≡ I.counter image.old }
{
    match marks.next_from(0) {
        Some(_) => {
            if order.is_empty() {
                mark_others::<I, true, false>(image, marks, order, cells, numbers)
            } else {
                mark_others::<I, true, true>(image, marks, order, cells, numbers)
            }
        }
        None => {
            if order.is_empty() {
                mark_others::<I, false, false>(image, marks, order, cells, numbers)
            } else {
                mark_others::<I, false, true>(image, marks, order, cells, numbers)
            }
        }
    }
}

// The cell whose turn it is, by a row or without one.
#[inline(always)]
fn cell_at<const ROW: bool>(order: &[u32], turn: usize, count: usize) -> usize
    requires row { ROW ≡ false → order.now ≡ [] }
    requires within { ROW ≡ true → turn < length order.now }
    requires order { IsOrder count (order_by count order.now) }
    requires turn { turn < count }
    ensures cell { result ≡ slice_index (order_by count order.now) turn }
    ensures within { result < count }
{
    if ROW { order[turn] as usize } else { turn }
}

// Marks a cell where it is not marked, which is asked where it may be, and has another number in the image
// than this one, and tells whether it did. No clause speaks of what it tells.
#[inline(always)]
fn mark_other<I: Image, const MAY_BE: bool>(
    image: &mut I,
    marks: &mut Flags,
    cell: usize,
    kept: KeptCell,
) -> bool
    requires may_be { MAY_BE ≡ false → slice_index_or marks.old cell true ≡ false }
    requires cell { cell < length marks.old }
    requires wide { IsReadWidth kept.width }
    ensures long { length marks.new ≡ length marks.old }
    ensures here { slice_index_or marks.new cell true
        ≡ (slice_index_or marks.old cell true || is_other (I.bytes image.old) kept.width kept.place kept.number) }
    ensures others { (k : ℕ) → k ≢ cell → slice_index_or marks.new k true ≡ slice_index_or marks.old k true }
    ensures reads { I.reads image.new ≡ I.reads image.old + one_unmarked marks.old cell }
    ensures bytes { I.bytes image.new ≡ I.bytes image.old }
    ensures counter { I.counter image.new ≡ I.counter image.old }
{
    if MAY_BE && marks.is_set(cell) {
        return false;
    }
    if image.read(kept.place, kept.width) == kept.number {
        return false;
    }
    marks.put(cell, true);
    true
}

// Puts a cell on the list of the page of its first byte, where the image has that byte, or on none.
fn stand(pages: &mut Links, size: u32, cell: u32, place: u32)
    requires lists { length pages.old.lists ≡ pages_of size }
    requires nodes { cell < pages.old.nodes }
    ensures stands { holder_of pages.new.lists cell ≡ first_page size place }
    ensures others { (other : ℕ) → other ≢ cell → holder_of pages.new.lists other ≡ holder_of pages.old.lists other }
    ensures lists { length pages.new.lists ≡ length pages.old.lists }
    ensures nodes { pages.new.nodes ≡ pages.old.nodes }
{
    put(pages, cell, page_of_first(size, place));
}

// The page of a cell's first byte, where the image has that byte.
fn page_of_first(size: u32, place: u32) -> Option<u32>
    ensures { result ≡ first_page size place }
{
    if place < size {
        Some(place / PAGE)
    } else {
        None
    }
}

// The page of a cell's last byte, where it is another one and the image has it.
fn page_of_last(size: u32, place: u32, width: u8) -> Option<u32>
    requires wide { IsReadWidth width }
    ensures { result ≡ second_page size place width }
{
    if place % PAGE + u32::from(width) <= PAGE {
        return None;
    }
    let page = (u64::from(place) + u64::from(width) - 1) / u64::from(PAGE);
    if page != u64::from(place / PAGE) && page < u64::from(size.div_ceil(PAGE)) {
        Some(page as u32)
    } else {
        None
    }
}

// Puts a node on the list of a page, or on none.
fn put(pages: &mut Links, node: u32, page: Option<u32>)
    requires node { node < pages.old.nodes }
    requires page { IfSome page (λ page. page < length pages.old.lists) }
    ensures here { holder_of pages.new.lists node ≡ page }
    ensures others { (other : ℕ) → other ≢ node → holder_of pages.new.lists other ≡ holder_of pages.old.lists other }
    ensures lists { length pages.new.lists ≡ length pages.old.lists }
    ensures nodes { pages.new.nodes ≡ pages.old.nodes }
{
    if pages.place_of(node) == page {
        return;
    }
    pages.unlink(node);
    if let Some(page) = page {
        pages.link(page, node);
    }
}

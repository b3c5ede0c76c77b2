//! What a course keeps between two frames, in memory.

ghost use Rattle.std.specs.Prelude.{◌≡◌, ◌+◌, ◌-◌, ◌<◌, ◌≤◌, ◌^◌, true, length, map, drop, replicate, sum_by, IfOk, IfSome};
ghost use Rattle.ra_text.specs.Words.{AreWords};
ghost use Rattle.ra_progress.specs.Contents.{ItemsFit, PresenceFits, shape_contents};
ghost use Rattle.ra_display.specs.LineRests.{AreOptionalFitting, optional_presence_seen};
ghost use Rattle.ra_display.specs.PresenceShapes.{optional_run_shape};
ghost use Rattle.ra_display.specs.SavedPresence.{FitOptional};
ghost use Rattle.ra_items.specs.Rests.{AreFitting, seen_by};
ghost use Rattle.ra_items.specs.Shapes.{run_shape};
ghost use Rattle.ra_meaning.specs.Order.{shape_of};
ghost use Rattle.ra_progress.specs.Layout.{item_length, script_length, version_in};
ghost use Rattle.ra_runtime.specs.Keeping.{item_places};

use crate::course::Course;
use ra_display::{LineRests, PresenceRun, keep_display};
use ra_items::{ItemRun, Rests, keep_runs};
use ra_progress::{ItemShape, PresenceShape, Shape};
use ra_text::OutOfMemory;
use std::alloc::Global;
use std::marker::Model;

/// A kept state is for another set: docs/DEFINITIONS.md, "States kept in memory".
#[derive(Clone, Copy, Debug, PartialEq, Eq)]
pub struct OtherSet;

/// What a course kept between two frames, in memory: docs/DEFINITIONS.md, "States kept in memory".
///
/// It is seen as the digest of its set, how many numbers its items and its display keep, and the opening.
#[derive(Drop)]
pub struct Kept {
    digest: [u8; 16],
    count: u64,
    cells: Vec<u32>,
    priors: Vec<u32>,
    items: Vec<ItemShape>,
    presence: Option<PresenceShape>,
    // where the block of each item begins, and that of the display
    places: Vec<Option<u64>>,
    display: u64,
    // twenty bytes, of which the fifth is the version of the blocks, and then these, without names
    bytes: Vec<u8>,
}

impl Model for Kept {
    ghost use Rattle.ra_runtime.specs.Keeping.{KeptSeen};

    ghost Value = { KeptSeen };

    ghost use Rattle.ra_runtime.specs.Keeping.{kept_seen, IsKept};

    ghost view = { kept_seen };

    ghost invariant = { IsKept };
}

impl Kept {
    ghost use Rattle.ra_runtime.specs.Keeping.{AreLent, HasLines, IsKeptFor, IsKeptOf};

    /// The state that a course keeps now, with room for each later one of its set: docs/DEFINITIONS.md, "States kept in
    /// memory".
    ///
    /// Memory is the only refusal. No other call of a kept state takes memory.
    pub fn new(alloc: Global, course: &Course) -> Result<Kept, OutOfMemory>
        ensures holds { IfOk result (λ kept. kept.opening ≡ course.now.kept) }
        ensures set { IfOk result (λ kept. IsKeptFor (shape_of course.now.set) kept) }
    {
        let mut kept = course.room(alloc)?;
        let _ = course.keep(&mut kept);
        Ok(kept)
    }

    // Room for what a set of this shape keeps, with this many cells and tracked masks. What it holds is of no use yet.
    pub(crate) fn room(
        alloc: Global,
        shape: &Shape,
        cells: usize,
        priors: usize,
    ) -> Result<Kept, OutOfMemory>
        requires few { length shape.now.items.items ≤ 16384 }
        requires lines { IfSome shape.now.presence HasLines }
        ensures { IfOk result (IsKeptOf cells priors (shape_contents shape.now)) }
    {
        let cells = vec![in alloc; 0; cells]?;
        let priors = vec![in alloc; 0; priors]?;
        let mut items = Vec::new(alloc);
        items.extend_from_slice(&shape.items)?;
        let (places, display) = places_of(alloc, &shape.items)?;
        let size = display + display_size(&shape.presence);
        let bytes = empty_bytes(alloc, size as usize)?;
        Ok(Kept {
            digest: shape.digest,
            count: 0,
            cells,
            priors,
            items,
            presence: shape.presence,
            places,
            display,
            bytes,
        })
    }

    // Takes up what the items and the display are seen to keep.
    pub(crate) fn note_blocks(
        &mut self,
        runs: &[ItemRun],
        rests: &Rests,
        presence: &Option<PresenceRun>,
        line_rests: &LineRests,
    )
        requires items { self.old.items ≡ map run_shape runs.now }
        requires many { length rests.now.each.items ≡ length runs.now }
        requires fit { AreFitting runs.now rests.now.each.items }
        requires presence { self.old.presence ≡ optional_run_shape presence.now }
        requires lines { AreOptionalFitting presence.now line_rests.now }
        requires shows { FitOptional (optional_presence_seen presence.now line_rests.now)
            → PresenceFits (optional_run_shape presence.now) (optional_presence_seen presence.now line_rests.now) }
        ensures noted { self.new ≡ record self.old {
          opening = record self.old.opening {
            items = seen_by runs.now rests.now;
            presence = optional_presence_seen presence.now line_rests.now;
          };
        } }
        ensures fit { ItemsFit (map run_shape runs.now) (seen_by runs.now rests.now) }
        ensures fits { PresenceFits (optional_run_shape presence.now) (optional_presence_seen presence.now line_rests.now) }
    {
        let display = keep_runs(&mut self.bytes, 20, runs, rests);
        let _end = keep_display(&mut self.bytes, display, presence, line_rests);
    }

    // The blocks of the items and of the display, where each of an item stands, and where that of the display does.
    pub(crate) fn blocks(&self) -> (&[u8], &[Option<u64>], Option<u64>)
        ensures { AreLent self.now result.0.now result.1.now result.2 }
    {
        (&self.bytes, &self.places, Some(self.display))
    }

    // Whether it is for a set of this shape, with this many cells and tracked masks.
    pub(crate) fn is_for(&self, shape: &Shape, cells: usize, priors: usize) -> bool
        ensures so { result ≡ true → IsKeptOf cells priors (shape_contents shape.now) self.now }
        ensures only { IsKeptOf cells priors (shape_contents shape.now) self.now → result ≡ true }
    {
        self.digest == shape.digest
            && self.cells.len() == cells
            && self.priors.len() == priors
            && self.presence == shape.presence
            && same_shapes(&self.items, &shape.items)
    }

    // Takes up the count of frames and the numbers of cells and tracked masks.
    pub(crate) fn note_numbers(&mut self, count: u64, cells: &[u32], priors: &[u32])
        requires cells { length cells.now ≡ length self.old.opening.cells }
        requires priors { length priors.now ≡ length self.old.opening.priors }
        ensures noted { self.new ≡ record self.old { opening = record self.old.opening { frames = count; cells = cells.now; priors = priors.now } } }
        ensures fit_cells { AreWords (length cells.now) cells.now }
        ensures fit_priors { AreWords (length priors.now) priors.now }
    {
        self.count = count;
        self.cells.copy_from_slice(cells);
        self.priors.copy_from_slice(priors);
    }

    // The count of frames.
    pub(crate) fn frames(&self) -> u64
        ensures { result ≡ self.now.opening.frames }
    {
        self.count
    }

    // The numbers of the cells.
    pub(crate) fn cells(&self) -> &[u32]
        ensures { result.now ≡ self.now.opening.cells }
    {
        &self.cells
    }

    // The numbers of the tracked masks.
    pub(crate) fn priors(&self) -> &[u32]
        ensures { result.now ≡ self.now.opening.priors }
    {
        &self.priors
    }
}

// Whether these items keep as many numbers of each kind as those.
fn same_shapes(items: &[ItemShape], others: &[ItemShape]) -> bool
    ensures so { result ≡ true → items.now ≡ others.now }
    ensures only { items.now ≡ others.now → result ≡ true }
{
    if items.len() != others.len() {
        return false;
    }
    for place in 0..items.len() {
        if !same_shape(items[place], others[place]) {
            return false;
        }
    }
    true
}

// Whether an item keeps as many numbers of each kind as another.
fn same_shape(item: ItemShape, other: ItemShape) -> bool
    ensures so { result ≡ true → item ≡ other }
    ensures only { item ≡ other → result ≡ true }
{
    match (item, other) {
        (ItemShape::Achievement { hits }, ItemShape::Achievement { hits: more }) => hits == more,
        (
            ItemShape::Leaderboard { hits, parts },
            ItemShape::Leaderboard {
                hits: more,
                parts: others,
            },
        ) => hits == more && parts == others,
        _ => false,
    }
}

// How many bytes the block of an item takes.
fn item_size(item: ItemShape) -> u64
    ensures size { result ≡ item_length item }
    ensures most { result < 2 ^ 36 }
{
    match item {
        ItemShape::Achievement { hits } => 5 + 4 * u64::from(hits),
        ItemShape::Leaderboard { hits, parts } => 1 + 4 * (u64::from(hits) + u64::from(parts)),
    }
}

// How many bytes the block of a display takes, where there is one.
fn display_size(presence: &Option<PresenceShape>) -> u64
    ensures size { result ≡ script_length presence.now }
    ensures most { result < 2 ^ 36 }
{
    match presence {
        Some(shape) => 4 + 4 * (u64::from(shape.hits) + u64::from(shape.parts)),
        None => 0,
    }
}

// Where the blocks of these items stand, from the twentieth byte on, and the place after them.
fn places_of(alloc: Global, items: &[ItemShape]) -> Result<(Vec<Option<u64>>, u64), OutOfMemory>
    requires { length items.now ≤ 16384 }
    ensures places { IfOk result (λ both. both.0.items ≡ item_places 20 items.now) }
    ensures behind { IfOk result (λ both. both.1 ≡ 20 + sum_by item_length items.now) }
    ensures most { IfOk result (λ both. both.1 ≤ 2 ^ 52) }
{
    let mut places = Vec::with_capacity(alloc, items.len())?;
    let mut at = 20;
    for k in 0..items.len() {
        places.push(Some(at))?;
        at += item_size(items[k]);
    }
    Ok((places, at))
}

// Zeros after twenty bytes, of which the fifth is the version of the blocks that are to stand there.
fn empty_bytes(alloc: Global, size: usize) -> Result<Vec<u8>, OutOfMemory>
    requires { 20 ≤ size }
    ensures long { IfOk result (λ bytes. length bytes.items ≡ size) }
    ensures version { IfOk result (λ bytes. version_in bytes.items ≡ 3) }
    ensures rest { IfOk result (λ bytes. drop 20 bytes.items ≡ replicate (size - 20) 0) }
{
    let mut bytes = vec![in alloc; 0; size]?;
    bytes[4] = 3;
    Ok(bytes)
}

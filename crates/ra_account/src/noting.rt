//! A frame noted in the accounts of a group's conditions where none leaves anything for the next one in its chain.

ghost use Rattle.std.specs.Prelude.{◌≡◌, ℕ, ◌+◌, ◌<◌, ◌^◌, ◌∷◌, ◌&&◌, List, length, true, false, slice_index, slice_index_or};
ghost use Rattle.ra_condition.specs.Chains.{places};
ghost use Rattle.ra_condition.specs.Contents.{condition_at};
ghost use Rattle.ra_condition.specs.Flags.{is_pause, is_reset};
ghost use Rattle.ra_group.specs.Outcome.{some_valid};
ghost use Rattle.ra_group.specs.Standings.{standing_at};
ghost use Rattle.ra_account.specs.Alone.{AreCalm, StandAlone, stands_alone};
ghost use Rattle.ra_account.specs.Facts.{facts_at, is_paused, pointer_at, pointer_by, wanted_at};
ghost use Rattle.ra_account.specs.Groups.{ArePausing, IsRowOf, row_frame, row_in, sight_at, no_sight};
ghost use Rattle.ra_account.specs.Noting.{FirstIs, MayStay, PointAlike, frame_in};
ghost use Rattle.ra_account.specs.Running.{AllRunAt, AreRunning};
ghost use Rattle.ra_account.specs.declared.facts.Facts.{Facts};

use crate::facts::{Around, Facts, facts_of, is_wanted};
use crate::group::pointer_after;
use crate::row::Row;
use crate::running::Running;
use crate::sight::Sight;
use crate::stands::stand_alone;
use ra_condition::Condition;
use ra_group::Standing;

// What a frame shows of a group for all of its conditions: whether it is paused, whether a ResetIf of it is valid, and
// whether a pointer may have another value than at the frame before.
#[derive(Clone, Copy)]
pub(crate) struct Found {
    pub paused: bool,
    pub resets: bool,
    pub moved: bool,
}

// Tells what a frame shows of a group for all of its conditions: of a calm one it shows nothing.
#[inline(always)]
pub(crate) fn found_in(calm: bool, conditions: &[Condition], row: &Row<'_>, seen: &[Sight]) -> Found
    requires alone { StandAlone conditions.now }
    requires calm { calm ≡ true → AreCalm conditions.now }
    requires row { IsRowOf (length conditions.now) (row_in row.now) }
    requires seen { length seen.now ≡ length conditions.now }
    ensures paused { result.paused ≡ is_paused (row_frame conditions.now (row_in row.now)) }
    ensures resets { result.resets
        ≡ some_valid is_reset (row_frame conditions.now (row_in row.now)) (places conditions.now) }
    ensures moved { result.moved ≡ false → PointAlike conditions.now seen.now (row_in row.now) }
{
    if calm {
        return Found {
            paused: false,
            resets: false,
            moved: false,
        };
    }
    survey(conditions, row, seen)
}

// Tells what a frame shows of a group for all of its conditions, by its row and what the frame before showed of each.
#[inline(always)]
fn survey(conditions: &[Condition], row: &Row<'_>, seen: &[Sight]) -> Found
    requires alone { StandAlone conditions.now }
    requires row { IsRowOf (length conditions.now) (row_in row.now) }
    requires seen { length seen.now ≡ length conditions.now }
    ensures paused { result.paused ≡ is_paused (row_frame conditions.now (row_in row.now)) }
    ensures resets { result.resets
        ≡ some_valid is_reset (row_frame conditions.now (row_in row.now)) (places conditions.now) }
    ensures moved { result.moved ≡ false → PointAlike conditions.now seen.now (row_in row.now) }
{
    let mut paused = false;
    let mut resets = false;
    let mut moved = false;
    for place in 0..least(conditions, row, seen.len()) {
        let condition = &conditions[place];
        paused |= is_pausing(condition, row, place);
        resets |= is_resetting(condition, row, place);
        moved |= is_moved(condition, seen[place].left, row.lefts[place]);
    }
    Found {
        paused,
        resets,
        moved,
    }
}

// Whether the condition at a place is a PauseIf that is valid, by a row.
fn is_pausing(condition: &Condition, row: &Row<'_>, place: usize) -> bool
    requires truths { place < length row.now.truths.now }
    requires hits { place < length row.now.hits.now }
    ensures { result ≡ (is_pause condition.now.flag && (stands_alone condition.now
        (slice_index_or row.now.truths.now place false) (slice_index row.now.hits.now place)).valid) }
{
    condition.flag.is_pause() && stand_in(condition, row, place).valid
}

// Whether the condition at a place is a ResetIf that is valid, by a row.
fn is_resetting(condition: &Condition, row: &Row<'_>, place: usize) -> bool
    requires truths { place < length row.now.truths.now }
    requires hits { place < length row.now.hits.now }
    ensures { result ≡ (is_reset condition.now.flag && (stands_alone condition.now
        (slice_index_or row.now.truths.now place false) (slice_index row.now.hits.now place)).valid) }
{
    condition.flag.is_reset() && stand_in(condition, row, place).valid
}

// How the condition at a place stands, by a row.
fn stand_in(condition: &Condition, row: &Row<'_>, place: usize) -> Standing
    requires truths { place < length row.now.truths.now }
    requires hits { place < length row.now.hits.now }
    ensures { result ≡ stands_alone condition.now (slice_index_or row.now.truths.now place false)
        (slice_index row.now.hits.now place) }
{
    stand_alone(condition, row.truths[place], row.hits[place])
}

// Whether the pointer that a condition gives the next one has another value.
fn is_moved(condition: &Condition, before: u32, now: u32) -> bool
    ensures { result ≡ false → pointer_by condition.now.flag before ≡ pointer_by condition.now.flag now }
{
    pointer_after(condition, before) != pointer_after(condition, now)
}

// The least of the lengths of these rows and of another one, which are all the same: the compiler learns it here and
// leaves out the test of each place.
#[inline(always)]
fn least(conditions: &[Condition], row: &Row<'_>, beside: usize) -> usize
    requires row { IsRowOf (length conditions.now) (row_in row.now) }
    requires beside { beside ≡ length conditions.now }
    ensures { result ≡ length conditions.now }
{
    let sides = row.lefts.len().min(row.rights.len());
    let told = row.truths.len().min(row.hits.len());
    conditions.len().min(beside).min(sides).min(told)
}

// Whether a group is paused as at the frame before, which is kept, and no pointer was moved since.
pub(crate) fn is_steady(kept: bool, paused: bool, found: Found) -> bool
    ensures kept { result ≡ true → kept ≡ true }
    ensures paused { result ≡ true → paused ≡ found.paused }
    ensures moved { result ≡ true → found.moved ≡ false }
{
    kept && paused == found.paused && !found.moved
}

// The frame `at` and a group's conditions: which of these stand in a pause chain, what it shows of them, over a memory
// of `size` bytes, whether it pauses the group, and whether the frame before did and no pointer was moved since.
#[derive(Clone, Copy)]
pub(crate) struct Noting<'a> {
    pub conditions: &'a [Condition],
    pub pausing: &'a [bool],
    pub row: Row<'a>,
    pub size: u32,
    pub at: u64,
    pub paused: bool,
    pub steady: bool,
}

// Notes a frame in the accounts of a group's conditions, tells which of them it wants, and keeps what it shows of each.
// Where the group is steady nothing has to be noted of a condition of which the frame shows what the one before did.
#[inline(always)]
pub(crate) fn note_others(
    frame: &Noting<'_>,
    seen: &mut [Sight],
    wants: &mut [bool],
    accounts: &mut [Running],
)
    requires alone { StandAlone frame.now.conditions.now }
    requires row { IsRowOf (length frame.now.conditions.now) (row_in frame.now.row) }
    requires pausing { ArePausing frame.now.conditions.now frame.now.pausing.now }
    requires paused { frame.now.paused ≡ is_paused (frame_in frame.now) }
    requires frames { frame.now.at < 2 ^ 60 }
    requires seen { length seen.old ≡ length frame.now.conditions.now }
    requires wants { length wants.old ≡ length frame.now.conditions.now }
    requires many { length accounts.old ≡ length frame.now.conditions.now }
    requires stand { AllRunAt frame.now.at accounts.old }
    requires stays { frame.now.steady ≡ true → MayStay frame.now seen.old wants.old }

    ensures noted { (earlier : ℕ → List Facts)
        → ((j : ℕ) → j < length frame.now.conditions.now → length (earlier j) ≡ frame.now.at)
        → (frame.now.steady ≡ true → (j : ℕ) → j < length frame.now.conditions.now
        → slice_index_or seen.old j no_sight ≡ sight_at (row_in frame.now.row) j
        → FirstIs (facts_at (frame_in frame.now) frame.now.row.rights.now frame.now.size j) (earlier j))
        → AreRunning earlier accounts.old
        → AreRunning (λ j. facts_at (frame_in frame.now) frame.now.row.rights.now frame.now.size j ∷ earlier j) accounts.new }
    ensures stand { AllRunAt (frame.now.at + 1) accounts.new }
    ensures wanted { (j : ℕ) → j < length frame.now.conditions.now → slice_index_or wants.new j false
        ≡ wanted_at (frame_in frame.now) j }
    ensures seen { (j : ℕ) → j < length frame.now.conditions.now → slice_index_or seen.new j no_sight
        ≡ sight_at (row_in frame.now.row) j }
{
    for place in 0..least_of(frame, seen.len(), wants, accounts) {
        let sight = sight_in(&frame.row, place);
        if frame.steady && are_alike(seen[place], sight) {
            continue;
        }
        let standing = stand_alone(&frame.conditions[place], sight.truth, sight.hits);
        let fact = fact_of(frame, place, sight, standing);
        accounts[place].note(frame.at, fact);
        wants[place] = is_wanted(&frame.conditions[place], frame.paused, standing.valid);
        seen[place] = sight;
    }
}

// What a frame shows of the condition at a place, by its row.
#[inline(always)]
pub(crate) fn fact_of(frame: &Noting<'_>, place: usize, sight: Sight, standing: Standing) -> Facts
    requires row { IsRowOf (length frame.now.conditions.now) (row_in frame.now.row) }
    requires pausing { ArePausing frame.now.conditions.now frame.now.pausing.now }
    requires paused { frame.now.paused ≡ is_paused (frame_in frame.now) }
    requires place { place < length frame.now.conditions.now }
    requires sight { sight ≡ sight_at (row_in frame.now.row) place }
    requires standing { standing ≡ standing_at (frame_in frame.now) place }
    ensures { result ≡ facts_at (frame_in frame.now) frame.now.row.rights.now frame.now.size place }
{
    let around = Around {
        paused: frame.paused,
        in_pause_chain: frame.pausing[place],
        pointer: pointer_in(frame, place),
        size: frame.size,
    };
    facts_of(
        &frame.conditions[place],
        standing,
        around,
        sight.left,
        sight.right,
    )
}

// The value of the pointer of the condition at a place.
fn pointer_in(frame: &Noting<'_>, place: usize) -> u32
    requires row { IsRowOf (length frame.now.conditions.now) (row_in frame.now.row) }
    requires place { place < length frame.now.conditions.now }
    ensures { result ≡ pointer_at (frame_in frame.now) place }
{
    if place == 0 {
        return 0;
    }
    pointer_after(&frame.conditions[place - 1], frame.row.lefts[place - 1])
}

// What a row has of the condition at a place.
pub(crate) fn sight_in(row: &Row<'_>, place: usize) -> Sight
    requires truths { place < length row.now.truths.now }
    requires lefts { place < length row.now.lefts.now }
    requires rights { place < length row.now.rights.now }
    requires hits { place < length row.now.hits.now }
    ensures { result ≡ sight_at (row_in row.now) place }
{
    Sight {
        truth: row.truths[place],
        left: row.lefts[place],
        right: row.rights[place],
        hits: row.hits[place],
    }
}

// Whether two frames show the same of a condition.
fn are_alike(before: Sight, now: Sight) -> bool
    ensures { result ≡ true → before ≡ now }
{
    before.left == now.left
        && before.right == now.right
        && before.hits == now.hits
        && before.truth == now.truth
}

// The least of the lengths of these rows and of another one, which are all the same: the compiler learns it here and
// leaves out the test of each place.
#[inline(always)]
pub(crate) fn least_of(
    frame: &Noting<'_>,
    beside: usize,
    wants: &[bool],
    accounts: &[Running],
) -> usize
    requires row { IsRowOf (length frame.now.conditions.now) (row_in frame.now.row) }
    requires pausing { ArePausing frame.now.conditions.now frame.now.pausing.now }
    requires beside { beside ≡ length frame.now.conditions.now }
    requires wants { length wants.now ≡ length frame.now.conditions.now }
    requires many { length accounts.now ≡ length frame.now.conditions.now }
    ensures { result ≡ length frame.now.conditions.now }
{
    let written = wants.len().min(accounts.len()).min(frame.pausing.len());
    least(frame.conditions, &frame.row, beside).min(written)
}

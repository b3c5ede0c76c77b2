//! Laws on the definitions, for whoever reads them.

ghost use Rattle.ra_meaning.specs.Changed.{AllNamesApart, IsItemByItem, NamesApart, SetsGoOn};
ghost use Rattle.std.specs.Prelude.{ℕ, List};
ghost use Rattle.ra_set.specs.Contents.{SetContents};
ghost use Rattle.ra_memref.specs.Values.{Start};
ghost use Rattle.ra_progress.specs.Laws.{IsShape};
ghost use Rattle.ra_meaning.specs.Calls.{CallsSucceed};
ghost use Rattle.ra_meaning.specs.EarnedLaws.{StayEarned};
ghost use Rattle.ra_meaning.specs.FoldLaws.{AreFolds};
ghost use Rattle.ra_meaning.specs.OpeningLaws.{HasOpenings, IsComplete};
ghost use Rattle.ra_meaning.specs.Order.{shape_of};
ghost use Rattle.ra_meaning.specs.Runtime.{CutsAnywhere};

/// A history may be cut at any frame: docs/DEFINITIONS.md, "The law of cuts".
///
/// A law; no effect at run time. It holds for every set, every opening of its shape, and every history.
pub fn histories_may_be_cut()
    ensures { (set : SetContents) → CutsAnywhere set }
{}

/// Nothing is earned before the first frame, each opening has earned what is triggered in it, and neither a frame nor a
/// restore takes back what was earned: docs/DEFINITIONS.md, "Earned achievements".
///
/// A law; no effect at run time. It holds for every set.
pub fn earned_achievements_stay_earned()
    ensures { (set : SetContents) → StayEarned set }
{}

/// Writes that fit, frames and restores of saved bytes succeed over a made runtime, in any number and
/// order: docs/DEFINITIONS.md, "Calls that take no memory".
///
/// A law; no effect at run time. It holds for every set that a file gives, and for every one whose own bytes are no
/// longer than a progress file may be.
pub fn calls_succeed()
    ensures complete { (set : SetContents) → IsComplete set → CallsSucceed set }
    ensures shaped { (set : SetContents) → IsShape (shape_of set) → CallsSucceed set }
{}

/// The plain opening of a set is an opening of it, and so is the snapshot after each history, which after none is the
/// opening before it. What accepted bytes say is an opening, and its bytes are they. The own bytes of a set that a file
/// gives are no longer than a progress file may be, and what an opening keeps for its boards and its display has their
/// shapes: docs/DEFINITIONS.md, "Openings and snapshots" and "Progress file".
///
/// A law; no effect at run time. It holds for every set; of the first two for every one that some file spells.
pub fn openings_stand()
    ensures { (set : SetContents) → HasOpenings set }
{}

/// What items and display lines keep after a history is kept by a fold of one step a frame, and each field of a
/// leaderboard is what its own recursion over the history says: docs/DEFINITIONS.md, "After a history" and
/// "Leaderboard states".
///
/// A law; no effect at run time.
pub fn histories_are_folds()
    ensures { (start : Start) → AreFolds start }
{}

/// A set that was changed goes on with what is the same in both: docs/DEFINITIONS.md, "The law of a changed set".
///
/// A law; no effect at run time. It holds for every two files that are sets, where within its kind each name tells what
/// it is of,
/// which is so where no two different things have one name at all. The lines of an item are its part of those of its set.
pub fn changed_sets_go_on()
    ensures goes_on { SetsGoOn }
    ensures premise { (file other : List ℕ) (set changed : SetContents) → AllNamesApart file other set changed → NamesApart file other set changed }
    ensures parts { (set : SetContents) → IsItemByItem set }
{}

//! What holds of all games.

ghost use Rattle.std.specs.Prelude.{◌≡◌, ◌≤◌, ℕ, List, length};
ghost use Rattle.ra_memory.specs.Image.{History};
ghost use Rattle.ra_meaning.specs.Earned.{Earned};
ghost use Rattle.ra_meaning.specs.Play.{events};
ghost use Rattle.ra_progress.specs.Contents.{Opening};
ghost use Rattle.ra_runtime.specs.Courses.{CourseSeen, TakesImage};
ghost use Rattle.ra_runtime.specs.Keeping.{Takes};
ghost use Rattle.ra_set.specs.Contents.{SetContents};
ghost use Rattle.ra_calls.specs.Answers.{BeginsAgain, EarnsIds, TakesBytes};
ghost use Rattle.ra_calls.specs.Most.{most_events};

use crate::handle::Handle;

/// A frame has at most three events of each achievement and two of each leaderboard of the set, whatever was played
/// before and whatever is earned: docs/DEFINITIONS.md, "Calls from C" and "Events".
///
/// A law; no effect at run time.
pub fn events_are_few()
    ensures { (set : SetContents) (o : Opening) (history : History) (earned : Earned)
        → length (events set o history earned) ≤ most_events set.items }
{}

/// The set of a game stays over each call, and the length of a save with it: docs/DEFINITIONS.md, "Calls from C".
///
/// A law; no effect at run time.
pub fn sets_stay()
    ensures frame { (image : List ℕ) (old new : CourseSeen) → TakesImage old new image → new.set ≡ old.set }
    ensures restore { (bytes : List ℕ) (old new : CourseSeen) → TakesBytes bytes old new → new.set ≡ old.set }
    ensures reset { (old new : CourseSeen) → BeginsAgain old new → new.set ≡ old.set }
    ensures earn { (ids : List ℕ) (old new : CourseSeen) → EarnsIds ids old new → new.set ≡ old.set }
    ensures take { (o : Opening) (old new : CourseSeen) → Takes old new o → new.set ≡ old.set }
{}

// A value that may go to another thread.
fn sent<T: Send>(value: T) -> T
    ensures { result ≡ value }
{
    value
}

/// A handle may go to another thread, with all that it holds: docs/DEFINITIONS.md, "Calls from C".
///
/// A law of its type: what is given comes back.
pub fn handles_cross(handle: Handle) -> Handle
    ensures { result ≡ handle }
{
    sent(handle)
}

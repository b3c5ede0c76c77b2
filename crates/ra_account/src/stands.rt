//! How the conditions of a group stand at a frame, and whether it pauses.

ghost use Rattle.std.specs.List.{list_any};
ghost use Rattle.std.specs.Prelude.{◌≡◌, Bool, ℕ, ◌<◌, ◌≤◌, ◌^◌, ◌&&◌, ◌||◌, [], length, true, false, not, slice_index_or};
ghost use Rattle.ra_condition.specs.Chains.{places};
ghost use Rattle.ra_condition.specs.Contents.{flag_at};
ghost use Rattle.ra_condition.specs.Flags.{combines, hands_on, is_address, is_pause, is_reset};
ghost use Rattle.ra_group.specs.Equations.{frame_of};
ghost use Rattle.ra_group.specs.Standings.{no_standing, standing_at};
ghost use Rattle.ra_account.specs.Facts.{is_paused};
ghost use Rattle.ra_account.specs.Alone.{AreCalm, StandAlone, stands_alone};

use ra_condition::{Condition, Flag};
use ra_group::{Standing, stand};

// Tells how each condition of a group stands, and whether some PauseIf of it is valid.
pub(crate) fn stand_group(
    conditions: &[Condition],
    truths: &[bool],
    hits: &[u32],
    standings: &mut [Standing],
) -> bool
    requires few { length conditions.now ≤ 2 ^ 32 }
    requires truths { length truths.now ≡ length conditions.now }
    requires hits { length hits.now ≡ length conditions.now }
    requires standings { length standings.old ≡ length conditions.now }
    ensures stand { (j : ℕ) → j < length conditions.now → slice_index_or standings.new j no_standing
        ≡ standing_at (frame_of conditions.now truths.now [] hits.now) j }
    ensures paused { result ≡ is_paused (frame_of conditions.now truths.now [] hits.now) }
{
    stand(conditions, truths, hits, standings);
    if may_pause(conditions) {
        some_pause(conditions, truths, hits, standings)
    } else {
        false
    }
}

// Whether no condition of a group leaves anything for the next one in its chain.
pub(crate) fn are_alone(conditions: &[Condition]) -> bool
    ensures { result ≡ true → StandAlone conditions.now }
{
    for place in 0..conditions.len() {
        if leaves(&conditions[place]) {
            return false;
        }
    }
    true
}

// Whether a condition leaves something for the next one in its chain.
fn leaves(condition: &Condition) -> bool
    ensures { result ≡ (combines condition.now.flag && not (hands_on condition.now.flag)) }
{
    condition.flag.combines() && !condition.flag.hands_on()
}

// Whether no condition of a group pauses or resets it or moves the cells of the next one.
pub(crate) fn are_calm(conditions: &[Condition]) -> bool
    ensures { result ≡ true → AreCalm conditions.now }
{
    for place in 0..conditions.len() {
        if acts(&conditions[place]) {
            return false;
        }
    }
    true
}

// Whether a condition pauses or resets its group or moves the cells of the next one.
fn acts(condition: &Condition) -> bool
    ensures { result ≡ (is_pause condition.now.flag || (is_reset condition.now.flag || is_address condition.now.flag)) }
{
    condition.flag.is_pause()
        || (condition.flag.is_reset() || matches!(condition.flag, Flag::AddAddress))
}

// Whether a group has a PauseIf.
fn may_pause(conditions: &[Condition]) -> bool
    ensures { result ≡ false → (valid : ℕ → Bool)
        → list_any (λ j. is_pause (flag_at conditions.now j) && valid j) (places conditions.now) ≡ false }
{
    for place in 0..conditions.len() {
        if conditions[place].flag.is_pause() {
            return true;
        }
    }
    false
}

// How a condition with none before it in its chain stands.
pub(crate) fn stand_alone(condition: &Condition, truth: bool, hits: u32) -> Standing
    ensures { result ≡ stands_alone condition.now truth hits }
{
    let target = condition.target;
    let total = if truth && (target == 0 || hits < target) {
        hits.saturating_add(1)
    } else {
        hits
    };
    Standing {
        met: truth,
        reset: false,
        total,
        valid: if target == 0 { truth } else { target <= total },
    }
}

// Whether some PauseIf of a group is valid, by how its conditions stand.
fn some_pause(
    conditions: &[Condition],
    truths: &[bool],
    hits: &[u32],
    standings: &[Standing],
) -> bool
    requires standings { (j : ℕ) → j < length conditions.now → slice_index_or standings.now j no_standing
        ≡ standing_at (frame_of conditions.now truths.now [] hits.now) j }
    requires many { length standings.now ≡ length conditions.now }
    ensures { result ≡ is_paused (frame_of conditions.now truths.now [] hits.now) }
{
    let mut paused = false;
    for (place, condition) in conditions.iter().enumerate() {
        paused |= is_valid_pause(condition, standings[place]);
    }
    paused
}

// Whether a condition is a PauseIf that is valid.
fn is_valid_pause(condition: &Condition, standing: Standing) -> bool
    ensures { result ≡ (is_pause condition.now.flag && standing.valid) }
{
    condition.flag.is_pause() && standing.valid
}

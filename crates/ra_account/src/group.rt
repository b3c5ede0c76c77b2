//! A frame noted in the accounts of the conditions of a group.

ghost use Rattle.std.specs.Prelude.{◌≡◌, ℕ, ◌+◌, ◌<◌, ◌^◌, ◌∷◌, ◌&&◌, List, length, false, not, slice_index_or};
ghost use Rattle.ra_condition.specs.Chains.{places};
ghost use Rattle.ra_condition.specs.Flags.{is_reset};
ghost use Rattle.ra_group.specs.Outcome.{some_valid};
ghost use Rattle.ra_group.specs.Standings.{no_standing, standing_at};
ghost use Rattle.ra_account.specs.Groups.{ArePausing, IsRowOf, row_in};
ghost use Rattle.ra_account.specs.Noting.{frame_in};
ghost use Rattle.ra_account.specs.Running.{AllRunAt, AreRunning};
ghost use Rattle.ra_account.specs.Facts.{facts_at, is_paused, pointer_by, wanted_at};
ghost use Rattle.ra_account.specs.declared.facts.Facts.{Facts};

use crate::facts::is_wanted;
use crate::noting::{Noting, fact_of, least_of, sight_in};
use crate::running::Running;
use crate::stops::Stops;
use ra_condition::{Condition, Flag};
use ra_group::Standing;

// Notes a frame in the accounts of a group's conditions by how each stands, and tells which of them it wants and whether
// a ResetIf of them is valid.
pub(crate) fn note_group(
    frame: &Noting<'_>,
    standings: &[Standing],
    wants: &mut [bool],
    accounts: &mut [Running],
) -> bool
    requires row { IsRowOf (length frame.now.conditions.now) (row_in frame.now.row) }
    requires pausing { ArePausing frame.now.conditions.now frame.now.pausing.now }
    requires paused { frame.now.paused ≡ is_paused (frame_in frame.now) }
    requires frames { frame.now.at < 2 ^ 60 }
    requires standings { length standings.now ≡ length frame.now.conditions.now }
    requires stood { (j : ℕ) → j < length frame.now.conditions.now
        → slice_index_or standings.now j no_standing ≡ standing_at (frame_in frame.now) j }
    requires wants { length wants.old ≡ length frame.now.conditions.now }
    requires many { length accounts.old ≡ length frame.now.conditions.now }
    requires stand { AllRunAt frame.now.at accounts.old }

    ensures noted { (earlier : ℕ → List Facts)
        → ((j : ℕ) → j < length frame.now.conditions.now → length (earlier j) ≡ frame.now.at)
        → AreRunning earlier accounts.old
        → AreRunning (λ j. facts_at (frame_in frame.now) frame.now.row.rights.now frame.now.size j ∷ earlier j) accounts.new }
    ensures stand { AllRunAt (frame.now.at + 1) accounts.new }
    ensures wanted { (j : ℕ) → j < length frame.now.conditions.now → slice_index_or wants.new j false
        ≡ wanted_at (frame_in frame.now) j }
    ensures resets { result ≡ some_valid is_reset (frame_in frame.now) (places frame.now.conditions.now) }
{
    let mut resets = false;
    for place in 0..least_of(frame, standings.len(), wants, accounts) {
        let condition = &frame.conditions[place];
        let standing = standings[place];
        let fact = fact_of(frame, place, sight_in(&frame.row, place), standing);
        accounts[place].note(frame.at, fact);
        wants[place] = is_wanted(condition, frame.paused, standing.valid);
        resets |= is_valid_reset(condition, standing);
    }
    resets
}

// What stops a group, by whether it is paused and whether a ResetIf of it is valid.
pub(crate) fn stops_by(paused: bool, resets: bool) -> Stops
    ensures { result ≡ record { paused = paused; reset = not paused && resets } }
{
    Stops {
        paused,
        reset: !paused && resets,
    }
}

// Whether a condition is a ResetIf that is valid.
fn is_valid_reset(condition: &Condition, standing: Standing) -> bool
    ensures { result ≡ (is_reset condition.now.flag && standing.valid) }
{
    matches!(condition.flag, Flag::ResetIf) && standing.valid
}

// The value of the pointer of the condition after this one.
pub(crate) fn pointer_after(condition: &Condition, left: u32) -> u32
    ensures { result ≡ pointer_by condition.now.flag left }
{
    if matches!(condition.flag, Flag::AddAddress) {
        left
    } else {
        0
    }
}

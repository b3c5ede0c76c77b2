//! How each condition of a group stands at a frame.

ghost use Rattle.std.specs.Prelude.{◌≡◌, ℕ, ◌<◌, ◌≤◌, ◌^◌, [], length, slice_index_or};
ghost use Rattle.ra_group.specs.Bounds.{AddWithin};
ghost use Rattle.ra_group.specs.Equations.{frame_of, seen_after};
ghost use Rattle.ra_group.specs.Standings.{no_standing, standing_at};

use crate::equations::is_met;
use crate::settled::Settled;
use ra_condition::Condition;

/// How a condition stands at a frame: docs/DEFINITIONS.md, "Equations of a condition".
#[derive(Clone, Copy, Debug, PartialEq, Eq)]
pub struct Standing {
    /// It is met.
    pub met: bool,
    /// A ResetNextIf reaches it.
    pub reset: bool,
    /// Its hits after the frame with those that its chain adds.
    pub total: u32,
    /// It is valid.
    pub valid: bool,
}

/// Tells how each condition of a group stands, by its comparison and its hits before the frame:
/// docs/DEFINITIONS.md, "Equations of a condition".
///
/// All slices have an entry for each condition in text order.
pub fn stand(conditions: &[Condition], truths: &[bool], hits: &[u32], standings: &mut [Standing])
    requires few { length conditions.now ≤ 2 ^ 32 }
    requires truths { length truths.now ≡ length conditions.now }
    requires hits { length hits.now ≡ length conditions.now }
    requires standings { length standings.old ≡ length conditions.now }
    ensures { (j : ℕ) → j < length conditions.now → slice_index_or standings.new j no_standing
        ≡ standing_at (frame_of conditions.now truths.now [] hits.now) j }
{
    let mut before: Option<Settled> = None;
    for (place, condition) in conditions.iter().enumerate() {
        let truth = truths[place];
        let here = Settled::of(condition, truth, hits[place], before);
        standings[place] = Standing {
            met: is_met(before, truth),
            reset: here.reset,
            total: here.total,
            valid: here.valid,
        };
        before = carried(condition, here, before);
    }
}

// What the next condition sees before it.
fn carried(condition: &Condition, here: Settled, before: Option<Settled>) -> Option<Settled>
    ensures { result ≡ seen_after condition.now here before }
{
    if condition.flag.hands_on() {
        before
    } else if condition.flag.combines() {
        Some(here)
    } else {
        None
    }
}

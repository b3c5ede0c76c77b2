ghost use Rattle.std.specs.Prelude.{◌≡◌};
ghost use Rattle.ra_calls.specs.ToldItems as spec;

use ra_goals::{Goal, GoalKind};
use ra_leaderboard::BoardState;
use ra_runtime::ItemState;

/// How an item stands, as C reads it: docs/DEFINITIONS.md, "Calls from C".
///
/// In C it is `meerkat_item`. A number that a kind does not have is 0.
#[repr(C)]
#[derive(Clone, Copy, Debug, PartialEq, Eq)]
pub struct ToldItem {
    /// What the item is: 1 an achievement, 2 a leaderboard.
    pub kind: u32,
    /// The id of the item.
    pub id: u32,
    /// The state, as a progress file has it.
    pub state: u32,
    /// 1 where an achievement is earned, else 0.
    pub earned: u32,
    /// The measured number of an achievement.
    pub measured: u32,
    /// The number at which it is complete; 0 where none is known.
    pub target: u32,
    /// 1 where the measured number is meant as a part of the target, else 0.
    pub percent: u32,
    /// 1 where an attempt at a leaderboard runs, else 0.
    pub running: u32,
    /// The number that an attempt tracks.
    pub number: i32,
}

// The number of what an item is.
fn kind_number(kind: GoalKind) -> u32
    ensures { result ≡ spec.kind_number kind }
{
    match kind {
        GoalKind::Achievement => 1,
        GoalKind::Leaderboard => 2,
    }
}

impl ToldItem {
    // How an item that aims at this stands, earned or not; one that stands nowhere waits.
    pub fn of(goal: &Goal, earned: bool, state: Option<ItemState>) -> ToldItem
        ensures { result ≡ spec.told_item goal.now earned state }
    {
        let (state, measured, running, number) = match state {
            Some(ItemState::Achievement { state, measured }) => {
                (u32::from(state.byte()), measured, 0, 0)
            }
            Some(ItemState::Leaderboard { state, tracked }) => (
                u32::from(state.byte()),
                0,
                u32::from(matches!(state, BoardState::Started)),
                tracked,
            ),
            None => (0, 0, 0, 0),
        };
        ToldItem {
            kind: kind_number(goal.kind),
            id: goal.id,
            state,
            earned: u32::from(earned),
            measured,
            target: goal.target,
            percent: u32::from(goal.percent),
            running,
            number,
        }
    }
}

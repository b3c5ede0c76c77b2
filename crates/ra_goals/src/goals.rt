ghost use Rattle.std.specs.Prelude.{◌≡◌, map, IfOk};
ghost use Rattle.ra_set.specs.Contents.{item_contents};
ghost use Rattle.ra_goals.specs.Goals as spec;

use crate::goal::{Goal, GoalKind, goal_of};
use ra_set::Item;
use ra_text::OutOfMemory;
use ra_value_format::Format;
use std::alloc::Global;

/// What the items of a set aim at, in their order.
pub fn goals_of(alloc: Global, items: &[Item]) -> Result<Vec<Goal>, OutOfMemory>
    ensures { IfOk result (λ goals. goals.items ≡ map spec.goal_of (map item_contents items.now)) }
{
    let mut goals = Vec::new(alloc);
    let mut rest = items;
    while let Some((item, more)) = rest.split_first() {
        goals.push(goal_of(item))?;
        rest = more;
    }
    Ok(goals)
}

/// The format of the leaderboard of an id, where there is one.
pub fn format_in(goals: &[Goal], id: u32) -> Option<Format>
    ensures { result ≡ spec.format_in id goals.now }
{
    let mut rest = goals;
    while let Some((goal, more)) = rest.split_first() {
        if goal.id == id && matches!(goal.kind, GoalKind::Leaderboard) {
            return Some(goal.format);
        }
        rest = more;
    }
    None
}

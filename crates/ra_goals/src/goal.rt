ghost use Rattle.std.specs.Prelude.{◌≡◌, map};
ghost use Rattle.ra_condition.specs.Contents.{group_contents, trigger_contents};
ghost use Rattle.ra_set.specs.Contents.{item_contents};
ghost use Rattle.ra_goals.specs.Goals as spec;

use ra_condition::{Condition, Flag, Group, TriggerText};
use ra_operand::Operand;
use ra_set::Item;
use ra_value_format::Format;

/// What an item is: docs/DEFINITIONS.md, "Calls from C".
#[derive(Clone, Copy, Debug, PartialEq, Eq)]
pub enum GoalKind {
    Achievement,
    Leaderboard,
}

/// What an item aims at: docs/DEFINITIONS.md, "Calls from C".
#[derive(Clone, Copy, Debug, PartialEq, Eq)]
pub struct Goal {
    /// What the item is.
    pub kind: GoalKind,
    /// The id of the item.
    pub id: u32,
    /// The number at which an achievement's measured number is complete; 0 where none is known.
    pub target: u32,
    /// Whether the measured number is meant as a part of the target.
    pub percent: bool,
    /// How a leaderboard shows its numbers.
    pub format: Format,
}

// Whether a condition measures.
fn measures(flag: Flag) -> bool
    ensures { result ≡ spec.measures flag }
{
    matches!(flag, Flag::Measured | Flag::MeasuredPercent)
}

// The first condition of a group that measures.
fn first_measured(conditions: &[Condition]) -> Option<Condition>
    ensures { result ≡ spec.first_measured conditions.now }
{
    let mut rest = conditions;
    while let Some((condition, more)) = rest.split_first() {
        if measures(condition.flag) {
            return Some(*condition);
        }
        rest = more;
    }
    None
}

// The first condition of some groups that measures.
fn first_in(groups: &[Group]) -> Option<Condition>
    ensures { result ≡ spec.first_in (map group_contents groups.now) }
{
    let mut rest = groups;
    while let Some((group, more)) = rest.split_first() {
        let found = first_measured(&group.conditions);
        if found.is_some() {
            return found;
        }
        rest = more;
    }
    None
}

// The first condition of a trigger that measures, the core first.
fn measured_of(text: &TriggerText) -> Option<Condition>
    ensures { result ≡ spec.measured_of (trigger_contents text.now) }
{
    let found = first_measured(&text.core.conditions);
    if found.is_some() {
        return found;
    }
    first_in(&text.alts)
}

// The number of a constant; 0 of another operand.
fn constant(operand: Operand) -> u32
    ensures { result ≡ spec.constant operand }
{
    match operand {
        Operand::Const(number) => number,
        _ => 0,
    }
}

// The number that a condition measures up to: its hit target, or else its right number.
fn target_of(condition: &Condition) -> u32
    ensures { result ≡ spec.target_of condition.now }
{
    if condition.target == 0 {
        constant(condition.right)
    } else {
        condition.target
    }
}

// What an achievement aims at.
fn achievement_goal(id: u32, text: &TriggerText) -> Goal
    ensures { result ≡ spec.achievement_goal id (spec.measured_of (trigger_contents text.now)) }
{
    let (target, percent) = match measured_of(text) {
        Some(condition) => (
            target_of(&condition),
            matches!(condition.flag, Flag::MeasuredPercent),
        ),
        None => (0, false),
    };
    Goal {
        kind: GoalKind::Achievement,
        id,
        target,
        percent,
        format: Format::Value,
    }
}

/// What an item aims at.
pub fn goal_of(item: &Item) -> Goal
    ensures { result ≡ spec.goal_of (item_contents item.now) }
{
    match item {
        Item::Achievement { id, text } => achievement_goal(*id, text),
        Item::Leaderboard { id, format, .. } => Goal {
            kind: GoalKind::Leaderboard,
            id: *id,
            target: 0,
            percent: false,
            format: *format,
        },
    }
}

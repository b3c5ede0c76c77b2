//! The warnings on an item of a set.

ghost use Rattle.std.specs.Prelude.{◌≡◌, ◌≤◌, ◌<◌, ◌++◌, ◌^◌, length, map, sum_by, IfOk, OnOk, All};
ghost use Rattle.ra_condition.specs.Contents.{group_contents, trigger_contents, trigger_hits};
ghost use Rattle.ra_condition.specs.Spelled.{IsTrigger, IsTriggerGroup};
ghost use Rattle.ra_leaderboard.specs.Contents.{board_contents};
ghost use Rattle.ra_leaderboard.specs.Spelled.{IsBoard};
ghost use Rattle.ra_set.specs.Contents.{item_contents};
ghost use Rattle.ra_set.specs.Limits.{item_conditions, most_conditions};
ghost use Rattle.ra_set.specs.Spelled.{IsItem};
ghost use Rattle.ra_lint.specs.Fewness.{board_alts, board_hits, item_alts};
ghost use Rattle.ra_lint.specs.Passing.{spot_of};
ghost use Rattle.ra_lint.specs.Warnings.{are_dead, board_warnings, is_dead_trigger, item_warnings};
ghost use Rattle.ra_lint.specs.Warnings.{trigger_warnings, warnings_from};

use crate::on_group::lint_group;
use crate::rows::{Spot, put_where};
use crate::warning::{Place, Warning, Word};
use ra_condition::{Group, TriggerText};
use ra_leaderboard::BoardText;
use ra_set::Item;
use ra_text::OutOfMemory;
use std::alloc::Global;

/// Puts the warnings on an item, its own word last.
pub(crate) fn lint_item(
    alloc: Global,
    found: &mut Vec<Warning>,
    number: u32,
    item: &Item,
) -> Result<(), OutOfMemory>
    requires spelled { IsItem (item_contents item.now) }
    requires few { item_conditions (item_contents item.now) ≤ most_conditions }
    requires groups { item_alts (item_contents item.now) < 2 ^ 32 }
    ensures { OnOk result (found.new.items ≡ found.old.items ++ item_warnings number (item_contents item.now)) }
{
    match item {
        Item::Achievement { text, .. } => {
            let spot = first_group(number, Place::Trigger);
            let dead = lint_trigger(alloc, found, spot, text)?;
            put_where(found, dead, spot, 0, Word::NoUnlock)
        }
        Item::Leaderboard { text, .. } => lint_board(alloc, found, number, text),
    }
}

// The core group of a trigger.
fn first_group(item: u32, place: Place) -> Spot
    ensures { result ≡ spot_of item place 0 }
{
    Spot {
        item,
        place,
        group: 0,
    }
}

// Puts the warnings on the three triggers of a board, its own word last.
fn lint_board(
    alloc: Global,
    found: &mut Vec<Warning>,
    number: u32,
    text: &BoardText,
) -> Result<(), OutOfMemory>
    requires spelled { IsBoard (board_contents text.now) }
    requires few { board_hits (board_contents text.now) ≤ most_conditions }
    requires groups { board_alts (board_contents text.now) < 2 ^ 32 }
    ensures { OnOk result (found.new.items ≡ found.old.items ++ board_warnings number (board_contents text.now)) }
{
    let start = first_group(number, Place::Start);
    let dead = lint_trigger(alloc, found, start, &text.start)?;
    let cancel = first_group(number, Place::Cancel);
    lint_trigger(alloc, found, cancel, &text.cancel)?;
    let submit = first_group(number, Place::Submit);
    lint_trigger(alloc, found, submit, &text.submit)?;
    put_where(found, dead, start, 0, Word::NoStart)
}

// Puts the warnings on the conditions of a trigger, and says whether it is never valid.
fn lint_trigger(
    alloc: Global,
    found: &mut Vec<Warning>,
    core: Spot,
    text: &TriggerText,
) -> Result<bool, OutOfMemory>
    requires core { core.group ≡ 0 }
    requires spelled { IsTrigger (trigger_contents text.now) }
    requires few { trigger_hits (trigger_contents text.now) ≤ most_conditions }
    requires groups { length (trigger_contents text.now).alts < 2 ^ 32 }
    ensures dead { IfOk result (λ dead. dead ≡ is_dead_trigger (trigger_contents text.now)) }
    ensures all { OnOk result (found.new.items
        ≡ found.old.items ++ trigger_warnings core.item core.place (trigger_contents text.now)) }
{
    let dead = lint_group(alloc, found, core, &text.core)?;
    let alts_dead = lint_alts(alloc, found, core, &text.alts)?;
    Ok(dead | alts_dead)
}

// Puts the warnings on the conditions of alt groups, and says whether there are some and none is ever valid.
fn lint_alts(
    alloc: Global,
    found: &mut Vec<Warning>,
    core: Spot,
    alts: &[Group],
) -> Result<bool, OutOfMemory>
    requires spelled { All IsTriggerGroup (map group_contents alts.now) }
    requires few { sum_by length (map group_contents alts.now) ≤ most_conditions }
    requires groups { length alts.now < 2 ^ 32 }
    ensures dead { IfOk result (λ dead. dead ≡ are_dead (map group_contents alts.now)) }
    ensures all { OnOk result (found.new.items
        ≡ found.old.items ++ warnings_from core.item core.place 1 (map group_contents alts.now)) }
{
    let mut dead = !alts.is_empty();
    for (place, alt) in alts.iter().enumerate() {
        let spot = Spot {
            group: place as u32 + 1,
            ..core
        };
        let alt_dead = lint_group(alloc, found, spot, alt)?;
        dead &= alt_dead;
    }
    Ok(dead)
}

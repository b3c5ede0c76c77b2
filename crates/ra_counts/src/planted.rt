//! The cells and tracked masks of items, put into a pool.

ghost use Rattle.std.specs.Prelude.{◌≡◌, ◌+◌, ◌*◌, ◌≤◌, ◌^◌, [], ◌∷◌, Option, length, map, option_map, sum_by, All, IfSome, OnOk};
ghost use Rattle.std.specs.List.{flat_map};
ghost use Rattle.ra_condition.specs.Contents.{trigger_contents, trigger_hits, value_contents};
ghost use Rattle.ra_condition.specs.Spelled.{IsTrigger, IsValue};
ghost use Rattle.ra_chain.specs.Occurrence.{trees_in_trigger, trees_in_value};
ghost use Rattle.ra_leaderboard.specs.Contents.{board_contents};
ghost use Rattle.ra_leaderboard.specs.Spelled.{IsBoard};
ghost use Rattle.ra_set.specs.Contents.{item_contents};
ghost use Rattle.ra_set.specs.Limits.{item_conditions, optional_value, value_conditions};
ghost use Rattle.ra_set.specs.Spelled.{IsItem};
ghost use Rattle.ra_member.specs.Members.{member_conditions, trees_in_member};
ghost use Rattle.ra_member.specs.Plans.{GrowsWithin};
ghost use Rattle.ra_meaning.specs.Order.{board_member, progress_in, trees_in_item};

use crate::plain::plant_group;
use ra_condition::{TriggerText, ValueText};
use ra_indirect::Pool;
use ra_leaderboard::BoardText;
use ra_member::ValueRun;
use ra_set::Item;
use ra_text::OutOfMemory;
use std::alloc::Global;

// The trees of items, in set order.
pub(crate) fn plant_items(alloc: Global, items: &[Item], pool: &mut Pool) -> Result<(), OutOfMemory>
    requires spelled { All IsItem (map item_contents items.now) }
    requires room { length pool.old + 13 * sum_by item_conditions (map item_contents items.now) + 2 ≤ 2 ^ 31 }
    ensures { OnOk result (GrowsWithin pool.old pool.new (flat_map trees_in_item (map item_contents items.now))
        (sum_by item_conditions (map item_contents items.now))) }
{
    // This call tells that the nodes are those of a pool, which the proof needs.
    let _ = pool.len();
    for item in items {
        plant_item(alloc, item, pool)?;
    }
    Ok(())
}

// The trees of an item.
fn plant_item(alloc: Global, item: &Item, pool: &mut Pool) -> Result<(), OutOfMemory>
    requires spelled { IsItem (item_contents item.now) }
    requires room { length pool.old + 13 * item_conditions (item_contents item.now) + 2 ≤ 2 ^ 31 }
    ensures { OnOk result (GrowsWithin pool.old pool.new (trees_in_item (item_contents item.now))
        (item_conditions (item_contents item.now))) }
{
    match item {
        Item::Achievement { text, .. } => plant_trigger(alloc, text, pool),
        Item::Leaderboard { text, .. } => plant_board(alloc, text, pool),
    }
}

// The trees of a trigger, its groups in text order.
fn plant_trigger(alloc: Global, text: &TriggerText, pool: &mut Pool) -> Result<(), OutOfMemory>
    requires spelled { IsTrigger (trigger_contents text.now) }
    requires room { length pool.old + 13 * trigger_hits (trigger_contents text.now) + 2 ≤ 2 ^ 31 }
    ensures { OnOk result (GrowsWithin pool.old pool.new (trees_in_trigger (trigger_contents text.now))
        (trigger_hits (trigger_contents text.now))) }
{
    plant_group(alloc, &text.core, pool)?;
    for alt in &text.alts {
        plant_group(alloc, alt, pool)?;
    }
    Ok(())
}

// The trees of a board: start, cancel, submit, its value, and its progress where it has one.
fn plant_board(alloc: Global, text: &BoardText, pool: &mut Pool) -> Result<(), OutOfMemory>
    requires spelled { IsBoard (board_contents text.now) }
    requires room { length pool.old + 13 * member_conditions (board_member (board_contents text.now)) + 2 ≤ 2 ^ 31 }
    ensures { OnOk result (GrowsWithin pool.old pool.new (trees_in_member (board_member (board_contents text.now)))
        (member_conditions (board_member (board_contents text.now)))) }
{
    plant_trigger(alloc, &text.start, pool)?;
    plant_trigger(alloc, &text.cancel, pool)?;
    plant_trigger(alloc, &text.submit, pool)?;
    plant_value(alloc, &text.value, pool)?;
    plant_progress(alloc, &text.progress, pool)?;
    Ok(())
}

// The trees of a value.
fn plant_value(alloc: Global, text: &ValueText, pool: &mut Pool) -> Result<(), OutOfMemory>
    requires spelled { IsValue (value_contents text.now) }
    requires room { length pool.old + 13 * value_conditions (value_contents text.now) + 2 ≤ 2 ^ 31 }
    ensures { OnOk result (GrowsWithin pool.old pool.new (trees_in_value (value_contents text.now))
        (value_conditions (value_contents text.now))) }
{
    let _run = ValueRun::new(alloc, text, pool)?;
    Ok(())
}

// The trees of a progress, where there is one.
fn plant_progress(
    alloc: Global,
    progress: &Option<ValueText>,
    pool: &mut Pool,
) -> Result<(), OutOfMemory>
    requires spelled { IfSome (option_map value_contents progress.now) IsValue }
    requires room { length pool.old + 13 * optional_value (option_map value_contents progress.now) + 2 ≤ 2 ^ 31 }
    ensures { OnOk result (GrowsWithin pool.old pool.new
        (flat_map trees_in_value (progress_in (option_map value_contents progress.now)))
        (optional_value (option_map value_contents progress.now))) }
{
    match progress {
        Some(text) => plant_value(alloc, text, pool),
        None => {
            // This call tells that the nodes are those of a pool, which the proof needs.
            let _ = pool.len();
            Ok(())
        }
    }
}

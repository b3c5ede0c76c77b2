//! The lines of items, at the end of a text: docs/DEFINITIONS.md, "Normal text".

ghost use Rattle.std.specs.Prelude.{◌≡◌, ◌++◌, All, OnOk, codes, map, option_map};
ghost use Rattle.std.specs.List.{flat_map};
ghost use Rattle.ra_condition.specs.Canonical.{trigger_text, value_text};
ghost use Rattle.ra_condition.specs.Contents.{trigger_contents, value_contents};
ghost use Rattle.ra_condition.specs.Spelled.{IsTrigger, IsValue};
ghost use Rattle.ra_leaderboard.specs.Contents.{board_contents};
ghost use Rattle.ra_leaderboard.specs.Spelled.{IsBoard};
ghost use Rattle.ra_set.specs.Contents.{Ranks, Unlocks, item_contents};
ghost use Rattle.ra_set.specs.Spelled.{IsItem};
ghost use Rattle.ra_normal.specs.Contents as spec;
ghost use Rattle.ra_normal.specs.Text.{item_text, progress_text, tests_text, values_text};

use crate::format_name::FormatName;
use crate::values::normal_value;
use ra_condition::{TriggerText, ValueText, print_trigger, print_value};
use ra_leaderboard::BoardText;
use ra_set::Item;
use ra_text::OutOfMemory;
use ra_value_format::Format;
use std::alloc::Global;

// The lines of items.
pub(crate) fn put_items(
    alloc: Global,
    text: &mut Vec<u8>,
    items: &[Item],
) -> Result<(), OutOfMemory>
    requires { All IsItem (map item_contents items.now) }
    ensures { OnOk result (text.new.items ≡ text.old.items ++ flat_map item_text (map item_contents items.now)) }
{
    for item in items {
        put_item(alloc, text, item)?;
    }
    Ok(())
}

// The line of an item.
fn put_item(alloc: Global, text: &mut Vec<u8>, item: &Item) -> Result<(), OutOfMemory>
    requires { IsItem (item_contents item.now) }
    ensures { OnOk result (text.new.items ≡ text.old.items ++ item_text (item_contents item.now)) }
{
    match item {
        Item::Achievement { id, text: trigger } => put_achievement(alloc, text, *id, trigger),
        Item::Leaderboard {
            id,
            format,
            text: board,
        } => put_leaderboard(alloc, text, *id, *format, board),
    }
}

// The line of an achievement.
fn put_achievement(
    alloc: Global,
    text: &mut Vec<u8>,
    id: u32,
    trigger: &TriggerText,
) -> Result<(), OutOfMemory>
    requires { IsTrigger (trigger_contents trigger.now) }
    ensures { OnOk result
        (text.new.items ≡ text.old.items ++ item_text (Unlocks id (trigger_contents trigger.now))) }
{
    let head = format!(in alloc; "A {id} ")?;
    put_trigger(alloc, text, &head, trigger)?;
    text.push(b'\n')?;
    Ok(())
}

// The line of a leaderboard.
fn put_leaderboard(
    alloc: Global,
    text: &mut Vec<u8>,
    id: u32,
    format: Format,
    board: &BoardText,
) -> Result<(), OutOfMemory>
    requires { IsItem (Ranks id format (board_contents board.now)) }
    ensures { OnOk result
        (text.new.items ≡ text.old.items ++ item_text (Ranks id format (board_contents board.now))) }
{
    let name = FormatName(format);
    let head = format!(in alloc; "L {id} {name} ")?;
    text.extend_from_slice(head.as_bytes())?;
    put_tests(alloc, text, board)?;
    put_values(alloc, text, board)?;
    text.push(b'\n')?;
    Ok(())
}

// The tests of a board.
fn put_tests(alloc: Global, text: &mut Vec<u8>, board: &BoardText) -> Result<(), OutOfMemory>
    requires { IsBoard (board_contents board.now) }
    ensures { OnOk result (text.new.items ≡ text.old.items ++ tests_text (board_contents board.now)) }
{
    put_trigger(alloc, text, "STA:", &board.start)?;
    put_trigger(alloc, text, "::CAN:", &board.cancel)?;
    put_trigger(alloc, text, "::SUB:", &board.submit)
}

// The values of a board.
fn put_values(alloc: Global, text: &mut Vec<u8>, board: &BoardText) -> Result<(), OutOfMemory>
    requires { IsBoard (board_contents board.now) }
    ensures { OnOk result (text.new.items ≡ text.old.items ++ values_text (board_contents board.now)) }
{
    put_value(alloc, text, "::VAL:", &board.value)?;
    match &board.progress {
        Some(progress) => put_value(alloc, text, "::PRO:", progress),
        None => Ok(()),
    }
}

// What stands before a trigger, and its canonical text.
fn put_trigger(
    alloc: Global,
    text: &mut Vec<u8>,
    head: &str,
    trigger: &TriggerText,
) -> Result<(), OutOfMemory>
    requires { IsTrigger (trigger_contents trigger.now) }
    ensures { OnOk result
        (text.new.items ≡ text.old.items ++ (head.now ++ trigger_text (trigger_contents trigger.now))) }
{
    text.extend_from_slice(head.as_bytes())?;
    let canonical = print_trigger(alloc, trigger)?;
    text.extend_from_slice(&canonical)?;
    Ok(())
}

// What stands before a value, and the canonical text of its normal value.
fn put_value(
    alloc: Global,
    text: &mut Vec<u8>,
    head: &str,
    value: &ValueText,
) -> Result<(), OutOfMemory>
    requires { IsValue (value_contents value.now) }
    ensures { OnOk result
        (text.new.items ≡ text.old.items ++ (head.now ++ value_text (spec.normal_value (value_contents value.now)))) }
{
    text.extend_from_slice(head.as_bytes())?;
    let normal = normal_value(alloc, value)?;
    let canonical = print_value(alloc, &normal)?;
    text.extend_from_slice(&canonical)?;
    Ok(())
}

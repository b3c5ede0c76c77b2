//! The set file of a document: docs/DEFINITIONS.md, "Sets from JSON".

ghost use Rattle.std.specs.Prelude.{◌≡◌, ◌++◌, IfOk, OnOk, map, string_bytes};
ghost use Rattle.std.specs.List.{flat_map};
ghost use Rattle.serde_json.specs.View.{view};
ghost use Rattle.ra_patch.specs.Lines.{achievement_line, board_line, presence_lines, set_text};

use crate::fields::{id_of, text_or_empty};
use crate::root::{achievements_or_none, boards_or_none, presence_or_empty};
use serde_json::Value;
use std::alloc::{AllocError, Global};
use std::fmt::Write;

// The set file of a document without faults.
pub fn text_of_document(alloc: Global, document: &Value) -> Result<String, AllocError>
    ensures { IfOk result (λ text. string_bytes text ≡ set_text (view document.now)) }
{
    let mut text = String::new(alloc);
    write_achievements(&mut text, achievements_or_none(document))?;
    write_boards(&mut text, boards_or_none(document))?;
    write_presence(&mut text, presence_or_empty(document))?;
    Ok(text)
}

// The lines of the achievements, at the end of a text.
fn write_achievements(text: &mut String, items: &[Value]) -> Result<(), AllocError>
    ensures { OnOk result
        (string_bytes text.new ≡ string_bytes text.old ++ flat_map achievement_line (map view items.now)) }
{
    for item in items {
        write_achievement(text, item)?;
    }
    Ok(())
}

// The line of an achievement, at the end of a text.
pub fn write_achievement(text: &mut String, item: &Value) -> Result<(), AllocError>
    ensures { OnOk result
        (string_bytes text.new ≡ string_bytes text.old ++ achievement_line (view item.now)) }
{
    let id = id_of(item).unwrap_or(0);
    let trigger = text_or_empty(item, "MemAddr");
    writeln!(text, "A {id} {trigger}")
}

// The lines of the leaderboards, at the end of a text.
fn write_boards(text: &mut String, items: &[Value]) -> Result<(), AllocError>
    ensures { OnOk result
        (string_bytes text.new ≡ string_bytes text.old ++ flat_map board_line (map view items.now)) }
{
    for item in items {
        write_board(text, item)?;
    }
    Ok(())
}

// The line of a leaderboard, at the end of a text.
pub fn write_board(text: &mut String, item: &Value) -> Result<(), AllocError>
    ensures { OnOk result
        (string_bytes text.new ≡ string_bytes text.old ++ board_line (view item.now)) }
{
    let id = id_of(item).unwrap_or(0);
    let format = text_or_empty(item, "Format");
    let board = text_or_empty(item, "Mem");
    writeln!(text, "L {id} {format} {board}")
}

// The presence script after a line `P`, at the end of a text, and nothing for the empty one.
pub fn write_presence(text: &mut String, script: &str) -> Result<(), AllocError>
    ensures { OnOk result
        (string_bytes text.new ≡ string_bytes text.old ++ presence_lines script.now) }
{
    if script.is_empty() {
        return Ok(());
    }
    text.push_str("P\n")?;
    text.push_str(script)
}

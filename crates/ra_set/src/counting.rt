//! How many conditions a set has, legacy terms counted too: docs/DEFINITIONS.md, "Limits of a set".

ghost use Rattle.std.specs.Prelude.{◌≡◌, ◌<◌, ◌^◌, map, option_map, sum_by};
ghost use Rattle.ra_condition.specs.Contents.{part_contents, trigger_contents, trigger_hits, value_contents};
ghost use Rattle.ra_leaderboard.specs.Contents.{board_contents};
ghost use Rattle.ra_richpresence.specs.Contents.{line_contents, piece_contents, script_contents};
ghost use Rattle.ra_set.specs.Counting.{board_conditions, piece_conditions};
ghost use Rattle.ra_set.specs.Contents.{item_contents, set_contents};
ghost use Rattle.ra_set.specs.Limits.{item_conditions, line_conditions, optional_trigger, optional_value, part_conditions, script_conditions, set_conditions, value_conditions};

use crate::item::Item;
use crate::set::Set;
use ra_condition::{Part, TriggerText, ValueText};
use ra_leaderboard::BoardText;
use ra_richpresence::{Line, Piece, Script};

/// How many conditions a set has, legacy terms counted too: docs/DEFINITIONS.md, "Limits of a set".
/// There are fewer than 2^64, as in every set that was read.
pub fn conditions(set: &Set) -> u64
    requires { set_conditions (set_contents set.now) < 2 ^ 64 }
    ensures { result ≡ set_conditions (set_contents set.now) }
{
    in_items(&set.items) + in_optional_script(&set.script)
}

/// How many conditions these items have.
pub fn in_items(items: &[Item]) -> u64
    requires { sum_by item_conditions (map item_contents items.now) < 2 ^ 64 }
    ensures { result ≡ sum_by item_conditions (map item_contents items.now) }
{
    let mut count = 0;
    for item in items {
        count += in_item(item);
    }
    count
}

fn in_item(item: &Item) -> u64
    requires { item_conditions (item_contents item.now) < 2 ^ 64 }
    ensures { result ≡ item_conditions (item_contents item.now) }
{
    match item {
        Item::Achievement { text, .. } => in_trigger(text),
        Item::Leaderboard { text, .. } => in_board(text),
    }
}

fn in_board(board: &BoardText) -> u64
    requires { board_conditions (board_contents board.now) < 2 ^ 64 }
    ensures { result ≡ board_conditions (board_contents board.now) }
{
    let tests = in_trigger(&board.start) + in_trigger(&board.cancel) + in_trigger(&board.submit);
    tests + in_value(&board.value) + in_optional_value(&board.progress)
}

fn in_trigger(trigger: &TriggerText) -> u64
    requires { trigger_hits (trigger_contents trigger.now) < 2 ^ 64 }
    ensures { result ≡ trigger_hits (trigger_contents trigger.now) }
{
    let mut count = trigger.core.conditions.len() as u64;
    for alt in &trigger.alts {
        count += alt.conditions.len() as u64;
    }
    count
}

fn in_optional_trigger(trigger: &Option<TriggerText>) -> u64
    requires { optional_trigger (option_map trigger_contents trigger.now) < 2 ^ 64 }
    ensures { result ≡ optional_trigger (option_map trigger_contents trigger.now) }
{
    match trigger {
        Some(trigger) => in_trigger(trigger),
        None => 0,
    }
}

fn in_value(value: &ValueText) -> u64
    requires { value_conditions (value_contents value.now) < 2 ^ 64 }
    ensures { result ≡ value_conditions (value_contents value.now) }
{
    let mut count = 0;
    for part in &value.parts {
        count += in_part(part);
    }
    count
}

fn in_optional_value(value: &Option<ValueText>) -> u64
    requires { optional_value (option_map value_contents value.now) < 2 ^ 64 }
    ensures { result ≡ optional_value (option_map value_contents value.now) }
{
    match value {
        Some(value) => in_value(value),
        None => 0,
    }
}

fn in_part(part: &Part) -> u64
    ensures { result ≡ part_conditions (part_contents part.now) }
{
    match part {
        Part::Terms(terms) => terms.len() as u64,
        Part::Conditions(group) => group.conditions.len() as u64,
    }
}

fn in_optional_script(script: &Option<Script>) -> u64
    requires { script_conditions (option_map script_contents script.now) < 2 ^ 64 }
    ensures { result ≡ script_conditions (option_map script_contents script.now) }
{
    match script {
        Some(script) => in_lines(&script.lines),
        None => 0,
    }
}

// How many conditions the lines of a script have.
pub fn in_lines(lines: &[Line]) -> u64
    requires { sum_by line_conditions (map line_contents lines.now) < 2 ^ 64 }
    ensures { result ≡ sum_by line_conditions (map line_contents lines.now) }
{
    let mut count = 0;
    for line in lines {
        count += in_line(line);
    }
    count
}

#[tactic(auto, using(crate::proofs::CountLemmas::pieces_sum))]
fn in_line(line: &Line) -> u64
    requires { line_conditions (line_contents line.now) < 2 ^ 64 }
    ensures { result ≡ line_conditions (line_contents line.now) }
{
    in_optional_trigger(&line.test) + in_pieces(&line.pieces)
}

fn in_pieces(pieces: &[Piece]) -> u64
    requires { sum_by piece_conditions (map piece_contents pieces.now) < 2 ^ 64 }
    ensures { result ≡ sum_by piece_conditions (map piece_contents pieces.now) }
{
    let mut count = 0;
    for piece in pieces {
        count += in_piece(piece);
    }
    count
}

fn in_piece(piece: &Piece) -> u64
    requires { piece_conditions (piece_contents piece.now) < 2 ^ 64 }
    ensures { result ≡ piece_conditions (piece_contents piece.now) }
{
    match piece {
        Piece::Macro { value, .. } => in_value(value),
        Piece::Text(_) => 0,
    }
}

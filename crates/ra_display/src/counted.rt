//! How many numbers lines keep, each of which is made by itself and dropped.

ghost use Rattle.std.specs.Prelude.{◌≡◌, ◌+◌, ◌*◌, ◌≤◌, ◌^◌, [], true, is_some, length, map, option_map, sum_by, All, IfOk};
ghost use Rattle.std.specs.List.{filter_map};
ghost use Rattle.ra_condition.specs.Contents.{group_contents, trigger_contents};
ghost use Rattle.ra_richpresence.specs.Contents.{line_contents, piece_contents, script_contents, value_in};
ghost use Rattle.ra_set.specs.Limits.{line_conditions, optional_trigger, script_conditions};
ghost use Rattle.ra_set.specs.Spelled.{OptionalScript};
ghost use Rattle.ra_meaning.specs.ShownLines.{IsShownLine};
ghost use Rattle.ra_display.specs.Counted.{IsBare, CountsLine, CountsLines, CountsPresence};

use crate::line_run::new_line;
use ra_condition::{Group, TriggerText};
use ra_indirect::Pool;
use ra_member::Places;
use ra_progress::PresenceShape;
use ra_richpresence::{Line, Piece, Script};
use ra_text::OutOfMemory;
use std::alloc::Global;

/// The shape of the display of a script that may be missing, with all its trees in the pool. Its lines are made one by
/// one and dropped. Memory is the only refusal.
pub fn counted_presence(
    alloc: Global,
    script: &Option<Script>,
    pool: &mut Pool,
) -> Result<Option<PresenceShape>, OutOfMemory>
    requires spelled { OptionalScript (option_map script_contents script.now) }
    requires room { length pool.old + 13 * script_conditions (option_map script_contents script.now) + 2 ≤ 2 ^ 31 }
    requires few { script_conditions (option_map script_contents script.now) ≤ 65536 }
    ensures { IfOk result (CountsPresence pool.old pool.new (option_map script_contents script.now)) }
{
    match script {
        Some(script) => {
            let kept = counted_lines(alloc, &script.lines, pool)?;
            Ok(Some(PresenceShape {
                lines: script.lines.len() as u32,
                hits: kept.hits as u32,
                parts: kept.numbers as u32,
            }))
        }
        None => {
            // This call tells that the nodes are those of a pool, which the proof needs.
            let _ = pool.len();
            Ok(None)
        }
    }
}

// How many numbers lines keep together, with all their trees in the pool.
fn counted_lines(alloc: Global, lines: &[Line], pool: &mut Pool) -> Result<Places, OutOfMemory>
    requires spelled { All IsShownLine (map line_contents lines.now) }
    requires room { length pool.old + 13 * sum_by line_conditions (map line_contents lines.now) + 2 ≤ 2 ^ 31 }
    requires few { sum_by line_conditions (map line_contents lines.now) ≤ 65536 }
    ensures { IfOk result (λ kept. CountsLines pool.old pool.new (map line_contents lines.now) kept.hits kept.numbers) }
{
    let mut hits = 0;
    let mut numbers = 0;
    // This call tells that the nodes are those of a pool, which the proof needs.
    let _ = pool.len();
    for line in lines {
        let kept = counted_line(alloc, line, pool)?;
        hits += kept.hits;
        numbers += kept.numbers;
    }
    Ok(Places { hits, numbers })
}

// How many numbers a line keeps, with its trees in the pool. A line without conditions and macros is not made.
fn counted_line(alloc: Global, line: &Line, pool: &mut Pool) -> Result<Places, OutOfMemory>
    requires spelled { IsShownLine (line_contents line.now) }
    requires room { length pool.old + 13 * line_conditions (line_contents line.now) + 2 ≤ 2 ^ 31 }
    requires few { line_conditions (line_contents line.now) ≤ 65536 }
    ensures { IfOk result (CountsLine pool.old pool.new (line_contents line.now)) }
{
    // This call tells that the nodes are those of a pool, which the proof needs.
    let _ = pool.len();
    if is_bare(line) {
        return Ok(Places {
            hits: 0,
            numbers: 0,
        });
    }
    let run = new_line(alloc, line, pool)?;
    Ok(run.shape())
}

// Whether a line has no conditions and no macros.
fn is_bare(line: &Line) -> bool
    ensures { result ≡ true → IsBare (line_contents line.now) }
{
    is_bare_test(&line.test) && are_texts(&line.pieces)
}

// Whether a test that may be missing has no conditions.
fn is_bare_test(test: &Option<TriggerText>) -> bool
    ensures { result ≡ true → optional_trigger (option_map trigger_contents test.now) ≡ 0 }
{
    match test {
        Some(test) => test.core.conditions.is_empty() && are_bare(&test.alts),
        None => true,
    }
}

// Whether groups have no conditions.
fn are_bare(groups: &[Group]) -> bool
    ensures { result ≡ true → sum_by length (map group_contents groups.now) ≡ 0 }
{
    for group in groups {
        if !group.conditions.is_empty() {
            return false;
        }
    }
    true
}

// Whether no piece is a macro.
fn are_texts(pieces: &[Piece]) -> bool
    ensures { result ≡ true → filter_map value_in (map piece_contents pieces.now) ≡ [] }
{
    for piece in pieces {
        if is_macro(piece) {
            return false;
        }
    }
    true
}

// Whether a piece is a macro.
fn is_macro(piece: &Piece) -> bool
    ensures { result ≡ is_some (value_in (piece_contents piece.now)) }
{
    match piece {
        Piece::Macro { .. } => true,
        Piece::Text(_) => false,
    }
}

//! Pieces of display lines: docs/DEFINITIONS.md, "Presence scripts".

ghost use Rattle.std.specs.Prelude.{map};
ghost use Rattle.ra_condition.specs.Contents.{value_contents};
ghost use Rattle.ra_condition.specs.Fault.{GivesUnlessFull};
ghost use Rattle.ra_condition.specs.ReadingValues.{value_at};
ghost use Rattle.ra_richpresence.specs.Contents.{piece_contents};
ghost use Rattle.ra_richpresence.specs.Following.{SpellsUnlessFull, TakesRun};
ghost use Rattle.ra_richpresence.specs.Reading.{macro_at, pieces_of};

use crate::names::take_name;
use crate::piece::Piece;
use crate::text::take_character;
use ra_condition::{Fault, ValueText, take_value};
use ra_text::Cursor;
use std::alloc::Global;

/// The pieces that the rest of a line spells.
pub fn read_pieces(alloc: Global, cursor: &mut Cursor<'_>) -> Result<Vec<Piece>, Fault>
    ensures { SpellsUnlessFull (λ pieces. map piece_contents pieces.items) result (pieces_of cursor.old.rest.now) }
{
    // Most lines are one text.
    let mut pieces = Vec::with_capacity(alloc, 1)?;
    while !cursor.rest.is_empty() {
        if cursor.is_at(b'@') {
            pieces.push(take_macro(alloc, cursor)?)?;
        } else {
            let text = take_run(alloc, cursor)?;
            pieces.push(Piece::Text(text))?;
        }
    }
    pieces.shrink_to_fit();
    Ok(pieces)
}

/// Reads a macro: `@`, a name, `(`, a value and `)`.
#[tactic(auto, unfolding(crate::specs::Reading::macro_at))]
pub fn take_macro(alloc: Global, cursor: &mut Cursor<'_>) -> Result<Piece, Fault>
    ensures { GivesUnlessFull piece_contents result cursor.new.rest.now (macro_at cursor.old.rest.now) }
{
    cursor.byte(b'@')?;
    let name = take_name(alloc, cursor)?;
    cursor.byte(b'(')?;
    let value = take_shown_value(alloc, cursor)?;
    cursor.byte(b')')?;
    Ok(Piece::Macro { name, value })
}

// The value of a macro, with room for just its parts.
fn take_shown_value(alloc: Global, cursor: &mut Cursor<'_>) -> Result<ValueText, Fault>
    ensures { GivesUnlessFull value_contents result cursor.new.rest.now (value_at cursor.old.rest.now) }
{
    let mut value = take_value(alloc, cursor)?;
    value.parts.shrink_to_fit();
    Ok(value)
}

// Characters up to the next macro, or to the end.
fn take_run(alloc: Global, cursor: &mut Cursor<'_>) -> Result<Vec<u8>, Fault>
    ensures { TakesRun (λ text. text.items) result cursor.old.rest.now cursor.new.rest.now }
{
    let mut text = Vec::new(alloc);
    while !cursor.rest.is_empty() && !cursor.is_at(b'@') {
        text.push(take_character(cursor)?)?;
    }
    Ok(text)
}

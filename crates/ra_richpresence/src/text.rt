//! Texts with escapes: docs/DEFINITIONS.md, "Presence scripts".

ghost use Rattle.ra_richpresence.specs.Following.{SpellsUnlessFull};
ghost use Rattle.ra_richpresence.specs.Reading.{character_at, lookup_text_of};
ghost use Rattle.ra_text.specs.Moves.{Moves};

use ra_condition::Fault;
use ra_text::{Cursor, Stop};
use std::alloc::Global;

/// The text of a lookup that the rest of a line spells.
pub fn read_lookup_text(alloc: Global, cursor: &mut Cursor<'_>) -> Result<Vec<u8>, Fault>
    ensures { SpellsUnlessFull (λ text. text.items) result (lookup_text_of cursor.old.rest.now) }
{
    let mut text = Vec::new(alloc);
    while !cursor.rest.is_empty() {
        text.push(take_character(cursor)?)?;
    }
    Ok(text)
}

/// Reads a byte, or a `\` and the byte that it stands for. At the end a `\` stands for itself.
pub fn take_character(cursor: &mut Cursor<'_>) -> Result<u8, Stop>
    ensures { Moves result cursor.new.rest.now (character_at cursor.old.rest.now) }
{
    match cursor.rest {
        [b'\\', byte, after @ ..] => {
            cursor.rest = after;
            Ok(*byte)
        }
        [byte, after @ ..] => {
            cursor.rest = after;
            Ok(*byte)
        }
        [] => Err(Stop),
    }
}

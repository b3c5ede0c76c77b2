//! Names: docs/DEFINITIONS.md, "Presence scripts".

ghost use Rattle.std.specs.Prelude.{◌≡◌};
ghost use Rattle.ra_condition.specs.Fault.{GivesUnlessFull};
ghost use Rattle.ra_richpresence.specs.Following.{SpellsUnlessFull};
ghost use Rattle.ra_richpresence.specs.Reading.{name_at, name_byte, whole};
ghost use Rattle.ra_text.specs.Moves.{Moves};
ghost use Rattle.ra_text.specs.Reading.{one_at};
ghost use Rattle.ra_text.specs.Table.{is_in};

use ra_condition::Fault;
use ra_text::{Cursor, Stop};
use std::alloc::Global;

/// Reads one or more bytes other than `(`, `)`, `@` and `\`.
pub fn take_name(alloc: Global, cursor: &mut Cursor<'_>) -> Result<Vec<u8>, Fault>
    ensures { GivesUnlessFull (λ name. name.items) result cursor.new.rest.now (name_at cursor.old.rest.now) }
{
    let mut name = Vec::new(alloc);
    name.push(take_name_byte(cursor)?)?;
    while let [byte, after @ ..] = cursor.rest {
        if !is_name_byte(*byte) {
            break;
        }
        name.push(*byte)?;
        cursor.rest = after;
    }
    Ok(name)
}

/// The name that the rest of a line is.
pub fn read_name(alloc: Global, cursor: &mut Cursor<'_>) -> Result<Vec<u8>, Fault>
    ensures { SpellsUnlessFull (λ name. name.items) result (whole (name_at cursor.old.rest.now)) }
{
    let name = take_name(alloc, cursor)?;
    match cursor.rest {
        [] => Ok(name),
        _ => Err(Fault::Stop),
    }
}

// A byte of a name.
fn take_name_byte(cursor: &mut Cursor<'_>) -> Result<u8, Stop>
    ensures { Moves result cursor.new.rest.now (one_at name_byte cursor.old.rest.now) }
{
    if let [byte, after @ ..] = cursor.rest {
        if is_name_byte(*byte) {
            cursor.rest = after;
            return Ok(*byte);
        }
    }
    Err(Stop)
}

// The byte may stand in a name.
fn is_name_byte(byte: u8) -> bool
    ensures { result ≡ is_in name_byte byte }
{
    byte != b'(' && byte != b')' && byte != b'@' && byte != b'\\'
}

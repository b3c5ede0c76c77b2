//! Operands at a place of a text.

ghost use Rattle.std.specs.Prelude.{◌≤◌, MatchResult, None, Some, length};
ghost use Rattle.ra_operand.specs.Grammar.{operand};
ghost use Rattle.ra_text.specs.Place.{EndsAt, OneSpelling};

use crate::operand::Operand;
use crate::reading::take_operand;
use ra_text::{Cursor, Syntax};

/// The operand at a place, and the place where it ends: docs/DEFINITIONS.md, "Operands".
///
/// Places are in bytes from the start. Bytes are read up to the first that goes on with no operand.
/// `Syntax` carries that place, and comes exactly where what was read is no whole operand.
pub fn parse_operand(text: &[u8], at: usize) -> Result<(Operand, usize), Syntax>
    requires { at ≤ length text.now }
    ensures { MatchResult result
        (λ x. EndsAt operand text.now at x.1 (Some x.0))
        (λ refused. EndsAt operand text.now at refused.at None) }
{
    let mut cursor = Cursor::new(text, at);
    match take_operand(&mut cursor) {
        Ok(operand) => Ok((operand, cursor.place(text))),
        Err(_) => Err(Syntax {
            at: cursor.place(text),
        }),
    }
}

/// A text spells at most one operand: docs/DEFINITIONS.md, "Operands".
///
/// A law; no effect at run time.
pub fn one_operand()
    ensures { OneSpelling operand }
{}

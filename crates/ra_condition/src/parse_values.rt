//! Values of a text: docs/DEFINITIONS.md, "Values" and "First bad place".

ghost use Rattle.std.specs.Prelude.{◌≤◌, IfErr, IfOk, None, Some, length};
ghost use Rattle.ra_condition.specs.Contents.{value_contents};
ghost use Rattle.ra_condition.specs.Values.{value};
ghost use Rattle.ra_condition.specs.Refusals.{IfSyntax};
ghost use Rattle.ra_condition.specs.Spelled.{IsValue};
ghost use Rattle.ra_text.specs.Place.{EndsAt, IsOutside};

use crate::fault::Fault;
use crate::refused::Refused;
use crate::value_text::ValueText;
use crate::values::take_value;
use ra_text::Cursor;
use std::alloc::Global;

/// The value that the whole text spells: docs/DEFINITIONS.md, "Values".
///
/// `Syntax` carries the first bad place, in bytes from 0, and comes exactly where the text is
/// outside the grammar. `Memory` where there is no memory for the value.
pub fn parse_value(alloc: Global, text: &[u8]) -> Result<ValueText, Refused>
    ensures ok { IfOk result (λ t. value text.now (value_contents t)) }
    ensures structure { IfOk result (λ t. IsValue (value_contents t)) }
    ensures err { IfErr result (λ e. IfSyntax e (λ place. IsOutside value text.now place)) }
{
    let (value, at) = read_value(alloc, text, 0)?;
    if at < text.len() {
        Err(Refused::Syntax { at })
    } else {
        Ok(value)
    }
}

/// The value at a place, and the place where it ends: docs/DEFINITIONS.md, "Values".
///
/// Places are in bytes from the start. Bytes are read up to the first that goes on with no value.
/// `Syntax` carries that place, and comes exactly where what was read is no whole value. `Memory`
/// where there is no memory for the value.
pub fn read_value(alloc: Global, text: &[u8], at: usize) -> Result<(ValueText, usize), Refused>
    requires { at ≤ length text.now }
    ensures ok { IfOk result (λ x. EndsAt value text.now at x.1 (Some (value_contents x.0))) }
    ensures structure { IfOk result (λ x. IsValue (value_contents x.0)) }
    ensures err { IfErr result
        (λ e. IfSyntax e (λ place. EndsAt value text.now at place None)) }
{
    let mut cursor = Cursor::new(text, at);
    match take_value(alloc, &mut cursor) {
        Ok(value) => Ok((value, cursor.place(text))),
        Err(Fault::Stop) => Err(Refused::Syntax {
            at: cursor.place(text),
        }),
        Err(Fault::Memory) => Err(Refused::Memory),
    }
}

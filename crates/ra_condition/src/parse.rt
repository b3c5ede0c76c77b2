//! Triggers of a text: docs/DEFINITIONS.md, "Triggers" and "First bad place".

ghost use Rattle.std.specs.Prelude.{◌≤◌, IfErr, IfOk, None, Some, length};
ghost use Rattle.ra_condition.specs.Contents.{trigger_contents};
ghost use Rattle.ra_condition.specs.Grammar.{trigger};
ghost use Rattle.ra_condition.specs.Refusals.{IfSyntax};
ghost use Rattle.ra_condition.specs.Spelled.{IsTrigger};
ghost use Rattle.ra_text.specs.Place.{EndsAt, IsOutside};

use crate::fault::Fault;
use crate::groups::take_trigger;
use crate::refused::Refused;
use crate::trigger_text::TriggerText;
use ra_text::Cursor;
use std::alloc::Global;

/// The trigger that the whole text spells: docs/DEFINITIONS.md, "Triggers".
///
/// `Syntax` carries the first bad place, in bytes from 0, and comes exactly where the text is
/// outside the grammar. `Memory` where there is no memory for the trigger.
pub fn parse_trigger(alloc: Global, text: &[u8]) -> Result<TriggerText, Refused>
    ensures ok { IfOk result (λ t. trigger text.now (trigger_contents t)) }
    ensures structure { IfOk result (λ t. IsTrigger (trigger_contents t)) }
    ensures err { IfErr result (λ e. IfSyntax e (λ place. IsOutside trigger text.now place)) }
{
    let (trigger, at) = read_trigger(alloc, text, 0)?;
    if at < text.len() {
        Err(Refused::Syntax { at })
    } else {
        Ok(trigger)
    }
}

/// The trigger at a place, and the place where it ends: docs/DEFINITIONS.md, "Triggers".
///
/// Places are in bytes from the start. Bytes are read up to the first that goes on with no trigger.
/// `Syntax` carries that place, and comes exactly where what was read is no whole trigger. `Memory`
/// where there is no memory for the trigger.
pub fn read_trigger(alloc: Global, text: &[u8], at: usize) -> Result<(TriggerText, usize), Refused>
    requires { at ≤ length text.now }
    ensures ok { IfOk result (λ x. EndsAt trigger text.now at x.1 (Some (trigger_contents x.0))) }
    ensures structure { IfOk result (λ x. IsTrigger (trigger_contents x.0)) }
    ensures err { IfErr result
        (λ e. IfSyntax e (λ place. EndsAt trigger text.now at place None)) }
{
    let mut cursor = Cursor::new(text, at);
    match take_trigger(alloc, &mut cursor) {
        Ok(trigger) => Ok((trigger, cursor.place(text))),
        Err(Fault::Stop) => Err(Refused::Syntax {
            at: cursor.place(text),
        }),
        Err(Fault::Memory) => Err(Refused::Memory),
    }
}

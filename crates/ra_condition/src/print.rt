//! The canonical text of triggers and values: docs/DEFINITIONS.md, "Canonical text".

ghost use Rattle.std.specs.Prelude.{◌≡◌, IfOk};
ghost use Rattle.ra_condition.specs.Canonical.{trigger_text, value_text};
ghost use Rattle.ra_condition.specs.Contents.{trigger_contents, value_contents};
ghost use Rattle.ra_condition.specs.Grammar.{trigger};
ghost use Rattle.ra_condition.specs.Spelled.{IsTrigger, IsValue};
ghost use Rattle.ra_condition.specs.Values.{value};

use crate::trigger_text::TriggerText;
use crate::value_text::ValueText;
use crate::write::{write_trigger, write_value};
use ra_text::OutOfMemory;
use std::alloc::Global;

/// The canonical text of a trigger: docs/DEFINITIONS.md, "Canonical text". It spells the trigger.
///
/// The trigger has the structure of those that some text spells ("What texts spell").
pub fn print_trigger(alloc: Global, text: &TriggerText) -> Result<Vec<u8>, OutOfMemory>
    requires { IsTrigger (trigger_contents text.now) }
    ensures text { IfOk result (λ bytes. bytes.items ≡ trigger_text (trigger_contents text.now)) }
    ensures spelled { IfOk result (λ bytes. trigger bytes.items (trigger_contents text.now)) }
{
    let mut canonical = String::new(alloc);
    write_trigger(&mut canonical, text)?;
    Ok(canonical.into_bytes())
}

/// The canonical text of a value: docs/DEFINITIONS.md, "Canonical text". It spells the value.
///
/// The value has the structure of those that some text spells ("What texts spell").
pub fn print_value(alloc: Global, text: &ValueText) -> Result<Vec<u8>, OutOfMemory>
    requires { IsValue (value_contents text.now) }
    ensures text { IfOk result (λ bytes. bytes.items ≡ value_text (value_contents text.now)) }
    ensures spelled { IfOk result (λ bytes. value bytes.items (value_contents text.now)) }
{
    let mut canonical = String::new(alloc);
    write_value(&mut canonical, text)?;
    Ok(canonical.into_bytes())
}

//! The achievement of an id.

ghost use Rattle.std.specs.Prelude.{IfOk};
ghost use Rattle.ra_set.specs.Contents.{SetContents};
ghost use Rattle.ra_set.specs.Accepted.{IsSet};
ghost use Rattle.ra_calls.specs.Choosing.{IsFoundIn};

use ra_condition::TriggerText;
use ra_goals::trigger_of;
use ra_set::parse_set;
use ra_text::OutOfMemory;
use std::alloc::Global;

/// The trigger of the achievement of an id, read from the text of a set.
pub fn find_trigger(alloc: Global, text: &[u8], id: u32) -> Result<Option<TriggerText>, OutOfMemory>
    ensures { (set : SetContents) → IsSet text.now set → IfOk result (IsFoundIn id set) }
{
    match parse_set(alloc, text) {
        Ok(set) => Ok(trigger_of(set, id)),
        Err(_) => Err(OutOfMemory),
    }
}

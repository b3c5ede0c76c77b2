//! The achievement of an id in a set file.

ghost use Rattle.std.specs.Prelude.{IfOk};
ghost use Rattle.ra_why_job.specs.Choosing.{IsChosen};

use ra_condition::TriggerText;
use ra_goals::trigger_of;
use ra_set::{SetRefused, parse_set};
use ra_text::OutOfMemory;
use std::alloc::Global;

/// What the bytes of a set file have of an id.
#[derive(Drop)]
pub(crate) enum Chosen {
    /// The bytes are no set.
    Refused(SetRefused),
    /// The set has no achievement of the id.
    Lacking,
    /// The trigger of its achievement.
    Found(TriggerText),
}

/// What the bytes of a set file have of an id.
pub(crate) fn choose(alloc: Global, bytes: &[u8], id: u32) -> Result<Chosen, OutOfMemory>
    ensures { IfOk result (IsChosen bytes.now id) }
{
    match parse_set(alloc, bytes) {
        Ok(set) => match trigger_of(set, id) {
            Some(text) => Ok(Chosen::Found(text)),
            None => Ok(Chosen::Lacking),
        },
        Err(SetRefused::Memory) => Err(OutOfMemory),
        Err(why) => Ok(Chosen::Refused(why)),
    }
}

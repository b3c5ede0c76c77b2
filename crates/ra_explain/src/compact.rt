ghost use Rattle.std.specs.Prelude.{◌≡◌, IfOk};
ghost use Rattle.ra_explain.specs.Compacts.{compact_contents};
ghost use Rattle.ra_explain.specs.Explains.{explanation_contents};
ghost use Rattle.ra_explain.specs.HitChanges.{events_of};
ghost use Rattle.ra_explain.specs.Replays.{contents_of};

use crate::explanation::{Events, Explanation};
use crate::hit_changes::HitChanges;
use ra_text::OutOfMemory;
use std::alloc::Global;

/// Why an unlock came, with what each row did to each condition in place of a list of events.
#[derive(Drop)]
pub struct CompactExplanation {
    /// The row of the unlock.
    pub last: u32,
    /// The row from which on the hits counted.
    pub since: u32,
    /// The achievement waited before that row.
    pub waited: bool,
    /// What each row did to the hits of each condition, core first.
    pub changes: Vec<HitChanges>,
}

impl CompactExplanation {
    // The same explanation with the list of events of each condition.
    pub(crate) fn expand(&self, alloc: Global) -> Result<Explanation, OutOfMemory>
        ensures { IfOk result (λ e. explanation_contents e ≡ compact_contents self.now) }
    {
        let events = events_in(alloc, &self.changes)?;
        Ok(Explanation {
            last: self.last,
            since: self.since,
            waited: self.waited,
            events,
        })
    }
}

// The events of each condition.
fn events_in(alloc: Global, changes: &[HitChanges]) -> Result<Vec<Events>, OutOfMemory>
    ensures { IfOk result (λ events. contents_of events.items ≡ events_of changes.now) }
{
    let mut events = Vec::with_capacity(alloc, changes.len())?;
    for own in changes {
        let list = own.events(alloc)?;
        events.push(Events { list })?;
    }
    Ok(events)
}

//! Explanations, for C.
ghost use Rattle.std.specs.Prelude.{◌≡◌, ◌≤◌, ◌++◌, length, map, IfOk, OnOk};
ghost use Rattle.ra_explain.specs.Explains.{explanation_contents};
ghost use Rattle.ra_explain.specs.Replays.{contents_of};
ghost use Rattle.ra_calls.specs.ToldUnlocks as spec;

use ra_explain::{Event, Events, Explanation};
use ra_text::OutOfMemory;
use std::alloc::{AllocError, Global};

/// A row at which the hits of a condition changed: docs/DEFINITIONS.md, "Calls from C" and "Explanations".
///
/// In C it is `ra_hits`.
#[repr(C)]
#[derive(Clone, Copy, Debug, PartialEq, Eq)]
pub struct ToldHits {
    /// The place of the condition, from 0, over all groups, core first.
    pub condition: u32,
    /// The row, from 0.
    pub row: u32,
    /// The hits after it.
    pub hits: u32,
}

/// The rows of an explanation: docs/DEFINITIONS.md, "Calls from C" and "Explanations".
///
/// In C it is `ra_unlock`.
#[repr(C)]
#[derive(Clone, Copy, Debug, PartialEq, Eq)]
pub struct ToldUnlock {
    /// The row of the unlock.
    pub last: u32,
    /// The row from which on the hits counted.
    pub since: u32,
    /// 1 where the achievement waited before that row, else 0.
    pub waited: u32,
}

// The rows of an explanation.
pub fn head_of(explanation: &Explanation) -> ToldUnlock
    ensures { result ≡ spec.told_unlock (explanation_contents explanation.now) }
{
    ToldUnlock {
        last: explanation.last,
        since: explanation.since,
        waited: u32::from(explanation.waited),
    }
}

// Tells the events of the condition at a place after others.
fn put_hits(told: &mut Vec<ToldHits>, place: u32, list: &[Event]) -> Result<(), AllocError>
    ensures { OnOk result (told.new.items ≡ told.old.items ++ map (spec.told_hits place) list.now) }
{
    for event in list {
        told.push(ToldHits {
            condition: place,
            row: event.row,
            hits: event.hits,
        })?;
    }
    Ok(())
}

// The events of all conditions, one condition after the other.
pub fn hits_of(alloc: Global, events: &[Events]) -> Result<Vec<ToldHits>, OutOfMemory>
    requires { length events.now ≤ 65536 }
    ensures { IfOk result (λ told. told.items ≡ spec.all_hits 0 (contents_of events.now)) }
{
    let mut told = Vec::new(alloc);
    let mut place = 0;
    let mut rest = events;
    while let Some((own, behind)) = rest.split_first() {
        put_hits(&mut told, place, &own.list)?;
        rest = behind;
        place += 1;
    }
    Ok(told)
}

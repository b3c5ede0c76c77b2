//! Whether an explanation holds.

ghost use Rattle.std.specs.Prelude.{◌≡◌, ◌↔◌, ◌+◌, ◌*◌, ◌≤◌, length, true, IfOk};
ghost use Rattle.ra_condition.specs.Contents.{trigger_contents, trigger_hits};
ghost use Rattle.ra_explain.specs.Explains.{Explains, UnlockFollows, explanation_contents};
ghost use Rattle.ra_explain.specs.HitChanges.{events_of};
ghost use Rattle.ra_explain.specs.Replays.{contents_of};

use crate::explanation::{Event, Events, Explanation};
use crate::hit_changes::HitChanges;
use crate::ordered_rows::OrderedRows;
use crate::tracing::trace;
use ra_condition::TriggerText;
use ra_text::OutOfMemory;
use std::alloc::Global;

/// Whether rows are explained: docs/DEFINITIONS.md, "Explanations".
///
/// There are `last` + 1 rows, one after the other, `since` is one of them, and there is a list of events for each
/// condition.
pub fn verify(
    alloc: Global,
    text: &TriggerText,
    rows: &[bool],
    explanation: &Explanation,
) -> Result<bool, OutOfMemory>
    requires rows { length rows.now ≡ (explanation.now.last + 1) * trigger_hits (trigger_contents text.now) }
    requires since { explanation.now.since ≤ explanation.now.last }
    requires events { length explanation.now.events.items ≡ trigger_hits (trigger_contents text.now) }
    ensures exact { IfOk result (λ yes. (yes ≡ true)
        ↔ Explains (trigger_contents text.now) rows.now (explanation_contents explanation.now)) }
    ensures unlocks { IfOk result (λ yes. yes ≡ true
        → UnlockFollows (trigger_contents text.now) rows.now (explanation_contents explanation.now)) }
{
    if explanation.waited && explanation.since == explanation.last {
        return Ok(false);
    }
    let (since, last) = (explanation.since, explanation.last);
    let rows = OrderedRows::all(alloc, explanation.events.len(), rows, last)?;
    match trace(alloc, text, &rows, since, last)? {
        Some(changes) => same_events(alloc, &changes, &explanation.events),
        None => Ok(false),
    }
}

// Whether the events of all conditions are these.
fn same_events(
    alloc: Global,
    changes: &[HitChanges],
    events: &[Events],
) -> Result<bool, OutOfMemory>
    requires { length changes.now ≡ length events.now }
    ensures { IfOk result (λ yes. (yes ≡ true) ↔ (events_of changes.now ≡ contents_of events.now)) }
{
    for place in 0..changes.len() {
        let list = changes[place].events(alloc)?;
        if !same_list(&list, &events[place].list) {
            return Ok(false);
        }
    }
    Ok(true)
}

// Whether the events of a condition are the same.
fn same_list(list: &[Event], other: &[Event]) -> bool
    ensures { (result ≡ true) ↔ (list.now ≡ other.now) }
{
    if list.len() != other.len() {
        return false;
    }
    for place in 0..list.len() {
        if list[place].row != other[place].row || list[place].hits != other[place].hits {
            return false;
        }
    }
    true
}

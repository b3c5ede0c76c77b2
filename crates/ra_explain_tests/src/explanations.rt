//! Explanations that are checked against rows of comparisons.

ghost use Rattle.std.specs.Prelude.{◌≡◌, IfOk};

use crate::recorded::trigger_of;
use ra_explain::{Event, Events, Explanation, verify};
use ra_text::OutOfMemory;
use ra_trigger::Trigger;
use std::alloc::Global;
use std::test::Fail;

// An explanation in which the achievement waited before row 0, and the events of one condition.
fn one_list(
    alloc: Global,
    last: u32,
    waited: bool,
    events: &[(u32, u32)],
) -> Result<Explanation, OutOfMemory> {
    let mut list = Vec::new(alloc);
    for (row, hits) in events {
        list.push(Event {
            row: *row,
            hits: *hits,
        })?;
    }
    let mut events = Vec::new(alloc);
    events.push(Events { list })?;
    Ok(Explanation {
        last,
        since: 0,
        waited,
        events,
    })
}

// Whether the rows of a trigger are explained.
fn verified(
    alloc: Global,
    text: &str,
    rows: &[bool],
    explanation: &Explanation,
) -> Result<bool, Fail> {
    let trigger = trigger_of(alloc, text)?;
    let kept = Trigger::new(alloc, &trigger)?;
    let count = kept.hits().len();
    let Some(wanted) = (explanation.last as usize + 1).checked_mul(count) else {
        return Err(Fail::from("many rows"));
    };
    if wanted != rows.len()
        || explanation.events.len() != count
        || explanation.since > explanation.last
    {
        return Err(Fail::from("no rows"));
    }
    let holds = verify(alloc, &trigger, rows, explanation)?;
    Ok(holds)
}

// Three hits over five rows.
const ROWS: [bool; 5] = [false, true, true, false, true];

#[test]
fn three_hits_are_explained(rt: HostRuntime) -> Result<(), Fail> {
    let explanation = one_list(rt.alloc(), 4, true, &[(1, 1), (2, 2), (4, 3)])?;
    let found = verified(rt.alloc(), "0xH0010=5.3.", &ROWS, &explanation)?;
    assert!(rt; found);
    Ok(())
}

#[test]
fn an_event_that_is_left_out_is_missed(rt: HostRuntime) -> Result<(), Fail> {
    let explanation = one_list(rt.alloc(), 4, true, &[(1, 1), (4, 3)])?;
    let found = verified(rt.alloc(), "0xH0010=5.3.", &ROWS, &explanation)?;
    assert!(rt; !found);
    Ok(())
}

#[test]
fn a_row_behind_the_unlock_is_no_last_row(rt: HostRuntime) -> Result<(), Fail> {
    let explanation = one_list(rt.alloc(), 4, false, &[(1, 1), (2, 2), (4, 3)])?;
    let found = verified(rt.alloc(), "0xH0010=5.2.", &ROWS, &explanation)?;
    assert!(rt; !found);
    Ok(())
}

#[test]
fn an_achievement_that_waits_needs_an_earlier_row(rt: HostRuntime) -> Result<(), Fail> {
    let mut told = Vec::new(rt.alloc());
    for waited in [false, true] {
        let explanation = one_list(rt.alloc(), 0, waited, &[(0, 1)])?;
        told.push(verified(rt.alloc(), "0xH0010=5", &[true], &explanation)?)?;
    }
    assert_eq!(rt; told.as_slice(), [true, false].as_slice());
    Ok(())
}

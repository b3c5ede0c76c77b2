//! Frames of a trigger, and what each has to tell.

ghost use Rattle.std.specs.Prelude.{◌≡◌, length};
ghost use Rattle.ra_condition.specs.Contents.{trigger_contents, trigger_hits};
ghost use Rattle.ra_trigger.specs.Kept.{orders_of, pauses_of};

use ra_condition::TriggerText;
use ra_text::OutOfMemory;
use ra_trigger::{Change, State, Trigger};
use std::alloc::Global;

/// What a frame of a trigger has to tell.
#[derive(Clone, Copy)]
pub(crate) enum Told<'a> {
    /// The state after it, which the trigger then has, and all hits.
    Hits(State, &'a [u32]),
    /// The state after it, the measured number where it changed, and the one that is kept.
    Measured(State, Option<u32>, u32),
    /// The states before and after it.
    States(State, State),
    /// Of a trigger without states, whether it is true, and all hits. It waits then as before.
    Truth(bool, &'a [u32]),
}

/// The place of the first frame of a new trigger, by the truths of its conditions, that tells otherwise.
pub(crate) fn other_frame(
    alloc: Global,
    text: &TriggerText,
    orders: &[u32],
    pauses: &[u32],
    lefts: &[u32],
    frames: &[(&[bool], Told<'_>)],
) -> Result<Option<usize>, OutOfMemory>
    requires orders { orders.now ≡ orders_of (trigger_contents text.now) }
    requires pauses { pauses.now ≡ pauses_of (trigger_contents text.now) }
    requires lefts { length lefts.now ≡ trigger_hits (trigger_contents text.now) }
{
    let mut trigger = Trigger::new(alloc, text)?;
    Ok(first_other(&mut trigger, text, orders, pauses, lefts, frames))
}

/// The place of the first frame that tells otherwise.
pub(crate) fn first_other(
    trigger: &mut Trigger,
    text: &TriggerText,
    orders: &[u32],
    pauses: &[u32],
    lefts: &[u32],
    frames: &[(&[bool], Told<'_>)],
) -> Option<usize>
    requires orders { orders.now ≡ orders_of (trigger_contents text.now) }
    requires pauses { pauses.now ≡ pauses_of (trigger_contents text.now) }
    requires lefts { length lefts.now ≡ trigger_hits (trigger_contents text.now) }
    requires hits { length trigger.old.hits ≡ trigger_hits (trigger_contents text.now) }
{
    for (place, (truths, told)) in frames.iter().enumerate() {
        if truths.len() != lefts.len()
            || !tells(trigger, text, orders, pauses, truths, lefts, *told)
        {
            return Some(place);
        }
    }
    None
}

fn tells(
    trigger: &mut Trigger,
    text: &TriggerText,
    orders: &[u32],
    pauses: &[u32],
    truths: &[bool],
    lefts: &[u32],
    told: Told<'_>,
) -> bool
    requires orders { orders.now ≡ orders_of (trigger_contents text.now) }
    requires pauses { pauses.now ≡ pauses_of (trigger_contents text.now) }
    requires truths { length truths.now ≡ trigger_hits (trigger_contents text.now) }
    requires lefts { length lefts.now ≡ trigger_hits (trigger_contents text.now) }
    requires hits { length trigger.old.hits ≡ trigger_hits (trigger_contents text.now) }
    ensures { length trigger.new.hits ≡ length trigger.old.hits }
{
    if let Told::Truth(truth, hits) = told {
        let answer = trigger.truth(text, orders, pauses, truths, lefts);
        return answer == truth && stands_at(trigger, State::Waiting, hits);
    }
    let change = trigger.step(text, orders, pauses, truths, lefts);
    is_told(trigger, change, told)
}

fn is_told(trigger: &Trigger, change: Change, told: Told<'_>) -> bool {
    match told {
        Told::Hits(after, hits) => change.after == after && stands_at(trigger, after, hits),
        Told::Measured(after, changed, kept) => {
            change.after == after && change.measured == changed && trigger.measured() == kept
        }
        Told::States(before, after) => change.before == before && change.after == after,
        Told::Truth(..) => false,
    }
}

fn stands_at(trigger: &Trigger, state: State, hits: &[u32]) -> bool {
    trigger.state() == state && trigger.hits() == hits
}

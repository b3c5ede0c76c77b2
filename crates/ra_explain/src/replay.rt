//! An achievement's groups over rows of comparisons.

ghost use Rattle.std.specs.Prelude.{◌≡◌, length, replicate, IfOk};
ghost use Rattle.ra_condition.specs.Contents.{trigger_contents, trigger_hits};
ghost use Rattle.ra_trigger.specs.Kept.{no_trigger};
ghost use Rattle.ra_trigger.specs.States.{is_waiting};
ghost use Rattle.ra_trigger.specs.Steps.{together};
ghost use Rattle.ra_explain.specs.Beginnings.{StepsOver};
ghost use Rattle.ra_explain.specs.Replays.{AreOrders, IsReplay, StepsRow};

use crate::orders::{Orders, orders_of};
use ra_condition::TriggerText;
use ra_group::Reads;
use ra_text::OutOfMemory;
use ra_trigger::{State, Trigger, step_groups};
use std::alloc::Global;

/// What the groups say together at a row.
#[derive(Clone, Copy)]
pub(crate) struct Said {
    pub reset: bool,
    pub valid: bool,
}

/// The hits of an achievement, stepped row by row.
#[derive(Drop)]
pub(crate) struct Replay {
    pub orders: Orders,
    pub trigger: Trigger,
    // left values, which count for no hits
    pub zeros: Vec<u32>,
    pub room: Vec<u32>,
}

impl Replay {
    // All hits are 0.
    pub(crate) fn new(alloc: Global, text: &TriggerText) -> Result<Replay, OutOfMemory>
        ensures replay { IfOk result (IsReplay (trigger_contents text.now)) }
        ensures plain { IfOk result (λ replay. replay.trigger ≡ no_trigger (trigger_contents text.now)) }
        ensures hits { IfOk result (λ replay. replay.trigger.hits ≡ replicate (trigger_hits (trigger_contents text.now)) 0) }
    {
        let orders = orders_of(alloc, text)?;
        let trigger = Trigger::new(alloc, text)?;
        let count = trigger.hits().len();
        let zeros = vec![in alloc; 0; count]?;
        let room = vec![in alloc; 0; count]?;
        Ok(Replay {
            orders,
            trigger,
            zeros,
            room,
        })
    }

    // Steps all groups by a row.
    pub(crate) fn step(&mut self, text: &TriggerText, row: &[bool]) -> Said
        requires replay { IsReplay (trigger_contents text.now) self.old }
        requires row { length row.now ≡ trigger_hits (trigger_contents text.now) }
        ensures replay { IsReplay (trigger_contents text.now) self.new }
        ensures steps { StepsRow (trigger_contents text.now) row.now self.old self.new result }
    {
        self.room.copy_from_slice(self.trigger.hits());
        let reset = resets(text, &self.orders, row, &self.zeros, &mut self.room);
        let valid = self.trigger.truth(
            text,
            &self.orders.order,
            &self.orders.pauses,
            row,
            &self.zeros,
        );
        Said { reset, valid }
    }

    // Steps the achievement by a row, and answers whether its hits are cleared there.
    pub(crate) fn advance(&mut self, text: &TriggerText, row: &[bool]) -> bool
        requires replay { IsReplay (trigger_contents text.now) self.old }
        requires row { length row.now ≡ trigger_hits (trigger_contents text.now) }
        ensures replay { IsReplay (trigger_contents text.now) self.new }
        ensures steps { StepsOver (trigger_contents text.now) row.now self.old.trigger self.new.trigger result }
    {
        self.room.copy_from_slice(self.trigger.hits());
        let reset = resets(text, &self.orders, row, &self.zeros, &mut self.room);
        let change = self.trigger.step(
            text,
            &self.orders.order,
            &self.orders.pauses,
            row,
            &self.zeros,
        );
        reset | waits(change.after)
    }
}

// Whether a state waits.
pub(crate) fn waits(state: State) -> bool
    ensures { result ≡ is_waiting state }
{
    matches!(state, State::Waiting)
}

// Whether some group resets, from these hits, which are used up.
fn resets(
    text: &TriggerText,
    orders: &Orders,
    row: &[bool],
    lefts: &[u32],
    hits: &mut [u32],
) -> bool
    requires orders { AreOrders (trigger_contents text.now) orders.now }
    requires row { length row.now ≡ trigger_hits (trigger_contents text.now) }
    requires lefts { length lefts.now ≡ trigger_hits (trigger_contents text.now) }
    requires hits { length hits.old ≡ trigger_hits (trigger_contents text.now) }
    ensures { result ≡ (together (trigger_contents text.now) row.now lefts.now hits.old).reset }
{
    let reads = Reads {
        orders: &orders.order,
        pauses: &orders.pauses,
        truths: row,
        lefts,
    };
    step_groups(text, &reads, hits).reset
}

use crate::change::Change;
use crate::state::State;
use crate::together::step_groups;
use ra_condition::TriggerText;
use ra_group::Reads;
use ra_text::{OutOfMemory, read_words};
use std::alloc::Global;
use std::marker::Model;

/// What is kept of a trigger between frames: its state as an achievement, the measured number, and
/// the hits of the conditions of all groups, the core first.
#[derive(Drop)]
pub struct Trigger {
    state: State,
    measured: u32,
    hits: Vec<u32>,
}

impl Model for Trigger {
    ghost use Rattle.ra_trigger.specs.Steps.{TriggerKept};

    ghost Value = { TriggerKept };

    ghost view = { λ t. record { state = t.state; measured = t.measured; hits = t.hits.items } };
}

impl Trigger {
    ghost use Rattle.std.specs.Prelude.{◌≡◌, ◌*◌, length, IfOk};
    ghost use Rattle.std.specs.Borrow.{sem};
    ghost use Rattle.ra_condition.specs.Contents.{trigger_contents, trigger_hits};
    ghost use Rattle.ra_text.specs.Words.{words_at};
    ghost use Rattle.ra_trigger.specs.Kept.{no_trigger, orders_of, pauses_of, change_between};
    ghost use Rattle.ra_trigger.specs.Lends.{LendsHits};
    ghost use Rattle.ra_trigger.specs.Steps.{cleared, step, truth, hits_after_truth};
    ghost use Rattle.ra_trigger.specs.declared.state.State.TheVariants.{Waiting};

    /// A trigger that waits, with all numbers 0.
    pub fn new(alloc: Global, text: &TriggerText) -> Result<Self, OutOfMemory>
        ensures { IfOk result (λ trigger. trigger ≡ no_trigger (trigger_contents text.now)) }
    {
        let mut count = text.core.conditions.len();
        for alt in &text.alts {
            count = count.checked_add(alt.conditions.len()).ok_or(OutOfMemory)?;
        }
        Ok(Trigger {
            state: State::Waiting,
            measured: 0,
            hits: vec![in alloc; 0; count]?,
        })
    }

    /// Steps an achievement by a frame: docs/DEFINITIONS.md, "Achievement states".
    ///
    /// `truths` and `lefts` have an entry for each condition, the core group first and then the alt
    /// groups, `orders` is the pass order of each group, one after the other, and `pauses` has for
    /// each group how many of its conditions stand in pause chains. A triggered achievement is left
    /// as it is.
    #[inline(always)]
    pub fn step(
        &mut self,
        text: &TriggerText,
        orders: &[u32],
        pauses: &[u32],
        truths: &[bool],
        lefts: &[u32],
    ) -> Change
        requires orders { orders.now ≡ orders_of (trigger_contents text.now) }
        requires pauses { pauses.now ≡ pauses_of (trigger_contents text.now) }
        requires truths { length truths.now ≡ trigger_hits (trigger_contents text.now) }
        requires lefts { length lefts.now ≡ trigger_hits (trigger_contents text.now) }
        requires hits { length self.old.hits ≡ trigger_hits (trigger_contents text.now) }

        ensures kept { self.new ≡ step (trigger_contents text.now) truths.now lefts.now self.old }
        ensures count { length self.new.hits ≡ length self.old.hits }
        ensures change { result ≡ change_between self.old self.new }
    {
        let before = self.state;
        let old = self.measured;
        if matches!(before, State::Triggered) {
            return Change {
                before,
                after: before,
                measured: None,
            };
        }
        let reads = Reads {
            orders,
            pauses,
            truths,
            lefts,
        };
        let now = step_groups(text, &reads, &mut self.hits);
        let clears = before.is_cleared(&now);
        if clears {
            self.hits.fill(0);
        }
        self.measured = if clears && now.from_hits {
            0
        } else {
            now.measured.unwrap_or(old)
        };
        self.state = before.after(&now);
        Change {
            before,
            after: self.state,
            measured: if self.measured == old {
                None
            } else {
                Some(self.measured)
            },
        }
    }

    /// Steps a trigger without states by a frame, and says whether it is true: docs/DEFINITIONS.md,
    /// "Triggers over frames".
    ///
    /// The slices are those of `step`. On a reset all hits become 0. State and measured number
    /// stay.
    pub fn truth(
        &mut self,
        text: &TriggerText,
        orders: &[u32],
        pauses: &[u32],
        truths: &[bool],
        lefts: &[u32],
    ) -> bool
        requires orders { orders.now ≡ orders_of (trigger_contents text.now) }
        requires pauses { pauses.now ≡ pauses_of (trigger_contents text.now) }
        requires truths { length truths.now ≡ trigger_hits (trigger_contents text.now) }
        requires lefts { length lefts.now ≡ trigger_hits (trigger_contents text.now) }
        requires hits { length self.old.hits ≡ trigger_hits (trigger_contents text.now) }

        ensures truth { result ≡ truth (trigger_contents text.now) truths.now lefts.now self.old.hits }
        ensures kept { self.new ≡ record self.old {
          hits = hits_after_truth (trigger_contents text.now) truths.now lefts.now self.old.hits;
        } }
        ensures count { length self.new.hits ≡ length self.old.hits }
    {
        let reads = Reads {
            orders,
            pauses,
            truths,
            lefts,
        };
        let now = step_groups(text, &reads, &mut self.hits);
        if now.reset {
            self.hits.fill(0);
        }
        now.valid
    }

    /// The state as an achievement.
    pub fn state(&self) -> State
        ensures { result ≡ self.now.state }
    {
        self.state
    }

    /// The measured number.
    pub fn measured(&self) -> u32
        ensures { result ≡ self.now.measured }
    {
        self.measured
    }

    /// The hits of the conditions of all groups, the core first.
    pub fn hits(&self) -> &[u32]
        ensures { result.now ≡ self.now.hits }
    {
        &self.hits
    }

    /// The hits of the conditions of all groups, the core first, to be changed. State and measured
    /// number stay.
    pub fn hits_mut(&mut self) -> &mut [u32]
        ensures* writes_back { sem 𝓛 (LendsHits self.entry result) }
        ensures hits { result.now ≡ self.old.hits }
    {
        self.hits.as_mut_slice()
    }

    /// Takes back what a progress file keeps: docs/DEFINITIONS.md, "Progress file". `hits` has four
    /// little-endian bytes for each condition.
    pub fn put_back(&mut self, state: State, measured: u32, hits: &[u8])
        requires { length hits.now ≡ 4 * length self.old.hits }
        ensures { self.new ≡ record {
          state = state;
          measured = measured;
          hits = words_at hits.now 0 (length self.old.hits);
        } }
    {
        self.state = state;
        self.measured = measured;
        read_words(&mut self.hits, hits, 0);
    }

    /// Brings the trigger to its start: it waits, and all its numbers are 0.
    pub fn clear(&mut self)
        ensures { self.new ≡ record {
          state = Waiting;
          measured = 0;
          hits = cleared self.old.hits;
        } }
    {
        self.state = State::Waiting;
        self.measured = 0;
        self.hits.fill(0);
    }
}

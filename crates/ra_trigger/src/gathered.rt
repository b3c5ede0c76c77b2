ghost use Rattle.std.specs.Prelude.{◌≡◌};
ghost use Rattle.std.specs.List.{list_any};
ghost use Rattle.ra_condition.specs.Flags.{is_trigger};
ghost use Rattle.ra_condition.specs.Contents.{group_contents, trigger_contents, groups_of};
ghost use Rattle.ra_trigger.specs.Steps.{has_trigger};

use crate::verdict::Verdict;
use ra_condition::{Group, TriggerText};
use ra_group::{Outcome, larger};

/// What the core group says, and what the alt groups so far say together.
#[derive(Clone, Copy)]
pub struct Gathered {
    /// What the core group says.
    pub core: Outcome,
    /// Some group resets.
    pub reset: bool,
    /// Some group takes a number from hits.
    pub from_hits: bool,
    /// The greatest number of a group.
    pub measured: Option<u32>,
    /// There are alt groups.
    pub alts: bool,
    /// Some alt group is valid.
    pub some_valid: bool,
    /// Some alt group is primed.
    pub some_primed: bool,
    /// All alt groups are paused.
    pub all_paused: bool,
}

impl Gathered {
    ghost use Rattle.std.specs.Prelude.{◌≡◌, [], ◌∷◌, ◌++◌};
    ghost use Rattle.ra_condition.specs.Contents.{trigger_contents, groups_of};
    ghost use Rattle.ra_trigger.specs.Steps.{has_trigger};
    ghost use Rattle.ra_trigger.specs.Gathering.{gathered_of, added, verdict_by};

    /// The core group alone.
    pub fn new(core: Outcome) -> Self
        ensures { result ≡ gathered_of core [] }
    {
        Gathered {
            core,
            reset: core.reset,
            from_hits: core.from_hits,
            measured: core.measured,
            alts: false,
            some_valid: false,
            some_primed: false,
            all_paused: true,
        }
    }

    /// One alt group more.
    pub fn add(&mut self, alt: &Outcome)
        ensures { self.new ≡ added alt.now self.old }
    {
        self.reset |= alt.reset;
        self.from_hits |= alt.from_hits;
        self.measured = larger(self.measured, alt.measured);
        self.alts = true;
        self.some_valid |= alt.valid;
        self.some_primed |= alt.primed;
        self.all_paused &= alt.paused;
    }

    /// What all groups of the trigger say together. Its conditions are looked at only where all else
    /// primes it.
    pub fn verdict(&self, text: &TriggerText) -> Verdict
        ensures { result ≡ verdict_by (has_trigger (groups_of (trigger_contents text.now))) self.now }
    {
        let some_valid = !self.alts || self.some_valid;
        let some_primed = !self.alts || self.some_primed;
        Verdict {
            reset: self.reset,
            valid: !self.reset && self.core.valid && some_valid,
            paused: self.core.paused || self.alts && self.all_paused,
            primed: !self.reset && self.core.primed && some_primed && has_trigger(text),
            from_hits: self.from_hits,
            measured: self.measured,
        }
    }
}

// Whether some condition of the trigger is a Trigger.
#[inline(never)]
fn has_trigger(text: &TriggerText) -> bool
    ensures { result ≡ has_trigger (groups_of (trigger_contents text.now)) }
{
    let mut found = includes_trigger(&text.core);
    for alt in &text.alts {
        found = found || includes_trigger(alt);
    }
    found
}

// Whether some condition of the group is a Trigger.
fn includes_trigger(group: &Group) -> bool
    ensures { result ≡ list_any (λ c. is_trigger c.flag) (group_contents group.now) }
{
    group
        .conditions
        .iter()
        .any(|condition| condition.flag.is_trigger())
}

ghost use Rattle.std.specs.Prelude.{◌≡◌, ◌^◌, if◌then◌else◌, true, None};
ghost use Rattle.ra_condition.specs.Flags.{hands_on};
ghost use Rattle.ra_group.specs.Bounds.{AddWithin};
ghost use Rattle.ra_group.specs.Equations.{settled, seen_after};
ghost use Rattle.ra_group.specs.Tallies.{IsPlain, noted, no_tally};

use crate::equations::more_hits;
use crate::form::Form;
use crate::settled::Settled;
use crate::tally::Tally;
use ra_condition::{Condition, Flag};

/// What a pass over a group carries from condition to condition.
#[derive(Drop)]
pub struct Pass {
    /// What the group is stepped in.
    pub form: Form,
    /// What the next condition sees before it in its chain.
    pub before: Option<Settled>,
    /// What the conditions visited so far say together.
    pub tally: Tally,
}

impl Pass {
    /// Before the first condition.
    pub fn new(form: Form) -> Self
        ensures form { result.form ≡ form }
        ensures before { result.before ≡ None }
        ensures tally { result.tally ≡ no_tally }
    {
        Pass {
            form,
            before: None,
            tally: Tally::new(),
        }
    }

    /// Visits one condition more as `visit_any` does. Most are plain ones without a target, and alone.
    // The inner loop of most groups: what is seldom stands in `visit_any`.
    pub fn visit(&mut self, condition: &Condition, truth: bool, left: u32, hits: u32) -> u32
        requires { AddWithin (2 ^ 65) self.old.before }
        ensures carries { self.new.before ≡ seen_after condition.now
            (settled condition.now truth hits self.old.before) self.old.before }
        ensures tallies { self.new.tally ≡ noted self.old.form condition.now
            (settled condition.now truth hits self.old.before) left self.old.tally }
        ensures hits { result ≡ (if hands_on condition.now.flag then hits
            else (settled condition.now truth hits self.old.before).hit) }
        ensures form { self.new.form ≡ self.old.form }
    {
        if self.before.is_none() && is_plain(condition) {
            self.tally.want(truth);
            more_hits(truth, hits)
        } else if condition.flag.hands_on() {
            hits
        } else {
            self.visit_any(condition, truth, left, hits)
        }
    }

    /// Visits one condition more, and gives its hits after the frame. Those of a condition that only
    /// hands a value on stay.
    #[inline(never)]
    pub fn visit_any(&mut self, condition: &Condition, truth: bool, left: u32, hits: u32) -> u32
        requires { AddWithin (2 ^ 65) self.old.before }
        ensures carries { self.new.before ≡ seen_after condition.now
            (settled condition.now truth hits self.old.before) self.old.before }
        ensures tallies { self.new.tally ≡ noted self.old.form condition.now
            (settled condition.now truth hits self.old.before) left self.old.tally }
        ensures hits { result ≡ (if hands_on condition.now.flag then hits
            else (settled condition.now truth hits self.old.before).hit) }
        ensures form { self.new.form ≡ self.old.form }
    {
        if condition.flag.hands_on() {
            return hits;
        }
        let settled = Settled::of(condition, truth, hits, self.before);
        if condition.flag.combines() {
            self.before = Some(settled);
        } else {
            self.tally.note(self.form, condition, &settled, left);
            self.before = None;
        }
        settled.hit
    }
}

/// Whether a condition is a plain one without a target.
pub fn is_plain(condition: &Condition) -> bool
    ensures { result ≡ true → IsPlain condition.now }
{
    matches!(condition.flag, Flag::Plain) & (condition.target == 0)
}

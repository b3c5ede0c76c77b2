//! What the conditions visited so far say together.

ghost use Rattle.std.specs.Prelude.{◌≡◌, ◌&&◌};
ghost use Rattle.ra_condition.specs.Contents.{group_contents};
ghost use Rattle.ra_group.specs.Counting.{counts_hits};
ghost use Rattle.ra_group.specs.Outcome.{from_total, number_of, larger, option_if};
ghost use Rattle.ra_group.specs.Tallies.{noted, no_tally, outcome_by};

use crate::form::Form;
use crate::outcome::Outcome;
use crate::settled::Settled;
use ra_condition::{Condition, Flag, Group};
use ra_operand::Op;

/// What the conditions visited so far say together.
#[derive(Drop)]
pub struct Tally {
    /// Some PauseIf is valid.
    pub paused: bool,
    /// Some ResetIf is valid.
    pub reset: bool,
    /// Each condition that has to be valid for the group to be valid is.
    pub valid: bool,
    /// Each condition that has to be valid for the group to be primed is.
    pub primed: bool,
    /// Each MeasuredIf is valid.
    pub counting: bool,
    /// The greatest measured number, if there is one.
    pub greatest: Option<u32>,
    /// Some measured number is taken from hits.
    pub from_hits: bool,
}

impl Tally {
    /// Before the first condition.
    pub fn new() -> Self
        ensures { result ≡ no_tally }
    {
        Tally {
            paused: false,
            reset: false,
            valid: true,
            primed: true,
            counting: true,
            greatest: None,
            from_hits: false,
        }
    }

    /// Takes one condition more.
    #[inline(always)]
    pub fn note(&mut self, form: Form, condition: &Condition, settled: &Settled, left: u32)
        ensures { self.new ≡ noted form condition.now settled.now left self.old }
    {
        let valid = settled.valid;
        match condition.flag {
            Flag::Plain => self.want(valid),
            Flag::PauseIf => self.paused |= valid,
            Flag::ResetIf => self.reset |= valid,
            Flag::TriggerIf => self.valid &= valid,
            Flag::MeasuredIf => {
                self.want(valid);
                self.counting &= valid;
            }
            Flag::Measured | Flag::MeasuredPercent => {
                self.want(valid);
                let number = number(form, condition, settled.total, left);
                self.greatest = larger(self.greatest, Some(number));
                self.from_hits |= is_from_total(form, condition);
            }
            // These combine, and say nothing by themselves.
            Flag::AddSource | Flag::SubSource | Flag::AddHits | Flag::SubHits | Flag::AndNext => {}
            Flag::OrNext | Flag::ResetNextIf | Flag::AddAddress | Flag::Remember => {}
        }
    }

    /// Takes a condition that has to be valid for the group to be valid and to be primed.
    pub fn want(&mut self, valid: bool)
        ensures { self.new ≡ record self.old {
          valid = self.old.valid && valid;
          primed = self.old.primed && valid;
        } }
    {
        self.valid &= valid;
        self.primed &= valid;
    }

    /// The outcome of the group, once all conditions are noted.
    pub fn outcome(&self) -> Outcome
        ensures { result ≡ outcome_by self.now }
    {
        let counts = !self.paused && !self.reset;
        Outcome {
            paused: self.paused,
            valid: counts && self.valid,
            primed: counts && self.primed,
            reset: !self.paused && self.reset,
            measured: if self.paused {
                None
            } else {
                counted(self.counting, self.greatest)
            },
            from_hits: self.from_hits,
        }
    }
}

/// Whether some measured number of the group comes from hits, whatever the frame:
/// docs/DEFINITIONS.md, "Group outcome".
pub fn counts_hits(group: &Group, form: Form) -> bool
    ensures { result ≡ counts_hits form (group_contents group.now) }
{
    group.conditions.iter().any(|condition| condition.flag.is_measured()
        && is_from_total(form, condition))
}

// Whether a measured condition takes its number from its total.
fn is_from_total(form: Form, condition: &Condition) -> bool
    ensures { result ≡ from_total form condition.now }
{
    match form {
        Form::InTrigger => condition.target != 0,
        Form::InValue => !matches!(condition.op, Op::Bare),
    }
}

// The number of a measured condition.
fn number(form: Form, condition: &Condition, total: u32, left: u32) -> u32
    ensures { result ≡ number_of form condition.now total left }
{
    if !is_from_total(form, condition) {
        left
    } else if condition.target == 0 {
        total
    } else {
        total.min(condition.target)
    }
}

/// The larger of two numbers, of those that are there: docs/DEFINITIONS.md, "Group outcome".
pub fn larger(a: Option<u32>, b: Option<u32>) -> Option<u32>
    ensures { result ≡ larger a b }
{
    match (a, b) {
        (Some(a), Some(b)) => Some(a.max(b)),
        (Some(a), None) => Some(a),
        (None, b) => b,
    }
}

// The greatest number, or 0 where a MeasuredIf is not valid.
fn counted(counting: bool, greatest: Option<u32>) -> Option<u32>
    ensures { result ≡ option_if counting greatest }
{
    match greatest {
        Some(number) => Some(if counting { number } else { 0 }),
        None => None,
    }
}

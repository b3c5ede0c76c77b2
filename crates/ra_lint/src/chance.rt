ghost use Rattle.std.specs.Prelude.{◌≡◌, ◌&&◌, not};
ghost use Rattle.ra_condition.specs.Flags.{is_required};
ghost use Rattle.ra_lint.specs.Chances.{chance, may_add, may_be_valid, may_meet, may_reach, never_reached, next_chance};

use ra_condition::{Condition, Flag};

/// What a condition may ever come to, from the plain opening on: docs/DEFINITIONS.md, "Chances".
#[derive(Clone, Copy, Debug, PartialEq, Eq)]
pub(crate) struct Chance {
    pub flag: Flag,
    /// It may be met.
    pub met: bool,
    /// Its chain may add hits.
    pub added: bool,
    /// It may be valid.
    pub valid: bool,
}

impl Chance {
    /// From whether the comparison may hold, and from what stands before the condition in its chain.
    pub fn of(condition: &Condition, may_hold: bool, before: Option<Chance>) -> Chance
        ensures { result ≡ chance condition.now may_hold before }
    {
        let met = is_met(before, may_hold);
        let added = is_added(before);
        let valid = if condition.flag.combines() || condition.target == 0 {
            met
        } else {
            is_reached(condition.target, met, added)
        };
        Chance {
            flag: condition.flag,
            met,
            added,
            valid,
        }
    }

    /// The condition has a target that it never reaches.
    pub fn never_reaches(self, target: u32) -> bool
        ensures { result ≡ never_reached target self }
    {
        target != 0 && !is_reached(target, self.met, self.added)
    }

    /// A valid group needs the condition, and it is never valid.
    pub fn is_lost(self) -> bool
        ensures { result ≡ (is_required self.flag && not self.valid) }
    {
        self.flag.is_required() && !self.valid
    }

    /// What the condition after this one sees before it, as in the equations of a frame.
    pub fn seen_next(self, condition: &Condition, before: Option<Chance>) -> Option<Chance>
        ensures { result ≡ next_chance condition.now self before }
    {
        if condition.flag.hands_on() {
            before
        } else if condition.flag.combines() {
            Some(self)
        } else {
            None
        }
    }
}

// Whether the condition may be met, by what stands before it.
fn is_met(before: Option<Chance>, may_hold: bool) -> bool
    ensures { result ≡ may_meet before may_hold }
{
    let Some(before) = before else {
        return may_hold;
    };
    match before.flag {
        Flag::AndNext => may_hold && before.valid,
        Flag::OrNext => may_hold || before.valid,
        _ => may_hold,
    }
}

// Whether hits may be added, by what stands before the condition.
fn is_added(before: Option<Chance>) -> bool
    ensures { result ≡ may_add before }
{
    let Some(before) = before else {
        return false;
    };
    match before.flag {
        Flag::AddHits => before.added || before.met,
        _ => before.added,
    }
}

// Whether a target may be reached.
fn is_reached(target: u32, met: bool, added: bool) -> bool
    ensures { result ≡ may_reach target met added }
{
    target != 0 && (met || added)
}

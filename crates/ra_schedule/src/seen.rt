//! At whose hits nothing looks.

ghost use Rattle.std.specs.Prelude.{◌≡◌, ◌&&◌};
ghost use Rattle.ra_schedule.specs.Groups as spec;
ghost use Rattle.ra_schedule.specs.Groups.{hands_hits};
ghost use Rattle.ra_condition.specs.Flags.{is_measured};
ghost use Rattle.ra_group.specs.Outcome.{from_total};

use ra_condition::{Condition, Flag};
use ra_group::Form;
use ra_operand::Op;

/// Whether nothing looks at the hits of a condition but a save: docs/INTERNALS.md, "Rest".
pub fn is_free(form: Form, condition: &Condition) -> bool
    ensures { result ≡ spec.is_free form condition.now }
{
    condition.target == 0 && !hands_hits(condition.flag) && !measures_hits(form, condition)
}

// Whether the hits of the condition count for the next one of its chain.
fn hands_hits(flag: Flag) -> bool
    ensures { result ≡ hands_hits flag }
{
    matches!(flag, Flag::AddHits | Flag::SubHits)
}

// Whether a condition without a target offers its hits as a number.
fn measures_hits(form: Form, condition: &Condition) -> bool
    requires { condition.now.target ≡ 0 }
    ensures { result ≡ (is_measured condition.now.flag && from_total form condition.now) }
{
    condition.flag.is_measured()
        && matches!(form, Form::InValue)
        && !matches!(condition.op, Op::Bare)
}

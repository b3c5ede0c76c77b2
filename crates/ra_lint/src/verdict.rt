ghost use Rattle.std.specs.Prelude.{◌≡◌, not};
ghost use Rattle.ra_lint.specs.Verdicts.{all_meet, are_one, is_reflexive, meet, some_meet};
ghost use Rattle.ra_lint.specs.Judging.{verdict_by};

use crate::range::Range;
use ra_operand::Op;

/// What is known of a comparison: docs/DEFINITIONS.md, "Comparisons that never or always hold".
#[derive(Clone, Copy, Debug, PartialEq, Eq)]
pub(crate) struct Verdict {
    pub never: bool,
    pub always: bool,
}

impl Verdict {
    /// By the ranges of both sides, and whether they are one tree.
    pub fn of(op: Op, same: bool, left: Range, right: Range) -> Verdict
        ensures { result ≡ verdict_by op same left right }
    {
        if same {
            return Verdict {
                never: !holds_of_itself(op),
                always: holds_of_itself(op),
            };
        }
        Verdict {
            never: !some_hold(op, left, right),
            always: all_hold(op, left, right),
        }
    }
}

// Whether the comparison holds of every number and itself.
fn holds_of_itself(op: Op) -> bool
    ensures { result ≡ is_reflexive op }
{
    matches!(op, Op::Bare | Op::Eq | Op::Le | Op::Ge)
}

// Whether some two numbers of the ranges meet the comparison.
fn some_hold(op: Op, left: Range, right: Range) -> bool
    ensures { result ≡ some_meet op left right }
{
    match op {
        Op::Bare => true,
        Op::Eq => have_common(left, right),
        Op::Ne => !have_one(left, right),
        Op::Lt => left.least < right.greatest,
        Op::Le => left.least <= right.greatest,
        Op::Gt => right.least < left.greatest,
        Op::Ge => right.least <= left.greatest,
        _ => false,
    }
}

// Whether all two numbers of the ranges meet the comparison.
fn all_hold(op: Op, left: Range, right: Range) -> bool
    ensures { result ≡ all_meet op left right }
{
    match op {
        Op::Bare => true,
        Op::Eq => have_one(left, right),
        Op::Ne => !have_common(left, right),
        Op::Lt => left.greatest < right.least,
        Op::Le => left.greatest <= right.least,
        Op::Gt => right.greatest < left.least,
        Op::Ge => right.greatest <= left.least,
        _ => false,
    }
}

// Whether the ranges have a number in common.
fn have_common(left: Range, right: Range) -> bool
    ensures { result ≡ meet left right }
{
    left.least.max(right.least) <= left.greatest.min(right.greatest)
}

// Whether both ranges are one and the same number.
fn have_one(left: Range, right: Range) -> bool
    ensures { result ≡ are_one left right }
{
    left.least == left.greatest && (right.least == right.greatest && left.least == right.least)
}

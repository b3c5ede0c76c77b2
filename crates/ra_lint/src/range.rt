ghost use Rattle.std.specs.Prelude.{◌≡◌, ◌≤◌, IsTrue};
ghost use Rattle.ra_operand.specs.declared.op.Op.TheVariants.{Mul, Div, Rem, Add, Sub};
ghost use Rattle.ra_operand.specs.Operators.{is_arithmetic};
ghost use Rattle.ra_operand.specs.Views.{transformed, view_of};
ghost use Rattle.ra_lint.specs.Ranges.{any_number, is_single, joined_range, operator_range, range, view_range};
ghost use Rattle.ra_lint.specs.Ordered.{IsOrdered};

use ra_operand::{Kind, Op, Size, compute, transform, view};

/// The least and the greatest number that a tree may have: docs/DEFINITIONS.md, "Ranges".
#[derive(Clone, Copy, Debug, PartialEq, Eq)]
pub(crate) struct Range {
    pub least: u32,
    pub greatest: u32,
}

impl Range {
    /// All numbers of 32 bits.
    pub fn any() -> Range
        ensures { result ≡ any_number }
    {
        Range {
            least: 0,
            greatest: u32::MAX,
        }
    }

    /// One number.
    pub fn only(number: u32) -> Range
        ensures { result ≡ range number number }
    {
        Range {
            least: number,
            greatest: number,
        }
    }

    /// The numbers of a view. A size shows most where all bits are ones, and an inverted view least there.
    pub fn of_view(kind: Kind, size: Size) -> Range
        ensures { result ≡ view_range kind size }
    {
        let most = view(size, u32::MAX);
        match kind {
            Kind::Inverted => Range {
                least: transform(kind, size, most),
                greatest: transform(kind, size, 0),
            },
            _ => Range {
                least: 0,
                greatest: transform(kind, size, most),
            },
        }
    }

    /// The numbers of an operator over those of two ranges.
    pub fn joined(op: Op, left: Range, right: Range) -> Range
        requires arithmetic { IsTrue (is_arithmetic op) }
        requires left { IsOrdered left }
        requires right { IsOrdered right }
        ensures range { result ≡ operator_range op left right }
        ensures ordered { IsOrdered result }
    {
        if left.is_single() && right.is_single() {
            return Range::only(compute(op, left.least, right.least));
        }
        match op {
            Op::Add => sum(left, right),
            Op::Sub => difference(left, right),
            Op::Mul => product(left, right),
            Op::Div => quotient(left, right),
            Op::Rem => rest(left, right),
            Op::And => Range {
                least: 0,
                greatest: left.greatest.min(right.greatest),
            },
            _ => Range::any(),
        }
    }

    // One number.
    fn is_single(self) -> bool
        ensures { result ≡ is_single self }
    {
        self.least == self.greatest
    }
}

// A sum does not wrap where the greatest one does not.
fn sum(left: Range, right: Range) -> Range
    requires left { IsOrdered left }
    requires right { IsOrdered right }
    ensures { result ≡ joined_range Add left right }
{
    match left.greatest.checked_add(right.greatest) {
        Some(greatest) => Range {
            least: left.least + right.least,
            greatest,
        },
        None => Range::any(),
    }
}

// A difference does not wrap where the least one does not.
fn difference(left: Range, right: Range) -> Range
    requires left { IsOrdered left }
    requires right { IsOrdered right }
    ensures { result ≡ joined_range Sub left right }
{
    if right.greatest <= left.least {
        Range {
            least: left.least - right.greatest,
            greatest: left.greatest - right.least,
        }
    } else {
        Range::any()
    }
}

// A product does not wrap where the greatest one does not.
fn product(left: Range, right: Range) -> Range
    requires left { IsOrdered left }
    requires right { IsOrdered right }
    ensures { result ≡ joined_range Mul left right }
{
    match left.greatest.checked_mul(right.greatest) {
        Some(greatest) => Range {
            least: left.least * right.least,
            greatest,
        },
        None => Range::any(),
    }
}

// A quotient is bounded where no divisor is 0.
fn quotient(left: Range, right: Range) -> Range
    requires { IsOrdered right }
    ensures { result ≡ joined_range Div left right }
{
    if right.least == 0 {
        return Range::any();
    }
    Range {
        least: left.least / right.greatest,
        greatest: left.greatest / right.least,
    }
}

// A remainder is below its divisor where no divisor is 0.
fn rest(left: Range, right: Range) -> Range
    requires { IsOrdered right }
    ensures { result ≡ joined_range Rem left right }
{
    if right.least == 0 {
        return Range::any();
    }
    Range {
        least: 0,
        greatest: left.greatest.min(right.greatest - 1),
    }
}

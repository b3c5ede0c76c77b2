//! What the operators do.

ghost use Rattle.std.specs.Prelude.{◌≡◌, IsTrue, false};
ghost use Rattle.ra_operand.specs.Operators.{compared, computed, is_arithmetic};

use crate::op::Op;

/// Joins two numbers by one of the seven arithmetic operators: docs/DEFINITIONS.md, "Operators".
pub fn compute(op: Op, x: u32, y: u32) -> u32
    requires { IsTrue (is_arithmetic op) }
    ensures { result ≡ computed op x y }
{
    match op {
        Op::Mul => x.wrapping_mul(y),
        Op::Div => x.checked_div(y).unwrap_or(0),
        Op::And => x & y,
        Op::Xor => x ^ y,
        Op::Rem => x.checked_rem(y).unwrap_or(0),
        Op::Add => x.wrapping_add(y),
        Op::Sub => x.wrapping_sub(y),
        _ => 0,
    }
}

/// Compares two numbers without sign: docs/DEFINITIONS.md, "Operators".
///
/// `Bare` is true. The seven arithmetic operators compare nothing.
pub fn compare(op: Op, x: u32, y: u32) -> bool
    requires { is_arithmetic op ≡ false }
    ensures { result ≡ compared op x y }
{
    match op {
        Op::Bare => true,
        Op::Eq => x == y,
        Op::Ne => x != y,
        Op::Lt => x < y,
        Op::Le => x <= y,
        Op::Gt => x > y,
        Op::Ge => x >= y,
        _ => false,
    }
}

/// Whether a comparison of two numbers holds: docs/DEFINITIONS.md, "Operators".
///
/// The seven arithmetic operators compare nothing, so it does not hold by them.
pub fn holds(op: Op, x: u32, y: u32) -> bool
    ensures { result ≡ compared op x y }
{
    // Most conditions compare by `=`.
    if matches!(op, Op::Eq) {
        return x == y;
    }
    match op {
        Op::Mul | Op::Div | Op::And | Op::Xor | Op::Rem | Op::Add | Op::Sub => false,
        _ => compare(op, x, y),
    }
}

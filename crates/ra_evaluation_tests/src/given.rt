//! Conditions over numbers that do not count.

ghost use Rattle.std.specs.Prelude.{◌≡◌};
ghost use Rattle.ra_operand.specs.declared.operand.Operand.TheVariants.{Const};

use ra_condition::{Condition, Flag};
use ra_operand::{Op, Operand};

/// A condition of which only the flag, the operator and the target count.
pub(crate) fn with(flag: Flag, op: Op, target: u32) -> Condition
    ensures { result ≡ record { flag = flag; left = Const 0; op = op; right = Const 0; target = target } }
{
    Condition {
        flag,
        left: Operand::Const(0),
        op,
        right: Operand::Const(0),
        target,
    }
}

ghost use Rattle.std.specs.Prelude.{◌≡◌};

use ra_operand::{Op, Operand};

/// What follows the left operand of a condition, and is kept.
#[derive(Clone, Copy, Debug, PartialEq, Eq)]
pub struct Tail {
    /// The operator, `Bare` where nothing is kept.
    pub op: Op,
    /// The right operand.
    pub right: Operand,
    /// The hit target; 0 is no target.
    pub target: u32,
}

impl Tail {
    ghost use Rattle.ra_condition.specs.Grammar.{bare};

    // Nothing, or what is ignored.
    pub fn nothing() -> Tail
        ensures { result ≡ bare }
    {
        Tail {
            op: Op::Bare,
            right: Operand::Const(0),
            target: 0,
        }
    }
}

//! Numbers in place of conditions, by which equal ones are found.

ghost use Rattle.std.specs.Prelude.{◌≡◌};
ghost use Rattle.ra_operand.specs.Same.{number_of_kind, number_of_op, number_of_size};
ghost use Rattle.ra_notices.specs.Keys.{key_of, numbers_of};
ghost use Rattle.ra_notices.specs.Notices.{number_of_flag};

use ra_condition::{Condition, Flag};
use ra_operand::{Kind, Op, Operand, Size};

/// The numbers of a condition. Two are the same exactly where the conditions are.
pub(crate) fn key_of(condition: &Condition) -> [u32; 11]
    ensures { result ≡ key_of condition.now }
{
    let [a, b, c, d] = numbers_of(condition.left);
    let [e, f, g, h] = numbers_of(condition.right);
    let flag = number_of_flag(condition.flag);
    let op = number_of_op(condition.op);
    [flag, a, b, c, d, op, e, f, g, h, condition.target]
}

// The numbers of an operand.
fn numbers_of(operand: Operand) -> [u32; 4]
    ensures { result ≡ numbers_of operand }
{
    match operand {
        Operand::Cell(kind, size, address) => [
            0,
            number_of_kind(kind),
            number_of_size(size),
            address,
        ],
        Operand::Const(number) => [1, 0, 0, number],
        Operand::Recall => [2, 0, 0, 0],
    }
}

// The number of a flag.
fn number_of_flag(flag: Flag) -> u32
    ensures { result ≡ number_of_flag flag }
{
    match flag {
        Flag::Plain => 0,
        Flag::PauseIf => 1,
        Flag::ResetIf => 2,
        Flag::AddSource => 3,
        Flag::SubSource => 4,
        Flag::AddHits => 5,
        Flag::SubHits => 6,
        Flag::AndNext => 7,
        Flag::OrNext => 8,
        Flag::Measured => 9,
        Flag::MeasuredPercent => 10,
        Flag::MeasuredIf => 11,
        Flag::AddAddress => 12,
        Flag::TriggerIf => 13,
        Flag::ResetNextIf => 14,
        Flag::Remember => 15,
    }
}

// The number of a kind.
fn number_of_kind(kind: Kind) -> u32
    ensures { result ≡ number_of_kind kind }
{
    match kind {
        Kind::Mem => 0,
        Kind::Delta => 1,
        Kind::Prior => 2,
        Kind::Bcd => 3,
        Kind::Inverted => 4,
    }
}

// The number of a size.
fn number_of_size(size: Size) -> u32
    ensures { result ≡ number_of_size size }
{
    match size {
        Size::Bit0 => 0,
        Size::Bit1 => 1,
        Size::Bit2 => 2,
        Size::Bit3 => 3,
        Size::Bit4 => 4,
        Size::Bit5 => 5,
        Size::Bit6 => 6,
        Size::Bit7 => 7,
        Size::Low => 8,
        Size::High => 9,
        Size::Byte => 10,
        Size::Two => 11,
        Size::Three => 12,
        Size::Four => 13,
        Size::Count => 14,
        Size::TwoBig => 15,
        Size::ThreeBig => 16,
        Size::FourBig => 17,
    }
}

// The number of an operator.
fn number_of_op(op: Op) -> u32
    ensures { result ≡ number_of_op op }
{
    match op {
        Op::Bare => 0,
        Op::Eq => 1,
        Op::Ne => 2,
        Op::Lt => 3,
        Op::Le => 4,
        Op::Gt => 5,
        Op::Ge => 6,
        Op::Mul => 7,
        Op::Div => 8,
        Op::And => 9,
        Op::Xor => 10,
        Op::Rem => 11,
        Op::Add => 12,
        Op::Sub => 13,
    }
}

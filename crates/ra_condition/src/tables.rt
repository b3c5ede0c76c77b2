//! The bytes of flags and operators: docs/DEFINITIONS.md, "Flags" and "Conditions".

ghost use Rattle.std.specs.Prelude.{◌≡◌};
ghost use Rattle.ra_condition.specs.Grammar.{flags, operators, stands_bare};
ghost use Rattle.ra_text.specs.Table.{lookup};

use crate::flag::Flag;
use crate::setting::Setting;
use ra_operand::Op;

// The flag of a letter, in either case.
#[inline(always)]
pub fn flag_of(byte: u8) -> Option<Flag>
    ensures { result ≡ lookup flags byte }
{
    match byte {
        b'p' | b'P' => Some(Flag::PauseIf),
        b'r' | b'R' => Some(Flag::ResetIf),
        b'a' | b'A' => Some(Flag::AddSource),
        b'b' | b'B' => Some(Flag::SubSource),
        b'c' | b'C' => Some(Flag::AddHits),
        b'd' | b'D' => Some(Flag::SubHits),
        b'n' | b'N' => Some(Flag::AndNext),
        b'o' | b'O' => Some(Flag::OrNext),
        b'm' | b'M' => Some(Flag::Measured),
        b'g' | b'G' => Some(Flag::MeasuredPercent),
        b'q' | b'Q' => Some(Flag::MeasuredIf),
        b'i' | b'I' => Some(Flag::AddAddress),
        b't' | b'T' => Some(Flag::TriggerIf),
        b'z' | b'Z' => Some(Flag::ResetNextIf),
        b'k' | b'K' => Some(Flag::Remember),
        _ => None,
    }
}

// The arithmetic operator of a byte.
pub fn operator_of(byte: u8) -> Option<Op>
    ensures { result ≡ lookup operators byte }
{
    match byte {
        b'*' => Some(Op::Mul),
        b'/' => Some(Op::Div),
        b'&' => Some(Op::And),
        b'^' => Some(Op::Xor),
        b'%' => Some(Op::Rem),
        b'+' => Some(Op::Add),
        b'-' => Some(Op::Sub),
        _ => None,
    }
}

// Whether a condition of the flag may stand without an operator, though it hands no value on.
pub fn may_stand_bare(setting: Setting, flag: Flag) -> bool
    ensures { result ≡ stands_bare setting flag }
{
    match setting {
        Setting::InTrigger => false,
        Setting::InValue => flag.is_measured(),
    }
}

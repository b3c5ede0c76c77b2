//! The bytes that begin operands, kinds and sizes: docs/DEFINITIONS.md, "Operands".

ghost use Rattle.std.specs.Prelude.{◌≡◌};
ghost use Rattle.ra_operand.specs.Grammar.{kinds, sizes};
ghost use Rattle.ra_operand.specs.Reading.{operand_starts};
ghost use Rattle.ra_text.specs.Table.{is_in, lookup, only};

use crate::kind::Kind;
use crate::size::Size;

/// Whether an operand may begin with the byte: docs/DEFINITIONS.md, "Operands".
pub fn begins_operand(byte: u8) -> bool
    ensures { result ≡ is_in (only operand_starts) byte }
{
    match byte {
        b'{' | b'~' | b'+' | b'-' | b'0'..=b'9' => true,
        b'd' | b'D' | b'p' | b'P' | b'b' | b'B' => true,
        b'v' | b'V' | b'h' | b'H' => true,
        _ => false,
    }
}

/// The kind of a prefix, in either case: docs/DEFINITIONS.md, "Operands". `None` for any other
/// byte.
#[inline(always)]
pub fn kind_of(byte: u8) -> Option<Kind>
    ensures { result ≡ lookup kinds byte }
{
    match byte {
        b'd' | b'D' => Some(Kind::Delta),
        b'p' | b'P' => Some(Kind::Prior),
        b'b' | b'B' => Some(Kind::Bcd),
        b'~' => Some(Kind::Inverted),
        _ => None,
    }
}

/// The size of a letter, in either case, or of the blank.
#[inline(always)]
pub fn size_of(byte: u8) -> Option<Size>
    ensures { result ≡ lookup sizes byte }
{
    match byte {
        b'm' | b'M' => Some(Size::Bit0),
        b'n' | b'N' => Some(Size::Bit1),
        b'o' | b'O' => Some(Size::Bit2),
        b'p' | b'P' => Some(Size::Bit3),
        b'q' | b'Q' => Some(Size::Bit4),
        b'r' | b'R' => Some(Size::Bit5),
        b's' | b'S' => Some(Size::Bit6),
        b't' | b'T' => Some(Size::Bit7),
        b'l' | b'L' => Some(Size::Low),
        b'u' | b'U' => Some(Size::High),
        b'h' | b'H' => Some(Size::Byte),
        b'k' | b'K' => Some(Size::Count),
        b' ' => Some(Size::Two),
        b'i' | b'I' => Some(Size::TwoBig),
        b'w' | b'W' => Some(Size::Three),
        b'j' | b'J' => Some(Size::ThreeBig),
        b'x' | b'X' => Some(Size::Four),
        b'g' | b'G' => Some(Size::FourBig),
        _ => None,
    }
}

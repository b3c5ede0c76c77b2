//! What sizes view of a number, and what kinds make of the view.

ghost use Rattle.std.specs.Prelude.{◌≡◌, ◌+◌, ◌-◌, ◌*◌, ◌^◌, ◌≤◌};
ghost use Rattle.ra_operand.specs.Views.{as_decimal, bits_of, mask_of, reversed, transformed, view_of, width_of};

use crate::kind::Kind;
use crate::size::Size;

/// How many bytes the cell of a size has, 1, 2 or 4: docs/DEFINITIONS.md, "Sizes".
pub fn width(size: Size) -> u8
    ensures { result ≡ width_of size }
{
    match size {
        Size::Two | Size::TwoBig => 2,
        Size::Three | Size::ThreeBig | Size::Four | Size::FourBig => 4,
        _ => 1,
    }
}

/// The bits of the cell's number that a size views: docs/DEFINITIONS.md, "Sizes".
pub fn mask(size: Size) -> u32
    ensures { result ≡ mask_of size }
{
    match size {
        Size::Bit0 => 0x01,
        Size::Bit1 => 0x02,
        Size::Bit2 => 0x04,
        Size::Bit3 => 0x08,
        Size::Bit4 => 0x10,
        Size::Bit5 => 0x20,
        Size::Bit6 => 0x40,
        Size::Bit7 => 0x80,
        Size::Low => 0x0F,
        Size::High => 0xF0,
        Size::Byte | Size::Count => 0xFF,
        Size::Two | Size::TwoBig => 0xFFFF,
        Size::Three | Size::ThreeBig => 0xFF_FFFF,
        Size::Four | Size::FourBig => 0xFFFF_FFFF,
    }
}

/// The view of a cell's number, which may be any: only the masked bits count.
/// See docs/DEFINITIONS.md, "Sizes".
pub fn view(size: Size, raw: u32) -> u32
    ensures { result ≡ view_of size raw }
{
    let bits = raw & mask(size);
    match size {
        Size::Bit1 => bits / 2,
        Size::Bit2 => bits / 4,
        Size::Bit3 => bits / 8,
        Size::Bit4 | Size::High => bits / 16,
        Size::Bit5 => bits / 32,
        Size::Bit6 => bits / 64,
        Size::Bit7 => bits / 128,
        Size::Count => bits.count_ones(),
        Size::TwoBig => two_reversed(bits),
        Size::ThreeBig => three_reversed(bits),
        Size::FourBig => four_reversed(bits),
        _ => bits,
    }
}

// The lowest two bytes in reverse.
fn two_reversed(number: u32) -> u32
    ensures { result ≡ reversed 2 number }
{
    number % 256 * 256 + number / 256 % 256
}

// The lowest three bytes in reverse.
fn three_reversed(number: u32) -> u32
    ensures { result ≡ reversed 3 number }
{
    number % 256 * 0x1_0000 + two_reversed(number / 256)
}

// The four bytes in reverse.
fn four_reversed(number: u32) -> u32
    ensures { result ≡ reversed 4 number }
{
    number % 256 * 0x100_0000 + three_reversed(number / 256)
}

/// What an operand of the kind makes of a view: docs/DEFINITIONS.md, "Kinds of operands".
///
/// The number may be any: an inverted operand keeps the bits above those of the size.
pub fn transform(kind: Kind, size: Size, x: u32) -> u32
    ensures { result ≡ transformed kind size x }
{
    match kind {
        Kind::Bcd => digits_as_decimal(8, x),
        Kind::Inverted => x ^ lowest_bits(size),
        _ => x,
    }
}

// A one for each bit that a view of the size has.
fn lowest_bits(size: Size) -> u32
    ensures { result ≡ 2 ^ bits_of size - 1 }
{
    match size {
        Size::Low | Size::High => 0x0F,
        Size::Byte | Size::Count => 0xFF,
        Size::Two | Size::TwoBig => 0xFFFF,
        Size::Three | Size::ThreeBig => 0xFF_FFFF,
        Size::Four | Size::FourBig => 0xFFFF_FFFF,
        _ => 1,
    }
}

// The lowest hexadecimal digits, read as decimal ones.
fn digits_as_decimal(digits: u32, x: u32) -> u32
    requires { digits ≤ 8 }
    ensures value { result ≡ as_decimal digits x }
    ensures bound { 9 * result + 15 ≤ 15 * 10 ^ digits }
{
    if digits == 0 {
        0
    } else {
        x % 16 + 10 * digits_as_decimal(digits - 1, x / 16)
    }
}

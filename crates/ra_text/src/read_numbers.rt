//! Numbers at a place of a text: docs/DEFINITIONS.md, "Numbers in text".

ghost use Rattle.std.specs.Prelude.{◌↔◌, ◌≤◌, IfSome, IsSome, Some, drop, length};
ghost use Rattle.ra_text.specs.Number.{BeginsIn, behind_sign, decimal, digits, hex_digits, hexadecimal, signed};
ghost use Rattle.ra_text.specs.Place.{EndsAt};
ghost use Rattle.ra_text.specs.Table.{lookup};

use crate::cursor::Cursor;

/// The decimal number at a place, and the place after its last digit, both in bytes from the
/// start: docs/DEFINITIONS.md, "Numbers in text".
///
/// As many digits are read as stand there, and the number is at most 4294967295. `None` exactly
/// where no digit stands at the place.
pub fn read_decimal(text: &[u8], at: usize) -> Option<(u32, usize)>
    requires { at ≤ length text.now }
    ensures found { IfSome result (λ x. EndsAt decimal text.now at x.1 (Some x.0)) }
    ensures digit { IsSome result ↔ BeginsIn (lookup digits) (drop at text.now) }
{
    let mut cursor = Cursor::new(text, at);
    match cursor.decimal() {
        Ok(number) => Some((number, cursor.place(text))),
        Err(_) => None,
    }
}

/// The decimal number with an optional sign at a place, and the place after its last digit, both
/// in bytes from the start: docs/DEFINITIONS.md, "Numbers in text".
///
/// A negative number is at least -2147483648, and is given as two's complement of 32 bits. `None`
/// exactly where no digit stands at the place, after one optional sign.
pub fn read_signed(text: &[u8], at: usize) -> Option<(u32, usize)>
    requires { at ≤ length text.now }
    ensures found { IfSome result (λ x. EndsAt signed text.now at x.1 (Some x.0)) }
    ensures digit { IsSome result ↔ BeginsIn (lookup digits) (behind_sign (drop at text.now)) }
{
    let mut cursor = Cursor::new(text, at);
    match cursor.signed() {
        Ok(number) => Some((number, cursor.place(text))),
        Err(_) => None,
    }
}

/// The hexadecimal number at a place, and the place after its last digit, both in bytes from the
/// start: docs/DEFINITIONS.md, "Numbers in text".
///
/// The digits are of either case, and the number is at most 4294967295. `None` exactly where no
/// digit stands at the place.
pub fn read_hex(text: &[u8], at: usize) -> Option<(u32, usize)>
    requires { at ≤ length text.now }
    ensures found { IfSome result (λ x. EndsAt hexadecimal text.now at x.1 (Some x.0)) }
    ensures digit { IsSome result ↔ BeginsIn (lookup hex_digits) (drop at text.now) }
{
    let mut cursor = Cursor::new(text, at);
    match cursor.hexadecimal() {
        Ok(number) => Some((number, cursor.place(text))),
        Err(_) => None,
    }
}

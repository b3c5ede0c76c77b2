ghost use Rattle.std.specs.Prelude.{◌≡◌, ◌≤◌, ◌∷◌, ◌++◌, decimal, replicate, IfOk, IfSome, OnOk};
ghost use Rattle.ra_value_format.specs.Formats.{formatted, fixed_text, decimals_text, HasDigits};
ghost use Rattle.std.specs.Fmt.{signed_decimal};

use crate::format::Format;
use crate::texts::{Cents, Hundredths, Mills, Minutes, Score, Seconds, Tenths};
use itoa::Buffer;
use ra_text::OutOfMemory;
use std::alloc::Global;
use std::fmt;
use std::io::Write;

/// The text of a number: docs/DEFINITIONS.md, "Formats".
///
/// `Fixed` has 1 to 3 decimals and `Float` 1 to 6 zeros, as with every format that a name has.
pub fn format_value(alloc: Global, format: Format, value: i32) -> Result<Vec<u8>, OutOfMemory>
    requires { HasDigits format }
    ensures { IfOk result (λ text. text.items ≡ formatted format value) }
{
    let mut text = Vec::new(alloc);
    put_value(&mut text, format, value)?;
    Ok(text)
}

/// Puts the text of a number after another text: docs/DEFINITIONS.md, "Formats".
///
/// The format is as for `format_value`. When memory runs out, a part of it may stand there.
pub fn put_value(out: &mut Vec<u8>, format: Format, value: i32) -> Result<(), OutOfMemory>
    requires { HasDigits format }
    ensures { OnOk result (out.new.items ≡ out.old.items ++ formatted format value) }
{
    let unsigned = value.cast_unsigned();
    match format {
        Format::Value => put_signed(out, i64::from(value)),
        Format::Score => put_shown(out, &Score(value)),
        Format::Frames => put_shown(out, &Hundredths(u64::from(unsigned) * 10 / 6)),
        Format::Secs => put_shown(out, &Seconds(u64::from(unsigned))),
        Format::Hundredths => put_shown(out, &Hundredths(u64::from(unsigned))),
        Format::Minutes => put_shown(out, &Minutes(unsigned)),
        Format::SecsAsMins => put_shown(out, &Minutes(unsigned / 60)),
        Format::Unsigned => put_unsigned(out, u64::from(unsigned)),
        Format::Tens => put_signed(out, i64::from(value) * 10),
        Format::Hundreds => put_signed(out, i64::from(value) * 100),
        Format::Thousands => put_signed(out, i64::from(value) * 1000),
        Format::Fixed(digits) => put_fixed(out, digits, value),
        Format::Float(zeros) => put_float(out, zeros, value),
    }
}

/// Puts a number without sign in decimal after a text.
pub fn put_unsigned(out: &mut Vec<u8>, number: u64) -> Result<(), OutOfMemory>
    ensures { OnOk result (out.new.items ≡ out.old.items ++ decimal number) }
{
    let mut digits = Buffer::new();
    out.extend_from_slice(digits.format(number).as_bytes())?;
    Ok(())
}

/// Puts a signed number in decimal after a text.
pub fn put_signed(out: &mut Vec<u8>, number: i64) -> Result<(), OutOfMemory>
    ensures { OnOk result (out.new.items ≡ out.old.items ++ signed_decimal number) }
{
    let mut digits = Buffer::new();
    out.extend_from_slice(digits.format(number).as_bytes())?;
    Ok(())
}

/// Puts the bytes that a value shows after a text.
fn put_shown<T: fmt::Display>(out: &mut Vec<u8>, value: &T) -> Result<(), OutOfMemory>
    ensures { OnOk result (IfSome (T.output value.now) (λ bytes. out.new.items ≡ out.old.items ++ bytes)) }
{
    match write!(out, "{value}") {
        Ok(()) => Ok(()),
        Err(_) => Err(OutOfMemory),
    }
}

/// Puts a number with 1 to 3 decimals, after its sign where it is negative.
fn put_fixed(out: &mut Vec<u8>, digits: u8, value: i32) -> Result<(), OutOfMemory>
    requires low { 1 ≤ digits }
    requires high { digits ≤ 3 }
    ensures { OnOk result (out.new.items ≡ out.old.items ++ fixed_text digits value) }
{
    let number = value.unsigned_abs();
    if value >= 0 {
        return put_decimals(out, digits, number);
    }
    out.push(b'-')?;
    put_decimals(out, digits, number)
}

/// Puts a number without sign, with 1 to 3 decimals.
fn put_decimals(out: &mut Vec<u8>, digits: u8, number: u32) -> Result<(), OutOfMemory>
    requires low { 1 ≤ digits }
    requires high { digits ≤ 3 }
    ensures { OnOk result (out.new.items ≡ out.old.items ++ decimals_text digits number) }
{
    match digits {
        1 => put_shown(out, &Tenths(number)),
        2 => put_shown(out, &Cents(number)),
        _ => put_shown(out, &Mills(number)),
    }
}

/// Puts a number with zeros after its point.
fn put_float(out: &mut Vec<u8>, zeros: u8, value: i32) -> Result<(), OutOfMemory>
    ensures { OnOk result (out.new.items ≡ out.old.items ++ (signed_decimal value ++ 46 ∷ replicate zeros 48)) }
{
    put_signed(out, i64::from(value))?;
    out.push(b'.')?;
    out.resize(out.len() + usize::from(zeros), b'0')?;
    Ok(())
}

//! The worked texts, and the least and the greatest number in each format.

ghost use Rattle.std.specs.Prelude.{IsTrue};
ghost use Rattle.ra_value_format.specs.Formats.{HasDigits};

use ra_text::OutOfMemory;
use ra_value_format::{Format, format_value};
use std::alloc::Global;

// Whether a format has as many digits as a name can say.
fn has_digits(format: Format) -> bool
    ensures { IsTrue result → HasDigits format }
{
    match format {
        Format::Fixed(digits) => digits >= 1 && digits <= 3,
        Format::Float(digits) => digits >= 1 && digits <= 6,
        Format::Value
        | Format::Score
        | Format::Frames
        | Format::Secs
        | Format::Hundredths
        | Format::Minutes
        | Format::SecsAsMins
        | Format::Unsigned
        | Format::Tens
        | Format::Hundreds
        | Format::Thousands => true,
    }
}

// Whether a number has this text in a format.
fn has_text(alloc: Global, format: Format, value: i32, text: &str) -> Result<bool, OutOfMemory> {
    if !has_digits(format) {
        return Ok(false);
    }
    let bytes = format_value(alloc, format, value)?;
    Ok(bytes.as_slice() == text.as_bytes())
}

// Formats, a number, and its text.
const WORKED: &[(Format, i32, &str)] = &[
    (Format::Value, -5, "-5"),
    (Format::Score, 1234, "001234"),
    (Format::Score, -5, "-00005"),
    (Format::Unsigned, -1, "4294967295"),
    (Format::Frames, 250, "0:04.16"),
    (Format::Secs, 3661, "1h01:01"),
    (Format::Secs, 3599, "59:59"),
    (Format::Hundredths, 6543, "1:05.43"),
    (Format::Minutes, 135, "2h15"),
    (Format::SecsAsMins, 7300, "2h01"),
    (Format::Tens, 12, "120"),
    (Format::Hundreds, 0, "0"),
    (Format::Thousands, -3, "-3000"),
    (Format::Fixed(1), 123, "12.3"),
    (Format::Fixed(2), -5, "-0.05"),
    (Format::Float(2), 7, "7.00"),
];

// The place of the first number that has another text.
fn other_text(alloc: Global, rows: &[(Format, i32, &str)]) -> Result<Option<usize>, OutOfMemory> {
    for (place, (format, value, text)) in rows.iter().enumerate() {
        if !has_text(alloc, *format, *value, *text)? {
            return Ok(Some(place));
        }
    }
    Ok(None)
}

#[test]
fn worked_texts(rt: HostRuntime) -> Result<(), OutOfMemory> {
    assert_eq!(rt; other_text(rt.alloc(), WORKED)?, None);
    Ok(())
}

// Formats, their least or greatest number, and its text.
const ENDS: &[(Format, i32, &str)] = &[
    (Format::Value, i32::MIN, "-2147483648"),
    (Format::Value, i32::MAX, "2147483647"),
    (Format::Score, i32::MIN, "-2147483648"),
    (Format::Score, i32::MAX, "2147483647"),
    (Format::Unsigned, i32::MIN, "2147483648"),
    (Format::Unsigned, i32::MAX, "2147483647"),
    (Format::Frames, i32::MIN, "9942h03:14.13"),
    (Format::Frames, i32::MAX, "9942h03:14.11"),
    (Format::Secs, i32::MIN, "596523h14:08"),
    (Format::Secs, i32::MAX, "596523h14:07"),
    (Format::Hundredths, i32::MIN, "5965h13:56.48"),
    (Format::Hundredths, i32::MAX, "5965h13:56.47"),
    (Format::Minutes, i32::MIN, "35791394h08"),
    (Format::Minutes, i32::MAX, "35791394h07"),
    (Format::SecsAsMins, i32::MIN, "596523h14"),
    (Format::SecsAsMins, i32::MAX, "596523h14"),
    (Format::Tens, i32::MIN, "-21474836480"),
    (Format::Tens, i32::MAX, "21474836470"),
    (Format::Hundreds, i32::MIN, "-214748364800"),
    (Format::Hundreds, i32::MAX, "214748364700"),
    (Format::Thousands, i32::MIN, "-2147483648000"),
    (Format::Thousands, i32::MAX, "2147483647000"),
    (Format::Fixed(3), i32::MIN, "-2147483.648"),
    (Format::Float(6), i32::MIN, "-2147483648.000000"),
];

#[test]
fn least_and_greatest(rt: HostRuntime) -> Result<(), OutOfMemory> {
    assert_eq!(rt; other_text(rt.alloc(), ENDS)?, None);
    Ok(())
}

// Names, and their format.
const NAMES: &[(&str, Format)] = &[
    ("VALUE", Format::Value),
    ("NOSUCH", Format::Value),
    ("value", Format::Value),
    ("SCORE", Format::Score),
    ("POINTS", Format::Score),
    ("OTHER", Format::Score),
    ("TIME", Format::Frames),
    ("TIMESECS", Format::Secs),
    ("MILLISECS", Format::Hundredths),
    ("SECS_AS_MINS", Format::SecsAsMins),
    ("FIXED3", Format::Fixed(3)),
    ("FIXED4", Format::Value),
    ("FLOAT6", Format::Float(6)),
];

// The place of the first name of another format.
fn other_name(rows: &[(&str, Format)]) -> Option<usize> {
    for (place, (name, format)) in rows.iter().enumerate() {
        if Format::of_name(name.as_bytes()) != *format {
            return Some(place);
        }
    }
    None
}

#[test]
fn names(rt: HostRuntime) {
    assert_eq!(rt; other_name(NAMES), None);
}

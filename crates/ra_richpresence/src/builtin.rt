//! The macros that every script has: docs/DEFINITIONS.md, "Presence over frames".

ghost use Rattle.std.specs.Prelude.{◌≡◌, IfSome, bytes_eq};
ghost use Rattle.ra_richpresence.specs.Lines.{builtin_macros};
ghost use Rattle.ra_richpresence.specs.Shown.{point_macros};
ghost use Rattle.ra_value_format.specs.Formats.{HasDigits, entry_of};

use ra_value_format::Format;

// The format of a built-in macro.
pub fn builtin_format(name: &[u8]) -> Option<Format>
    ensures found { result ≡ entry_of name.now builtin_macros }
    ensures digits { IfSome result HasDigits }
{
    if is(name, b"Number") {
        Some(Format::Value)
    } else if is(name, b"Score") {
        Some(Format::Score)
    } else if is(name, b"Centisecs") {
        Some(Format::Hundredths)
    } else if is(name, b"Seconds") {
        Some(Format::Secs)
    } else if is(name, b"Minutes") {
        Some(Format::Minutes)
    } else if is(name, b"SecondsAsMinutes") {
        Some(Format::SecsAsMins)
    } else if is(name, b"Unformatted") {
        Some(Format::Unsigned)
    } else {
        point_format(name)
    }
}

// The format of a built-in macro that writes a point.
fn point_format(name: &[u8]) -> Option<Format>
    ensures found { result ≡ entry_of name.now point_macros }
    ensures digits { IfSome result HasDigits }
{
    if is(name, b"Fixed1") {
        Some(Format::Fixed(1))
    } else if is(name, b"Fixed2") {
        Some(Format::Fixed(2))
    } else if is(name, b"Fixed3") {
        Some(Format::Fixed(3))
    } else if is(name, b"Float1") {
        Some(Format::Float(1))
    } else if is(name, b"Float2") {
        Some(Format::Float(2))
    } else if is(name, b"Float3") {
        Some(Format::Float(3))
    } else if is(name, b"Float4") {
        Some(Format::Float(4))
    } else if is(name, b"Float5") {
        Some(Format::Float(5))
    } else if is(name, b"Float6") {
        Some(Format::Float(6))
    } else {
        None
    }
}

// The name is this one, byte for byte.
fn is(name: &[u8], known: &[u8]) -> bool
    ensures { result ≡ bytes_eq known.now name.now }
{
    known == name
}

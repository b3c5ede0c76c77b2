//! The name of a format in a normal text.

ghost use Rattle.std.specs.Prelude.{Some};
ghost use Rattle.ra_normal.specs.Text.{name_of};

use ra_value_format::Format;
use std::fmt;

// A format that writes its first name.
#[derive(Drop)]
pub(crate) struct FormatName(pub Format);

impl fmt::Display for FormatName {
    ghost output = { λ name. Some (name_of name.0) };

    fn fmt<W: fmt::Write>(&self, f: &mut fmt::Formatter<W>) -> fmt::Result {
        match self.0 {
            Format::Value => write!(f, "VALUE"),
            Format::Score => write!(f, "SCORE"),
            Format::Frames => write!(f, "FRAMES"),
            Format::Secs => write!(f, "SECS"),
            Format::Hundredths => write!(f, "MILLISECS"),
            Format::Minutes => write!(f, "MINUTES"),
            Format::SecsAsMins => write!(f, "SECS_AS_MINS"),
            Format::Unsigned => write!(f, "UNSIGNED"),
            Format::Tens => write!(f, "TENS"),
            Format::Hundreds => write!(f, "HUNDREDS"),
            Format::Thousands => write!(f, "THOUSANDS"),
            Format::Fixed(digits) => write!(f, "FIXED{digits}"),
            Format::Float(zeros) => write!(f, "FLOAT{zeros}"),
        }
    }
}

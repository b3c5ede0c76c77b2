ghost use Rattle.std.specs.Prelude.{◌≡◌, bytes_eq};
ghost use Rattle.ra_value_format.specs.Formats.{format_of_name, named_format, entry_of, scaled_names, float_names};

/// How a number is written: docs/DEFINITIONS.md, "Formats".
#[derive(Clone, Copy, Debug, PartialEq, Eq)]
pub enum Format {
    /// The signed number in decimal.
    Value,
    /// The signed number with leading zeros to six characters, the sign one of them.
    Score,
    /// Frames, 60 a second, as minutes, seconds and hundredths.
    Frames,
    /// Seconds, as minutes and seconds.
    Secs,
    /// Hundredths of a second, as minutes, seconds and hundredths.
    Hundredths,
    /// Minutes, as hours and minutes.
    Minutes,
    /// Seconds, as hours and minutes.
    SecsAsMins,
    /// The number without sign, in decimal.
    Unsigned,
    /// The signed number times 10.
    Tens,
    /// The signed number times 100.
    Hundreds,
    /// The signed number times 1000.
    Thousands,
    /// With 1 to 3 of its digits as decimals.
    Fixed(u8),
    /// With 1 to 6 zeros after a point.
    Float(u8),
}

impl Format {
    /// The format of a name, compared byte for byte, and `Value` for every unknown one:
    /// docs/DEFINITIONS.md, "Formats".
    pub fn of_name(name: &[u8]) -> Format
        ensures { result ≡ format_of_name name.now }
    {
        if is(name, b"SCORE") {
            Format::Score
        } else if is(name, b"POINTS") {
            Format::Score
        } else if is(name, b"OTHER") {
            Format::Score
        } else if is(name, b"UNSIGNED") {
            Format::Unsigned
        } else if is(name, b"FRAMES") {
            Format::Frames
        } else if is(name, b"TIME") {
            Format::Frames
        } else if is(name, b"MILLISECS") {
            Format::Hundredths
        } else if is(name, b"SECS") {
            Format::Secs
        } else if is(name, b"TIMESECS") {
            Format::Secs
        } else if is(name, b"MINUTES") {
            Format::Minutes
        } else if is(name, b"SECS_AS_MINS") {
            Format::SecsAsMins
        } else {
            scaled(name)
        }
    }
}

/// The format of a name that moves the point.
fn scaled(name: &[u8]) -> Format
    ensures { result ≡ named_format (entry_of name.now scaled_names) }
{
    if is(name, b"TENS") {
        Format::Tens
    } else if is(name, b"HUNDREDS") {
        Format::Hundreds
    } else if is(name, b"THOUSANDS") {
        Format::Thousands
    } else if is(name, b"FIXED1") {
        Format::Fixed(1)
    } else if is(name, b"FIXED2") {
        Format::Fixed(2)
    } else if is(name, b"FIXED3") {
        Format::Fixed(3)
    } else {
        float(name)
    }
}

/// The format of a name with zeros after the point.
fn float(name: &[u8]) -> Format
    ensures { result ≡ named_format (entry_of name.now float_names) }
{
    if is(name, b"FLOAT1") {
        Format::Float(1)
    } else if is(name, b"FLOAT2") {
        Format::Float(2)
    } else if is(name, b"FLOAT3") {
        Format::Float(3)
    } else if is(name, b"FLOAT4") {
        Format::Float(4)
    } else if is(name, b"FLOAT5") {
        Format::Float(5)
    } else if is(name, b"FLOAT6") {
        Format::Float(6)
    } else {
        Format::Value
    }
}

/// The name is this one, byte for byte.
fn is(name: &[u8], known: &[u8]) -> bool
    ensures { result ≡ bytes_eq known.now name.now }
{
    known == name
}

ghost use Rattle.std.specs.Prelude.{◌≡◌};
ghost use Rattle.ra_text.specs.Number.{base_of, digit_of};

/// The base of a number in text.
#[derive(Clone, Copy, Debug, PartialEq, Eq)]
pub enum Base {
    /// The digits 0 to 9.
    Ten,
    /// The digits 0 to 9 and a to f, in either case.
    Sixteen,
}

impl Base {
    /// How many digits the base has: 10 or 16.
    pub fn count(self) -> u32
        ensures { result ≡ base_of self }
    {
        match self {
            Base::Ten => 10,
            Base::Sixteen => 16,
        }
    }

    /// The number that a digit of the base stands for: docs/DEFINITIONS.md, "Numbers in text".
    ///
    /// `None` exactly for a byte that is no digit. Hexadecimal digits are read in either case.
    #[inline(always)]
    pub fn digit(self, byte: u8) -> Option<u32>
        ensures { result ≡ digit_of self byte }
    {
        match self {
            Base::Ten => decimal_digit(byte),
            Base::Sixteen => hexadecimal_digit(byte),
        }
    }
}

// 0 to 9.
fn decimal_digit(byte: u8) -> Option<u32>
    ensures { result ≡ digit_of Base.Ten byte }
{
    match byte {
        b'0' => Some(0),
        b'1' => Some(1),
        b'2' => Some(2),
        b'3' => Some(3),
        b'4' => Some(4),
        b'5' => Some(5),
        b'6' => Some(6),
        b'7' => Some(7),
        b'8' => Some(8),
        b'9' => Some(9),
        _ => None,
    }
}

// 0 to 9, and a to f in either case.
#[inline(always)]
fn hexadecimal_digit(byte: u8) -> Option<u32>
    ensures { result ≡ digit_of Base.Sixteen byte }
{
    match byte {
        b'0' => Some(0),
        b'1' => Some(1),
        b'2' => Some(2),
        b'3' => Some(3),
        b'4' => Some(4),
        b'5' => Some(5),
        b'6' => Some(6),
        b'7' => Some(7),
        b'8' => Some(8),
        b'9' => Some(9),
        b'a' | b'A' => Some(10),
        b'b' | b'B' => Some(11),
        b'c' | b'C' => Some(12),
        b'd' | b'D' => Some(13),
        b'e' | b'E' => Some(14),
        b'f' | b'F' => Some(15),
        _ => None,
    }
}

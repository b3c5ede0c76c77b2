//! A text that is read from left to right.

ghost use Rattle.std.specs.Prelude.{◌≡◌, ◌-◌, ◌<◌, ◌≤◌, [], ◌∷◌, false, IsFalse, IsTrue, length, drop};
ghost use Rattle.ra_text.specs.Number.{digit_of, signs, with_sign};
ghost use Rattle.ra_text.specs.Reading.{begins, literal_at, one_at, optional_at};
ghost use Rattle.ra_text.specs.ReadingNumbers.{decimal_at, hexadecimal_at, saturated_at, signed_at};
ghost use Rattle.ra_text.specs.Table.{is_in, lookup, only, only_letters};

use crate::base::Base;

/// What is left of a text that is read.
#[derive(Clone, Copy)]
pub struct Cursor<'a> {
    /// The bytes from where the cursor stands to the end of the text.
    pub rest: &'a [u8],
}

/// No text of the grammar goes on with what is next. The cursor stands before it.
#[derive(Clone, Copy, Debug, PartialEq, Eq)]
pub struct Stop;

impl<'a> Cursor<'a> {
    ghost use Rattle.ra_text.specs.Moves.{Moves, PassesOne, SumsDigits};

    /// The text from a place on, in bytes from its start.
    pub fn new(text: &'a [u8], at: usize) -> Self
        requires { at ≤ length text.now }
        ensures { result.rest.now ≡ drop at text.now }
    {
        let (_, rest) = text.split_at(at);
        Cursor { rest }
    }

    /// Where the cursor stands in the text that it reads, in bytes from its start.
    pub fn place(&self, text: &[u8]) -> usize
        requires { length self.now.rest.now ≤ length text.now }
        ensures { result ≡ length text.now - length self.now.rest.now }
    {
        text.len() - self.rest.len()
    }

    /// Reads this byte. `Stop` where another byte or the end is next.
    pub fn byte(&mut self, wanted: u8) -> Result<(), Stop>
        ensures { Moves result self.new.rest.now (one_at (only (wanted ∷ [])) self.old.rest.now) }
    {
        match self.rest {
            [byte, after @ ..] if *byte == wanted => {
                self.rest = after;
                Ok(())
            }
            _ => Err(Stop),
        }
    }

    /// Goes past this byte if it is next, and says whether it was.
    pub fn skip(&mut self, wanted: u8) -> bool
        ensures passed { IsTrue result → self.old.rest.now ≡ wanted ∷ self.new.rest.now }
        ensures stayed { IsFalse result → self.new.rest.now ≡ self.old.rest.now }
        ensures is_next { result ≡ begins (is_in (only (wanted ∷ []))) self.old.rest.now }
    {
        if let [byte, after @ ..] = self.rest {
            if *byte == wanted {
                self.rest = after;
                return true;
            }
        }
        false
    }

    /// Goes past this letter, given in upper case, if it is next in either case, and says whether it was.
    pub fn skip_letter(&mut self, upper: u8) -> bool
        requires { upper < 128 }
        ensures passed { IsTrue result → PassesOne (only_letters (upper ∷ [])) self.old.rest.now self.new.rest.now }
        ensures stayed { IsFalse result → self.new.rest.now ≡ self.old.rest.now }
        ensures is_next { result ≡ begins (is_in (only_letters (upper ∷ []))) self.old.rest.now }
    {
        if let [byte, after @ ..] = self.rest {
            if is_letter(*byte, upper) {
                self.rest = after;
                return true;
            }
        }
        false
    }

    /// Whether this byte is next.
    pub fn is_at(&self, wanted: u8) -> bool
        ensures { result ≡ begins (is_in (only (wanted ∷ []))) self.now.rest.now }
    {
        match self.rest {
            [byte, ..] => *byte == wanted,
            [] => false,
        }
    }

    /// Whether this letter, given in upper case, is next in either case.
    pub fn is_at_letter(&self, upper: u8) -> bool
        requires { upper < 128 }
        ensures { result ≡ begins (is_in (only_letters (upper ∷ []))) self.now.rest.now }
    {
        match self.rest {
            [byte, ..] => is_letter(*byte, upper),
            [] => false,
        }
    }

    /// Reads this letter, given in upper case, in either case. `Stop` where another byte or the end
    /// is next.
    pub fn letter(&mut self, upper: u8) -> Result<(), Stop>
        requires { upper < 128 }
        ensures { Moves result self.new.rest.now (one_at (only_letters (upper ∷ [])) self.old.rest.now) }
    {
        match self.rest {
            [byte, after @ ..] if is_letter(*byte, upper) => {
                self.rest = after;
                Ok(())
            }
            _ => Err(Stop),
        }
    }

    /// Reads this letter, given in upper case, in either case, if it is next.
    #[inline(always)]
    pub fn optional_letter(&mut self, upper: u8)
        requires { upper < 128 }
        ensures { optional_at (only_letters (upper ∷ [])) tt self.old.rest.now ≡ Ok (tt, self.new.rest.now) }
    {
        if let [byte, after @ ..] = self.rest {
            if is_letter(*byte, upper) {
                self.rest = after;
            }
        }
    }

    /// Reads these bytes, one after the other. `Stop` where another byte or the end is next; the
    /// cursor then comes after those that were read.
    pub fn literal(&mut self, wanted: &[u8]) -> Result<(), Stop>
        ensures { Moves result self.new.rest.now (literal_at wanted.now self.old.rest.now) }
    {
        for byte in wanted {
            self.byte(*byte)?;
        }
        Ok(())
    }

    /// Reads decimal digits, as many as stand there: docs/DEFINITIONS.md, "Numbers in text".
    ///
    /// The number is at most 4294967295. `Stop` exactly where no digit is next.
    pub fn decimal(&mut self) -> Result<u32, Stop>
        ensures { Moves result self.new.rest.now (decimal_at self.old.rest.now) }
    {
        self.numeral(Base::Ten)
    }

    /// Reads hexadecimal digits, as many as stand there: docs/DEFINITIONS.md, "Numbers in text".
    ///
    /// The number is at most 4294967295. `Stop` exactly where no digit is next.
    #[inline(always)]
    pub fn hexadecimal(&mut self) -> Result<u32, Stop>
        ensures { Moves result self.new.rest.now (hexadecimal_at self.old.rest.now) }
    {
        self.numeral(Base::Sixteen)
    }

    // One or more digits, saturated.
    #[tactic(auto, unfolding(crate::specs::ReadingNumbers::saturated_at, crate::specs::ReadingNumbers::numeral_at))]
    #[inline(always)]
    fn numeral(&mut self, base: Base) -> Result<u32, Stop>
        ensures { Moves result self.new.rest.now (saturated_at base self.old.rest.now) }
    {
        let first = self.digit(base)?;
        Ok(self.digits_behind(base, first))
    }

    // One digit.
    #[inline(always)]
    fn digit(&mut self, base: Base) -> Result<u32, Stop>
        ensures { Moves result self.new.rest.now (one_at (digit_of base) self.old.rest.now) }
    {
        if let [byte, after @ ..] = self.rest {
            if let Some(digit) = base.digit(*byte) {
                self.rest = after;
                return Ok(digit);
            }
        }
        Err(Stop)
    }

    // The number of a first digit and as many more as stand there, saturated.
    #[inline(always)]
    fn digits_behind(&mut self, base: Base, first: u32) -> u32
        ensures { SumsDigits base first self.old.rest.now result self.new.rest.now }
    {
        let mut number = first;
        let mut rest = self.rest;
        while let [byte, after @ ..] = rest {
            let Some(digit) = base.digit(*byte) else {
                break;
            };
            number = number.saturating_mul(base.count()).saturating_add(digit);
            rest = after;
        }
        self.rest = rest;
        number
    }

    /// Reads one optional sign and digits: docs/DEFINITIONS.md, "Numbers in text".
    ///
    /// A negative number is at least -2147483648, and is given as two's complement of 32 bits.
    /// `Stop` exactly where no digit is next, after the sign if there is one.
    #[tactic(auto, unfolding(crate::specs::ReadingNumbers::signed_at))]
    #[inline(always)]
    pub fn signed(&mut self) -> Result<u32, Stop>
        ensures { Moves result self.new.rest.now (signed_at self.old.rest.now) }
    {
        let negative = self.sign();
        let number = self.decimal()?;
        Ok(with_sign(negative, number))
    }

    // One optional sign: whether it is a minus.
    fn sign(&mut self) -> bool
        ensures { optional_at (lookup signs) false self.old.rest.now ≡ Ok (result, self.new.rest.now) }
    {
        match self.rest {
            [b'+', after @ ..] => {
                self.rest = after;
                false
            }
            [b'-', after @ ..] => {
                self.rest = after;
                true
            }
            _ => false,
        }
    }
}

// The letter is this one, given in upper case, in either case.
fn is_letter(byte: u8, upper: u8) -> bool
    requires { upper < 128 }
    ensures { result ≡ is_in (only_letters (upper ∷ [])) byte }
{
    byte == upper || byte == upper + 32
}

// A number with its sign, kept as two's complement of 32 bits.
fn with_sign(negative: bool, number: u32) -> u32
    ensures { result ≡ with_sign negative number }
{
    if negative {
        number.min(0x8000_0000).wrapping_neg()
    } else {
        number
    }
}

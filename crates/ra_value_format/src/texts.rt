//! The forms of a number that are more than decimal digits, each written by `Display`.

ghost use Rattle.std.specs.Prelude.{◌≤◌, Some, pos};
ghost use Rattle.ra_value_format.specs.Formats.{score_text, seconds_text, hundredths_text, minutes_text, decimals_text};

use std::fmt;

/// The seconds from which on hours are written.
const HOUR: u64 = 3600;

/// A score: six characters with leading zeros, the sign one of them.
#[derive(Drop)]
pub(crate) struct Score(pub i32);

impl fmt::Display for Score {
    ghost output = { λ score. Some (score_text score.0) };

    fn fmt<W: fmt::Write>(&self, f: &mut fmt::Formatter<W>) -> fmt::Result {
        let value = self.0;
        write!(f, "{value:06}")
    }
}

/// Seconds, as minutes and seconds, and with hours from one hour on.
#[derive(Drop)]
pub(crate) struct Seconds(pub u64);

impl fmt::Display for Seconds {
    ghost output = { λ seconds. Some (seconds_text seconds.0) };

    fn fmt<W: fmt::Write>(&self, f: &mut fmt::Formatter<W>) -> fmt::Result {
        let seconds = self.0 % 60;
        if self.0 < HOUR {
            let minutes = self.0 / 60;
            return write!(f, "{minutes}:{seconds:02}");
        }
        let hours = self.0 / 3600;
        let minutes = self.0 / 60 % 60;
        write!(f, "{hours}h{minutes:02}:{seconds:02}")
    }
}

/// Hundredths of a second, after their seconds.
#[derive(Drop)]
pub(crate) struct Hundredths(pub u64);

impl fmt::Display for Hundredths {
    ghost output = { λ hundredths. Some (hundredths_text hundredths.0) };

    fn fmt<W: fmt::Write>(&self, f: &mut fmt::Formatter<W>) -> fmt::Result {
        let seconds = Seconds(self.0 / 100);
        let hundredths = self.0 % 100;
        write!(f, "{seconds}.{hundredths:02}")
    }
}

/// Minutes, after their hours.
#[derive(Drop)]
pub(crate) struct Minutes(pub u32);

impl fmt::Display for Minutes {
    ghost output = { λ minutes. Some (minutes_text minutes.0) };

    fn fmt<W: fmt::Write>(&self, f: &mut fmt::Formatter<W>) -> fmt::Result {
        let hours = self.0 / 60;
        let minutes = self.0 % 60;
        write!(f, "{hours}h{minutes:02}")
    }
}

/// A number whose last digit is a decimal.
#[derive(Drop)]
pub(crate) struct Tenths(pub u32);

impl fmt::Display for Tenths {
    ghost output = { λ number. Some (decimals_text 1 number.0) };

    fn fmt<W: fmt::Write>(&self, f: &mut fmt::Formatter<W>) -> fmt::Result {
        let whole = self.0 / 10;
        let rest = self.0 % 10;
        write!(f, "{whole}.{rest:01}")
    }
}

/// A number whose last two digits are decimals.
#[derive(Drop)]
pub(crate) struct Cents(pub u32);

impl fmt::Display for Cents {
    ghost output = { λ number. Some (decimals_text 2 number.0) };

    fn fmt<W: fmt::Write>(&self, f: &mut fmt::Formatter<W>) -> fmt::Result {
        let whole = self.0 / 100;
        let rest = self.0 % 100;
        write!(f, "{whole}.{rest:02}")
    }
}

/// A number whose last three digits are decimals.
#[derive(Drop)]
pub(crate) struct Mills(pub u32);

impl fmt::Display for Mills {
    ghost output = { λ number. Some (decimals_text 3 number.0) };

    fn fmt<W: fmt::Write>(&self, f: &mut fmt::Formatter<W>) -> fmt::Result {
        let whole = self.0 / 1000;
        let rest = self.0 % 1000;
        write!(f, "{whole}.{rest:03}")
    }
}

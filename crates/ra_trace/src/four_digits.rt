use std::fmt;

/// A number in four lower-case hexadecimal digits.
#[derive(Drop)]
pub struct FourDigits(pub u16);

impl fmt::Display for FourDigits {
    ghost use Rattle.std.specs.Prelude.{Some};
    ghost use Rattle.ra_trace.specs.Workload.{hex4};

    ghost output = { λ number. Some (hex4 number.0) };

    fn fmt<W: fmt::Write>(&self, f: &mut fmt::Formatter<W>) -> fmt::Result {
        let number = self.0;
        write!(f, "{number:04x}")
    }
}

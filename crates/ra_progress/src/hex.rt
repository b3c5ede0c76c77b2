use std::fmt;

/// Bytes, written in lower-case hexadecimal, two digits each.
#[derive(Drop)]
pub struct Hex<'a>(pub &'a [u8]);

impl<'a> fmt::Display for Hex<'a> {
    ghost use Rattle.std.specs.Prelude.{Some};
    ghost use Rattle.ra_progress.specs.Refusals.{hex};

    ghost output = { λ h. Some (hex h.0.now) };

    fn fmt<W: fmt::Write>(&self, f: &mut fmt::Formatter<W>) -> fmt::Result {
        for byte in self.0 {
            let byte = *byte;
            write!(f, "{byte:02x}")?;
        }
        Ok(())
    }
}

ghost use Rattle.std.specs.Prelude.{◌≡◌, ℕ, ◌∷◌, [], List};
ghost use Rattle.ra_account.specs.Greatest.{range_of};

/// The least and the greatest number of some frames: docs/DEFINITIONS.md, "Account of an achievement".
#[derive(Clone, Copy, Debug, PartialEq, Eq)]
pub struct Range {
    /// The least number, the greatest `u32` before the first frame.
    pub least: u32,
    /// The greatest number, 0 before the first frame.
    pub greatest: u32,
}

impl Range {
    /// Before the first frame.
    pub fn new() -> Range
        ensures { result ≡ range_of [] }
    {
        Range {
            least: u32::MAX,
            greatest: 0,
        }
    }

    /// Notes the number of one frame more.
    pub fn note(&mut self, now: u32)
        ensures { (earlier : List ℕ) → self.old ≡ range_of earlier → self.new ≡ range_of (now ∷ earlier) }
    {
        if now < self.least {
            self.least = now;
        }
        if self.greatest < now {
            self.greatest = now;
        }
    }
}

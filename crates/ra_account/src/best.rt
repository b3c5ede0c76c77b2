ghost use Rattle.std.specs.Prelude.{◌≡◌, ℕ, ◌∷◌, [], List, length};
ghost use Rattle.ra_account.specs.Greatest.{best_of};

/// The greatest number of some frames, and the first frame that has it: docs/DEFINITIONS.md, "Account of an
/// achievement".
#[derive(Clone, Copy, Debug, PartialEq, Eq)]
pub struct Best {
    /// The greatest number, 0 before the first frame.
    pub total: u32,
    /// The first frame that has it, counted from 0.
    pub at: u64,
}

impl Best {
    /// Before the first frame.
    pub fn new() -> Best
        ensures { result ≡ best_of [] }
    {
        Best { total: 0, at: 0 }
    }

    /// Notes the number of the frame `at`, after all frames before it.
    pub fn note(&mut self, at: u64, now: u32)
        ensures { (earlier : List ℕ) → length earlier ≡ at → self.old ≡ best_of earlier
            → self.new ≡ best_of (now ∷ earlier) }
    {
        if self.total < now {
            self.total = now;
            self.at = at;
        }
    }
}

ghost use Rattle.std.specs.Prelude.{◌≡◌, ◌++◌, ◌≢◌, Bool, List, [], if◌then◌else◌};
ghost use Rattle.ra_account.specs.Marks.{mark_of, joined, mark_at};

/// At which of some frames a condition counts: docs/DEFINITIONS.md, "Account of an achievement".
#[derive(Clone, Copy, Debug, PartialEq, Eq)]
pub enum Mark {
    /// At none of them.
    Never,
    /// At some of them, and not at all.
    Sometimes,
    /// At all of them.
    Always,
}

impl Mark {
    /// The mark of a single frame.
    pub fn of(now: bool) -> Mark
        ensures { result ≡ mark_at now }
    {
        if now { Mark::Always } else { Mark::Never }
    }

    /// The mark of the frames of both.
    pub fn join(self, later: Mark) -> Mark
        ensures { result ≡ joined self later }
    {
        if self == later { self } else { Mark::Sometimes }
    }
}

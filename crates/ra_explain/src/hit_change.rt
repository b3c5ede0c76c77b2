ghost use Rattle.std.specs.Prelude.{◌≡◌};
ghost use Rattle.ra_explain.specs.HitChanges.{IsNext, hits_by};

/// What a row did to the hits of a condition.
#[derive(Clone, Copy, Debug, PartialEq, Eq)]
pub(crate) enum HitChange {
    /// They are those before it.
    Stays,
    /// They are one more, up to the greatest number.
    Counts,
    /// They are 0.
    Clears,
}

impl HitChange {
    // The change from these hits to those.
    pub(crate) fn between(before: u32, after: u32) -> HitChange
        requires { IsNext before after }
        ensures { hits_by result before ≡ after }
    {
        if after == before {
            HitChange::Stays
        } else if after == 0 {
            HitChange::Clears
        } else {
            HitChange::Counts
        }
    }

    // The hits after it.
    pub(crate) fn after(self, before: u32) -> u32
        ensures { result ≡ hits_by self before }
    {
        match self {
            HitChange::Stays => before,
            HitChange::Counts => before.saturating_add(1),
            HitChange::Clears => 0,
        }
    }
}

ghost use Rattle.std.specs.Prelude.{◌≡◌, ◌+◌, ◌-◌, ◌<◌, ◌≤◌, ◌^◌, ◌∷◌, ◌++◌, [], Bool, List, length, replicate};
ghost use Rattle.ra_account.specs.Counting.{times_of};

/// At how many frames something was so, at the first of them and at the last: docs/DEFINITIONS.md,
/// "Account of an achievement".
///
/// Where it was so at no frame all three are 0.
#[derive(Clone, Copy, Debug, PartialEq, Eq)]
pub struct Times {
    /// At how many frames it was so.
    pub count: u64,
    /// The first of these frames, counted from 0.
    pub first: u64,
    /// The last of them.
    pub last: u64,
}

impl Times {
    /// Before the first frame.
    pub fn new() -> Times
        ensures { result ≡ times_of [] }
    {
        Times {
            count: 0,
            first: 0,
            last: 0,
        }
    }

    /// Notes whether it is so at the frame `at`, after all frames before it.
    pub fn note(&mut self, at: u64, now: bool)
        requires within { self.old.count ≤ at }
        requires few { at < 2 ^ 60 }
        ensures noted { (earlier : List Bool) → length earlier ≡ at → self.old ≡ times_of earlier
            → self.new ≡ times_of (now ∷ earlier) }
        ensures within { self.new.count ≤ at + 1 }
    {
        if now {
            if self.count == 0 {
                self.first = at;
            }
            self.last = at;
            self.count += 1;
        }
    }

    /// Notes that it is so, or not, at each frame from `from` up to `to`, which is not one of them, after all frames
    /// before these.
    pub fn note_run(&mut self, from: u64, to: u64, now: bool)
        requires within { self.old.count ≤ from }
        requires order { from ≤ to }
        requires few { to ≤ 2 ^ 60 }
        ensures { (earlier : List Bool) → length earlier ≡ from → self.old ≡ times_of earlier
            → self.new ≡ times_of (replicate (to - from) now ++ earlier) }
    {
        if now && from < to {
            if self.count == 0 {
                self.first = from;
            }
            self.last = to - 1;
            self.count += to - from;
        }
    }
}

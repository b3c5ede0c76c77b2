ghost use Rattle.std.specs.Prelude.{◌≡◌, ◌+◌, ◌<◌, ◌≤◌, ◌^◌, ◌∷◌, [], List, length, IfOk};
ghost use Rattle.ra_account.specs.Conditions.{IsAccountOf, StandsAt};
ghost use Rattle.ra_account.specs.Marks.{IsSound};
ghost use Rattle.ra_account.specs.Running.{IsRunning, Runs, RunsAt};
ghost use Rattle.ra_account.specs.declared.facts.Facts.{Facts};

use crate::condition::ConditionAccount;
use crate::copying::copy_account;
use crate::facts::Facts;
use ra_text::OutOfMemory;
use std::alloc::Global;

/// The account of one condition, with the last frames of which it is alike whether it counts and is past memory. These
/// frames are counted once that changes.
#[derive(Drop)]
pub struct Running {
    /// Its best and its values over all frames, and the rest over those before the last ones.
    pub account: ConditionAccount,
    /// The first of the last frames.
    pub since: u64,
    /// Whether it counts at these.
    pub counts: bool,
    /// Whether an operand of it is past memory at these.
    pub past: bool,
}

impl Running {
    /// Before the first frame.
    pub fn new(alloc: Global) -> Result<Running, OutOfMemory>
        ensures begun { IfOk result (IsRunning []) }
        ensures stands { IfOk result (RunsAt 0) }
    {
        Ok(Running {
            account: ConditionAccount::new(alloc)?,
            since: 0,
            counts: false,
            past: false,
        })
    }

    /// Notes what the frame `at` shows, after all frames before it.
    #[inline(always)]
    pub fn note(&mut self, at: u64, now: Facts)
        requires stands { RunsAt at self.old }
        requires few { at < 2 ^ 60 }
        ensures noted { (earlier : List Facts) → length earlier ≡ at → IsRunning earlier self.old
            → IsRunning (now ∷ earlier) self.new }
        ensures stands { RunsAt (at + 1) self.new }
    {
        self.turn(at, now.counts, now.past);
        self.account.note_numbers(at, now);
    }

    // Counts all frames before the frame `at` where this one is not like the last of them.
    fn turn(&mut self, at: u64, counts: bool, past: bool)
        requires stands { RunsAt at self.old }
        requires few { at < 2 ^ 60 }
        ensures counts { self.new.counts ≡ counts }
        ensures past { self.new.past ≡ past }
        ensures runs { (earlier : List Facts) → length earlier ≡ at → Runs earlier self.old → Runs earlier self.new }
        ensures sound { IsSound self.new.account.columns }
    {
        if counts != self.counts || past != self.past {
            self.account
                .note_run(self.since, at, self.counts, self.past);
            self.since = at;
            self.counts = counts;
            self.past = past;
        }
    }

    /// The account of this many frames, which are all that there are.
    pub fn told(&self, alloc: Global, frames: u64) -> Result<ConditionAccount, OutOfMemory>
        requires stands { RunsAt frames self.now }
        requires few { frames ≤ 2 ^ 60 }
        ensures told { (history : List Facts) → length history ≡ frames → IsRunning history self.now
            → IfOk result (IsAccountOf history) }
        ensures stands { IfOk result (StandsAt frames) }
    {
        let mut account = copy_account(alloc, &self.account)?;
        account.note_run(self.since, frames, self.counts, self.past);
        Ok(account)
    }
}

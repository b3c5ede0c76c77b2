ghost use Rattle.std.specs.Prelude.{◌≡◌, ◌+◌, ◌-◌, ◌<◌, ◌≤◌, ◌^◌, ◌∷◌, ◌++◌, [], Bool, List, length, replicate, IfOk};
ghost use Rattle.ra_account.specs.Conditions.{IsAccountOf, StandsAt};
ghost use Rattle.ra_account.specs.Marks.{IsSound};
ghost use Rattle.ra_account.specs.Running.{CountedTo, HasCounted, HasNumbersOf, HasSeen};
ghost use Rattle.ra_account.specs.declared.facts.Facts.{Facts};

use crate::best::Best;
use crate::columns::Columns;
use crate::facts::Facts;
use crate::range::Range;
use crate::times::Times;
use ra_text::OutOfMemory;
use std::alloc::Global;

/// The account of one condition: docs/DEFINITIONS.md, "Account of an achievement".
#[derive(Drop)]
pub struct ConditionAccount {
    /// The frames at which it counts.
    pub counts: Times,
    /// The frames at which an operand of it is past memory.
    pub past: Times,
    /// Its greatest total, and where.
    pub best: Best,
    /// The values of its left side.
    pub left: Range,
    /// The values of its right side.
    pub right: Range,
    /// At which frames it counts, in columns.
    pub columns: Columns,
}

impl ConditionAccount {
    /// Before the first frame.
    pub fn new(alloc: Global) -> Result<ConditionAccount, OutOfMemory>
        ensures begun { IfOk result (IsAccountOf []) }
        ensures stands { IfOk result (StandsAt 0) }
    {
        Ok(ConditionAccount {
            counts: Times::new(),
            past: Times::new(),
            best: Best::new(),
            left: Range::new(),
            right: Range::new(),
            columns: Columns::new(alloc)?,
        })
    }

    /// Notes what the frame `at` shows, after all frames before it.
    pub fn note(&mut self, at: u64, now: Facts)
        requires stands { StandsAt at self.old }
        requires few { at < 2 ^ 60 }
        ensures noted { (earlier : List Facts) → IsAccountOf earlier self.old → IsAccountOf (now ∷ earlier) self.new }
        ensures stands { StandsAt (at + 1) self.new }
    {
        self.note_run(at, at + 1, now.counts, now.past);
        self.note_numbers(at, now);
    }

    // Notes whether the condition counts, and whether an operand of it is past memory, at the frames from `from` up to
    // `to`, which is not one of them, after all frames before these.
    pub(crate) fn note_run(&mut self, from: u64, to: u64, counts: bool, past: bool)
        requires counted { CountedTo from self.old }
        requires order { from ≤ to }
        requires few { to ≤ 2 ^ 60 }
        ensures noted { (held lacks : List Bool) → HasCounted held lacks self.old
            → HasCounted (replicate (to - from) counts ++ held) (replicate (to - from) past ++ lacks) self.new }
        ensures sound { IsSound self.new.columns }
        ensures rest { HasNumbersOf self.old self.new }
    {
        self.counts.note_run(from, to, counts);
        self.past.note_run(from, to, past);
        self.columns.note_run(counts, to - from);
    }

    // Notes the total and the values that the frame `at` shows, after all frames before it.
    pub(crate) fn note_numbers(&mut self, at: u64, now: Facts)
        ensures noted { (earlier : List Facts) → length earlier ≡ at → HasSeen earlier self.old
            → HasSeen (now ∷ earlier) self.new }
        ensures rest { self.new ≡ record self.old { best = self.new.best; left = self.new.left; right = self.new.right } }
    {
        self.best.note(at, now.total);
        self.left.note(now.left);
        self.right.note(now.right);
    }
}

use crate::first_lines::FirstLines;
use ra_set::Item;
use ra_text::OutOfMemory;
use std::alloc::Global;

/// The number of the first line of each id, those of each letter for themselves.
#[derive(Drop)]
pub(crate) struct Firsts {
    achievements: FirstLines,
    leaderboards: FirstLines,
}

impl Firsts {
    ghost use Rattle.std.specs.Prelude.{◌≡◌, None, Some, IfOk, if◌then◌else◌, unwrap_or};
    ghost use Rattle.ra_set.specs.Accepted.{repeats};
    ghost use Rattle.ra_set.specs.Contents.{ItemContents, item_contents};
    ghost use Rattle.ra_review.specs.Reporting.{first_by};

    /// No id.
    pub fn none(alloc: Global) -> Self
        ensures { (x : ItemContents) → first_by result x ≡ None }
    {
        Firsts {
            achievements: FirstLines::none(alloc),
            leaderboards: FirstLines::none(alloc),
        }
    }

    /// Notes the line of an item, and gives the first line with its letter and its id, which stays noted.
    pub fn note(&mut self, item: &Item, number: usize) -> Result<Option<usize>, OutOfMemory>
        ensures first { IfOk result (λ first. first ≡ first_by self.old (item_contents item.now)) }
        ensures noted { IfOk result (λ first. (x : ItemContents) → first_by self.new x
            ≡ (if repeats (item_contents item.now) x then Some (unwrap_or first number) else first_by self.old x)) }
    {
        match item {
            Item::Achievement { id, .. } => self.achievements.note(*id, number),
            Item::Leaderboard { id, .. } => self.leaderboards.note(*id, number),
        }
    }
}

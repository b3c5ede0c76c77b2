use crate::item::Item;
use crate::seen_ids::SeenIds;
use std::alloc::{AllocFailed, Global};

/// The ids of items, those of each letter for themselves.
#[derive(Drop)]
pub struct Ids {
    achievements: SeenIds,
    leaderboards: SeenIds,
}

impl Ids {
    ghost use Rattle.std.specs.Prelude.{◌≡◌, ◌||◌, false, not, IfOk, OnOk};
    ghost use Rattle.ra_set.specs.Accepted.{repeats};
    ghost use Rattle.ra_set.specs.Contents.{ItemContents, item_contents};
    ghost use Rattle.ra_set.specs.Kept.{has_id};

    /// No id.
    pub fn none(alloc: Global) -> Self
        ensures { (x : ItemContents) → has_id result x ≡ false }
    {
        Ids {
            achievements: SeenIds::none(alloc),
            leaderboards: SeenIds::none(alloc),
        }
    }

    /// Adds the id of an item, and says whether it is new among those of its letter.
    pub fn add(&mut self, item: &Item) -> Result<bool, AllocFailed<u32>>
        ensures is_new { IfOk result (λ is_new. is_new ≡ not (has_id self.old (item_contents item.now))) }
        ensures added { OnOk result
            ((x : ItemContents) → has_id self.new x ≡ (repeats (item_contents item.now) x || has_id self.old x)) }
    {
        match item {
            Item::Achievement { id, .. } => self.achievements.add(*id),
            Item::Leaderboard { id, .. } => self.leaderboards.add(*id),
        }
    }
}

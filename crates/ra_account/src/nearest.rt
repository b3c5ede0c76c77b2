ghost use Rattle.std.specs.Prelude.{◌≡◌, ◌+◌, ◌<◌, ◌≤◌, ◌^◌, ◌∷◌, ◌++◌, [], Bool, ℕ, List, length, map, sum_by, IfOk};
ghost use Rattle.ra_account.specs.Nearness.{Lack, IsNearest, nearer_by};
ghost use Rattle.ra_account.specs.Wanting.{of_alts};

use crate::gathering::{count_wanted, fewest, gather_wants};
use crate::group_account::GroupAccount;
use ra_text::OutOfMemory;
use std::alloc::Global;

/// The frame at which the fewest conditions were missing, and which: docs/DEFINITIONS.md, "Account of an
/// achievement".
#[derive(Drop)]
pub struct Nearest {
    /// The frame, counted from 0; 0 before the first one.
    pub at: u64,
    /// Whether it has a reset; true before the first frame.
    pub reset: bool,
    /// How many conditions it wants.
    pub count: u64,
    /// For each condition of the trigger whether it wants it.
    pub wants: Vec<bool>,
}

impl Nearest {
    /// Before the first frame, for this many conditions.
    pub fn new(alloc: Global, conditions: usize) -> Result<Nearest, OutOfMemory>
        ensures begun { IfOk result (IsNearest []) }
        ensures many { IfOk result (λ nearest. length nearest.wants.items ≡ conditions) }
    {
        Ok(Nearest {
            at: 0,
            reset: true,
            count: u64::MAX,
            wants: vec![in alloc; false; conditions]?,
        })
    }

    /// Notes the frame `at`, after all frames before it: whether it has a reset, and what it wants of the conditions of
    /// the core and of those of the alts.
    pub fn note(&mut self, at: u64, reset: bool, core: &GroupAccount, alts: &[GroupAccount])
        requires many { length core.now.wants.items + sum_by (λ g. length g.wants.items) alts.now
            ≡ length self.old.wants.items }
        ensures noted { (earlier : List Lack) → length earlier ≡ at → IsNearest earlier self.old → IsNearest
            (record { reset = reset; wants = core.now.wants.items ++ of_alts (map (λ g. g.wants.items) alts.now) }
            ∷ earlier) self.new }
        ensures many { length self.new.wants.items ≡ length self.old.wants.items }
    {
        let least = fewest(alts);
        let count = count_wanted(core, alts, least);
        if !is_nearer(self.reset, self.count, reset, count) {
            self.at = at;
            self.reset = reset;
            self.count = count;
            gather_wants(core, alts, least, &mut self.wants);
        }
    }
}

// Whether a frame is nearer than another, by whether each has a reset and how many conditions it wants.
fn is_nearer(reset: bool, count: u64, other_reset: bool, other_count: u64) -> bool
    ensures { result ≡ nearer_by reset count other_reset other_count }
{
    !reset && other_reset || (!reset || other_reset) && count < other_count
}

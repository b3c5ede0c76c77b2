ghost use Rattle.std.specs.Prelude.{◌≡◌, ◌==◌, ◌||◌, ℕ, [], true, not, IfOk, OnErr, OnOk};
ghost use Rattle.std.specs.BTreeSet.{contains};
ghost use Rattle.std.specs.Ordering.{nat_cmp};
ghost use Rattle.ra_set.specs.Seen.{IsBelow, is_among};

use std::alloc::{AllocFailed, Global};
use std::collections::BTreeSet;

/// Ids that came. One above all before it is new, and takes no search.
#[derive(Drop)]
pub struct SeenIds {
    // The latest ids, each above all before it.
    rising: Vec<u32>,
    // The others.
    earlier: BTreeSet<u32>,
    // Above every id.
    bound: u64,
    ghost below: { IsBelow rising.items earlier bound },
}

impl SeenIds {
    ghost use Rattle.std.specs.Prelude.{◌≡◌, ◌==◌, ◌||◌, ◌<◌, ℕ, false, not, IfOk, OnOk};
    ghost use Rattle.ra_set.specs.Seen.{is_among};

    /// No id.
    pub fn none(alloc: Global) -> Self
        ensures { (id : ℕ) → is_among result.rising.items result.earlier id ≡ false }
    {
        SeenIds {
            rising: Vec::new(alloc),
            earlier: BTreeSet::new(alloc),
            bound: 0,
        }
    }

    /// Adds an id, and says whether it is new.
    pub fn add(&mut self, id: u32) -> Result<bool, AllocFailed<u32>>
        ensures is_new { IfOk result
            (λ is_new. is_new ≡ not (is_among self.old.rising.items self.old.earlier id)) }
        ensures added { OnOk result ((x : ℕ) → is_among self.new.rising.items self.new.earlier x
            ≡ (id == x || is_among self.old.rising.items self.old.earlier x)) }
    {
        if u64::from(id) < self.bound {
            return self.add_earlier(id);
        }
        self.rising.push(id)?;
        self.bound = u64::from(id) + 1;
        Ok(true)
    }

    // Adds an id that may have come before.
    fn add_earlier(&mut self, id: u32) -> Result<bool, AllocFailed<u32>>
        requires { id < self.old.bound }
        ensures is_new { IfOk result
            (λ is_new. is_new ≡ not (is_among self.old.rising.items self.old.earlier id)) }
        ensures added { OnOk result ((x : ℕ) → is_among self.new.rising.items self.new.earlier x
            ≡ (id == x || is_among self.old.rising.items self.old.earlier x)) }
    {
        move_all(&mut self.rising, &mut self.earlier)?;
        insert(&mut self.earlier, id)
    }
}

// Moves the ids of a list into a tree. Out of memory some are lost.
fn move_all(rising: &mut Vec<u32>, earlier: &mut BTreeSet<u32>) -> Result<(), AllocFailed<u32>>
    ensures empty { OnOk result (rising.new.items ≡ []) }
    ensures same { OnOk result
        ((id : ℕ) → contains nat_cmp earlier.new id ≡ is_among rising.old.items earlier.old id) }
    ensures none_more { (id : ℕ) → is_among rising.new.items earlier.new id ≡ true
        → is_among rising.old.items earlier.old id ≡ true }
{
    while let Some(id) = rising.pop() {
        insert(earlier, id)?;
    }
    Ok(())
}

// Adds an id to a tree, and says whether it is new.
fn insert(tree: &mut BTreeSet<u32>, id: u32) -> Result<bool, AllocFailed<u32>>
    ensures is_new { IfOk result (λ is_new. is_new ≡ not (contains nat_cmp tree.old id)) }
    ensures added { OnOk result
        ((x : ℕ) → contains nat_cmp tree.new x ≡ (id == x || contains nat_cmp tree.old x)) }
    ensures err { OnErr result ((x : ℕ) → contains nat_cmp tree.new x ≡ contains nat_cmp tree.old x) }
{
    tree.insert(id)
}

//! Which items of a set are achievements of some ids.

ghost use Rattle.std.specs.Prelude.{◌≡◌, ◌==◌, ◌||◌, ℕ, map, IfOk, OnOk};
ghost use Rattle.std.specs.BTreeSet.{contains};
ghost use Rattle.std.specs.Ordering.{nat_cmp};
ghost use Rattle.ra_goals.specs.Named as spec;

use crate::goal::{Goal, GoalKind};
use ra_text::OutOfMemory;
use std::alloc::Global;
use std::collections::BTreeSet;

/// For each item, by what it aims at, whether it is an achievement whose id is among these.
pub fn named_in(alloc: Global, goals: &[Goal], ids: &[u32]) -> Result<Vec<bool>, OutOfMemory>
    ensures { IfOk result (λ named. named.items ≡ map (spec.is_named ids.now) goals.now) }
{
    let set = set_of(alloc, ids)?;
    let mut named = Vec::new(alloc);
    let mut rest = goals;
    while let Some((goal, more)) = rest.split_first() {
        named.push(matches!(goal.kind, GoalKind::Achievement) && set.contains(&goal.id))?;
        rest = more;
    }
    Ok(named)
}

// The numbers that stand in a row.
fn set_of(alloc: Global, ids: &[u32]) -> Result<BTreeSet<u32>, OutOfMemory>
    ensures { IfOk result (λ set. (id : ℕ) → contains nat_cmp set id ≡ spec.has_id ids.now id) }
{
    let mut set = BTreeSet::new(alloc);
    let mut rest = ids;
    while let Some((id, more)) = rest.split_first() {
        note(&mut set, *id)?;
        rest = more;
    }
    Ok(set)
}

// Adds a number to a set.
fn note(set: &mut BTreeSet<u32>, id: u32) -> Result<(), OutOfMemory>
    ensures { OnOk result ((key : ℕ) → contains nat_cmp set.new key ≡ (id == key || contains nat_cmp set.old key)) }
{
    set.insert(id)?;
    Ok(())
}

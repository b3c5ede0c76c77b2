//! Conditions that stand in their group twice: docs/DEFINITIONS.md, "Review of a set".

ghost use Rattle.std.specs.Prelude.{◌≡◌, ◌&&◌, ◌||◌, ℕ, List, bytes_eq, IfOk, OnOk};
ghost use Rattle.std.specs.BTreeSet.{contains};
ghost use Rattle.ra_notices.specs.Keys.{key_cmp, key_of};
ghost use Rattle.ra_notices.specs.Notices.{is_twice};
ghost use Rattle.ra_notices.specs.Noticing.{AreMarks, is_lone_after};

use crate::conditions::has_recall;
use crate::key::key_of;
use ra_condition::Condition;
use ra_text::OutOfMemory;
use std::alloc::Global;
use std::collections::BTreeSet;

/// Marks of the conditions of a group that stand there before, where both are chains by themselves.
pub(crate) fn twice_in(alloc: Global, conditions: &[Condition]) -> Result<Vec<bool>, OutOfMemory>
    ensures { IfOk result (λ twice. AreMarks twice.items (is_twice conditions.now) conditions.now) }
{
    // (no condition stands before the only one)
    if conditions.len() < 2 {
        return Ok(Vec::new(alloc));
    }
    let mut twice = Vec::with_capacity(alloc, conditions.len())?;
    let mut seen = BTreeSet::new(alloc);
    let mut chained = false;
    for condition in conditions {
        let again = note(&mut seen, is_lone(condition, chained), condition)?;
        twice.push(again)?;
        chained = condition.flag.combines();
    }
    Ok(twice)
}

// The condition is a chain by itself, by whether that before it goes on.
fn is_lone(condition: &Condition, chained: bool) -> bool
    ensures { result ≡ is_lone_after condition.now chained }
{
    !condition.flag.combines() && !chained && !has_recall(condition)
}

// Notes a condition that is a chain by itself, and says whether it was noted before.
fn note(
    seen: &mut BTreeSet<[u32; 11]>,
    lone: bool,
    condition: &Condition,
) -> Result<bool, OutOfMemory>
    ensures again { IfOk result (λ again. again ≡ (lone && contains key_cmp seen.old (key_of condition.now))) }
    ensures noted { OnOk result ((key : List ℕ) → contains key_cmp seen.new key
        ≡ (lone && bytes_eq (key_of condition.now) key || contains key_cmp seen.old key)) }
{
    if !lone {
        return Ok(false);
    }
    let is_new = seen.insert(key_of(condition))?;
    Ok(!is_new)
}

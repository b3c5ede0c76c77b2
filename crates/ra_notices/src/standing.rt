//! Which conditions reset or pause a group at each frame: docs/DEFINITIONS.md, "Review of a set".

ghost use Rattle.std.specs.Prelude.{◌≡◌, ◌+◌, ◌*◌, ◌^◌, ◌≤◌, ◌&&◌, false, length, map, slice_index_or, IfOk};
ghost use Rattle.std.specs.List.{list_any, range_with_len};
ghost use Rattle.ra_condition.specs.Chains.{places};
ghost use Rattle.ra_condition.specs.Contents.{group_contents};
ghost use Rattle.ra_condition.specs.Spelled.{IsTriggerGroup};
ghost use Rattle.ra_notices.specs.Noticing.{AreMarks, before_next, locks_at, may_lock, may_lock_after};

use ra_condition::{Condition, Group};
use ra_lint::always_hold;
use ra_text::OutOfMemory;
use std::alloc::Global;

/// Marks of the conditions of a group that are a ResetIf or a PauseIf that stands.
pub(crate) fn standing(alloc: Global, group: &Group) -> Result<Vec<bool>, OutOfMemory>
    requires spelled { IsTriggerGroup (group_contents group.now) }
    requires few { 12 * length (group_contents group.now) + 2 ≤ 2 ^ 31 }
    ensures { IfOk result (λ locks. AreMarks locks.items (locks_at (group_contents group.now)) (group_contents group.now)) }
{
    if !some_may(&group.conditions) {
        return Ok(Vec::new(alloc));
    }
    let may = may_lock(alloc, &group.conditions)?;
    let always = always_hold(alloc, group)?;
    let locks = both(alloc, &may, &always)?;
    Ok(locks)
}

// Whether some condition is a ResetIf or a PauseIf without target, with nothing before it in its chain.
fn some_may(conditions: &[Condition]) -> bool
    ensures { result ≡ list_any (may_lock conditions.now) (places conditions.now) }
{
    let mut some = false;
    let mut before = false;
    for condition in conditions {
        some |= may_lock_after(condition, before);
        before = before_next(condition, before);
    }
    some
}

// Whether each condition is a ResetIf or a PauseIf without target, with nothing before it in its chain.
fn may_lock(alloc: Global, conditions: &[Condition]) -> Result<Vec<bool>, OutOfMemory>
    ensures { IfOk result (λ may. may.items ≡ map (may_lock conditions.now) (places conditions.now)) }
{
    let mut may = Vec::with_capacity(alloc, conditions.len())?;
    let mut before = false;
    for condition in conditions {
        may.push(may_lock_after(condition, before))?;
        before = before_next(condition, before);
    }
    Ok(may)
}

// Whether the condition is a ResetIf or a PauseIf without target, and nothing stands before it.
fn may_lock_after(condition: &Condition, before: bool) -> bool
    ensures { result ≡ may_lock_after condition.now before }
{
    let locks = condition.flag.is_reset() || condition.flag.is_pause();
    locks && condition.target == 0 && !before
}

// What the next condition has before it in its chain.
fn before_next(condition: &Condition, before: bool) -> bool
    ensures { result ≡ before_next condition.now before }
{
    if condition.flag.hands_on() {
        before
    } else {
        condition.flag.combines()
    }
}

// Where both are so.
fn both(alloc: Global, first: &[bool], second: &[bool]) -> Result<Vec<bool>, OutOfMemory>
    requires { length first.now ≡ length second.now }
    ensures { IfOk result (λ all. all.items ≡ map (λ j. slice_index_or first.now j false && slice_index_or second.now j false) (range_with_len 0 (length first.now))) }
{
    let mut all = Vec::with_capacity(alloc, first.len())?;
    for (place, holds) in first.iter().enumerate() {
        all.push(*holds & second[place])?;
    }
    Ok(all)
}

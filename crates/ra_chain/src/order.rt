//! The order in which the conditions of a group pass.

ghost use Rattle.std.specs.Prelude.{◌≡◌, ◌++◌, ◌^◌, ◌<◌, length, map, filter, false, slice_index_or, IfOk, IsFalse, OnOk};
ghost use Rattle.std.specs.List.{range_with_len};
ghost use Rattle.std.specs.Bool.{beq};
ghost use Rattle.ra_condition.specs.Contents.{group_contents};
ghost use Rattle.ra_condition.specs.Chains.{in_pause_chain, places, pass_order};
ghost use Rattle.ra_chain.specs.Order.{HasNoPause};

use ra_condition::{Condition, Group};
use ra_text::OutOfMemory;
use std::alloc::Global;

/// The pass order of a group, as places in its text from 0: docs/DEFINITIONS.md, "Chains and pass
/// order". The group has fewer than 2^32 conditions.
pub fn order_of(alloc: Global, group: &Group) -> Result<Vec<u32>, OutOfMemory>
    requires { length (group_contents group.now) < 2 ^ 32 }
    ensures { IfOk result (λ order. order.items ≡ pass_order (group_contents group.now)) }
{
    let (order, _) = passes_of(alloc, &group.conditions)?;
    Ok(order)
}

/// The pass order of conditions, and how many places of it stand in pause chains, which come first.
pub fn passes_of(alloc: Global, conditions: &[Condition]) -> Result<(Vec<u32>, usize), OutOfMemory>
    requires { length conditions.now < 2 ^ 32 }
    ensures order { IfOk result (λ passes. passes.0.items ≡ pass_order conditions.now) }
    ensures pauses { IfOk result (λ passes. passes.1
        ≡ length (filter (in_pause_chain conditions.now) (places conditions.now))) }
{
    if has_pause(conditions) {
        let order = pauses_first(alloc, conditions)?;
        let pauses = pause_places(conditions, &order);
        Ok((order, pauses))
    } else {
        let order = in_text_order(alloc, conditions)?;
        Ok((order, 0))
    }
}

// Whether a condition is a PauseIf.
fn has_pause(conditions: &[Condition]) -> bool
    ensures { IsFalse result → HasNoPause conditions.now }
{
    for condition in conditions {
        if condition.flag.is_pause() {
            return true;
        }
    }
    false
}

// The places of the conditions in text order, which is the pass order where no condition pauses.
fn in_text_order(alloc: Global, conditions: &[Condition]) -> Result<Vec<u32>, OutOfMemory>
    requires { length conditions.now < 2 ^ 32 }
    ensures { IfOk result (λ order. order.items ≡ places conditions.now) }
{
    let mut order = Vec::with_capacity(alloc, conditions.len())?;
    for place in 0..conditions.len() {
        order.push(place as u32)?;
    }
    Ok(order)
}

// The places of the pause chains, and then the others.
fn pauses_first(alloc: Global, conditions: &[Condition]) -> Result<Vec<u32>, OutOfMemory>
    requires { length conditions.now < 2 ^ 32 }
    ensures { IfOk result (λ order. order.items ≡ pass_order conditions.now) }
{
    let pausing = pausing_of(alloc, conditions)?;
    let mut order = Vec::new(alloc);
    push_places(&mut order, &pausing, true)?;
    push_places(&mut order, &pausing, false)?;
    Ok(order)
}

/// Whether each condition of a group stands in a pause chain: docs/DEFINITIONS.md, "Chains and pass order".
///
/// A chain is known by its last condition.
pub fn pausing_of(alloc: Global, conditions: &[Condition]) -> Result<Vec<bool>, OutOfMemory>
    ensures { IfOk result (λ marks.
        marks.items ≡ map (in_pause_chain conditions.now) (places conditions.now)) }
{
    let mut marks = vec![in alloc; false; conditions.len()]?;
    let mut pauses = false;
    for place in (0..conditions.len()).rev() {
        let flag = conditions[place].flag;
        if !flag.combines() {
            pauses = flag.is_pause();
        }
        marks[place] = pauses;
    }
    Ok(marks)
}

// Adds the places that are marked so, in text order.
fn push_places(order: &mut Vec<u32>, marks: &[bool], marked: bool) -> Result<(), OutOfMemory>
    requires { length marks.now < 2 ^ 32 }
    ensures { OnOk result (order.new.items
        ≡ order.old.items
        ++ filter (λ j. beq (slice_index_or marks.now j false) marked) (range_with_len 0 (length marks.now))) }
{
    for (place, mark) in marks.iter().enumerate() {
        if *mark == marked {
            order.push(place as u32)?;
        }
    }
    Ok(())
}

// How many places of the pass order stand in pause chains: those up to its last PauseIf.
fn pause_places(conditions: &[Condition], order: &[u32]) -> usize
    requires { order.now ≡ pass_order conditions.now }
    ensures { result ≡ length (filter (in_pause_chain conditions.now) (places conditions.now)) }
{
    let mut pauses = 0;
    for (turn, place) in order.iter().enumerate() {
        if conditions[*place as usize].flag.is_pause() {
            pauses = turn + 1;
        }
    }
    pauses
}

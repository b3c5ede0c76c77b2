//! The trees of a group's conditions, as nodes of a pool.

ghost use Rattle.std.specs.Prelude.{◌≡◌, ℕ, ◌+◌, ◌*◌, ◌<◌, ◌≤◌, ◌^◌, List, [], ◌∷◌, Some, None, if◌then◌else◌, filter, length, IfOk, OnOk};
ghost use Rattle.ra_condition.specs.Contents.{condition_at, group_contents};
ghost use Rattle.ra_condition.specs.Flags.{is_remember};
ghost use Rattle.ra_condition.specs.Chains.{in_pause_chain, places, pass_order};
ghost use Rattle.ra_indirect.specs.declared.node.Node.{Node};
ghost use Rattle.ra_indirect.specs.Growing.{GrowsBy};
ghost use Rattle.ra_chain.specs.Elaboration.{left_of, right_of, pointer_of, sum_of, values_of};
ghost use Rattle.ra_chain.specs.Occurrence.{trees_in_group};
ghost use Rattle.ra_chain.specs.Planting.{SpellsOrZero, PlantsSum, HasRoom, IsKept};
ghost use Rattle.ra_chain.specs.Elaborates.{SpellsEach, AllJoin};
ghost use Rattle.ra_chain.specs.Sides.{JoinsValues, IsSized, IsKnownBefore, TakesCondition};

use crate::nodes::{operand_node, sum_node};
use crate::order::passes_of;
use crate::plan::GroupPlan;
use crate::sides::{Named, sides_node};
use ra_condition::{Condition, Flag, Group};
use ra_indirect::Pool;
use ra_text::OutOfMemory;
use std::alloc::Global;

/// The plan of a group, and its trees in the pool: docs/DEFINITIONS.md, "Trees of a group".
///
/// Nodes are interned in pass order, left before right, at most 12 for each condition; the nodes
/// that are there, 12 for each condition and two are together at most 2^31. Conditions that hand a
/// value on have arithmetic or no operator, as in every group that some text spells. After
/// `OutOfMemory` the pool keeps what it has.
pub fn elaborate(alloc: Global, group: &Group, pool: &mut Pool) -> Result<GroupPlan, OutOfMemory>
    requires few { length (group_contents group.now) < 2 ^ 32 }
    requires room { length pool.old + 12 * length (group_contents group.now) + 2 ≤ 2 ^ 31 }
    requires joins { AllJoin (group_contents group.now) }

    ensures order { IfOk result (λ plan. plan.order.items ≡ pass_order (group_contents group.now)) }
    ensures pauses { IfOk result (λ plan. plan.pauses.items
        ≡ length (filter (in_pause_chain (group_contents group.now)) (places (group_contents group.now))) ∷ []) }
    ensures lefts { IfOk result (λ plan. SpellsEach pool.new plan.lefts.items
        (length (group_contents group.now)) (left_of (group_contents group.now))) }
    ensures rights { IfOk result (λ plan. SpellsEach pool.new plan.rights.items
        (length (group_contents group.now)) (right_of (group_contents group.now))) }

    // New cells and new tracked masks come in order of first occurrence.
    ensures grows { OnOk result (GrowsBy pool.old pool.new (trees_in_group (group_contents group.now))) }
    ensures kept { IsKept pool.old pool.new (12 * length (group_contents group.now))
        (2 * length (group_contents group.now)) (2 * length (group_contents group.now)) }
{
    // This call tells that the nodes are those of a pool, which the proof needs.
    let _ = pool.len();
    let (order, pauses) = passes_of(alloc, &group.conditions)?;
    let pauses = pauses as u32;
    let pauses = vec![in alloc; pauses; 1]?;
    let mut passed = Passed::new(alloc, group.conditions.len())?;
    take_conditions(&mut passed, pool, &group.conditions, &order)?;
    let Passed { lefts, rights, .. } = passed;
    Ok(GroupPlan {
        order,
        pauses,
        lefts,
        rights,
    })
}

// Takes up the conditions in their order.
fn take_conditions(
    passed: &mut Passed,
    pool: &mut Pool,
    conditions: &[Condition],
    order: &[u32],
) -> Result<(), OutOfMemory>
    requires room { HasRoom pool.old (12 * length conditions.now) }
    requires order { order.now ≡ pass_order conditions.now }
    requires joins { AllJoin conditions.now }
    requires sized { IsSized passed.old (length conditions.now) }
    requires none { passed.old.recalled ≡ None }

    ensures lefts { OnOk result (SpellsEach pool.new passed.new.lefts.items (length conditions.now) (left_of conditions.now)) }
    ensures rights { OnOk result (SpellsEach pool.new passed.new.rights.items (length conditions.now) (right_of conditions.now)) }
    ensures grows { OnOk result (GrowsBy pool.old pool.new (trees_in_group conditions.now)) }
    ensures kept { IsKept pool.old pool.new (12 * length conditions.now)
        (2 * length conditions.now) (2 * length conditions.now) }
{
    for place in order {
        passed.take_condition(pool, conditions, *place as usize)?;
    }
    Ok(())
}

/// The nodes of the conditions that passed: their trees, their sums, and the value last remembered.
#[derive(Drop)]
pub struct Passed {
    /// The node of the left tree of each condition in text order.
    pub lefts: Vec<u32>,
    /// The node of the right tree of each condition in text order.
    pub rights: Vec<u32>,
    /// The node of the sum before the condition that passed last, if there is one.
    pub sum: Option<u32>,
    /// The node of the value last remembered, if one was.
    pub recalled: Option<u32>,
}

impl Passed {
    // No condition passed yet.
    fn new(alloc: Global, count: usize) -> Result<Passed, OutOfMemory>
        ensures sized { IfOk result (λ passed. IsSized passed count) }
        ensures none { IfOk result (λ passed. passed.recalled ≡ None) }
    {
        let lefts = vec![in alloc; 0; count]?;
        let rights = vec![in alloc; 0; count]?;
        Ok(Passed {
            lefts,
            rights,
            sum: None,
            recalled: None,
        })
    }

    // Takes up a condition: its trees, its sum, and what it remembers.
    fn take_condition(
        &mut self,
        pool: &mut Pool,
        conditions: &[Condition],
        place: usize,
    ) -> Result<(), OutOfMemory>
        requires room { HasRoom pool.old 12 }
        requires within { place < length conditions.now }
        requires joins { JoinsValues (condition_at conditions.now place) }
        requires sized { IsSized self.old (length conditions.now) }
        requires known { IsKnownBefore conditions.now place self.old pool.old }

        ensures ok { OnOk result (TakesCondition conditions.now place self.old self.new pool.old pool.new) }
        ensures sized { IsSized self.new (length conditions.now) }
        ensures kept { IsKept pool.old pool.new 12 2 2 }
    {
        let condition = &conditions[place];
        let named = Named {
            pointer: self.pointer_at(conditions, place),
            recalled: self.recalled,
        };
        let sum = self.sum_at(pool, conditions, place)?;
        let left = operand_node(pool, condition.left, named.pointer, named.recalled)?;
        let (left, right) = sides_node(pool, condition, sum, left, named)?;
        self.lefts[place] = left;
        self.rights[place] = right;
        self.sum = sum;
        self.recalled = recalled_after(condition.flag, left, self.recalled);
        Ok(())
    }

    // The node of the value by which the cells of a condition move.
    fn pointer_at(&self, conditions: &[Condition], place: usize) -> Option<u32>
        requires within { place < length conditions.now }
        requires sized { IsSized self.now (length conditions.now) }
        ensures { (nodes : List Node) → IsKnownBefore conditions.now place self.now nodes
            → SpellsOrZero nodes result (pointer_of conditions.now (values_of conditions.now) place) }
    {
        if place == 0 {
            return None;
        }
        match conditions[place - 1].flag {
            Flag::AddAddress => Some(self.lefts[place - 1]),
            _ => None,
        }
    }

    // The node of a condition's sum.
    fn sum_at(
        &self,
        pool: &mut Pool,
        conditions: &[Condition],
        place: usize,
    ) -> Result<Option<u32>, OutOfMemory>
        requires room { HasRoom pool.old 2 }
        requires within { place < length conditions.now }
        requires sized { IsSized self.now (length conditions.now) }
        requires known { IsKnownBefore conditions.now place self.now pool.old }
        ensures ok { IfOk result (PlantsSum pool.old pool.new (sum_of conditions.now (values_of conditions.now) place)) }
        ensures kept { IsKept pool.old pool.new 2 0 0 }
    {
        if place == 0 {
            return Ok(None);
        }
        let before = place - 1;
        let sum = sum_node(pool, conditions[before].flag, self.lefts[before], self.sum)?;
        Ok(sum)
    }
}

// The value last remembered after a condition.
fn recalled_after(flag: Flag, value: u32, before: Option<u32>) -> Option<u32>
    ensures { result ≡ (if is_remember flag then Some value else before) }
{
    match flag {
        Flag::Remember => Some(value),
        _ => before,
    }
}

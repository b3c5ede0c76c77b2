//! The cells and tracked masks of groups, put into a pool.

ghost use Rattle.std.specs.Prelude.{◌≡◌, ◌+◌, ◌*◌, ◌<◌, ◌≤◌, ◌^◌, true, [], ◌∷◌, length, IfOk, OnOk};
ghost use Rattle.ra_condition.specs.Contents.{group_contents};
ghost use Rattle.ra_condition.specs.Chains.{pass_order};
ghost use Rattle.ra_indirect.specs.Trees.{constant, view};
ghost use Rattle.ra_indirect.specs.Pools.{Spells};
ghost use Rattle.ra_indirect.specs.Interned.{IsPool};
ghost use Rattle.ra_indirect.specs.Growing.{GrowsBy};
ghost use Rattle.ra_chain.specs.Elaboration.{operand_tree};
ghost use Rattle.ra_chain.specs.Elaborates.{AllJoin};
ghost use Rattle.ra_chain.specs.Occurrence.{trees_in_group};
ghost use Rattle.ra_chain.specs.Planting.{IsKept};
ghost use Rattle.ra_member.specs.Plans.{GrowsWithin};
ghost use Rattle.ra_counts.specs.Plain.{HandNothingOn};

use ra_chain::{elaborate, order_of};
use ra_condition::{Condition, Group};
use ra_indirect::{Node, Pool};
use ra_operand::{Kind, Operand, Size, width};
use ra_text::OutOfMemory;
use std::alloc::Global;

// The trees of a group, put into a pool as far as they have cells and tracked masks. A group of which no condition hands
// a value on has operands alone, and needs no plan.
pub(crate) fn plant_group(alloc: Global, group: &Group, pool: &mut Pool) -> Result<(), OutOfMemory>
    requires joins { AllJoin (group_contents group.now) }
    requires room { length pool.old + 13 * length (group_contents group.now) + 2 ≤ 2 ^ 31 }
    ensures { OnOk result (GrowsWithin pool.old pool.new (trees_in_group (group_contents group.now))
        (length (group_contents group.now))) }
{
    if group.conditions.is_empty() {
        return plant_nothing(pool);
    }
    if hand_nothing_on(&group.conditions) {
        plant_operands(alloc, group, pool)
    } else {
        let _plan = elaborate(alloc, group, pool)?;
        Ok(())
    }
}

// Whether no condition hands a value on.
fn hand_nothing_on(conditions: &[Condition]) -> bool
    ensures { result ≡ true → HandNothingOn conditions.now }
{
    for condition in conditions {
        if condition.flag.hands_on() {
            return false;
        }
    }
    true
}

// The operands of conditions of which none hands a value on, in pass order, left before right.
fn plant_operands(alloc: Global, group: &Group, pool: &mut Pool) -> Result<(), OutOfMemory>
    requires some { 1 ≤ length (group_contents group.now) }
    requires plain { HandNothingOn (group_contents group.now) }
    requires room { length pool.old + 13 * length (group_contents group.now) + 2 ≤ 2 ^ 31 }
    ensures { OnOk result (GrowsWithin pool.old pool.new (trees_in_group (group_contents group.now))
        (length (group_contents group.now))) }
{
    let zero = zero_node(pool)?;
    let order = order_of(alloc, group)?;
    plant_in_order(pool, &group.conditions, &order, zero)
}

// The same, in this order, where a node spells the constant 0.
fn plant_in_order(
    pool: &mut Pool,
    conditions: &[Condition],
    order: &[u32],
    zero: u32,
) -> Result<(), OutOfMemory>
    requires pool { IsPool pool.old }
    requires order { order.now ≡ pass_order conditions.now }
    requires plain { HandNothingOn conditions.now }
    requires room { length pool.old + 4 * length conditions.now ≤ 2 ^ 31 }
    requires zero { Spells pool.old zero (constant 0) }
    ensures grows { OnOk result (GrowsBy pool.old pool.new (trees_in_group conditions.now)) }
    ensures kept { OnOk result (IsKept pool.old pool.new (4 * length conditions.now)
        (2 * length conditions.now) (2 * length conditions.now)) }
{
    for place in order {
        plant_condition(pool, conditions[*place as usize], zero)?;
    }
    Ok(())
}

// Both operands of a condition, left before right.
fn plant_condition(pool: &mut Pool, condition: Condition, zero: u32) -> Result<(), OutOfMemory>
    requires pool { IsPool pool.old }
    requires room { length pool.old + 4 ≤ 2 ^ 31 }
    requires zero { Spells pool.old zero (constant 0) }
    ensures grows { OnOk result (GrowsBy pool.old pool.new (operand_tree condition.left (constant 0) (constant 0)
        ∷ operand_tree condition.right (constant 0) (constant 0) ∷ [])) }
    ensures kept { OnOk result (IsKept pool.old pool.new 4 2 2) }
{
    plant_operand(pool, condition.left, zero)?;
    plant_operand(pool, condition.right, zero)
}

// The node of the constant 0.
fn zero_node(pool: &mut Pool) -> Result<u32, OutOfMemory>
    requires room { length pool.old < 2 ^ 31 }
    ensures zero { IfOk result (λ zero. Spells pool.new zero (constant 0)) }
    ensures grows { OnOk result (GrowsBy pool.old pool.new []) }
    ensures kept { OnOk result (IsKept pool.old pool.new 1 0 0) }
{
    // This call tells that the nodes are those of a pool, which the proof needs.
    let _ = pool.len();
    let zero = pool.intern(Node::Const(0))?;
    Ok(zero)
}

// The cell of an operand, and its tracked mask where it has one.
fn plant_operand(pool: &mut Pool, operand: Operand, zero: u32) -> Result<(), OutOfMemory>
    requires pool { IsPool pool.old }
    requires room { length pool.old + 2 ≤ 2 ^ 31 }
    requires zero { Spells pool.old zero (constant 0) }
    ensures grows { OnOk result (GrowsBy pool.old pool.new (operand_tree operand (constant 0) (constant 0) ∷ [])) }
    ensures kept { OnOk result (IsKept pool.old pool.new 2 1 1) }
{
    match operand {
        Operand::Cell(kind, size, address) => plant_view(pool, kind, size, address, zero),
        _ => Ok(()),
    }
}

// The cell of a view, and the view itself where it looks at a prior, which tracks a mask.
fn plant_view(
    pool: &mut Pool,
    kind: Kind,
    size: Size,
    address: u32,
    zero: u32,
) -> Result<(), OutOfMemory>
    requires pool { IsPool pool.old }
    requires room { length pool.old + 2 ≤ 2 ^ 31 }
    requires zero { Spells pool.old zero (constant 0) }
    ensures grows { OnOk result (GrowsBy pool.old pool.new (view kind size (constant 0) address ∷ [])) }
    ensures kept { OnOk result (IsKept pool.old pool.new 2 1 1) }
{
    let cell = pool.intern(Node::Cell {
        pointer: zero,
        offset: address,
        width: width(size),
    })?;
    match kind {
        Kind::Prior => {
            let _view = pool.intern(Node::View { kind, size, cell })?;
            Ok(())
        }
        _ => Ok(()),
    }
}

// A group without conditions has no trees.
fn plant_nothing(pool: &mut Pool) -> Result<(), OutOfMemory>
    ensures { OnOk result (GrowsWithin pool.old pool.new [] 0) }
{
    // This call tells that the nodes are those of a pool, which the proof needs.
    let _ = pool.len();
    Ok(())
}

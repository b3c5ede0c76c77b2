//! Plans of triggers and values, with their trees put into a pool.

ghost use Rattle.std.specs.Prelude.{◌≡◌, ◌+◌, ◌*◌, ◌≤◌, ◌^◌, List, [], ◌∷◌, ◌++◌, length, IfOk};
ghost use Rattle.std.specs.Result.{OnOk};
ghost use Rattle.ra_condition.specs.declared.condition.Condition.{Condition};
ghost use Rattle.ra_condition.specs.Contents.{group_contents, trigger_contents, groups_of, trigger_hits, PartContents, part_contents, value_contents};
ghost use Rattle.ra_condition.specs.Spelled.{IsTrigger, IsPart, IsValue};
ghost use Rattle.ra_chain.specs.Elaborates.{AllJoin};
ghost use Rattle.ra_chain.specs.Occurrence.{trees_in_group, trees_in_trigger, trees_in_part, trees_in_value};
ghost use Rattle.ra_set.specs.Limits.{part_conditions, value_conditions};
ghost use Rattle.ra_member.specs.Laid.{plan_rows};
ghost use Rattle.ra_member.specs.Plans.{IsPlan, IsValuePlan, GrowsWithin};

use ra_chain::{GroupPlan, elaborate, elaborate_terms};
use ra_condition::{Group, Part, TriggerText, ValueText};
use ra_indirect::Pool;
use ra_text::OutOfMemory;
use std::alloc::Global;

/// The plan of a value: that of its condition parts, one after the other, and the node of each legacy sum.
#[derive(Drop)]
pub(crate) struct ValuePlan {
    pub groups: GroupPlan,
    /// An entry for each part; none for a condition part.
    pub sums: Vec<Option<u32>>,
}

// The plan of a trigger, the core group's first.
pub(crate) fn trigger_plan(
    alloc: Global,
    text: &TriggerText,
    pool: &mut Pool,
) -> Result<GroupPlan, OutOfMemory>
    requires spelled { IsTrigger (trigger_contents text.now) }
    requires room { length pool.old + 13 * trigger_hits (trigger_contents text.now) + 2 ≤ 2 ^ 31 }
    ensures plan { IfOk result (λ plan. IsPlan pool.new (groups_of (trigger_contents text.now)) (plan_rows plan)) }
    ensures grows { OnOk result (GrowsWithin pool.old pool.new (trees_in_trigger (trigger_contents text.now))
        (trigger_hits (trigger_contents text.now))) }
{
    let mut plan = group_plan(alloc, &text.core, pool)?;
    for alt in &text.alts {
        put_group(alloc, &mut plan, alt, pool)?;
    }
    Ok(plan)
}

// The plan of no groups.
fn no_groups(alloc: Global) -> GroupPlan
    ensures order { result.order.items ≡ [] }
    ensures pauses { result.pauses.items ≡ [] }
    ensures lefts { result.lefts.items ≡ [] }
    ensures rights { result.rights.items ≡ [] }
{
    GroupPlan {
        order: Vec::new(alloc),
        pauses: Vec::new(alloc),
        lefts: Vec::new(alloc),
        rights: Vec::new(alloc),
    }
}

// The plan of one group.
fn group_plan(alloc: Global, group: &Group, pool: &mut Pool) -> Result<GroupPlan, OutOfMemory>
    requires joins { AllJoin (group_contents group.now) }
    requires room { length pool.old + 13 * length (group_contents group.now) + 2 ≤ 2 ^ 31 }
    ensures plan { IfOk result (λ plan. IsPlan pool.new (group_contents group.now ∷ []) (plan_rows plan)) }
    ensures grows { OnOk result (GrowsWithin pool.old pool.new (trees_in_group (group_contents group.now))
        (length (group_contents group.now))) }
{
    let plan = elaborate(alloc, group, pool)?;
    Ok(plan)
}

// Puts the plan of a group after that of the groups before it.
fn put_group(
    alloc: Global,
    plan: &mut GroupPlan,
    group: &Group,
    pool: &mut Pool,
) -> Result<(), OutOfMemory>
    requires joins { AllJoin (group_contents group.now) }
    requires room { length pool.old + 13 * length (group_contents group.now) + 2 ≤ 2 ^ 31 }
    ensures plan { OnOk result ((groups : List (List Condition)) → IsPlan pool.old groups (plan_rows plan.old)
        → IsPlan pool.new (groups ++ group_contents group.now ∷ []) (plan_rows plan.new)) }
    ensures grows { OnOk result (GrowsWithin pool.old pool.new (trees_in_group (group_contents group.now))
        (length (group_contents group.now))) }
{
    let added = elaborate(alloc, group, pool)?;
    plan.order.extend_from_slice(&added.order)?;
    plan.pauses.extend_from_slice(&added.pauses)?;
    plan.lefts.extend_from_slice(&added.lefts)?;
    plan.rights.extend_from_slice(&added.rights)?;
    Ok(())
}

// The plan of a value.
pub(crate) fn value_plan(
    alloc: Global,
    text: &ValueText,
    pool: &mut Pool,
) -> Result<ValuePlan, OutOfMemory>
    requires spelled { IsValue (value_contents text.now) }
    requires room { length pool.old + 13 * value_conditions (value_contents text.now) + 2 ≤ 2 ^ 31 }
    ensures plan { IfOk result (IsValuePlan pool.new (value_contents text.now)) }
    ensures grows { OnOk result (GrowsWithin pool.old pool.new (trees_in_value (value_contents text.now))
        (value_conditions (value_contents text.now))) }
{
    let mut plan = ValuePlan {
        groups: no_groups(alloc),
        sums: Vec::new(alloc),
    };
    // This call tells that the nodes are those of a pool, which the proof needs.
    let _ = pool.len();
    for part in &text.parts {
        put_part(alloc, &mut plan, part, pool)?;
    }
    Ok(plan)
}

// Puts the plan of a part after that of the parts before it.
fn put_part(
    alloc: Global,
    plan: &mut ValuePlan,
    part: &Part,
    pool: &mut Pool,
) -> Result<(), OutOfMemory>
    requires spelled { IsPart (part_contents part.now) }
    requires room { length pool.old + 13 * part_conditions (part_contents part.now) + 2 ≤ 2 ^ 31 }
    ensures plan { OnOk result ((parts : List PartContents) → IsValuePlan pool.old parts plan.old
        → IsValuePlan pool.new (parts ++ part_contents part.now ∷ []) plan.new) }
    ensures grows { OnOk result (GrowsWithin pool.old pool.new (trees_in_part (part_contents part.now))
        (part_conditions (part_contents part.now))) }
{
    match part {
        Part::Terms(terms) => {
            let sum = elaborate_terms(alloc, terms, pool)?;
            plan.groups.pauses.push(0)?;
            plan.sums.push(Some(sum))?;
            Ok(())
        }
        Part::Conditions(group) => {
            put_group(alloc, &mut plan.groups, group, pool)?;
            plan.sums.push(None)?;
            Ok(())
        }
    }
}

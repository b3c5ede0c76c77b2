//! The pass orders of a trigger's groups.

ghost use Rattle.std.specs.Prelude.{◌≡◌, ◌≤◌, ◌∷◌, ◌++◌, [], length, IfOk};
ghost use Rattle.std.specs.Result.{OnOk};
ghost use Rattle.ra_condition.specs.Contents.{group_contents, trigger_contents};
ghost use Rattle.ra_condition.specs.Chains.{pass_order};
ghost use Rattle.ra_group.specs.Along as spec;
ghost use Rattle.ra_explain.specs.Replays.{AreOrders};

use ra_chain::order_of;
use ra_condition::{Condition, Group, TriggerText};
use ra_text::OutOfMemory;
use std::alloc::Global;

/// The pass order of each group, one after the other, and how many conditions of each stand in pause chains.
#[derive(Drop)]
pub(crate) struct Orders {
    pub order: Vec<u32>,
    pub pauses: Vec<u32>,
}

// The pass orders of a trigger, the core group's first.
pub(crate) fn orders_of(alloc: Global, text: &TriggerText) -> Result<Orders, OutOfMemory>
    ensures { IfOk result (AreOrders (trigger_contents text.now)) }
{
    let mut orders = Orders {
        order: Vec::new(alloc),
        pauses: Vec::new(alloc),
    };
    put_group(alloc, &mut orders, &text.core)?;
    for alt in &text.alts {
        put_group(alloc, &mut orders, alt)?;
    }
    Ok(orders)
}

// Puts the pass order of a group after the others.
fn put_group(alloc: Global, orders: &mut Orders, group: &Group) -> Result<(), OutOfMemory>
    ensures order { OnOk result (orders.new.order.items
        ≡ orders.old.order.items ++ pass_order (group_contents group.now)) }
    ensures pauses { OnOk result (orders.new.pauses.items
        ≡ orders.old.pauses.items ++ spec.pause_count (group_contents group.now) ∷ []) }
{
    if group.conditions.len() > u32::MAX as usize {
        return Err(OutOfMemory);
    }
    let order = order_of(alloc, group)?;
    orders.order.extend_from_slice(&order)?;
    orders.pauses.push(pause_count(&group.conditions) as u32)?;
    Ok(())
}

// How many conditions stand in pause chains. A chain is known by its last condition.
fn pause_count(conditions: &[Condition]) -> usize
    ensures counted { result ≡ spec.pause_count conditions.now }
    ensures few { result ≤ length conditions.now }
{
    let mut count = 0;
    let mut pauses = false;
    for place in (0..conditions.len()).rev() {
        let flag = conditions[place].flag;
        if !flag.combines() {
            pauses = flag.is_pause();
        }
        if pauses {
            count += 1;
        }
    }
    count
}

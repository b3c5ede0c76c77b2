//! Pass orders, from the rules.

use crate::given::with;
use ra_chain::order_of;
use ra_condition::{Flag, Group};
use ra_operand::Op;
use ra_text::OutOfMemory;
use std::alloc::{AllocError, Global};

// A group of conditions of these flags.
fn group_of(alloc: Global, flags: &[Flag]) -> Result<Group, AllocError> {
    let mut conditions = Vec::new(alloc);
    for flag in flags {
        conditions.push(with(*flag, Op::Eq, 0))?;
    }
    Ok(Group { conditions })
}

// Whether a group of this many conditions has this pass order.
fn has_order(alloc: Global, group: &Group, count: usize, wanted: &[u32]) -> bool {
    if count > 3 || group.conditions.len() != count {
        return false;
    }
    match order_of(alloc, group) {
        Ok(order) => order.as_slice() == wanted,
        Err(OutOfMemory) => false,
    }
}

// Whether conditions of these flags pass in this order.
fn pass_so(alloc: Global, flags: &[Flag], wanted: &[u32]) -> Result<bool, AllocError> {
    let group = group_of(alloc, flags)?;
    Ok(has_order(alloc, &group, flags.len(), wanted))
}

// Flags of conditions, and their pass order.
const ORDERS: &[(&[Flag], &[u32])] = &[
    (&[Flag::Plain, Flag::Remember, Flag::PauseIf], &[1, 2, 0]),
    (&[Flag::PauseIf, Flag::AddHits, Flag::AndNext], &[0, 1, 2]),
    (&[Flag::AndNext, Flag::ResetIf, Flag::PauseIf], &[2, 0, 1]),
    (
        &[Flag::AddAddress, Flag::AddSource, Flag::PauseIf],
        &[0, 1, 2],
    ),
    (&[Flag::ResetIf, Flag::PauseIf, Flag::Remember], &[1, 0, 2]),
];

// The place of the first of these flags that pass in another order.
fn other_order(alloc: Global, rows: &[(&[Flag], &[u32])]) -> Result<Option<usize>, AllocError> {
    for (place, (flags, wanted)) in rows.iter().enumerate() {
        if !pass_so(alloc, *flags, *wanted)? {
            return Ok(Some(place));
        }
    }
    Ok(None)
}

#[test]
fn pause_chains_pass_first(rt: HostRuntime) -> Result<(), AllocError> {
    assert_eq!(rt; other_order(rt.alloc(), ORDERS)?, None);
    Ok(())
}

#[test]
fn an_empty_group_has_an_empty_order(rt: HostRuntime) -> Result<(), AllocError> {
    assert!(rt; pass_so(rt.alloc(), &[], &[])?);
    Ok(())
}

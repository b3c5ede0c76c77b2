//! The equations of a condition, one function each: docs/DEFINITIONS.md, "Equations of a condition".

ghost use Rattle.std.specs.Prelude.{◌≡◌, ◌^◌, false, ℤ, pos, ◌+ℤ◌, ◌≤ℤ◌};
ghost use Rattle.ra_group.specs.Equations.{met, reset_by, hits_after, valid_alone, add_by, clamped, valid_by};
ghost use Rattle.ra_group.specs.Bounds.{AddWithin};

use crate::settled::Settled;
use ra_condition::{Condition, Flag};

/// Whether the condition is met, by the flag and the validity of the one before.
pub fn is_met(before: Option<Settled>, truth: bool) -> bool
    ensures { result ≡ met before truth }
{
    match before {
        None => truth,
        Some(before) => match before.flag {
            Flag::AndNext => before.valid && truth,
            Flag::OrNext => before.valid || truth,
            _ => truth,
        },
    }
}

/// Whether a ResetNextIf reaches the condition.
pub fn is_reset(before: Option<Settled>) -> bool
    ensures { result ≡ reset_by before }
{
    match before {
        None => false,
        Some(before) => match before.flag {
            Flag::ResetNextIf => before.valid,
            Flag::AndNext | Flag::OrNext => before.reset,
            _ => false,
        },
    }
}

/// The hits after the frame: they rest at their target.
pub fn hits_after(reset: bool, is_met: bool, target: u32, hits: u32) -> u32
    ensures { result ≡ hits_after reset is_met target hits }
{
    if reset {
        0
    } else if is_met && (target == 0 || hits < target) {
        hits.saturating_add(1)
    } else {
        hits
    }
}

/// The hits after the frame of a condition without a target that nothing resets.
pub fn more_hits(is_met: bool, hits: u32) -> u32
    ensures { result ≡ hits_after false is_met 0 hits }
{
    hits.saturating_add(u32::from(is_met))
}

/// Whether the condition is valid by itself.
pub fn is_valid_alone(reset: bool, is_met: bool, target: u32, hit: u32) -> bool
    ensures { result ≡ valid_alone reset is_met target hit }
{
    !reset && (if target == 0 { is_met } else { target <= hit })
}

/// The hits that the chain adds, or takes away.
pub fn added(before: Option<Settled>) -> i128
    requires { AddWithin (2 ^ 65) before }
    ensures { result ≡ add_by before }
{
    match before {
        None => 0,
        Some(before) => match before.flag {
            Flag::AddHits => before.add + i128::from(before.hit),
            Flag::SubHits => before.add - i128::from(before.hit),
            _ => before.add,
        },
    }
}

/// All hits together, at least 0 and at most the greatest `u32`.
pub fn total(hit: u32, add: i128) -> u32
    requires low { pos 0 ≤ℤ (add +ℤ pos (2 ^ 66)) }
    requires high { add ≤ℤ pos (2 ^ 66) }
    ensures { result ≡ clamped (pos hit +ℤ add) }
{
    (i128::from(hit) + add).clamp(0, i128::from(u32::MAX)) as u32
}

/// Whether the condition is valid: by its target where it has one and its chain ends with it.
pub fn is_valid(condition: &Condition, total: u32, alone: bool) -> bool
    ensures { result ≡ valid_by condition.now.flag condition.now.target total alone }
{
    if condition.flag.combines() || condition.target == 0 {
        alone
    } else {
        condition.target <= total
    }
}

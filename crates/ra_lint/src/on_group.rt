//! The warnings on a group, and whether it is ever valid.

ghost use Rattle.std.specs.Prelude.{◌≡◌, ◌≤◌, ◌++◌, length, map, IfOk, OnOk};
ghost use Rattle.ra_condition.specs.Chains.{places};
ghost use Rattle.ra_condition.specs.Contents.{group_contents};
ghost use Rattle.ra_condition.specs.Spelled.{IsTriggerGroup};
ghost use Rattle.ra_set.specs.Limits.{most_conditions};
ghost use Rattle.ra_lint.specs.Chances.{is_dead};
ghost use Rattle.ra_lint.specs.Judging.{verdict_at};
ghost use Rattle.ra_lint.specs.Warnings.{group_warnings, may_hold};

use crate::chance::Chance;
use crate::judged::Judged;
use crate::judging::judge_group;
use crate::rows::{Spot, put_warnings};
use crate::verdict::Verdict;
use crate::warning::Warning;
use ra_condition::{Condition, Group};
use ra_text::OutOfMemory;
use std::alloc::Global;

/// Puts the warnings on the conditions of a group, and says whether the group is never valid.
pub(crate) fn lint_group(
    alloc: Global,
    found: &mut Vec<Warning>,
    spot: Spot,
    group: &Group,
) -> Result<bool, OutOfMemory>
    requires spelled { IsTriggerGroup (group_contents group.now) }
    requires few { length (group_contents group.now) ≤ most_conditions }
    ensures dead { IfOk result (λ dead.
        dead ≡ is_dead (group_contents group.now) (may_hold (group_contents group.now))) }
    ensures all { OnOk result (found.new.items ≡ found.old.items
        ++ group_warnings spot.item spot.place spot.group (group_contents group.now)) }
{
    let verdicts = judge_group(alloc, group)?;
    pass_conditions(found, spot, &group.conditions, &verdicts)
}

// The pass over the conditions in text order, with what stands before each of them in its chain.
fn pass_conditions(
    found: &mut Vec<Warning>,
    spot: Spot,
    conditions: &[Condition],
    verdicts: &[Verdict],
) -> Result<bool, OutOfMemory>
    requires few { length conditions.now ≤ most_conditions }
    requires verdicts { verdicts.now ≡ map (verdict_at conditions.now) (places conditions.now) }
    ensures dead { IfOk result (λ dead. dead ≡ is_dead conditions.now (may_hold conditions.now)) }
    ensures all { OnOk result (found.new.items
        ≡ found.old.items ++ group_warnings spot.item spot.place spot.group conditions.now) }
{
    let mut before = None;
    let mut dead = false;
    for (place, condition) in conditions.iter().enumerate() {
        let verdict = verdicts[place];
        let here = Chance::of(condition, !verdict.never, before);
        let judged = Judged {
            verdict,
            chance: here,
        };
        put_warnings(found, spot, place as u32, condition, judged)?;
        let lost = here.is_lost();
        dead |= lost;
        before = here.seen_next(condition, before);
    }
    Ok(dead)
}

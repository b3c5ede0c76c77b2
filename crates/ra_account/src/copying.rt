//! Copies of accounts, as a save slot keeps one.

ghost use Rattle.std.specs.Prelude.{◌≡◌, ℕ, List, length, IfOk};
ghost use Rattle.ra_account.specs.Copies.{AreColumnsOf, IsAccountLike, IsNearestLike};
ghost use Rattle.ra_account.specs.Groups.{AllFit, AllGroupsStandAt, AreGroupAccounts, FitsGroup, GroupRow, GroupStandsAt, IsGroupAccount};
ghost use Rattle.ra_account.specs.Running.{AllRunAt, AreRunning, IsRunning, RunsAt};
ghost use Rattle.ra_account.specs.Triggers.{IsReady, IsTriggerAccount, TriggerRow};
ghost use Rattle.ra_account.specs.declared.facts.Facts.{Facts};
ghost use Rattle.ra_condition.specs.Contents.{TriggerContents};
ghost use Rattle.ra_condition.specs.declared.condition.Condition.{Condition};

use crate::columns::Columns;
use crate::condition::ConditionAccount;
use crate::group_account::{GroupAccount, NO_SIGHT, NO_STANDING};
use crate::mark::Mark;
use crate::nearest::Nearest;
use crate::running::Running;
use crate::trigger_account::TriggerAccount;
use ra_text::OutOfMemory;
use std::alloc::Global;

// A copy of some marks.
fn copy_marks(alloc: Global, marks: &[Mark]) -> Result<Vec<Mark>, OutOfMemory>
    ensures { IfOk result (λ copy. copy.items ≡ marks.now) }
{
    let mut copy = Vec::new(alloc);
    for mark in marks {
        copy.push(*mark)?;
    }
    Ok(copy)
}

// A copy of columns.
fn copy_columns(alloc: Global, columns: &Columns) -> Result<Columns, OutOfMemory>
    ensures { IfOk result (AreColumnsOf columns.now) }
{
    Ok(Columns {
        width: columns.width,
        full: columns.full,
        begun: columns.begun,
        marks: copy_marks(alloc, &columns.marks)?,
    })
}

// A copy of the account of a condition.
pub(crate) fn copy_account(
    alloc: Global,
    account: &ConditionAccount,
) -> Result<ConditionAccount, OutOfMemory>
    ensures { IfOk result (IsAccountLike account.now) }
{
    let columns = copy_columns(alloc, &account.columns)?;
    Ok(ConditionAccount {
        counts: account.counts,
        past: account.past,
        best: account.best,
        left: account.left,
        right: account.right,
        columns,
    })
}

// A copy of the account of a condition with what is still to be counted.
fn copy_running(alloc: Global, running: &Running) -> Result<Running, OutOfMemory>
    ensures same { (frames : List Facts) → IsRunning frames running.now → IfOk result (IsRunning frames) }
    ensures stands { (count : ℕ) → RunsAt count running.now → IfOk result (RunsAt count) }
{
    let account = copy_account(alloc, &running.account)?;
    Ok(Running {
        account,
        since: running.since,
        counts: running.counts,
        past: running.past,
    })
}

// Copies of the accounts of several conditions.
pub(crate) fn copy_accounts(
    alloc: Global,
    accounts: &[Running],
) -> Result<Vec<Running>, OutOfMemory>
    ensures many { IfOk result (λ copy. length copy.items ≡ length accounts.now) }
    ensures same { (frames : ℕ → List Facts) → AreRunning frames accounts.now
        → IfOk result (λ copy. AreRunning frames copy.items) }
    ensures stand { (count : ℕ) → AllRunAt count accounts.now
        → IfOk result (λ copy. AllRunAt count copy.items) }
{
    let mut copy = Vec::new(alloc);
    for account in accounts {
        copy.push(copy_running(alloc, account)?)?;
    }
    Ok(copy)
}

// A copy of the accounts of a group's conditions; what the last frame showed of them is not kept.
fn copy_group(alloc: Global, group: &GroupAccount) -> Result<GroupAccount, OutOfMemory>
    ensures fits { (cs : List Condition) → FitsGroup cs group.now → IfOk result (FitsGroup cs) }
    ensures same { (cs : List Condition) (size : ℕ) (frames : List GroupRow)
        → IsGroupAccount cs size frames group.now → IfOk result (IsGroupAccount cs size frames) }
    ensures stands { (count : ℕ) → GroupStandsAt count group.now → IfOk result (GroupStandsAt count) }
{
    let count = group.conditions.len();
    let conditions = copy_accounts(alloc, &group.conditions)?;
    Ok(GroupAccount {
        conditions,
        wants: group.wants.to_vec(alloc)?,
        pausing: group.pausing.to_vec(alloc)?,
        alone: group.alone,
        calm: group.calm,
        room: vec![in alloc; NO_STANDING; count]?,
        seen: vec![in alloc; NO_SIGHT; count]?,
        paused: false,
        kept: false,
        frames: group.frames,
    })
}

// Copies of the accounts of several groups.
pub(crate) fn copy_groups(
    alloc: Global,
    groups: &[GroupAccount],
) -> Result<Vec<GroupAccount>, OutOfMemory>
    ensures many { IfOk result (λ copy. length copy.items ≡ length groups.now) }
    ensures fit { (gs : List (List Condition)) → AllFit gs groups.now → IfOk result (λ copy. AllFit gs copy.items) }
    ensures same { (gs : List (List Condition)) (from size : ℕ) (frames : List GroupRow)
        → AreGroupAccounts gs from size frames groups.now
        → IfOk result (λ copy. AreGroupAccounts gs from size frames copy.items) }
    ensures stand { (count : ℕ) → AllGroupsStandAt count groups.now
        → IfOk result (λ copy. AllGroupsStandAt count copy.items) }
{
    let mut copy = Vec::new(alloc);
    for group in groups {
        copy.push(copy_group(alloc, group)?)?;
    }
    Ok(copy)
}

// A copy of the nearest of some frames.
fn copy_nearest(alloc: Global, nearest: &Nearest) -> Result<Nearest, OutOfMemory>
    ensures { IfOk result (IsNearestLike nearest.now) }
{
    Ok(Nearest {
        at: nearest.at,
        reset: nearest.reset,
        count: nearest.count,
        wants: nearest.wants.to_vec(alloc)?,
    })
}

// A copy of the account of a trigger.
pub(crate) fn copy_trigger(
    alloc: Global,
    account: &TriggerAccount,
) -> Result<TriggerAccount, OutOfMemory>
    ensures frames { IfOk result (λ copy. copy.frames ≡ account.now.frames) }
    ensures ready { (t : TriggerContents) → IsReady t account.now → IfOk result (IsReady t) }
    ensures same { (t : TriggerContents) (size : ℕ) (frames : List TriggerRow)
        → IsTriggerAccount t size frames account.now → IfOk result (IsTriggerAccount t size frames) }
{
    let core = copy_group(alloc, &account.core)?;
    let alts = copy_groups(alloc, &account.alts)?;
    let nearest = copy_nearest(alloc, &account.nearest)?;
    Ok(TriggerAccount {
        core,
        alts,
        resets: account.resets,
        paused: account.paused,
        waited: account.waited,
        nearest,
        frames: account.frames,
    })
}

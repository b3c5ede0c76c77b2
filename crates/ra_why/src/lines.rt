//! The lines of conditions and of groups.

ghost use Rattle.std.specs.Prelude.{◌≡◌, All, ◌+◌, ◌++◌, ◌<◌, ◌≤◌, ◌^◌, ℕ, List, length, map, sum_by, codes, string_bytes, [], ◌∷◌, IfOk, OnOk};
ghost use Rattle.ra_account.specs.Groups.{AllFit, AllGroupsStandAt, AreGroupAccounts, GroupRow, GroupStandsAt, IsGroupAccount};
ghost use Rattle.ra_account.specs.Marks.{IsSound};
ghost use Rattle.ra_account.specs.Text.{account_text, told_by};
ghost use Rattle.ra_condition.specs.Canonical.{condition_text};
ghost use Rattle.ra_condition.specs.Contents.{group_contents};
ghost use Rattle.ra_condition.specs.Spelled.{IsCondition, IsTriggerGroup};
ghost use Rattle.ra_condition.specs.declared.setting.Setting.TheVariants.{InTrigger};
ghost use Rattle.ra_why.specs.Text as spec;

use crate::alt_lines::AltLines;
use crate::condition_lines::ConditionLines;
use crate::group_lines::GroupLines;
use ra_account::{ConditionAccount, GroupAccount, write_account};
use ra_condition::{Condition, Group, TriggerText, print_trigger};
use ra_text::OutOfMemory;
use std::alloc::{AllocError, Global};
use std::fmt::Write;

// The group and the place of a condition.
pub(crate) fn write_place(text: &mut String, group: usize, place: usize) -> Result<(), AllocError>
    ensures { OnOk result (string_bytes text.new ≡ string_bytes text.old ++ spec.place_text group place) }
{
    write!(text, "{group}.{place}")
}

// The canonical text of a condition, after the bytes.
fn put_condition(
    alloc: Global,
    text: &mut Vec<u8>,
    condition: &Condition,
) -> Result<(), OutOfMemory>
    requires { IsCondition InTrigger condition.now }
    ensures { OnOk result (text.new.items ≡ text.old.items ++ condition_text condition.now) }
{
    let mut conditions = Vec::new(alloc);
    conditions.push(*condition)?;
    let single = TriggerText {
        core: Group { conditions },
        alts: Vec::new(alloc),
    };
    let canonical = print_trigger(alloc, &single)?;
    text.extend_from_slice(&canonical)?;
    Ok(())
}

// What stands before the canonical text of a condition.
fn before(alloc: Global, group: usize, place: usize) -> Result<String, OutOfMemory>
    ensures { IfOk result (λ line. string_bytes line ≡ spec.place_text group place ++ codes " ") }
{
    let mut line = String::new(alloc);
    write_place(&mut line, group, place)?;
    line.push_str(" ")?;
    Ok(line)
}

// What follows it.
fn behind(
    alloc: Global,
    condition: &Condition,
    hits: u32,
    frames: u64,
    account: &ConditionAccount,
) -> Result<String, OutOfMemory>
    requires { IsSound account.now.columns }
    ensures { IfOk result (λ lines. string_bytes lines
        ≡ codes "\n" ++ account_text condition.now hits frames (told_by account.now)) }
{
    let mut lines = String::new(alloc);
    lines.push_str("\n")?;
    write_account(&mut lines, condition, hits, frames, account)?;
    Ok(lines)
}

// The lines of a condition.
fn put_lines(
    alloc: Global,
    text: &mut Vec<u8>,
    told: &ConditionLines<'_>,
    account: &ConditionAccount,
) -> Result<(), OutOfMemory>
    requires spelled { IsCondition InTrigger told.now.condition.now }
    requires sound { IsSound account.now.columns }
    ensures { OnOk result (text.new.items ≡ text.old.items ++ spec.condition_lines told.now.group told.now.place
        told.now.condition.now told.now.hits told.now.frames (told_by account.now)) }
{
    let first = before(alloc, told.group, told.place)?;
    text.extend_from_slice(first.as_bytes())?;
    put_condition(alloc, text, told.condition)?;
    let rest = behind(alloc, told.condition, told.hits, told.frames, account)?;
    text.extend_from_slice(rest.as_bytes())?;
    Ok(())
}

// The lines of a group's conditions.
pub(crate) fn put_group(
    alloc: Global,
    text: &mut Vec<u8>,
    told: &GroupLines<'_>,
    account: &GroupAccount,
) -> Result<(), OutOfMemory>
    requires spelled { IsTriggerGroup (group_contents told.now.group.now) }
    requires accounts { length account.now.conditions.items ≡ length (group_contents told.now.group.now) }
    requires hits { length told.now.hits.now ≡ length (group_contents told.now.group.now) }
    requires stands { GroupStandsAt told.now.frames account.now }
    requires few { told.now.frames < 2 ^ 60 }
    ensures { (size : ℕ) (rows : List GroupRow)
        → IsGroupAccount (group_contents told.now.group.now) size rows account.now
        → OnOk result (text.new.items ≡ text.old.items
        ++ spec.group_lines told.now.number (group_contents told.now.group.now) told.now.hits.now told.now.frames size rows) }
{
    for place in 0..told.group.conditions.len() {
        let own = account.conditions[place].told(alloc, told.frames)?;
        let lines = ConditionLines {
            group: told.number,
            place,
            condition: &told.group.conditions[place],
            hits: told.hits[place],
            frames: told.frames,
        };
        put_lines(alloc, text, &lines, &own)?;
    }
    Ok(())
}

// The lines of the alt groups.
pub(crate) fn put_alts(
    alloc: Global,
    text: &mut Vec<u8>,
    told: &AltLines<'_>,
    accounts: &[GroupAccount],
) -> Result<(), OutOfMemory>
    requires spelled { All IsTriggerGroup (map group_contents told.now.groups.now) }
    requires many { length accounts.now ≡ length told.now.groups.now }
    requires fit { AllFit (map group_contents told.now.groups.now) accounts.now }
    requires stand { AllGroupsStandAt told.now.frames accounts.now }
    requires few { told.now.frames < 2 ^ 60 }
    requires within { told.now.from + sum_by length (map group_contents told.now.groups.now) ≤ length told.now.hits.now }
    ensures { (size : ℕ) (rows : List GroupRow)
        → AreGroupAccounts (map group_contents told.now.groups.now) told.now.from size rows accounts.now
        → OnOk result (text.new.items ≡ text.old.items ++ spec.groups_lines 1 told.now.from
        (map group_contents told.now.groups.now) told.now.hits.now told.now.frames size rows) }
{
    let groups = told.groups;
    let mut start = told.from;
    for place in 0..groups.len() {
        let group = &groups[place];
        let end = start + group.conditions.len();
        let lines = GroupLines {
            number: place + 1,
            group,
            hits: &told.hits[start..end],
            frames: told.frames,
        };
        put_group(alloc, text, &lines, &accounts[place])?;
        start = end;
    }
    Ok(())
}

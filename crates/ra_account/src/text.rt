//! The lines of an account, after the line that names the condition.

ghost use Rattle.std.specs.Prelude.{◌≡◌, ◌++◌, ◌≤◌, length, string_bytes, OnOk};
ghost use Rattle.std.specs.List.{flat_map};
ghost use Rattle.ra_account.specs.Marks.{IsSound, marks_in};
ghost use Rattle.ra_account.specs.Text as spec;
ghost use Rattle.ra_account.specs.Text.{account_text, live_text, mark_text, marks_text, past_text, sides_text, span_text, target_text, timeline_text, times_text, told_by};

use crate::best::Best;
use crate::columns::Columns;
use crate::condition::ConditionAccount;
use crate::mark::Mark;
use crate::times::Times;
use ra_condition::Condition;
use std::alloc::AllocError;
use std::fmt::Write;

// The first and the last frame, where there is one.
fn write_span(text: &mut String, times: Times) -> Result<(), AllocError>
    ensures { OnOk result (string_bytes text.new ≡ string_bytes text.old ++ span_text times) }
{
    if times.count == 0 {
        return Ok(());
    }
    let (first, last) = (times.first, times.last);
    write!(text, " first {first} last {last}")
}

/// Writes how many frames there are, the first and the last, after a word: docs/DEFINITIONS.md, "Account of an
/// achievement".
pub fn write_times(text: &mut String, word: &str, times: Times) -> Result<(), AllocError>
    ensures { OnOk result (string_bytes text.new ≡ string_bytes text.old ++ times_text word.now times) }
{
    let count = times.count;
    write!(text, "{word} {count}")?;
    write_span(text, times)?;
    text.push_str("\n")
}

// The target and the best, where there is a target.
fn write_target(text: &mut String, target: u32, best: Best) -> Result<(), AllocError>
    ensures { OnOk result (string_bytes text.new ≡ string_bytes text.old ++ target_text target best) }
{
    if target == 0 {
        return Ok(());
    }
    if best.total == 0 {
        return write!(text, " of {target} best 0 at none");
    }
    let (total, at) = (best.total, best.at);
    write!(text, " of {target} best {total} at {at}")
}

// How often the condition counts, its hits after the last frame, and its best.
fn write_counts(
    text: &mut String,
    target: u32,
    hits: u32,
    account: &ConditionAccount,
) -> Result<(), AllocError>
    ensures { OnOk result (string_bytes text.new ≡ string_bytes text.old ++ spec.counts_text target hits (told_by account.now)) }
{
    let count = account.counts.count;
    write!(text, " counts {count}")?;
    write_span(text, account.counts)?;
    write!(text, " hits {hits}")?;
    write_target(text, target, account.best)?;
    text.push_str("\n")
}

// The least and the greatest value of each side, where the condition counts nowhere and there is a frame.
fn write_sides(text: &mut String, frames: u64, account: &ConditionAccount) -> Result<(), AllocError>
    ensures { OnOk result (string_bytes text.new ≡ string_bytes text.old ++ sides_text frames (told_by account.now)) }
{
    if account.counts.count != 0 || frames == 0 {
        return Ok(());
    }
    let (least, greatest) = (account.left.least, account.left.greatest);
    write!(text, " left {least} to {greatest}")?;
    let (least, greatest) = (account.right.least, account.right.greatest);
    write!(text, " right {least} to {greatest}\n")
}

// A column: whether the condition counts at all of its frames, at some or at none.
fn write_mark(text: &mut String, mark: Mark) -> Result<(), AllocError>
    ensures { OnOk result (string_bytes text.new ≡ string_bytes text.old ++ mark_text mark) }
{
    match mark {
        Mark::Always => text.push_str("#"),
        Mark::Sometimes => text.push_str("+"),
        Mark::Never => text.push_str("."),
    }
}

// Some columns.
fn write_marks(text: &mut String, marks: &[Mark]) -> Result<(), AllocError>
    ensures { OnOk result (string_bytes text.new ≡ string_bytes text.old ++ flat_map mark_text marks.now) }
{
    for mark in marks {
        write_mark(text, *mark)?;
    }
    Ok(())
}

// The columns that have a frame.
fn write_columns(text: &mut String, columns: &Columns) -> Result<(), AllocError>
    requires { IsSound columns.now }
    ensures { OnOk result (string_bytes text.new ≡ string_bytes text.old ++ marks_text (marks_in columns.now)) }
{
    let some = if columns.begun == 0 { 0 } else { 1 };
    let count = columns.full + some;
    write_marks(text, &columns.marks[..count as usize])
}

// The columns, where the condition counts at some frames and not at all.
fn write_timeline(
    text: &mut String,
    frames: u64,
    account: &ConditionAccount,
) -> Result<(), AllocError>
    requires { IsSound account.now.columns }
    ensures { OnOk result (string_bytes text.new ≡ string_bytes text.old ++ timeline_text frames (told_by account.now)) }
{
    let count = account.counts.count;
    if count == 0 || count == frames {
        return Ok(());
    }
    text.push_str(" ")?;
    write_columns(text, &account.columns)?;
    text.push_str("\n")
}

// The frames at which an operand is past memory, where there is one.
fn write_past(text: &mut String, account: &ConditionAccount) -> Result<(), AllocError>
    ensures { OnOk result (string_bytes text.new ≡ string_bytes text.old ++ past_text (told_by account.now)) }
{
    if account.past.count == 0 {
        return Ok(());
    }
    write_times(text, " past memory", account.past)
}

// The lines of a condition that counts hits, but for what is past memory.
fn write_live(
    text: &mut String,
    target: u32,
    hits: u32,
    frames: u64,
    account: &ConditionAccount,
) -> Result<(), AllocError>
    requires { IsSound account.now.columns }
    ensures { OnOk result (string_bytes text.new
        ≡ string_bytes text.old ++ live_text target hits frames (told_by account.now)) }
{
    write_counts(text, target, hits, account)?;
    write_sides(text, frames, account)?;
    write_timeline(text, frames, account)?;
    Ok(())
}

/// Writes the lines of a condition's account over this many frames, with its hits after the last one, after the line
/// that names it: docs/DEFINITIONS.md, "Account of an achievement".
pub fn write_account(
    text: &mut String,
    condition: &Condition,
    hits: u32,
    frames: u64,
    account: &ConditionAccount,
) -> Result<(), AllocError>
    requires { IsSound account.now.columns }
    ensures { OnOk result (string_bytes text.new
        ≡ string_bytes text.old ++ account_text condition.now hits frames (told_by account.now)) }
{
    if condition.flag.hands_on() {
        return write_past(text, account);
    }
    write_live(text, condition.target, hits, frames, account)?;
    write_past(text, account)
}

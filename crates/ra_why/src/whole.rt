//! The text of `why`.

ghost use Rattle.std.specs.Prelude.{◌≡◌, ◌+◌, ◌++◌, ◌<◌, ◌≤◌, ◌^◌, ◌==◌, if◌then◌else◌, ℕ, List, [], Some, codes, length, map, nat_lt, sum_by, string_bytes, IfOk, OnOk};
ghost use Rattle.ra_account.specs.Counting.{count_of};
ghost use Rattle.ra_account.specs.Marks.{width_of};
ghost use Rattle.ra_account.specs.Nearness.{IsNearest, Lack, nearest_at, nearest_of};
ghost use Rattle.ra_account.specs.Triggers.{IsReady, IsTriggerAccount, TriggerRow};
ghost use Rattle.ra_condition.specs.Spelled.{IsTrigger};
ghost use Rattle.ra_condition.specs.Contents.{group_contents, groups_of, trigger_contents, trigger_hits};
ghost use Rattle.ra_trigger.specs.States.{is_triggered};
ghost use Rattle.ra_why.specs.Text as spec;

use crate::alt_lines::AltLines;
use crate::group_lines::GroupLines;
use crate::lines::{put_alts, put_group, write_place};
use ra_account::{Nearest, TriggerAccount, write_times};
use ra_condition::{Group, TriggerText};
use ra_text::OutOfMemory;
use ra_trigger::{State, Trigger};
use std::alloc::{AllocError, Global};
use std::fmt::Write;

// The first line.
fn write_first(text: &mut String, unlocked: bool, frames: u64, id: u32) -> Result<(), AllocError>
    ensures { OnOk result (string_bytes text.new ≡ string_bytes text.old ++ spec.first_text unlocked frames id) }
{
    if unlocked {
        let last = frames.saturating_sub(1);
        write!(text, "unlock {last} {id}\n")
    } else {
        write!(text, "no unlock {id}\n")
    }
}

// The word of a state.
fn word_of(state: State) -> &'static str
    ensures { result.now ≡ spec.state_word state }
{
    match state {
        State::Waiting => "waiting",
        State::Active => "active",
        State::Paused => "paused",
        State::Primed => "primed",
        State::Triggered => "triggered",
    }
}

// How many frames a column has: the least power of two with which 60 columns have room for this many frames.
fn width(frames: u64) -> u64
    requires { frames < 2 ^ 60 }
    ensures { result ≡ width_of frames }
{
    let mut width: u64 = 1;
    while width * 60 < frames {
        width *= 2;
    }
    width
}

// How many frames a column has, where it has more than one.
fn write_column(text: &mut String, frames: u64) -> Result<(), AllocError>
    requires { frames < 2 ^ 60 }
    ensures { OnOk result (string_bytes text.new ≡ string_bytes text.old ++ spec.column_text (width_of frames)) }
{
    let width = width(frames);
    if width > 1 {
        write!(text, " column {width}")?;
    }
    Ok(())
}

// The line of the frames and of what is kept.
fn write_frames(text: &mut String, frames: u64, trigger: &Trigger) -> Result<(), AllocError>
    requires { frames < 2 ^ 60 }
    ensures { OnOk result (string_bytes text.new ≡ string_bytes text.old ++ spec.frames_text frames trigger.now) }
{
    let word = word_of(trigger.state());
    let measured = trigger.measured();
    write!(text, "frames {frames} state {word} measured {measured}")?;
    write_column(text, frames)?;
    text.push_str("\n")
}

// The places of the conditions of a group that are wanted.
fn write_group_wants(text: &mut String, number: usize, wants: &[bool]) -> Result<(), AllocError>
    ensures { OnOk result (string_bytes text.new ≡ string_bytes text.old ++ spec.group_wants number wants.now) }
{
    for (place, wanted) in wants.iter().enumerate() {
        write_want(text, number, place, *wanted)?;
    }
    Ok(())
}

// The place of a condition, where it is wanted.
fn write_want(
    text: &mut String,
    number: usize,
    place: usize,
    wanted: bool,
) -> Result<(), AllocError>
    ensures { OnOk result (string_bytes text.new ≡ string_bytes text.old ++ spec.want_text number place wanted) }
{
    if wanted {
        text.push_str(" ")?;
        write_place(text, number, place)?;
    }
    Ok(())
}

// What is wanted of all conditions, or a word where nothing is.
fn write_wants(
    text: &mut String,
    trigger: &TriggerText,
    nearest: &Nearest,
) -> Result<(), AllocError>
    requires many { length nearest.now.wants.items ≡ trigger_hits (trigger_contents trigger.now) }
    ensures { OnOk result (nearest.now.count ≡ count_of nearest.now.wants.items
        → string_bytes text.new ≡ string_bytes text.old
        ++ spec.wants_text (groups_of (trigger_contents trigger.now)) nearest.now.wants.items) }
{
    if nearest.count == 0 {
        return text.push_str(" nothing");
    }
    let count = trigger.core.conditions.len();
    write_group_wants(text, 0, &nearest.wants[..count])?;
    let mut start = count;
    for (place, alt) in trigger.alts.iter().enumerate() {
        let end = start + alt.conditions.len();
        write_group_wants(text, place + 1, &nearest.wants[start..end])?;
        start = end;
    }
    Ok(())
}

// The last line.
fn write_nearest(
    text: &mut String,
    trigger: &TriggerText,
    frames: u64,
    nearest: &Nearest,
) -> Result<(), AllocError>
    requires many { length nearest.now.wants.items ≡ trigger_hits (trigger_contents trigger.now) }
    ensures { (lacks : List Lack) → length lacks ≡ frames → IsNearest lacks nearest.now
        → OnOk result (string_bytes text.new ≡ string_bytes text.old
        ++ spec.nearest_text (groups_of (trigger_contents trigger.now)) (nearest_at lacks) (nearest_of lacks)) }
{
    if frames == 0 {
        return text.push_str("nearest none\n");
    }
    let at = nearest.at;
    write!(text, "nearest {at} wants")?;
    write_wants(text, trigger, nearest)?;
    if nearest.reset {
        text.push_str(" reset")?;
    }
    text.push_str("\n")
}

// The lines of the trigger as a whole.
fn whole(
    alloc: Global,
    trigger: &TriggerText,
    account: &TriggerAccount,
) -> Result<String, OutOfMemory>
    requires ready { IsReady (trigger_contents trigger.now) account.now }
    ensures { (size : ℕ) (rows : List TriggerRow)
        → IsTriggerAccount (trigger_contents trigger.now) size rows account.now
        → IfOk result (λ lines. string_bytes lines ≡ spec.whole_lines (trigger_contents trigger.now) rows) }
{
    let mut lines = String::new(alloc);
    write_times(&mut lines, "resets", account.resets)?;
    write_times(&mut lines, "paused", account.paused)?;
    write_times(&mut lines, "waited", account.waited)?;
    write_nearest(&mut lines, trigger, account.frames, &account.nearest)?;
    Ok(lines)
}

// The lines that come before those of conditions.
fn head(alloc: Global, id: u32, trigger: &Trigger, frames: u64) -> Result<String, OutOfMemory>
    requires { frames < 2 ^ 60 }
    ensures { IfOk result (λ lines. string_bytes lines
        ≡ spec.first_text (is_triggered trigger.now.state) frames id ++ spec.frames_text frames trigger.now) }
{
    let unlocked = matches!(trigger.state(), State::Triggered);
    let mut lines = String::new(alloc);
    write_first(&mut lines, unlocked, frames, id)?;
    write_frames(&mut lines, frames, trigger)?;
    Ok(lines)
}

// The lines of all conditions, after the bytes.
fn put_conditions(
    alloc: Global,
    text: &mut Vec<u8>,
    trigger: &TriggerText,
    hits: &[u32],
    account: &TriggerAccount,
) -> Result<(), OutOfMemory>
    requires spelled { IsTrigger (trigger_contents trigger.now) }
    requires ready { IsReady (trigger_contents trigger.now) account.now }
    requires hits { length hits.now ≡ trigger_hits (trigger_contents trigger.now) }
    requires few { account.now.frames < 2 ^ 60 }
    ensures { (size : ℕ) (rows : List TriggerRow)
        → IsTriggerAccount (trigger_contents trigger.now) size rows account.now
        → OnOk result (text.new.items ≡ text.old.items ++ spec.groups_lines 0 0 (groups_of (trigger_contents trigger.now))
        hits.now (length rows) size (map (λ f. f.row) rows)) }
{
    let count = trigger.core.conditions.len();
    let frames = account.frames;
    let core = GroupLines {
        number: 0,
        group: &trigger.core,
        hits: &hits[..count],
        frames,
    };
    put_group(alloc, text, &core, &account.core)?;
    let alts = AltLines {
        from: count,
        groups: &trigger.alts,
        hits,
        frames,
    };
    put_alts(alloc, text, &alts, &account.alts)?;
    Ok(())
}

/// The text of the account of an achievement with what is kept of it after the last frame: docs/DEFINITIONS.md,
/// "Account of an achievement".
///
/// Fewer than 2^60 frames were noted.
pub fn account_text(
    alloc: Global,
    id: u32,
    trigger: &TriggerText,
    kept: &Trigger,
    account: &TriggerAccount,
) -> Result<Vec<u8>, OutOfMemory>
    requires spelled { IsTrigger (trigger_contents trigger.now) }
    requires ready { IsReady (trigger_contents trigger.now) account.now }
    requires hits { length kept.now.hits ≡ trigger_hits (trigger_contents trigger.now) }
    requires few { account.now.frames < 2 ^ 60 }
    ensures { (size : ℕ) (rows : List TriggerRow)
        → IsTriggerAccount (trigger_contents trigger.now) size rows account.now
        → IfOk result (λ text. text.items ≡ spec.text_by id (trigger_contents trigger.now) size kept.now rows) }
{
    let head = head(alloc, id, kept, account.frames)?;
    let mut text = head.into_bytes();
    put_conditions(alloc, &mut text, trigger, kept.hits(), account)?;
    let whole = whole(alloc, trigger, account)?;
    text.extend_from_slice(whole.as_bytes())?;
    Ok(text)
}

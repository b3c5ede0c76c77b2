//! What the rows up to an unlock did to the hits.

ghost use Rattle.std.specs.Prelude.{◌≡◌, ◌+◌, ◌≤◌, ◌<◌, ◌^◌, length, map, replicate, option_map, IfOk};
ghost use Rattle.std.specs.Result.{OnOk};
ghost use Rattle.std.specs.List.{AllByRecursion};
ghost use Rattle.ra_condition.specs.Contents.{trigger_contents};
ghost use Rattle.ra_explain.specs.HitChanges.{AreNext, events_of, unchanged, with_rows};
ghost use Rattle.ra_explain.specs.OrderedRows.{AreRows, joined};
ghost use Rattle.ra_explain.specs.Replays.{IsTrace};

use crate::hit_changes::HitChanges;
use crate::ordered_rows::OrderedRows;
use crate::replay::Replay;
use ra_condition::TriggerText;
use ra_text::OutOfMemory;
use std::alloc::Global;

// What each row from one on, before which all hits are 0, up to the last one did to the hits of each condition. None
// where a row resets, or is not valid exactly where it is the last.
pub(crate) fn trace(
    alloc: Global,
    text: &TriggerText,
    rows: &OrderedRows<'_>,
    since: u32,
    last: u32,
) -> Result<Option<Vec<HitChanges>>, OutOfMemory>
    requires rows { AreRows (trigger_contents text.now) last rows.now }
    requires since { since ≤ last }
    ensures { IfOk result (λ found. IsTrace (trigger_contents text.now) (joined rows.now) since last (option_map (λ changes. events_of changes.items) found)) }
{
    let mut replay = Replay::new(alloc, text)?;
    let count = replay.zeros.len();
    let mut changes = no_changes(alloc, count, since, (last - since) as usize + 1)?;
    for row in since as usize..last as usize + 1 {
        let said = replay.step(text, rows.row(row));
        if said.reset || said.valid != (row == last as usize) {
            return Ok(None);
        }
        add_row(&mut changes, replay.trigger.hits())?;
    }
    Ok(Some(changes))
}

// This many conditions, of which no row from one on is known yet, with room for this many rows.
fn no_changes(
    alloc: Global,
    count: usize,
    since: u32,
    rows: usize,
) -> Result<Vec<HitChanges>, OutOfMemory>
    ensures { IfOk result (λ changes. changes.items ≡ replicate count (unchanged since)) }
{
    let mut changes = Vec::with_capacity(alloc, count)?;
    for _ in 0..count {
        changes.push(HitChanges::new(alloc, since, rows)?)?;
    }
    Ok(changes)
}

// Adds a row with these hits after it.
fn add_row(changes: &mut [HitChanges], after: &[u32]) -> Result<(), OutOfMemory>
    requires after { length after.now ≡ length changes.old }
    requires next { AreNext (map (λ own. own.hits) changes.old) after.now }
    requires room { AllByRecursion (λ own. own.row < 2 ^ 32) changes.old }
    ensures { OnOk result (changes.new ≡ with_rows changes.old after.now) }
{
    for place in 0..changes.len() {
        changes[place].add(after[place])?;
    }
    Ok(())
}

ghost use Rattle.std.specs.Prelude.{◌≡◌, ◌+◌, ◌<◌, ◌≤◌, ◌^◌, length, IfOk};
ghost use Rattle.std.specs.Result.{OnOk};
ghost use Rattle.ra_explain.specs.HitChanges.{IsNext, changed_by, unchanged, with_row};
ghost use Rattle.ra_explain.specs.Replays.{noted_one};

use crate::explanation::Event;
use crate::hit_change::HitChange;
use ra_text::OutOfMemory;
use std::alloc::Global;
use std::marker::Model;

/// What each row from one on did to the hits of a condition, in a byte a row.
///
/// It is seen as the row after the last of them, the hits there, and the events up to it: docs/DEFINITIONS.md,
/// "Explanations".
#[derive(Drop)]
pub struct HitChanges {
    since: u32,
    hits: u32,
    list: Vec<HitChange>,
}

impl Model for HitChanges {
    ghost use Rattle.ra_explain.specs.HitChanges.{ChangesSeen};

    ghost Value = { ChangesSeen };

    ghost use Rattle.ra_explain.specs.ChangesInside.{changes_seen, AreChanges};

    ghost view = { changes_seen };

    ghost invariant = { AreChanges };
}

impl HitChanges {
    // No row yet, from this one on, with room for this many: the hits are 0.
    pub(crate) fn new(alloc: Global, since: u32, rows: usize) -> Result<HitChanges, OutOfMemory>
        ensures { IfOk result (λ changes. changes ≡ unchanged since) }
    {
        let list = Vec::with_capacity(alloc, rows)?;
        Ok(HitChanges {
            since,
            hits: 0,
            list,
        })
    }

    // Adds a row with these hits after it.
    pub(crate) fn add(&mut self, after: u32) -> Result<(), OutOfMemory>
        requires next { IsNext self.old.hits after }
        requires room { self.old.row < 2 ^ 32 }
        ensures { OnOk result (self.new ≡ with_row self.old after) }
    {
        self.list.push(HitChange::between(self.hits, after))?;
        self.hits = after;
        Ok(())
    }

    /// The events of the condition.
    pub fn events(&self, alloc: Global) -> Result<Vec<Event>, OutOfMemory>
        ensures { IfOk result (λ list. list.items ≡ self.now.events) }
    {
        events_by(alloc, self.since, &self.list)
    }
}

// The events that changes make from a row on, before which the hits are 0.
fn events_by(alloc: Global, since: u32, changes: &[HitChange]) -> Result<Vec<Event>, OutOfMemory>
    requires { since + length changes.now ≤ 2 ^ 32 }
    ensures { IfOk result (λ list. list.items ≡ (changed_by (unchanged since) changes.now).events) }
{
    let mut list = Vec::new(alloc);
    let mut hits = 0;
    for place in 0..changes.len() {
        let before = hits;
        hits = changes[place].after(before);
        note_one(&mut list, since + place as u32, before, hits)?;
    }
    Ok(list)
}

// Notes the hits of a condition where they changed at a row.
fn note_one(list: &mut Vec<Event>, row: u32, before: u32, after: u32) -> Result<(), OutOfMemory>
    ensures { OnOk result (list.new.items ≡ noted_one row list.old.items before after) }
{
    if after != before {
        list.push(Event { row, hits: after })?;
    }
    Ok(())
}

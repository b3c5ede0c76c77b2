//! A watcher that takes the records of a trace.

ghost use Rattle.std.specs.Prelude.{◌≡◌, ◌≤◌, ◌<◌, ◌+◌, ℕ, true, false, length, IfOk};
ghost use Rattle.std.specs.Result.{OnOk};
ghost use Rattle.ra_meaning.specs.Play.{Moment};
ghost use Rattle.ra_trace.specs.Entries.{entry_of, Framed, Restored, Saved, Written};
ghost use Rattle.ra_trace.specs.Reading.{LiesWithin};
ghost use Rattle.ra_why.specs.Taking.{Follows, GoesTo, TakesRecord};
ghost use Rattle.ra_why.specs.Watching.{IsWatching, MayStep};

use crate::watcher::Watcher;
use ra_memory::Steps;
use ra_text::OutOfMemory;
use ra_trace::Record;
use std::alloc::Global;
use std::marker::Brand;
use std::sync::ledger::{Blank, Ledger};

/// What a record did.
#[derive(Clone, Copy, Debug, PartialEq, Eq)]
pub enum Taken {
    /// The watcher goes on after it.
    On,
    /// It is the frame of an unlock.
    Unlock,
    /// It is a restore of an empty slot.
    Empty,
    /// It is the end record.
    End,
}

// Writes bytes into the image.
fn take_write(watcher: &mut Watcher, at: u32, bytes: &[u8])
    requires within { at + length bytes.now ≤ length watcher.old.memory }
    ensures goes { (m : Moment) → Follows watcher.old m → GoesTo watcher.old watcher.new (Written at bytes.now) m false }
    ensures watches { (most : ℕ) → IsWatching most watcher.old → IsWatching (most + 1) watcher.new }
    ensures text { watcher.new.text ≡ watcher.old.text }
    ensures size { length watcher.new.memory ≡ length watcher.old.memory }
{
    watcher.write(at, bytes);
}

// Takes one frame, and counts no steps.
fn take_frame<L: Ledger>(watcher: &mut Watcher, blank: Blank) -> bool
    requires name { blank.name ≡ L.name }
    requires parts { blank.parts ≡ L.parts }
    requires held { 0 < blank.parts }
    requires watches { MayStep watcher.old }
    ensures goes { (m : Moment) → Follows watcher.old m → GoesTo watcher.old watcher.new Framed m result }
    ensures watches { (most : ℕ) → IsWatching most watcher.old → IsWatching (most + 1) watcher.new }
    ensures text { watcher.new.text ≡ watcher.old.text }
    ensures size { watcher.new.memory ≡ watcher.old.memory }
{
    let mut steps = Steps::<L>::open(blank);
    watcher.frame(&mut steps)
}

// Keeps the present moment in a slot.
fn take_save(alloc: Global, watcher: &mut Watcher, slot: u8) -> Result<(), OutOfMemory>
    requires low { slot ≤ 15 }
    requires watches { MayStep watcher.old }
    ensures goes { OnOk result ((m : Moment) → Follows watcher.old m → GoesTo watcher.old watcher.new (Saved slot) m false) }
    ensures watches { (most : ℕ) → IsWatching most watcher.old → OnOk result (IsWatching (most + 1) watcher.new) }
    ensures text { OnOk result (watcher.new.text ≡ watcher.old.text) }
    ensures size { OnOk result (watcher.new.memory ≡ watcher.old.memory) }
{
    watcher.save(alloc, slot)?;
    Ok(())
}

// Takes up what a slot keeps, and answers whether it is filled.
fn take_restore(alloc: Global, watcher: &mut Watcher, slot: u8) -> Result<Taken, OutOfMemory>
    requires low { slot ≤ 15 }
    requires watches { MayStep watcher.old }
    ensures taken { IfOk result (λ taken. (m : Moment) → Follows watcher.old m
        → TakesRecord watcher.old watcher.new (Restored slot) m taken) }
    ensures watches { (most : ℕ) → IsWatching most watcher.old → OnOk result (IsWatching (most + 1) watcher.new) }
    ensures text { OnOk result (watcher.new.text ≡ watcher.old.text) }
    ensures size { OnOk result (watcher.new.memory ≡ watcher.old.memory) }
{
    if watcher.restore(alloc, slot)? {
        Ok(Taken::On)
    } else {
        Ok(Taken::Empty)
    }
}

/// Takes a record of a trace, and answers what it did: docs/DEFINITIONS.md, "Account of an achievement". A show does
/// nothing.
///
/// The record lies within the memory, and fewer than 2^60 frames lie behind.
pub fn take_record(
    alloc: Global,
    watcher: &mut Watcher,
    entry: &Record<'_>,
) -> Result<Taken, OutOfMemory>
    requires lies { LiesWithin (length watcher.old.memory) (entry_of entry.now) }
    requires watches { MayStep watcher.old }
    ensures taken { IfOk result (λ taken. (m : Moment) → Follows watcher.old m
        → TakesRecord watcher.old watcher.new (entry_of entry.now) m taken) }
    ensures watches { (most : ℕ) → IsWatching most watcher.old → OnOk result (IsWatching (most + 1) watcher.new) }
    ensures text { OnOk result (watcher.new.text ≡ watcher.old.text) }
    ensures size { OnOk result (length watcher.new.memory ≡ length watcher.old.memory) }
{
    match entry {
        Record::Write { at, bytes } => take_write(watcher, *at, bytes),
        Record::Frame => {
            if take_frame::<Brand>(watcher, Blank::new(1)) {
                return Ok(Taken::Unlock);
            }
        }
        Record::Save { slot } => take_save(alloc, watcher, *slot)?,
        Record::Restore { slot } => return take_restore(alloc, watcher, *slot),
        Record::Show => {}
        Record::End => return Ok(Taken::End),
    }
    Ok(Taken::On)
}

//! A recorder that takes the records of a trace.

ghost use Rattle.std.specs.Prelude.{◌≡◌, ◌≤◌, ◌<◌, ◌+◌, true, length, IfOk, IfErr, OnOk};
ghost use Rattle.ra_trace.specs.Entries.{entry_of, Framed, Restored, Saved, Written};
ghost use Rattle.ra_trace.specs.Reading.{LiesWithin};
ghost use Rattle.ra_meaning.specs.Play.{Moment};
ghost use Rattle.ra_explain_job.specs.Watching.{Follows, GoesOn, RefusesEntry, TakesEntry};
ghost use Rattle.ra_explain_job.specs.declared.failed.Untaken.TheVariants as untaken;

use crate::failed::Untaken;
use ra_explain::Recorder;
use ra_memory::Steps;
use ra_trace::Record;
use std::marker::Brand;
use std::sync::ledger::{Blank, Ledger};

/// What a record did.
#[derive(Clone, Copy, Debug, PartialEq, Eq)]
pub(crate) enum Taken {
    /// It decided nothing.
    On,
    /// It is the frame of the unlock.
    Unlock,
    /// It is the end record.
    End,
}

// Writes bytes into the image.
fn take_write(recorder: &mut Recorder, at: u32, bytes: &[u8])
    requires { at + length bytes.now ≤ length recorder.old.image }
    ensures goes { (m : Moment) → Follows recorder.old m → GoesOn recorder.old recorder.new (Written at bytes.now) m }
    ensures trigger { recorder.new.trigger ≡ recorder.old.trigger }
    ensures image { length recorder.new.image ≡ length recorder.old.image }
{
    recorder.write(at, bytes);
}

// Takes one frame, and counts no steps.
fn take_frame<L: Ledger>(recorder: &mut Recorder, blank: Blank) -> Result<Taken, Untaken>
    requires name { blank.name ≡ L.name }
    requires parts { blank.parts ≡ L.parts }
    requires held { 0 < blank.parts }
    ensures taken { IfOk result (λ taken. (m : Moment) → Follows recorder.old m → TakesEntry recorder.old recorder.new Framed m taken) }
    ensures refused { IfErr result (λ why. (m : Moment) → Follows recorder.old m → RefusesEntry recorder.old Framed m why) }
    ensures unlocked { IfOk result (λ taken. taken ≡ Taken.Unlock → recorder.new.unlocked ≡ true) }
    ensures trigger { recorder.new.trigger ≡ recorder.old.trigger }
    ensures image { recorder.new.image ≡ recorder.old.image }
{
    let mut steps = Steps::<L>::open(blank);
    if recorder.frame(&mut steps)? {
        Ok(Taken::Unlock)
    } else {
        Ok(Taken::On)
    }
}

// Keeps the present moment in a slot.
fn take_save(recorder: &mut Recorder, slot: u8) -> Result<(), Untaken>
    requires { slot ≤ 15 }
    ensures goes { OnOk result ((m : Moment) → Follows recorder.old m → GoesOn recorder.old recorder.new (Saved slot) m) }
    ensures only { IfErr result (λ why. why ≡ untaken.Memory) }
    ensures trigger { recorder.new.trigger ≡ recorder.old.trigger }
    ensures image { recorder.new.image ≡ recorder.old.image }
{
    recorder.save(slot)?;
    Ok(())
}

// Takes up what a slot keeps. `EmptySlot` where it is empty.
fn take_restore(recorder: &mut Recorder, slot: u8) -> Result<(), Untaken>
    requires { slot ≤ 15 }
    ensures goes { OnOk result ((m : Moment) → Follows recorder.old m → GoesOn recorder.old recorder.new (Restored slot) m) }
    ensures refused { IfErr result (λ why. (m : Moment) → Follows recorder.old m → RefusesEntry recorder.old (Restored slot) m why) }
    ensures trigger { recorder.new.trigger ≡ recorder.old.trigger }
    ensures image { recorder.new.image ≡ recorder.old.image }
{
    if !recorder.is_filled(slot) {
        return Err(Untaken::EmptySlot);
    }
    recorder.restore(slot);
    Ok(())
}

/// Takes a record, and answers what it did. A show does nothing.
pub(crate) fn take_record(recorder: &mut Recorder, entry: &Record<'_>) -> Result<Taken, Untaken>
    requires { LiesWithin (length recorder.old.image) (entry_of entry.now) }
    ensures taken { IfOk result (λ taken. (m : Moment) → Follows recorder.old m → TakesEntry recorder.old recorder.new (entry_of entry.now) m taken) }
    ensures refused { IfErr result (λ why. (m : Moment) → Follows recorder.old m → RefusesEntry recorder.old (entry_of entry.now) m why) }
    ensures unlocked { IfOk result (λ taken. taken ≡ Taken.Unlock → recorder.new.unlocked ≡ true) }
    ensures trigger { recorder.new.trigger ≡ recorder.old.trigger }
    ensures image { length recorder.new.image ≡ length recorder.old.image }
{
    match entry {
        Record::Write { at, bytes } => take_write(recorder, *at, bytes),
        Record::Frame => return take_frame::<Brand>(recorder, Blank::new(1)),
        Record::Save { slot } => take_save(recorder, *slot)?,
        Record::Restore { slot } => take_restore(recorder, *slot)?,
        Record::Show => {}
        Record::End => return Ok(Taken::End),
    }
    Ok(Taken::On)
}

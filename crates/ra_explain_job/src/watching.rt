//! The records of a trace, taken one after the other up to the first unlock.

ghost use Rattle.std.specs.Prelude.{◌≡◌, ◌≤◌, ◌<◌, ℕ, List, Some, true, length, IfOk, IsErrOf};
ghost use Rattle.ra_condition.specs.Contents.{trigger_contents, trigger_hits};
ghost use Rattle.ra_condition.specs.Spelled.{IsTrigger};
ghost use Rattle.ra_io.specs.Causes.{Rose};
ghost use Rattle.ra_io.specs.Files.{OnlyRead};
ghost use Rattle.ra_trace.specs.Cutting.{Pieces};
ghost use Rattle.ra_meaning.specs.Play.{Moment};
ghost use Rattle.ra_trace.specs.declared.error.TraceError.TheVariants as error;
ghost use Rattle.ra_replay.specs.Left.{IsLeft};
ghost use Rattle.ra_explain_job.specs.Watching.{EndsFor, EndsWatch, Follows, TakesNext, reason_at, stop_of};
ghost use Rattle.ra_explain_job.specs.declared.failed.WatchFailed.TheVariants as failed;

use crate::failed::{Untaken, WatchFailed};
use crate::taking::{Taken, take_record};
use crate::watch::Watch;
use ra_condition::TriggerText;
use ra_explain::Recorder;
use ra_io::Files;
use ra_replay::TRACE_LIMIT;
use ra_trace::{Reader, TraceError, Why};
use std::alloc::Global;

// Reads and takes the next record.
fn watch_next<F: Files>(
    reader: &mut Reader,
    recorder: &mut Recorder,
    files: &mut F,
) -> Result<Taken, WatchFailed>
    requires size { reader.old.size ≡ Some (length recorder.old.image) }

    // What was taken, where the bytes of the trace are told.
    ensures next { (bytes : List ℕ) (m : Moment) (left : Pieces) → F.content files.old reader.old.name ≡ Some bytes
        → Follows recorder.old m → IsLeft bytes m reader.old left → TakesNext bytes m left reader.new recorder.old recorder.new result }

    // What stays, and why it stops.
    ensures size { IfOk result (λ taken. reader.new.size ≡ Some (length recorder.new.image)) }
    ensures unlocked { IfOk result (λ taken. taken ≡ Taken.Unlock → recorder.new.unlocked ≡ true) }
    ensures trigger { recorder.new.trigger ≡ recorder.old.trigger }
    ensures name { reader.new.name ≡ reader.old.name }
    ensures further { IfOk result (λ taken. (reader.old.next < reader.new.next) × (reader.new.next ≤ reader.new.limit) × (reader.new.limit ≡ reader.old.limit)) }
    ensures read { IsErrOf result (failed.Trace error.Read) → Rose (F.read_faults files.old reader.old.name) (F.read_faults files.new reader.old.name) }
    ensures stays { OnlyRead F.content F.read_faults F.put_faults files.old files.new }
{
    let record = reader.next_record(files)?;
    match take_record(recorder, &record) {
        Ok(taken) => Ok(taken),
        Err(Untaken::EmptySlot) => Err(WatchFailed::Trace(TraceError::Refused {
            at: reader.place(),
            why: Why::EmptySlot,
        })),
        Err(Untaken::Rows { found }) => Err(WatchFailed::Rows { found }),
        Err(Untaken::Memory) => Err(WatchFailed::Memory),
    }
}

// Takes the records up to the first unlock or to the end record, and answers whether there was an unlock.
fn watch<F: Files>(
    reader: &mut Reader,
    recorder: &mut Recorder,
    files: &mut F,
) -> Result<bool, WatchFailed>
    requires size { reader.old.size ≡ Some (length recorder.old.image) }

    // Why it ends, where the bytes of the trace are told.
    ensures ends { (bytes : List ℕ) (m : Moment) (left : Pieces) → F.content files.old reader.old.name ≡ Some bytes
        → Follows recorder.old m → IsLeft bytes m reader.old left → EndsFor (reason_at recorder.old m left.entries) (stop_of bytes left) recorder.new result }

    // What stays, and why it stops.
    ensures unlocked { IfOk result (λ unlocked. unlocked ≡ true → recorder.new.unlocked ≡ true) }
    ensures trigger { recorder.new.trigger ≡ recorder.old.trigger }
    ensures read { IsErrOf result (failed.Trace error.Read) → Rose (F.read_faults files.old reader.old.name) (F.read_faults files.new reader.old.name) }
    ensures stays { OnlyRead F.content F.read_faults F.put_faults files.old files.new }
{
    loop {
        match watch_next(reader, recorder, files)? {
            Taken::On => {}
            Taken::Unlock => return Ok(true),
            Taken::End => return Ok(false),
        }
    }
}

/// Watches a trace for an achievement from the plain opening on, up to its first unlock. Nothing after it is read.
///
/// It stops where the trace is refused or has no end within the limit, where the rows are too many, at a read that
/// failed, and where memory ran out. No file changes.
pub(crate) fn watch_trace<F: Files>(
    alloc: Global,
    text: TriggerText,
    trace: &str,
    files: &mut F,
) -> Result<Watch, WatchFailed>
    requires few { trigger_hits (trigger_contents text) ≤ 65536 }
    requires spelled { IsTrigger (trigger_contents text) }

    // Why it ends, where the bytes of the trace are told.
    ensures ends { (bytes : List ℕ) → F.content files.old trace.now ≡ Some bytes → EndsWatch (trigger_contents text) bytes result }

    // What was watched, and what stays.
    ensures trigger { IfOk result (λ watch. watch.recorder.trigger ≡ trigger_contents text) }
    ensures unlocked { IfOk result (λ watch. watch.unlocked ≡ true → watch.recorder.unlocked ≡ true) }
    ensures read { IsErrOf result (failed.Trace error.Read) → Rose (F.read_faults files.old trace.now) (F.read_faults files.new trace.now) }
    ensures stays { OnlyRead F.content F.read_faults F.put_faults files.old files.new }
{
    let mut reader = Reader::open(alloc, trace, TRACE_LIMIT)?;
    let size = reader.header(files)?;
    let mut recorder = Recorder::new(alloc, text, size)?;
    let unlocked = watch(&mut reader, &mut recorder, files)?;
    Ok(Watch { recorder, unlocked })
}
